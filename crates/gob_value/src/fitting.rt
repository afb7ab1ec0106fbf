//! Whether a value is one of a type.

ghost use Rattle.std.specs.Prelude.{◌≡◌, ◌↔◌, ◌≤◌, IsTrue, OnOk, IfErr};
ghost use Rattle.gob_value.specs.View.{view, views, pair_views, field_views};
ghost use Rattle.gob_value.specs.Machine.Elements.{element_type_at};
ghost use Rattle.gob_value.specs.Tree.{depth, trees_depth, pairs_depth, fields_depth};
ghost use Rattle.gob_value.specs.Spelling.{SpellsAs, SpellsEach, SpellsPairs, SpellsFields};
ghost use Rattle.gob_value.specs.Within.{FitsWithin, IsSpelledWithin};
ghost use Rattle.gob_value.specs.Faults.{IsMisfit};

use crate::depth::is_within;
use crate::fault::Misfit;
use crate::leaf::fits_leaf;
use crate::value::Value;
use gob_types::{Fields, Kind, Shapes, TypeId};

/// Whether the value is one of the type and no deeper than `depth`, which is at most 1000: a value without
/// parts has the depth 1. `TooDeep` is answered exactly where it is deeper, `DoesNotFit` exactly where it
/// isn't and has no spelling at the type. Takes no memory, and looks no deeper than `depth`.
pub fn fits<S: Shapes>(shapes: &S, id: TypeId, value: &Value, depth: u64) -> Result<(), Misfit>
    requires { depth ≤ 1000 }
    ensures ok { OnOk result (FitsWithin (S.table shapes.now) id depth (view value.now)) }
    ensures fault { IfErr result (λ misfit. IsMisfit (S.table shapes.now) id depth (view value.now) misfit) }
{
    if fits_type(shapes, id, value, depth) {
        return Ok(());
    }
    // what doesn't fit may still be too deep behind the part that doesn't
    if is_within(value, depth) {
        Err(Misfit::DoesNotFit)
    } else {
        Err(Misfit::TooDeep)
    }
}

#[cycle(fits)]
fn fits_type<S: Shapes>(shapes: &S, id: TypeId, value: &Value, limit: u64) -> bool
    requires { limit ≤ 1000 }
    ensures { IsTrue result ↔ FitsWithin (S.table shapes.now) id limit (view value.now) }
{
    match shapes.shape_of(id) {
        Some(shape) => fits_kind(shapes, &shape.kind, value, limit),
        None => false,
    }
}

#[cycle(fits)]
fn fits_kind<S: Shapes>(shapes: &S, kind: &Kind, value: &Value, limit: u64) -> bool
    requires { limit ≤ 1000 }
    ensures { IsTrue result ↔ IsSpelledWithin (SpellsAs (S.table shapes.now) kind.now) depth limit (view value.now) }
{
    if limit == 0 {
        return false;
    }
    match value {
        Value::Many(parts) => match element_of(kind, parts.len() as u64) {
            Some(elem) => all_fit(shapes, elem, parts, limit - 1),
            None => false,
        },
        Value::Pairs(parts) => match kind {
            Kind::Map { key, elem } => pairs_fit(shapes, *key, *elem, parts, limit - 1),
            _ => false,
        },
        Value::Fields(parts) => match kind {
            Kind::Struct { fields } => fields_fit(shapes, fields, parts, limit - 1),
            _ => false,
        },
        _ => fits_leaf(kind, value),
    }
}

#[cycle(fits)]
fn all_fit<S: Shapes>(shapes: &S, elem: TypeId, parts: &[Value], limit: u64) -> bool
    requires { limit ≤ 1000 }
    ensures { IsTrue result ↔ IsSpelledWithin (SpellsEach (S.table shapes.now) elem) trees_depth limit
        (views parts.now) }
{
    for part in parts {
        if !fits_type(shapes, elem, part, limit) {
            return false;
        }
    }
    true
}

#[cycle(fits)]
fn pairs_fit<S: Shapes>(
    shapes: &S,
    key: TypeId,
    elem: TypeId,
    parts: &[(Value, Value)],
    limit: u64,
) -> bool
    requires { limit ≤ 1000 }
    ensures { IsTrue result
        ↔ IsSpelledWithin (SpellsPairs (S.table shapes.now) key elem) pairs_depth limit (pair_views parts.now) }
{
    for (k, e) in parts {
        if !fits_type(shapes, key, k, limit) {
            return false;
        }
        if !fits_type(shapes, elem, e, limit) {
            return false;
        }
    }
    true
}

#[cycle(fits)]
fn fields_fit<S: Shapes>(shapes: &S, types: &Fields, parts: &[(u64, Value)], limit: u64) -> bool
    requires { limit ≤ 1000 }
    ensures { IsTrue result
        ↔ IsSpelledWithin (SpellsFields (S.table shapes.now) types.now 0) fields_depth limit (field_views parts.now) }
{
    let mut next = 0;
    for (number, part) in parts {
        if *number < next {
            return false;
        }
        match types.get(*number) {
            None => return false,
            Some(field) => {
                if !fits_type(shapes, field.id, part, limit) {
                    return false;
                }
            }
        }
        next = *number + 1;
    }
    true
}

// The type of the elements, where the kind is that of a list of so many.
fn element_of(kind: &Kind, count: u64) -> Option<TypeId>
    ensures { result ≡ element_type_at kind.now count }
{
    match kind {
        Kind::Slice { elem } => Some(*elem),
        Kind::Array { elem, len } if *len == count => Some(*elem),
        _ => None,
    }
}
