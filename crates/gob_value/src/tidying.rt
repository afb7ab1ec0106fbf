//! The tidy form of a value. Recursion is as deep as the value.

ghost use Rattle.std.specs.Prelude.{◌↔◌, IsTrue, IfOk};
ghost use Rattle.gob_value.specs.View.{view, views, pair_views, field_views};
ghost use Rattle.gob_value.specs.Tidy.{Tidies, TidiesAs, TidiesEach, TidiesPairs, TidiesFields};
ghost use Rattle.gob_value.specs.Tidy.{IsZero, IsDropped, HasTidyForm};
ghost use Rattle.gob_value.specs.Machine.Tidied.{IsTidied};
ghost use Rattle.gob_value.specs.TidyLaws.{HasSmallNumbers, AllHaveSmallNumbers, PairsHaveSmallNumbers};
ghost use Rattle.gob_value.specs.TidyLaws.{FieldsHaveSmallNumbers};
ghost use Rattle.gob_value.specs.Tree.{depth};
ghost use Rattle.gob_value.specs.Fits.{Fits};
ghost use Rattle.gob_value.specs.Within.{FitsWithin};

use crate::value::Value;
use gob_num::Memory;
use gob_types::{Fields, Kind, Shapes, TypeId};
use std::alloc::Global;

/// The tidy form of a value of the type: at every level, each struct without its fields of the types bool, int,
/// uint, float, complex, []byte, string and slice that are 0, false or empty. All else is kept: fields of other
/// types, whatever they hold, and each element of a list or a map. (docs/FORMAT.md, Tidy form.)
///
/// The value fits the type, however deep it is; so does its tidy form, which is no deeper. Byte strings are moved and
/// not copied. After `Memory` the value is dropped.
pub fn tidy<S: Shapes>(alloc: Global, shapes: &S, id: TypeId, value: Value) -> Result<Value, Memory>
    requires { Fits (S.table shapes.now) id (view value) }
    ensures tidy { IfOk result (λ tidied. Tidies (S.table shapes.now) id (view value) (view tidied)) }
    ensures fits { IfOk result (λ tidied. FitsWithin (S.table shapes.now) id (depth (view value)) (view tidied)) }
{
    tidy_type(alloc, shapes, id, value)
}

#[cycle(tidy)]
fn tidy_type<S: Shapes>(
    alloc: Global,
    shapes: &S,
    id: TypeId,
    value: Value,
) -> Result<Value, Memory>
    requires { HasTidyForm (Tidies (S.table shapes.now) id (view value)) }
    ensures { IfOk result
        (λ tidied. IsTidied (Tidies (S.table shapes.now) id) HasSmallNumbers (view value) (view tidied)) }
{
    match shapes.shape_of(id) {
        Some(shape) => tidy_kind(alloc, shapes, &shape.kind, value),
        None => unreachable!(),
    }
}

#[cycle(tidy)]
fn tidy_kind<S: Shapes>(
    alloc: Global,
    shapes: &S,
    kind: &Kind,
    value: Value,
) -> Result<Value, Memory>
    requires { HasTidyForm (TidiesAs (S.table shapes.now) kind.now (view value)) }
    ensures { IfOk result
        (λ tidied. IsTidied (TidiesAs (S.table shapes.now) kind.now) HasSmallNumbers (view value) (view tidied)) }
{
    match kind {
        Kind::Basic(_) | Kind::Opaque(_) => Ok(value),
        Kind::Slice { elem } | Kind::Array { elem, .. } => match value {
            Value::Many(parts) => Ok(Value::Many(tidy_each(alloc, shapes, *elem, parts)?)),
            _ => unreachable!(),
        },
        Kind::Map { key, elem } => match value {
            Value::Pairs(parts) => Ok(Value::Pairs(tidy_pairs(alloc, shapes, *key, *elem, parts)?)),
            _ => unreachable!(),
        },
        Kind::Struct { fields } => match value {
            Value::Fields(parts) => Ok(Value::Fields(tidy_fields(alloc, shapes, fields, parts)?)),
            _ => unreachable!(),
        },
    }
}

#[cycle(tidy)]
fn tidy_each<S: Shapes>(
    alloc: Global,
    shapes: &S,
    elem: TypeId,
    parts: Vec<Value>,
) -> Result<Vec<Value>, Memory>
    requires { HasTidyForm (TidiesEach (S.table shapes.now) elem (views parts.items)) }
    ensures { IfOk result
        (λ tidied. IsTidied (TidiesEach (S.table shapes.now) elem) AllHaveSmallNumbers
        (views parts.items) (views tidied.items)) }
{
    let mut tidied = Vec::new(alloc);
    for part in parts {
        tidied.push(tidy_type(alloc, shapes, elem, part)?)?;
    }
    Ok(tidied)
}

#[cycle(tidy)]
fn tidy_pairs<S: Shapes>(
    alloc: Global,
    shapes: &S,
    key: TypeId,
    elem: TypeId,
    parts: Vec<(Value, Value)>,
) -> Result<Vec<(Value, Value)>, Memory>
    requires { HasTidyForm (TidiesPairs (S.table shapes.now) key elem (pair_views parts.items)) }
    ensures { IfOk result
        (λ tidied. IsTidied (TidiesPairs (S.table shapes.now) key elem) PairsHaveSmallNumbers
        (pair_views parts.items) (pair_views tidied.items)) }
{
    let mut tidied = Vec::new(alloc);
    for (k, e) in parts {
        let k = tidy_type(alloc, shapes, key, k)?;
        let e = tidy_type(alloc, shapes, elem, e)?;
        tidied.push((k, e))?;
    }
    Ok(tidied)
}

#[cycle(tidy)]
fn tidy_fields<S: Shapes>(
    alloc: Global,
    shapes: &S,
    types: &Fields,
    parts: Vec<(u64, Value)>,
) -> Result<Vec<(u64, Value)>, Memory>
    requires { HasTidyForm (TidiesFields (S.table shapes.now) types.now (field_views parts.items)) }
    ensures { IfOk result
        (λ tidied. IsTidied (TidiesFields (S.table shapes.now) types.now) FieldsHaveSmallNumbers
        (field_views parts.items) (field_views tidied.items)) }
{
    let mut tidied = Vec::new(alloc);
    for (number, part) in parts {
        let Some(field) = types.get(number) else {
            unreachable!()
        };
        let Some(shape) = shapes.shape_of(field.id) else {
            unreachable!()
        };
        if is_dropped(&shape.kind, &part) {
            drop(part);
        } else {
            tidied.push((number, tidy_kind(alloc, shapes, &shape.kind, part)?))?;
        }
    }
    Ok(tidied)
}

/// Whether a struct drops the value from a field of this kind.
pub fn is_dropped(kind: &Kind, value: &Value) -> bool
    ensures { IsTrue result ↔ IsDropped kind.now (view value.now) }
{
    match kind {
        Kind::Basic(_) => is_zero(value),
        Kind::Slice { .. } => match value {
            Value::Many(parts) => parts.is_empty(),
            _ => false,
        },
        _ => false,
    }
}

// Whether a value of a basic type is false, 0 or empty.
fn is_zero(value: &Value) -> bool
    ensures { IsTrue result ↔ IsZero (view value.now) }
{
    match value {
        Value::Bool(x) => !*x,
        Value::Int(i) => *i == 0,
        Value::Uint(n) => *n == 0,
        Value::Float(p) => *p == 0,
        Value::Complex(p, q) => *p == 0 && *q == 0,
        Value::Bytes(s) | Value::Str(s) => s.is_empty(),
        _ => false,
    }
}
