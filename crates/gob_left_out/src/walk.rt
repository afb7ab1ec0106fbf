//! A walk over a value, to what it leaves out.

ghost use Rattle.std.specs.Prelude.{◌≡◌, ◌↔◌, IfOk, IsTrue, OnOk, length};
ghost use Rattle.gob_value.specs.View.{view};
ghost use Rattle.gob_value.specs.Written.{HasParts};
ghost use Rattle.gob_match.specs.Matching.{Match};
ghost use Rattle.gob_match.specs.Pairs.{of_types};
ghost use Rattle.gob_left_out.specs.LeftOut.{AreLeftOut};
ghost use Rattle.gob_left_out.specs.Machine.Walk.{ElementsLeave, EntriesLeave, FieldLeaves, FieldsLeave, MatchStructs, Meets};
ghost use Rattle.gob_left_out.specs.Machine.Walk.{StepLeaves, ValueLeaves};

use crate::field::UnwantedField;
use crate::kinds::{Parts, StructPair, parts_of, type_named};
use crate::noted::LeftOut;
use gob_match::{TypePair, TypeStep};
use gob_num::Memory;
use gob_types::{Name, Shapes};
use gob_value::Value;
use std::alloc::Global;

/// What a walk has met: the steps that led to where it is, and the fields that are left out so far.
#[derive(Drop)]
pub(crate) struct Met {
    pub(crate) alloc: Global,
    pub(crate) trail: Vec<TypeStep>,
    pub(crate) fields: LeftOut,
}

/// The fields that a value of the pair's type of the stream leaves out, received as one of its wanted type: of each
/// struct in it those that are present and whose names the wanted struct lacks. (docs/LIBRARY.md, Matching and
/// receiving.)
///
/// The types match. Recursion is as deep as the value.
pub fn left_out<S: Shapes, T: Shapes>(
    alloc: Global,
    stream: &S,
    wanted: &T,
    pair: TypePair,
    value: &Value,
) -> Result<LeftOut, Memory>
    requires { Match (S.table stream.now) (T.table wanted.now) pair.stream pair.wanted }
    ensures { IfOk result (AreLeftOut (S.table stream.now) (T.table wanted.now) pair (view value.now)) }
{
    let mut met = Met {
        alloc,
        trail: Vec::new(alloc),
        fields: LeftOut::new(alloc),
    };
    walk_value(stream, wanted, pair, value, &mut met)?;
    Ok(met.fields)
}

#[cycle(walk)]
fn walk_value<S: Shapes, T: Shapes>(
    stream: &S,
    wanted: &T,
    pair: TypePair,
    value: &Value,
    met: &mut Met,
) -> Result<(), Memory>
    requires { Match (S.table stream.now) (T.table wanted.now) pair.stream pair.wanted }
    ensures { OnOk result (Meets met.old met.new
        (ValueLeaves (S.table stream.now) (T.table wanted.now) pair (view value.now))) }
{
    match parts_of(stream, wanted, pair) {
        Parts::Nothing => Ok(()),
        Parts::Elements(elem) => match value {
            Value::Many(parts) => walk_elements(stream, wanted, elem, parts, met),
            _ => Ok(()),
        },
        Parts::Entries(key, elem) => match value {
            Value::Pairs(parts) => walk_entries(stream, wanted, key, elem, parts, met),
            _ => Ok(()),
        },
        Parts::Fields(structs) => match value {
            Value::Fields(parts) => walk_fields(stream, wanted, pair, structs, parts, met),
            _ => Ok(()),
        },
    }
}

#[cycle(walk)]
fn walk_elements<S: Shapes, T: Shapes>(
    stream: &S,
    wanted: &T,
    pair: TypePair,
    parts: &[Value],
    met: &mut Met,
) -> Result<(), Memory>
    requires { Match (S.table stream.now) (T.table wanted.now) pair.stream pair.wanted }
    ensures { OnOk result (Meets met.old met.new
        (ElementsLeave (S.table stream.now) (T.table wanted.now) pair parts.now (length parts.now))) }
{
    for part in parts {
        walk_behind(stream, wanted, TypeStep::Element, pair, part, met)?;
    }
    Ok(())
}

#[cycle(walk)]
fn walk_entries<S: Shapes, T: Shapes>(
    stream: &S,
    wanted: &T,
    key: TypePair,
    elem: TypePair,
    parts: &[(Value, Value)],
    met: &mut Met,
) -> Result<(), Memory>
    requires of_keys { Match (S.table stream.now) (T.table wanted.now) key.stream key.wanted }
    requires of_elements { Match (S.table stream.now) (T.table wanted.now) elem.stream elem.wanted }
    ensures { OnOk result (Meets met.old met.new (EntriesLeave
        (S.table stream.now) (T.table wanted.now) key elem parts.now (length parts.now))) }
{
    for (k, e) in parts {
        walk_behind(stream, wanted, TypeStep::Key, key, k, met)?;
        walk_behind(stream, wanted, TypeStep::Element, elem, e, met)?;
    }
    Ok(())
}

#[cycle(walk)]
fn walk_fields<S: Shapes, T: Shapes>(
    stream: &S,
    wanted: &T,
    pair: TypePair,
    structs: StructPair<'_>,
    parts: &[(u64, Value)],
    met: &mut Met,
) -> Result<(), Memory>
    requires { MatchStructs (S.table stream.now) (T.table wanted.now) pair structs }
    ensures { OnOk result (Meets met.old met.new (FieldsLeave
        (S.table stream.now) (T.table wanted.now) pair structs.entry parts.now (length parts.now))) }
{
    for part in parts {
        walk_field(stream, wanted, pair, structs, part, met)?;
    }
    Ok(())
}

#[cycle(walk)]
fn walk_field<S: Shapes, T: Shapes>(
    stream: &S,
    wanted: &T,
    pair: TypePair,
    structs: StructPair<'_>,
    part: &(u64, Value),
    met: &mut Met,
) -> Result<(), Memory>
    requires { MatchStructs (S.table stream.now) (T.table wanted.now) pair structs }
    ensures { OnOk result (Meets met.old met.new (FieldLeaves
        (S.table stream.now) (T.table wanted.now) pair structs.entry.stream.now structs.entry.wanted.now
        part.now.0 (view part.now.1))) }
{
    let (number, value) = part;
    let number = *number;
    let Some(field) = structs.stream.get(number) else {
        return Ok(());
    };
    let Some(id) = type_named(structs.wanted.as_slice(), field.name.as_bytes()) else {
        return met.fields.note(
            met.alloc,
            UnwantedField { pair, number },
            &met.trail,
            &field.name,
        );
    };
    if !has_parts(value) {
        return Ok(());
    }
    let inner = TypePair {
        stream: field.id,
        wanted: id,
    };
    let step = step_to(met.alloc, &field.name)?;
    walk_behind(stream, wanted, step, inner, value, met)
}

// The part behind a step.
#[cycle(walk)]
fn walk_behind<S: Shapes, T: Shapes>(
    stream: &S,
    wanted: &T,
    step: TypeStep,
    pair: TypePair,
    value: &Value,
    met: &mut Met,
) -> Result<(), Memory>
    requires { Match (S.table stream.now) (T.table wanted.now) pair.stream pair.wanted }
    ensures { OnOk result (Meets met.old met.new
        (StepLeaves (S.table stream.now) (T.table wanted.now) step pair (view value.now))) }
{
    met.trail.push(step)?;
    walk_value(stream, wanted, pair, value, met)?;
    drop(met.trail.pop());
    Ok(())
}

// Whether it is a list, a map or a struct: no other value leaves out a field.
fn has_parts(value: &Value) -> bool
    ensures { IsTrue result ↔ HasParts (view value.now) }
{
    matches!(value, Value::Many(_) | Value::Pairs(_) | Value::Fields(_))
}

// The step to the fields of this name.
fn step_to(alloc: Global, name: &Name) -> Result<TypeStep, Memory>
    ensures { IfOk result (λ step. step ≡ TypeStep.Named name.now) }
{
    Ok(TypeStep::Named(Name::new(Vec::from_slice(alloc, name.as_bytes())?)))
}
