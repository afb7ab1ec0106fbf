//! Paths of parts, and what the part of a row is called.

ghost use Rattle.std.specs.Prelude.{◌≡◌, ◌++◌, IfOk, OnOk, string_bytes};
ghost use Rattle.gob_types.specs.Table.{shape_of};
ghost use Rattle.gob_explain.specs.Names.{field_in, held_name, path_text, step_text};

use crate::row::PartStep;
use crate::text::names::{push_name, push_type_name};
use gob_num::Memory;
use gob_types::{Kind, Shapes, TypeId};
use std::alloc::{AllocError, Global};

/// The path as text: `[2].Lines[0].Count`, with ` key` behind the index of a pair whose key it leads to, and with
/// `.(Point)` into a Point that an interface holds. Names of fields and types are those of the table, with no character
/// that a terminal obeys. Empty where there is no step.
pub fn path_text<S: Shapes>(alloc: Global, shapes: &S, path: &[PartStep]) -> Result<String, Memory>
    ensures { IfOk result (λ text. string_bytes text ≡ path_text (S.table shapes.now) path.now) }
{
    let mut text = String::new(alloc);
    for step in path {
        push_path_step(alloc, shapes, *step, &mut text)?;
    }
    Ok(text)
}

fn push_path_step<S: Shapes>(
    alloc: Global,
    shapes: &S,
    step: PartStep,
    out: &mut String,
) -> Result<(), AllocError>
    ensures { OnOk result (string_bytes out.new ≡ string_bytes out.old ++ step_text (S.table shapes.now) step) }
{
    match step {
        PartStep::Element(index) => write!(out, "[{index}]"),
        PartStep::Key(index) => write!(out, "[{index}] key"),
        PartStep::Value(index) => write!(out, "[{index}]"),
        PartStep::Field { of, number } => {
            out.push('.')?;
            push_field(alloc, shapes, of, number, out)
        }
        PartStep::Held(id) => {
            out.push_str(".(")?;
            push_held(alloc, shapes, id, out)?;
            out.push_str(")")
        }
    }
}

// Puts behind the text what is held: the name of its type, or its id where it has none.
fn push_held<S: Shapes>(
    alloc: Global,
    shapes: &S,
    id: TypeId,
    out: &mut String,
) -> Result<(), AllocError>
    ensures { OnOk result (string_bytes out.new ≡ string_bytes out.old ++ held_name (S.table shapes.now) id) }
{
    let mut name = String::new(alloc);
    push_type_name(alloc, shapes, id, &mut name)?;
    if name.is_empty() {
        return write!(out, "type {}", id.0);
    }
    out.push_str(name.as_str())
}

/// Puts behind the text what the part is called to which the path leads: its field, or its place in a list or map. A
/// field of a struct in a list or map has that place before it.
pub(crate) fn push_label<S: Shapes>(
    alloc: Global,
    shapes: &S,
    path: &[PartStep],
    out: &mut String,
) -> Result<(), AllocError> {
    let Some((last, around)) = path.split_last() else {
        return Ok(());
    };
    if let PartStep::Field { of, number } = *last {
        if push_place(around.last(), out)? {
            out.push('.')?;
        }
        return push_field(alloc, shapes, of, number, out);
    }
    push_place(Some(last), out)?;
    Ok(())
}

// Puts behind the text the place in a list or map to which the step leads, if it leads to one.
fn push_place(step: Option<&PartStep>, out: &mut String) -> Result<bool, AllocError> {
    match step {
        Some(PartStep::Element(index)) => write!(out, "[{}]", *index)?,
        Some(PartStep::Key(_)) => out.push_str("key")?,
        Some(PartStep::Value(_)) => out.push_str("value")?,
        _ => return Ok(false),
    }
    Ok(true)
}

// Puts the name of a field behind the text.
fn push_field<S: Shapes>(
    alloc: Global,
    shapes: &S,
    of: TypeId,
    number: u64,
    out: &mut String,
) -> Result<(), AllocError>
    ensures { OnOk result
        (string_bytes out.new ≡ string_bytes out.old ++ field_in (shape_of (S.table shapes.now) of) number) }
{
    let Some(shape) = shapes.shape_of(of) else {
        return Ok(());
    };
    let Kind::Struct { fields } = &shape.kind else {
        return Ok(());
    };
    match fields.get(number) {
        Some(field) => push_name(alloc, field.name.as_bytes(), out),
        None => Ok(()),
    }
}
