//! Zeros: the values of fields and elements that aren't said.

ghost use Rattle.std.specs.Prelude.{◌≤◌, length, IfOk, OnOk};
ghost use Rattle.gob_types.specs.Table.{Table};
ghost use Rattle.gob_types.specs.declared.kind.Kind.TheVariants as kind;
ghost use Rattle.gob_value.specs.View.{view, views};
ghost use Rattle.gob_make.specs.Tells.{SameText};
ghost use Rattle.gob_make.specs.Zero.{AreFilled, IsZeroAs, IsZeroOf};

use crate::said::Said;
use gob_lines::{Due, LineFault};
use gob_num::Memory;
use gob_types::{Basic, Kind, Shapes, TypeId};
use gob_value::Value;

/// The zero of a type. Values of opaque types have none.
#[cycle(zeros)]
pub(crate) fn zero_value<S: Shapes>(
    table: &S,
    id: TypeId,
    depth: u64,
    said: &mut Said<'_>,
) -> Result<Value, LineFault>
    ensures zero { IfOk result (λ v. IsZeroOf (S.table table.now) id (view v)) }
    ensures same { SameText said.old said.new }
{
    if depth == 0 {
        return Err(said.due(Due::Shallower));
    }
    let Some(shape) = table.shape_of(id) else {
        return Err(said.due(Due::Type));
    };
    match &shape.kind {
        Kind::Basic(basic) => Ok(zero_of(said, *basic)),
        Kind::Array { elem, len } => {
            let mut elements = Vec::new(said.alloc);
            fill(table, *elem, *len, depth - 1, &mut elements, said)?;
            Ok(Value::Many(elements))
        }
        Kind::Slice { .. } => Ok(Value::Many(Vec::new(said.alloc))),
        Kind::Map { .. } => Ok(Value::Pairs(Vec::new(said.alloc))),
        Kind::Struct { .. } => Ok(Value::Fields(Vec::new(said.alloc))),
        Kind::Opaque(_) => Err(said.due(Due::NoNull)),
    }
}

// The zero of a basic type.
fn zero_of(said: &Said<'_>, basic: Basic) -> Value
    ensures { (T : Table) → IsZeroAs T (kind.Basic basic) (view result) }
{
    match basic {
        Basic::Bool => Value::Bool(false),
        Basic::Int => Value::Int(0),
        Basic::Uint => Value::Uint(0),
        Basic::Float => Value::Float(0),
        Basic::Bytes => Value::Bytes(Vec::new(said.alloc)),
        Basic::Str => Value::Str(Vec::new(said.alloc)),
        Basic::Complex => Value::Complex(0, 0),
        Basic::Interface => Value::Nil,
    }
}

/// Fills an array up to so many elements with zeros.
#[cycle(zeros)]
pub(crate) fn fill<S: Shapes>(
    table: &S,
    id: TypeId,
    count: u64,
    depth: u64,
    elements: &mut Vec<Value>,
    said: &mut Said<'_>,
) -> Result<(), LineFault>
    requires { length elements.old.items ≤ count }
    ensures filled { OnOk result (AreFilled (S.table table.now) id count (views elements.old.items)
        (views elements.new.items)) }
    ensures same { SameText said.old said.new }
{
    'zeros: while (elements.len() as u64) < count {
        if said.zeros == 0 {
            return Err(said.due(Due::AllElements));
        }
        said.zeros -= 1;
        let zero = zero_value(table, id, depth, said)?;
        elements.push(zero).map_err(Memory::from)?;
    }
    Ok(())
}
