//! The bytes of an item.

ghost use Rattle.std.specs.Prelude.{◌≡◌, ◌+◌, ◌^◌, ◌<◌, ◌≤◌, ◌++◌, ◌∷◌, [], ℕ, List, length, IfOk, OnOk};
ghost use Rattle.std.specs.Prelude.{IfErr};
ghost use Rattle.gob_num.specs.Unsigned.{IsUnsigned};
ghost use Rattle.gob_num.specs.Spelled.{Appends};
ghost use Rattle.gob_types.specs.Base.{base_table};
ghost use Rattle.gob_types.specs.Definable.{IsDefinable};
ghost use Rattle.gob_types.specs.Defined.{types, Admits};
ghost use Rattle.gob_value.specs.Tree.{Tree};
ghost use Rattle.gob_value.specs.View.{view};
ghost use Rattle.gob_stream.specs.Bounds.{Bounds, greatest_depth};
ghost use Rattle.gob_stream.specs.Item.{defines, puts};
ghost use Rattle.gob_stream.specs.Body.{Body};
ghost use Rattle.gob_types.specs.Denial.{IsDenial};
ghost use Rattle.gob_stream.specs.WriterRefusal.{RefusesItem, RefusesType, WriterRefusesBody};
ghost use Rattle.gob_stream.specs.Calls.Writing.{IsWholeItem, FitsLimits, IsHead, IsSpelledAs};

use crate::denial::{judge_id, judge_type};
use crate::limits::Limits;
use gob_num::{Memory, write_int, write_uint};
use gob_types::{Denial, Reason, Shape, Table, TypeId};
use gob_value::{Value, has_structs, shape_from, spell};
use std::alloc::Global;

/// Spells the body of the item that defines this type, in place of what the vector held, and gives the type's shape:
/// the id below 0, and the description.
pub(crate) fn spell_definition(
    alloc: Global,
    table: &Table,
    limits: &Limits,
    id: TypeId,
    described: &Value,
    body: &mut Vec<u8>,
) -> Result<Shape, Denial>
    requires { limits.now.depth ≤ greatest_depth }
    ensures ok { table.now.most ≡ limits.now.types → IfOk result (λ shape. Body base_table limits.now (types table.now)
        (defines id (view described.now)) body.new.items (types table.now ++ (id, shape) ∷ [])) }
    ensures definable { IfOk result (λ shape. IsDefinable shape) }
    ensures admitted { OnOk result (Admits table.now id) }
    ensures err { table.now.most ≡ limits.now.types → (offset : ℕ) → IfErr result (IsDenial (RefusesItem base_table
        limits.now (types table.now) offset (defines id (view described.now)))) }
{
    judge_id(table, id)?;
    body.clear();
    write_int(alloc, -(id.0 as i64), body)?;
    spell(
        alloc,
        table,
        TypeId::WIRE_TYPE,
        described,
        limits.depth(),
        body,
    )?;
    let shape = shape_from(alloc, id, described)?;
    Ok(shape)
}

/// Spells the body of the item that gives this value, in place of what the vector held: the number of its type, the
/// tag where the value is no struct, and its spelling.
pub(crate) fn spell_value(
    alloc: Global,
    table: &Table,
    limits: &Limits,
    id: TypeId,
    value: &Value,
    body: &mut Vec<u8>,
) -> Result<(), Denial>
    requires { limits.now.depth ≤ greatest_depth }
    ensures ok { OnOk result (Body base_table limits.now (types table.now) (puts id (view value.now)) body.new.items
        (types table.now)) }
    ensures err { (offset : ℕ) → IfErr result (IsDenial (RefusesItem base_table limits.now (types table.now) offset
        (puts id (view value.now)))) }
{
    judge_type(alloc, table, id)?;
    body.clear();
    write_head(alloc, table, id, body)?;
    spell(alloc, table, id, value, limits.depth(), body)?;
    Ok(())
}

/// Spells what stands before a value of the type in its item, in place of what the vector held: the number of the
/// type, and the tag where the value is no struct.
pub(crate) fn spell_head(
    alloc: Global,
    table: &Table,
    id: TypeId,
    head: &mut Vec<u8>,
) -> Result<(), Denial>
    ensures ok { OnOk result ((L : Bounds) (v : Tree) (spelling : List ℕ)
        → IsSpelledAs L (types table.now) id spelling v
        → Body base_table L (types table.now) (puts id v) (head.new.items ++ spelling) (types table.now)) }
    ensures err { IfErr result (IsDenial (RefusesType (types table.now) id)) }
{
    judge_type(alloc, table, id)?;
    head.clear();
    write_head(alloc, table, id, head)?;
    Ok(())
}

// Appends what stands before the value in its item: the number of its type, and the tag 0 where it is no struct.
fn write_head(alloc: Global, table: &Table, id: TypeId, body: &mut Vec<u8>) -> Result<(), Memory>
    requires { id.0 < 2 ^ 63 }
    ensures { OnOk result (Appends (IsHead (types table.now) id) body.old.items body.new.items) }
{
    write_int(alloc, id.0 as i64, body)?;
    if has_structs(table, id) {
        return Ok(());
    }
    write_uint(alloc, 0, body)
}

/// Makes the item whose body is these two parts, up to the second, in place of what the vector held, where the limits
/// admit the item at the offset: the count of the body's bytes, and the first part.
pub(crate) fn begin_item(
    alloc: Global,
    limits: &Limits,
    offset: u64,
    first: &[u8],
    rest: &[u8],
    item: &mut Vec<u8>,
) -> Result<(), Denial>
    ensures ok { OnOk result (IsWholeItem limits.now offset (first.now ++ rest.now) (item.new.items ++ rest.now)) }
    ensures end { OnOk result (offset + length (item.new.items ++ rest.now) < 2 ^ 64) }
    ensures err { IfErr result (IsDenial (WriterRefusesBody limits.now offset (first.now ++ rest.now))) }
{
    item.clear();
    write_uint(alloc, (first.len() + rest.len()) as u64, item)?;
    judge_length(limits, offset, item, first, rest)?;
    item.extend_from_slice(first)?;
    Ok(())
}

// Whether the limits admit an item of this count, and of a body of these two parts, at the offset.
fn judge_length(
    limits: &Limits,
    offset: u64,
    count: &[u8],
    first: &[u8],
    rest: &[u8],
) -> Result<(), Reason>
    requires { IsUnsigned (length (first.now ++ rest.now)) count.now }
    ensures ok { OnOk result (FitsLimits limits.now offset count.now (first.now ++ rest.now)) }
    ensures end { OnOk result (offset + length (count.now ++ (first.now ++ rest.now)) < 2 ^ 64) }
    ensures err { IfErr result (WriterRefusesBody limits.now offset (first.now ++ rest.now)) }
{
    let size = (first.len() + rest.len()) as u64;
    if size > limits.item() {
        return Err(Reason::ItemTooLong);
    }
    let room = limits.stream().saturating_sub(offset);
    let count = count.len() as u64;
    if count > room || size > room - count {
        return Err(Reason::StreamTooLong);
    }
    Ok(())
}
