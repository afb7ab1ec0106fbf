//! What stands in front of the bytes of a value or a description in its item: the count and the number.

ghost use Rattle.std.specs.Prelude.{◌≡◌, ◌+◌, ◌^◌, ◌<◌, ◌≤◌, ◌++◌, ℕ, length, IfOk, OnOk, IfErr};
ghost use Rattle.gob_num.specs.Unsigned.{AreBytes};
ghost use Rattle.gob_types.specs.Base.{base_table};
ghost use Rattle.gob_types.specs.Defined.{types, Admits};
ghost use Rattle.gob_types.specs.Definable.{IsDefinable};
ghost use Rattle.gob_types.specs.Denial.{IsDenial};
ghost use Rattle.gob_value.specs.Described.{described};
ghost use Rattle.gob_stream.specs.Bounds.{greatest_depth};
ghost use Rattle.gob_stream.specs.Item.{defines};
ghost use Rattle.gob_stream.specs.WriterRefusal.{RefusesItem};
ghost use Rattle.gob_filled_writer.specs.Heads.{BeginsItem, IsDescribedAs, RefusesBytes, RefusesLength};

use gob_num::{write_int, write_uint};
use gob_stream::{Limits, judge_id};
use gob_types::{Denial, Reason, Shape, Table, TypeId};
use gob_value::{describe, spell};
use std::alloc::Global;

/// The bytes of the description that a writer makes of the shape, where the type may be defined now.
pub(crate) fn spell_description(
    alloc: Global,
    table: &Table,
    limits: Limits,
    id: TypeId,
    shape: &Shape,
) -> Result<Vec<u8>, Denial>
    requires definable { IsDefinable shape.now }
    requires shallow { limits.depth ≤ greatest_depth }
    ensures ok { table.now.most ≡ limits.types
        → IfOk result (λ bytes. IsDescribedAs limits (types table.now) id shape.now bytes.items) }
    ensures admitted { OnOk result (Admits table.now id) }
    ensures err { table.now.most ≡ limits.types → (offset : ℕ) → IfErr result (IsDenial (RefusesItem base_table
        limits (types table.now) offset (defines id (described id shape.now)))) }
{
    judge_id(table, id)?;
    let value = describe(alloc, id, shape)?;
    let mut bytes = Vec::new(alloc);
    spell(
        alloc,
        table,
        TypeId::WIRE_TYPE,
        &value,
        limits.depth(),
        &mut bytes,
    )?;
    Ok(bytes)
}

/// The first bytes of the item whose body is the spelling of this number and the rest, up to the rest, where the limits
/// admit the item at the offset.
pub(crate) fn item_head(
    alloc: Global,
    limits: Limits,
    offset: u64,
    number: i64,
    rest: &[u8],
) -> Result<Vec<u8>, Denial>
    ensures ok { IfOk result (λ head. BeginsItem limits offset number rest.now head.items) }
    ensures end { IfOk result (λ head. offset + length (head.items ++ rest.now) < 2 ^ 64) }
    ensures err { IfErr result (IsDenial (RefusesBytes limits offset number rest.now)) }
{
    let mut spelled = Vec::new(alloc);
    write_int(alloc, number, &mut spelled)?;
    let size = body_size(&spelled, rest);
    let mut head = Vec::new(alloc);
    write_uint(alloc, size, &mut head)?;
    judge_length(limits, offset, head.len() as u64, size)?;
    head.extend_from_slice(&spelled)?;
    Ok(head)
}

// How many bytes the number and the rest have together.
fn body_size(spelled: &[u8], rest: &[u8]) -> u64
    ensures size { result ≡ length (spelled.now ++ rest.now) }
    ensures bytes { AreBytes rest.now }
{
    (spelled.len() + rest.len()) as u64
}

// Whether the limits admit an item of a count of so many bytes and a body of so many at the offset.
fn judge_length(limits: Limits, offset: u64, count: u64, size: u64) -> Result<(), Reason>
    requires { 0 < count }
    ensures item { OnOk result (size ≤ limits.item) }
    ensures stream { OnOk result (offset + (count + size) ≤ limits.stream) }
    ensures end { OnOk result (offset + (count + size) < 2 ^ 64) }
    ensures err { IfErr result (RefusesLength limits offset count size) }
{
    if size > limits.item() {
        return Err(Reason::ItemTooLong);
    }
    let room = limits.stream().saturating_sub(offset);
    if count > room || size > room - count {
        return Err(Reason::StreamTooLong);
    }
    Ok(())
}
