//! The bytes of an item.

ghost use Rattle.std.specs.Prelude.{◌≡◌, ℕ, List, ◌++◌, IfErr, OnErr, OnOk};
ghost use Rattle.gob_num.specs.Spelled.{Appends, IsSpelled};
ghost use Rattle.gob_types.specs.Defined.{types};
ghost use Rattle.gob_go_writer.specs.Item.{IsItemOf};
ghost use Rattle.gob_go_writer.specs.Machine.Letters.{AreOfItem, TakesSpelled};
ghost use Rattle.gob_go_writer.specs.Machine.Unfit.{IsUnfit};
ghost use Rattle.gob_go_writer.specs.Spelling.{IsSpelling};

use crate::segments::Segments;
use crate::value::{NO_ITEM, has_number, put_definition, put_value};
use gob_go::GoItem;
use gob_num::Memory;
use gob_types::{Denial, Table};
use std::alloc::Global;

/// Appends the bytes of the item, as they stood in the stream that it was read of: the item must be one that a session
/// gave, or be such a one of some stream, whose types say what they say in the table. An item takes memory for its
/// bytes, once for each value that is open in it. After `Memory` the vector holds what it held.
/// (docs/FORMAT.md, Fillings and segments.)
pub fn write_item(
    alloc: Global,
    table: &Table,
    item: &GoItem,
    out: &mut Vec<u8>,
) -> Result<(), Memory>
    requires { IsSpelled (IsItemOf (types table.now) item.now) }
    ensures ok { OnOk result ((bytes : List ℕ) → IsItemOf (types table.now) item.now bytes
        → out.new.items ≡ out.old.items ++ bytes) }
    ensures err { OnErr result (out.new.items ≡ out.old.items) }
{
    match spell_item(alloc, table, item, out) {
        Ok(()) => Ok(()),
        Err(Denial::Memory) => Err(Memory),
        // an item of a stream is spelled
        Err(Denial::Refused(_)) => unreachable!(),
    }
}

/// Appends the spelling of an item, whoever made it. Where it has none, it is refused as `DoesNotFit`. After a denial
/// the vector holds what it held.
pub(crate) fn spell_item(
    alloc: Global,
    table: &Table,
    item: &GoItem,
    out: &mut Vec<u8>,
) -> Result<(), Denial>
    ensures ok { OnOk result (Appends (IsSpelling (types table.now) item.now) out.old.items out.new.items) }
    ensures refused { IfErr result (IsUnfit (IsSpelled (IsSpelling (types table.now) item.now))) }
    ensures err { OnErr result (out.new.items ≡ out.old.items) }
{
    let mut segments = Segments::new(alloc);
    put_item(alloc, table, item, &mut segments)?;
    let start = out.len();
    match segments.append_to(alloc, out) {
        Ok(()) => Ok(()),
        Err(_) => {
            out.truncate(start);
            Err(Denial::Memory)
        }
    }
}

// Goes on with the item: its type number, and its description or its value.
fn put_item(
    alloc: Global,
    table: &Table,
    item: &GoItem,
    segments: &mut Segments,
) -> Result<(), Denial>
    ensures ok { OnOk result (TakesSpelled (AreOfItem (types table.now) item.now) segments.old segments.new) }
    ensures refused { IfErr result (IsUnfit (IsSpelled (IsSpelling (types table.now) item.now))) }
{
    match item {
        GoItem::Define { id, described } => put_definition(alloc, table, *id, described, segments),
        GoItem::Put { id, value } => {
            if !has_number(*id) {
                return Err(NO_ITEM);
            }
            segments.put_int(alloc, id.0 as i64)?;
            put_value(alloc, table, value, segments)
        }
    }
}
