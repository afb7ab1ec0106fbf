//! The bytes of an item whose definitions stand in items of their own in front of it.

ghost use Rattle.std.specs.Prelude.{◌≡◌, ◌++◌, ◌^◌, ◌<◌, ℕ, List, [], length, OnOk};
ghost use Rattle.gob_num.specs.Spelled.{IsSpelled};
ghost use Rattle.gob_types.specs.Defined.{types};
ghost use Rattle.gob_go.specs.declared.item.GoItem.TheVariants as kept;
ghost use Rattle.gob_go_writer.specs.Item.{IsItemOf};
ghost use Rattle.gob_tool.specs.Machine.FormsGo.{AreItemsOf};
ghost use Rattle.gob_split.specs.Machine.Items.{IsApart, IsMadeOf, IsShort, IsShortText};

use gob_go::{Filled, GoItem};
use gob_go_writer::{hoist_item, write_item};
use gob_num::Memory;
use gob_types::{Table, TypeId};
use std::alloc::Global;

// How many bytes an item may have at most: each of what comes of it then has a spelling.
const MOST_HOISTED: usize = 1152921504606846975;

/// The bytes of the definitions that come of an item, and behind them those of its value.
#[derive(Drop)]
pub(crate) struct ItemText {
    pub(crate) bytes: Vec<u8>,
    /// How many of them are of definitions.
    pub(crate) definitions: usize,
}

/// Makes the text of an item in `text`, in place of what it holds. Memory also comes where the item has 2^60 bytes or
/// more.
pub(crate) fn make_text(
    alloc: Global,
    item: GoItem,
    table: &Table,
    text: &mut ItemText,
) -> Result<(), Memory>
    requires { IsSpelled (IsItemOf (types table.now) item) }
    ensures { OnOk result (IsMadeOf (types table.now) item text.new) }
{
    match write_short(alloc, &item, table, &mut text.bytes) {
        Ok(()) => make_short(alloc, item, table, text),
        Err(memory) => {
            drop(item);
            Err(memory)
        }
    }
}

/// Makes the text of an item that is short enough, in place of its bytes.
fn make_short(alloc: Global, item: GoItem, table: &Table, text: &mut ItemText) -> Result<(), Memory>
    requires of_stream { IsSpelled (IsItemOf (types table.now) item) }
    requires short { IsShortText (types table.now) item text.old.bytes.items }
    ensures { OnOk result (IsMadeOf (types table.now) item text.new) }
{
    match item {
        GoItem::Define {
            id: _id,
            described: _described,
        } => {
            text.definitions = text.bytes.len();
            Ok(())
        }
        GoItem::Put { id, value } => hoist(alloc, id, value, table, text),
    }
}

/// Makes the bytes of an item that is short enough in `room`, in place of what it holds.
fn write_short(
    alloc: Global,
    item: &GoItem,
    table: &Table,
    room: &mut Vec<u8>,
) -> Result<(), Memory>
    requires { IsSpelled (IsItemOf (types table.now) item.now) }
    ensures { OnOk result (IsShortText (types table.now) item.now room.new.items) }
{
    room.clear();
    write_item(alloc, table, item, room)?;
    if room.len() > MOST_HOISTED {
        return Err(Memory);
    }
    Ok(())
}

/// Makes the text of the item of a value that is short enough.
fn hoist(
    alloc: Global,
    id: TypeId,
    value: Filled,
    table: &Table,
    text: &mut ItemText,
) -> Result<(), Memory>
    requires of_stream { IsSpelled (IsItemOf (types table.now) (kept.Put id value)) }
    requires short { IsShort (types table.now) (kept.Put id value) }
    ensures { OnOk result (IsMadeOf (types table.now) (kept.Put id value) text.new) }
{
    let mut items = Vec::new(alloc);
    hoist_item(alloc, GoItem::Put { id, value }, &mut items)?;
    let Some(value) = items.pop() else {
        // what comes of a value ends with it
        unreachable!();
    };
    let written = write_apart(alloc, &items, &value, table, text);
    drop(value);
    written
}

/// Makes the text of definitions and of the value behind them.
fn write_apart(
    alloc: Global,
    definitions: &[GoItem],
    value: &GoItem,
    table: &Table,
    text: &mut ItemText,
) -> Result<(), Memory>
    requires definitions { IsSpelled (AreItemsOf (types table.now) definitions.now) }
    requires value { IsSpelled (IsItemOf (types table.now) value.now) }
    ensures { OnOk result (IsApart (types table.now) definitions.now value.now text.new) }
{
    text.bytes.clear();
    write_items(alloc, definitions, table, &mut text.bytes)?;
    text.definitions = text.bytes.len();
    write_item(alloc, table, value, &mut text.bytes)
}

/// Appends the bytes of items.
fn write_items(
    alloc: Global,
    items: &[GoItem],
    table: &Table,
    bytes: &mut Vec<u8>,
) -> Result<(), Memory>
    requires { IsSpelled (AreItemsOf (types table.now) items.now) }
    ensures { OnOk result ((spelled : List ℕ) → AreItemsOf (types table.now) items.now spelled
        → bytes.new.items ≡ bytes.old.items ++ spelled) }
{
    for item in items {
        write_item(alloc, table, item, bytes)?;
    }
    Ok(())
}
