//! The bytes of the tidy form of an item, and of the items that come of it.

ghost use Rattle.std.specs.Prelude.{◌≡◌, ◌++◌, ◌^◌, ◌<◌, ℕ, List, [], length, true, false, OnOk};
ghost use Rattle.gob_num.specs.Spelled.{IsSpelled};
ghost use Rattle.gob_types.specs.Defined.{types};
ghost use Rattle.gob_filled.specs.Stream.{FilledItem};
ghost use Rattle.gob_go.specs.Meaning.{ItemMeans};
ghost use Rattle.gob_go_writer.specs.Item.{IsItemOf};
ghost use Rattle.gob_tool.specs.RewritingGo.{IsRewritten};
ghost use Rattle.gob_tool.specs.Machine.FormsGo.{AreItemsOf, IsHoistedText, IsShortItem, IsTidyText};

use gob_go::GoItem;
use gob_go_writer::{hoist_item, tidy_item, write_item};
use gob_num::Memory;
use gob_types::Table;
use std::alloc::Global;

// How many bytes an item to be hoisted may have at most: its value then has a spelling without definitions.
const MOST_HOISTED: usize = 1152921504606846975;

/// Makes the bytes of the tidy form of an item in `text`, which is empty.
pub(crate) fn push_tidied(
    alloc: Global,
    item: GoItem,
    table: &Table,
    text: &mut Vec<u8>,
) -> Result<(), Memory>
    requires of_stream { IsSpelled (IsItemOf (types table.now) item) }
    requires empty { text.old.items ≡ [] }
    ensures { OnOk result ((i : FilledItem) → ItemMeans (types table.now) item i
        → IsRewritten false (types table.now) i text.new.items) }
{
    let mut form = item;
    let made = tidy_and_write(alloc, &mut form, table, text);
    drop(form);
    made
}

/// Makes the bytes of the items that come of the tidy form of an item in `text`, which is empty: each definition that
/// stands in its value has an item of its own.
pub(crate) fn push_hoisted(
    alloc: Global,
    item: GoItem,
    table: &Table,
    text: &mut Vec<u8>,
) -> Result<(), Memory>
    requires of_stream { IsSpelled (IsItemOf (types table.now) item) }
    requires empty { text.old.items ≡ [] }
    ensures { OnOk result ((i : FilledItem) → ItemMeans (types table.now) item i
        → IsRewritten true (types table.now) i text.new.items) }
{
    let mut form = item;
    match tidy_and_write_short(alloc, &mut form, table, text) {
        Ok(()) => hoist_and_write(alloc, form, table, text),
        Err(memory) => {
            drop(form);
            Err(memory)
        }
    }
}

/// Gives an item its tidy form, and makes its bytes in `text`, which is empty. Memory also comes where they are too
/// many to be hoisted.
fn tidy_and_write_short(
    alloc: Global,
    item: &mut GoItem,
    table: &Table,
    text: &mut Vec<u8>,
) -> Result<(), Memory>
    requires of_stream { IsSpelled (IsItemOf (types table.now) item.old) }
    requires empty { text.old.items ≡ [] }
    ensures made { OnOk result (IsTidyText (types table.now) item.old item.new text.new.items) }
    ensures short { OnOk result (length text.new.items < 2 ^ 60) }
{
    tidy_and_write(alloc, item, table, text)?;
    if text.len() > MOST_HOISTED {
        return Err(Memory);
    }
    Ok(())
}

/// Gives an item its tidy form, and makes its bytes in `text`, which is empty.
fn tidy_and_write(
    alloc: Global,
    item: &mut GoItem,
    table: &Table,
    text: &mut Vec<u8>,
) -> Result<(), Memory>
    requires of_stream { IsSpelled (IsItemOf (types table.now) item.old) }
    requires empty { text.old.items ≡ [] }
    ensures { OnOk result (IsTidyText (types table.now) item.old item.new text.new.items) }
{
    tidy_item(alloc, table, item)?;
    write_item(alloc, table, item, text)
}

/// Makes the bytes of the items that come of one in `text`, in place of what it holds.
fn hoist_and_write(
    alloc: Global,
    item: GoItem,
    table: &Table,
    text: &mut Vec<u8>,
) -> Result<(), Memory>
    requires { IsSpelled (IsShortItem (types table.now) item) }
    ensures { OnOk result (IsHoistedText (types table.now) item text.new.items) }
{
    text.clear();
    let mut items = Vec::new(alloc);
    hoist_item(alloc, item, &mut items)?;
    write_items(alloc, &items, table, text)
}

/// Appends the bytes of items.
fn write_items(
    alloc: Global,
    items: &[GoItem],
    table: &Table,
    text: &mut Vec<u8>,
) -> Result<(), Memory>
    requires { IsSpelled (AreItemsOf (types table.now) items.now) }
    ensures { OnOk result ((bytes : List ℕ) → AreItemsOf (types table.now) items.now bytes
        → text.new.items ≡ text.old.items ++ bytes) }
{
    for item in items {
        write_item(alloc, table, item, text)?;
    }
    Ok(())
}
