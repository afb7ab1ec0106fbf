//! Items whose definitions stand in items of their own. Recursion is as deep as interfaces hold others.

ghost use Rattle.std.specs.Prelude.{IfOk, OnOk};
ghost use Rattle.gob_go_writer.specs.Hoisting.{IsHoisted};
ghost use Rattle.gob_go_writer.specs.Machine.Hoisted.{Defines, Hoists, HoistsFilling};

use gob_go::{Definition, Filled, Filling, GoItem};
use gob_num::Memory;
use std::alloc::Global;

/// Appends the items that come of an item when each definition that stands in its value stands in an item of its own:
/// the definitions in the order of the stream, also those that nothing needs, and behind them the value, in which no
/// filling has a definition and all else is as it was. Of an item without such definitions that is the item. Nothing is
/// copied. Where all items of a stream are hoisted, the types that it defines are the same, in the same order, and each
/// stands in the table before the value that it came with. After `Memory` some of the items may have been appended.
pub fn hoist_item(alloc: Global, item: GoItem, out: &mut Vec<GoItem>) -> Result<(), Memory>
    ensures { OnOk result (IsHoisted item out.old.items out.new.items) }
{
    match item {
        GoItem::Define { id, described } => out.push(GoItem::Define { id, described })?,
        GoItem::Put { id, value } => {
            let value = hoist_value(alloc, value, out)?;
            out.push(GoItem::Put { id, value })?;
        }
    }
    Ok(())
}

// Appends the definitions in a value, and gives the value without them.
#[cycle(hoist)]
fn hoist_value(alloc: Global, value: Filled, out: &mut Vec<GoItem>) -> Result<Filled, Memory>
    ensures { IfOk result (λ made. Hoists value made out.old.items out.new.items) }
{
    let Filled { skeleton, fillings } = value;
    let mut hoisted = Vec::new(alloc);
    for filling in fillings {
        hoisted.push(hoist_filling(alloc, filling, out)?)?;
    }
    Ok(Filled {
        skeleton,
        fillings: hoisted,
    })
}

// Appends the definitions of a filling, and those in the value that it holds.
#[cycle(hoist)]
fn hoist_filling(alloc: Global, filling: Filling, out: &mut Vec<GoItem>) -> Result<Filling, Memory>
    ensures { IfOk result (λ made. HoistsFilling filling made out.old.items out.new.items) }
{
    let Filling {
        place,
        name,
        definitions,
        id,
        value,
    } = filling;
    push_definitions(definitions, out)?;
    let value = hoist_value(alloc, value, out)?;
    Ok(Filling {
        place,
        name,
        definitions: Vec::new(alloc),
        id,
        value,
    })
}

// Appends definitions as items.
fn push_definitions(definitions: Vec<Definition>, out: &mut Vec<GoItem>) -> Result<(), Memory>
    ensures { OnOk result (Defines definitions.items out.old.items out.new.items) }
{
    for definition in definitions {
        let Definition { id, described } = definition;
        out.push(GoItem::Define { id, described })?;
    }
    Ok(())
}
