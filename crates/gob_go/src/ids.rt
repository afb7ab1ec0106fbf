//! The ids of the types that an item defines: its own, or those of the definitions that its value holds. Recursion is
//! as deep as interfaces hold others, at most 1000.

ghost use Rattle.std.specs.Prelude.{◌≡◌, ◌++◌, OnOk};
ghost use Rattle.gob_types.specs.Table.{Table};
ghost use Rattle.gob_types.specs.declared.id.TypeId.{TypeId};
ghost use Rattle.gob_filled.specs.Filled as spelled;
ghost use Rattle.gob_filled.specs.Stream.{FilledItem};
ghost use Rattle.gob_go.specs.Ids.{definition_ids, inner_ids, item_ids};
ghost use Rattle.gob_go.specs.Meaning.{IsFilled, ItemMeans, definitions_of};
ghost use Rattle.gob_go.specs.declared.filled.Filling.{out-Filling};

use crate::filled::{Definition, Filled, Filling};
use crate::item::GoItem;
use gob_num::Memory;
use gob_types::TypeId;

/// Appends the ids of the types that an item defines, in the order of the stream. Without memory some may be.
pub fn push_ids(item: &GoItem, ids: &mut Vec<TypeId>) -> Result<(), Memory>
    ensures { OnOk result ((T : Table) (i : FilledItem) → ItemMeans T item.now i
        → ids.new.items ≡ ids.old.items ++ item_ids i) }
{
    match item {
        GoItem::Define { id, .. } => Ok(ids.push(*id)?),
        GoItem::Put { value, .. } => push_inner_ids(value, ids),
    }
}

/// Appends the ids of the types whose definitions stand in a value, in the order of the stream. Without memory some may
/// be.
#[cycle(inner)]
pub fn push_inner_ids(value: &Filled, ids: &mut Vec<TypeId>) -> Result<(), Memory>
    ensures { OnOk result ((T : Table) (t : TypeId) (w : spelled.Filled) → IsFilled T t value.now w
        → ids.new.items ≡ ids.old.items ++ inner_ids w) }
{
    for filling in &value.fillings {
        push_filling(filling, ids)?;
    }
    Ok(())
}

/// Appends those of the definitions of a filling, and of those that its value holds.
#[cycle(inner)]
fn push_filling(filling: &Filling, ids: &mut Vec<TypeId>) -> Result<(), Memory>
    ensures { OnOk result ((T : Table) (w : spelled.Filled)
        → IsFilled T (out-Filling filling.now).id (out-Filling filling.now).value w
        → ids.new.items ≡ ids.old.items ++ (definition_ids (definitions_of (out-Filling filling.now).definitions.items)
        ++ inner_ids w)) }
{
    push_definitions(&filling.definitions, ids)?;
    push_inner_ids(&filling.value, ids)
}

/// Appends those of definitions.
fn push_definitions(definitions: &[Definition], ids: &mut Vec<TypeId>) -> Result<(), Memory>
    ensures { OnOk result (ids.new.items ≡ ids.old.items ++ definition_ids (definitions_of definitions.now)) }
{
    for definition in definitions {
        ids.push(definition.id)?;
    }
    Ok(())
}
