//! The tidy form of an item.

ghost use Rattle.std.specs.Prelude.{OnOk};
ghost use Rattle.gob_types.specs.Defined.{types};
ghost use Rattle.gob_go_writer.specs.TidyItem.{BecomesTidy};

use crate::tidy::description::tidy_description;
use crate::tidy::value::tidy_value;
use gob_go::GoItem;
use gob_num::Memory;
use gob_types::Table;
use std::alloc::Global;

/// Gives the item its tidy form, at every level: it must be one that a session gave, and the table have its types. What
/// fills a nil fills the same nil of the tidy form, under the name that it had. A description has its tidy form, which
/// defines the same type under the same id. The tidy form is no longer, segment by segment: where the item is one of a
/// stream within some limits, so is its tidy form.
///
/// [`Memory`] also comes where a value or a description is deeper than 1000, or is none of its type, which those of a
/// session aren't. Then the item is of no use.
pub fn tidy_item(alloc: Global, table: &Table, item: &mut GoItem) -> Result<(), Memory>
    ensures { OnOk result (BecomesTidy (types table.now) item.old item.new) }
{
    match item {
        GoItem::Define { described, .. } => tidy_description(alloc, table, described),
        GoItem::Put { id, value } => tidy_value(alloc, table, *id, value),
    }
}
