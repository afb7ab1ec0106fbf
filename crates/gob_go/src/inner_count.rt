//! The count of the first segment of a value in an interface.

ghost use Rattle.gob_stream.specs.Bounds.{within_trees};
ghost use Rattle.gob_go.specs.Machine.Stages.{IsInPut, PartAnswers};
ghost use Rattle.gob_go.specs.declared.part.PutPart.TheVariants as part;

use crate::around::Around;
use crate::levels::Levels;
use crate::next_count::within;
use crate::number::{NumberStage, NumberTaken};
use crate::part::{PartTaken, PutPart};
use gob_stream::Fault;
use gob_types::{Table, TypeId};

/// How far into the count behind a concrete type a reader is.
#[derive(Drop)]
pub(crate) struct InnerCount {
    /// The concrete type.
    pub(crate) id: TypeId,
    /// The count, in the open segment of the innermost value.
    pub(crate) number: NumberStage,
}

impl InnerCount {
    /// Takes bytes of the count from the front of the piece, and where it is whole, those of the value behind it.
    pub(crate) fn take(
        self,
        levels: &mut Levels,
        around: &Around,
        table: &Table,
        piece: &[u8],
    ) -> Result<PartTaken, Fault>
        requires has_read { IsInPut around.now.keeps (within_trees around.now.limits) table.now around.now.taken
            levels.old (part.InnerCount self) }
        ensures { PartAnswers around.now.keeps (within_trees around.now.limits) table.now table.now levels.old
            levels.new (part.InnerCount self) piece.now result }
    {
        let InnerCount { id, mut number } = self;
        // what ends within it is a number of 64 bits
        let _most = around.limits.stream();
        match number.take(around, piece)? {
            NumberTaken::More => Ok(PartTaken::more(
                piece.len(),
                PutPart::InnerCount(InnerCount { id, number }),
            )),
            NumberTaken::Whole {
                number: count,
                used,
            } => {
                let behind = around.behind(used);
                within(&behind, number.rest.end, number.rest.begin, count)?;
                levels.open(&behind, id, behind.taken + count)?;
                let taken = levels.take_value(&behind, table, &piece[used..])?;
                Ok(taken.behind(used))
            }
        }
    }
}
