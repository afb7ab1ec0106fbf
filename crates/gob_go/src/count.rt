//! The count at which an item begins.

ghost use Rattle.std.specs.Prelude.{◌≡◌, ◌<◌, length};
ghost use Rattle.gob_stream.specs.Bounds.{within_trees};
ghost use Rattle.gob_go.specs.Machine.Stages.{IsWithinItem, StageAnswers, count_at, IsWithinItemOfSome};
ghost use Rattle.gob_types.specs.Defined.{Defined};
ghost use Rattle.gob_go.specs.declared.stage.Stage.TheVariants as stage;

use crate::around::Around;
use crate::number::{NumberStage, NumberTaken};
use crate::stage::{Stage, Stepped};
use crate::type_number::TypeNumberStage;
use gob_stream::{Fault, body_of};

/// How far into the count of an item a reader is.
#[derive(Drop)]
pub(crate) struct ItemCount {
    /// The count.
    pub(crate) number: NumberStage,
}

impl ItemCount {
    /// Before the first byte of the item that begins there.
    pub(crate) fn new(begin: u64) -> ItemCount
        ensures { stage.Count result ≡ count_at begin }
    {
        ItemCount {
            number: NumberStage::of_count(begin),
        }
    }

    /// Takes bytes of the count from the front of the piece.
    pub(crate) fn take(self, around: &Around, piece: &[u8]) -> Result<Stepped, Fault>
        requires has_read { IsWithinItemOfSome around.now.keeps (within_trees around.now.limits) around.now.taken
            (stage.Count self) }
        ensures { (d : Defined) → IsWithinItem around.now.keeps (within_trees around.now.limits) d around.now.taken
            (stage.Count self)
            → StageAnswers around.now.keeps (within_trees around.now.limits) d d (stage.Count self) piece.now result }
    {
        let ItemCount { mut number } = self;
        // its contract says that no stream is so long that a count ends its numbers
        let _most = around.limits.stream();
        match number.take(around, piece)? {
            NumberTaken::More => Ok(Stepped::more(piece.len(), Stage::Count(ItemCount { number }))),
            NumberTaken::Whole {
                number: count,
                used,
            } => {
                let end = around.behind(used).taken;
                let body = body_of(&around.limits, number.rest.begin, end, count)?;
                Ok(Stepped::more(used, Stage::TypeNumber(TypeNumberStage::new(body))))
            }
        }
    }
}
