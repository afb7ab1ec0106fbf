//! A value in an item of its own.

ghost use Rattle.std.specs.Prelude.{◌+◌, ◌^◌, ◌<◌};
ghost use Rattle.gob_stream.specs.Bounds.{within_trees};
ghost use Rattle.gob_go.specs.Machine.Stages.{IsWithinItem, StageAnswers, StageBehind};
ghost use Rattle.gob_go.specs.declared.stage.Stage.TheVariants as stage;

use crate::around::Around;
use crate::item::GoItem;
use crate::levels::Levels;
use crate::part::{PartTaken, PutPart};
use crate::stage::{Stage, Stepped};
use gob_stream::Fault;
use gob_types::Table;

/// How far into the value of an item a reader is.
#[derive(Drop)]
pub(crate) struct PutStage {
    /// The values that are open.
    pub(crate) levels: Levels,
    /// What comes next in the innermost one.
    pub(crate) part: PutPart,
}

impl PutStage {
    /// Takes bytes of what comes next from the front of the piece.
    pub(crate) fn take(
        self,
        around: &Around,
        table: &mut Table,
        piece: &[u8],
    ) -> Result<Stepped, Fault>
        requires { IsWithinItem around.now.keeps (within_trees around.now.limits) table.old around.now.taken
            (stage.Put self) }
        ensures { StageAnswers around.now.keeps (within_trees around.now.limits) table.old table.new
            (stage.Put self) piece.now result }
    {
        let PutStage { mut levels, part } = self;
        // its contract says that no stream is so long that the sum wraps
        let _most = around.limits.stream();
        let taken = part.take(&mut levels, around, table, piece)?;
        Ok(behind_part(levels, around, taken))
    }
}

/// What follows behind what was taken of the values: more of them, or the next item.
pub(crate) fn behind_part(levels: Levels, around: &Around, taken: PartTaken) -> Stepped
    requires { around.now.taken + taken.used < 2 ^ 64 }
    ensures { StageBehind levels around.now.taken taken.used taken.next result }
{
    let PartTaken { used, next } = taken;
    match next {
        Some(part) => Stepped::more(used, Stage::Put(PutStage { levels, part })),
        None => {
            let innermost = levels.into_innermost();
            let id = innermost.id;
            let value = innermost.into_filled();
            Stepped::whole(around, used, GoItem::Put { id, value })
        }
    }
}
