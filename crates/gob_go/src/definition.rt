//! The definition of a type in an item of its own.

ghost use Rattle.std.specs.Prelude.{◌≡◌, ◌+◌, ◌^◌, ◌<◌, length};
ghost use Rattle.gob_stream.specs.Bounds.{within_trees};
ghost use Rattle.gob_go.specs.Machine.Parts.{used_of_described};
ghost use Rattle.gob_go.specs.Machine.Stages.{IsWithinItem, StageAnswers, behind_described};
ghost use Rattle.gob_go.specs.declared.stage.Stage.TheVariants as stage;

use crate::around::Around;
use crate::description::{Described, DescriptionStage};
use crate::filled::Definition;
use crate::item::GoItem;
use crate::stage::{Stage, Stepped};
use gob_stream::Fault;
use gob_types::Table;

/// How far into the description of a type a reader is.
#[derive(Drop)]
pub(crate) struct DefinitionStage {
    /// The description.
    pub(crate) description: DescriptionStage,
}

impl DefinitionStage {
    /// Takes bytes of the description from the front of the piece, and where it is whole, defines the type.
    pub(crate) fn take(
        self,
        around: &Around,
        table: &mut Table,
        piece: &[u8],
    ) -> Result<Stepped, Fault>
        requires { IsWithinItem around.now.keeps (within_trees around.now.limits) table.old around.now.taken
            (stage.Definition self) }
        ensures { StageAnswers around.now.keeps (within_trees around.now.limits) table.old table.new
            (stage.Definition self) piece.now result }
    {
        // its contract says that no stream is so long that the sum wraps
        let _most = around.limits.stream();
        let described = self.description.take(around, table, piece)?;
        Ok(behind_description(around, piece, described))
    }
}

/// What follows behind what was taken of the description: more of it, or the next item.
pub(crate) fn behind_description(around: &Around, piece: &[u8], described: Described) -> Stepped
    requires { around.now.taken + used_of_described described < 2 ^ 64 }
    ensures { result ≡ behind_described around.now.taken (length piece.now) described }
{
    match described {
        Described::More(description) => Stepped::more(
            piece.len(),
            Stage::Definition(DefinitionStage { description }),
        ),
        Described::Whole { definition, used } => {
            let Definition { id, described } = definition;
            Stepped::whole(around, used, GoItem::Define { id, described })
        }
    }
}
