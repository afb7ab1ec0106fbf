//! How far into an item a reader is.

ghost use Rattle.std.specs.Prelude.{◌≡◌, ◌+◌, ◌^◌, ◌<◌, length, Some, None};
ghost use Rattle.gob_stream.specs.Bounds.{within_trees};
ghost use Rattle.gob_go.specs.Machine.Stages.{IsWithinItem, count_at, StageAnswers};

use crate::around::Around;
use crate::count::ItemCount;
use crate::definition::DefinitionStage;
use crate::item::GoItem;
use crate::put::PutStage;
use crate::type_number::TypeNumberStage;
use gob_stream::Fault;
use gob_types::Table;

/// What a reader of items expects.
#[derive(Drop)]
pub(crate) enum Stage {
    /// The count of an item.
    Count(ItemCount),
    /// The type number.
    TypeNumber(TypeNumberStage),
    /// A definition.
    Definition(DefinitionStage),
    /// A value.
    Put(PutStage),
    /// Nothing more, since there was a fault.
    Failed,
}

/// What became of the front of a piece.
#[derive(Drop)]
pub(crate) struct Stepped {
    /// How many bytes of the piece were taken.
    pub(crate) used: usize,
    /// What is expected behind them.
    pub(crate) stage: Stage,
    /// The item that is whole with them.
    pub(crate) item: Option<GoItem>,
}

impl Stepped {
    /// So many bytes were taken, and the item goes on with this.
    pub(crate) fn more(used: usize, stage: Stage) -> Stepped
        ensures { result ≡ record { used = used; stage = stage; item = None } }
    {
        Stepped {
            used,
            stage,
            item: None,
        }
    }

    /// With so many bytes before them.
    pub(crate) fn behind(self, used: usize) -> Stepped
        requires { used + self.used < 2 ^ 64 }
        ensures { result ≡ record { used = used + self.used; stage = self.stage; item = self.item } }
    {
        let Stepped {
            used: more,
            stage,
            item,
        } = self;
        Stepped {
            used: used + more,
            stage,
            item,
        }
    }

    /// The item is whole with so many bytes, behind which the next one begins.
    pub(crate) fn whole(around: &Around, used: usize, item: GoItem) -> Stepped
        requires { around.now.taken + used < 2 ^ 64 }
        ensures { result
            ≡ record { used = used; stage = count_at (around.now.taken + used); item = Some item } }
    {
        let begin = around.behind(used).taken;
        Stepped {
            used,
            stage: Stage::Count(ItemCount::new(begin)),
            item: Some(item),
        }
    }
}

impl Stage {
    /// Takes some bytes of what is expected from the front of the piece.
    pub(crate) fn take(
        self,
        around: &Around,
        table: &mut Table,
        piece: &[u8],
    ) -> Result<Stepped, Fault>
        requires has_read { IsWithinItem around.now.keeps (within_trees around.now.limits) table.old around.now.taken
            self }
        ensures { StageAnswers around.now.keeps (within_trees around.now.limits) table.old table.new self piece.now
            result }
    {
        match self {
            Stage::Count(count) => count.take(around, piece),
            Stage::TypeNumber(number) => number.take(around, table, piece),
            Stage::Definition(definition) => definition.take(around, table, piece),
            Stage::Put(put) => put.take(around, table, piece),
            // behind a fault nothing is read
            Stage::Failed => unreachable!(),
        }
    }
}
