//! The skeleton of the innermost value.

ghost use Rattle.gob_stream.specs.Bounds.{within_trees};
ghost use Rattle.gob_go.specs.Machine.Stages.{IsInValue, ValueAnswers};

use crate::around::Around;
use crate::level::Came;
use crate::levels::Levels;
use crate::name::NameLength;
use crate::part::{PartTaken, PutPart};
use gob_stream::Fault;
use gob_types::Table;

impl Levels {
    /// Takes bytes of the innermost skeleton from the front of the piece, maybe its first ones, and of the number of an
    /// interface behind them.
    pub(crate) fn take_value(
        &mut self,
        around: &Around,
        table: &Table,
        piece: &[u8],
    ) -> Result<PartTaken, Fault>
        requires { IsInValue around.now.keeps (within_trees around.now.limits) table.now around.now.taken self.old }
        ensures { ValueAnswers around.now.keeps (within_trees around.now.limits) table.now self.old self.new
            piece.now result }
    {
        // its contract says that no stream is so long that the sum wraps
        let _most = around.limits.stream();
        match self.innermost.take(around, table, piece)? {
            Came::ToEnd => Ok(PartTaken::more(piece.len(), PutPart::Value)),
            Came::ToNil { used } => {
                let behind = around.behind(used);
                let length = NameLength::new(&behind, self);
                let taken = length.take(self, &behind, table, &piece[used..])?;
                Ok(taken.behind(used))
            }
            Came::PastValue { used } => {
                let goes = self.end_values(&around.behind(used), table)?;
                Ok(PartTaken::behind_value(used, goes))
            }
        }
    }
}
