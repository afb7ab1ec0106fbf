//! The lines of a stream that is made piece by piece.

ghost use Rattle.std.specs.Prelude.{◌≡◌, ◌≢◌, ◌++◌, ℕ, List, Option, IfErr, IfSome};
ghost use Rattle.gob_types.specs.Defined.{types};
ghost use Rattle.gob_stream.specs.Bounds.{within_trees};
ghost use Rattle.gob_stream.specs.Calls.Ends.{failed_writes, writer_of};
ghost use Rattle.gob_go.specs.Calls.Session.{limits_of};
ghost use Rattle.gob_tool.specs.Ending.{CountsOnlyWrites};
ghost use Rattle.gob_tool.specs.Fault.{IsOfWanted};
ghost use Rattle.gob_convert.specs.Machine.Printing.{HasShown, IsStream, ShowsItem, ShowsPiece};

use gob_go::{GoItem, GoSession};
use gob_stream::Output;
use gob_tool::{ToolFault, push_lines};
use gob_types::Table;
use std::alloc::Global;
use std::io::Write;

/// Sends the lines of the items of a piece, which is the next one of a stream that the session has read so far: whole
/// items, one behind another.
pub(crate) fn show_piece<W: Write>(
    alloc: Global,
    session: &mut GoSession,
    piece: &[u8],
    output: &mut Output<W>,
) -> Result<(), ToolFault>
    ensures shown { (stream : List ℕ) (start : Option (List ℕ))
        → HasShown session.old stream start (W.contents (writer_of output.old))
        → IsStream (within_trees (limits_of session.old)) (stream ++ piece.now)
        → ShowsPiece (within_trees (limits_of session.old)) session.new (stream ++ piece.now) start
        (W.contents (writer_of output.new)) result }
    ensures limits { limits_of session.new ≡ limits_of session.old }
    ensures unread { IfErr result (λ fault. fault ≢ ToolFault.Read) }
    ensures own { IfErr result (λ fault. IsOfWanted fault → ⊥) }
    ensures writes { CountsOnlyWrites (failed_writes output.old) (failed_writes output.new) result }
{
    let mut used = 0;
    'items: while used < piece.len() {
        let step = session.step(alloc, &piece[used..])?;
        used += step.used;
        show_item(alloc, step.item, session.table(), output)?;
    }
    Ok(())
}

// Sends the lines of what a step gave.
fn show_item<W: Write>(
    alloc: Global,
    item: Option<GoItem>,
    table: &Table,
    output: &mut Output<W>,
) -> Result<(), ToolFault>
    ensures shown { ShowsItem item (types table.now) (W.contents (writer_of output.old))
        (W.contents (writer_of output.new)) result }
    ensures writes { CountsOnlyWrites (failed_writes output.old) (failed_writes output.new) result }
{
    let Some(item) = item else {
        return Ok(());
    };
    let mut lines = Vec::new(alloc);
    let made = push_lines(alloc, &item, table, &mut lines);
    drop(item);
    made?;
    Ok(output.send_all(&lines)?)
}
