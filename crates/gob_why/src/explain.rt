//! The run that explains the bytes of a stream, row by row.

ghost use Rattle.std.specs.Prelude.{◌≡◌, ℕ, List, None, Some, []};
ghost use Rattle.gob_stream.specs.Bounds.{AreLimits, deepest, within_trees};
ghost use Rattle.gob_stream.specs.Calls.Ends.{failed_reads, failed_writes, reader_of, writer_of};
ghost use Rattle.gob_go.specs.Calls.Session.{limits_of, types_of};
ghost use Rattle.gob_tool.specs.Ending.{CountsOnlyWrites};
ghost use Rattle.gob_tool.specs.Showing.{CountsReadFaults, CountsWriteFaults, IsFlushedSince};
ghost use Rattle.gob_why.specs.Explain.{ExplainAnswers};
ghost use Rattle.gob_why.specs.Machine.Keeping.{ExplainsAll, HasReadKept, TellsRefused};
ghost use Rattle.gob_why.specs.declared.explained.Explained.{Explained};
ghost use Rattle.gob_types.specs.Defined.{types};

use crate::explained::Explained;
use crate::kept::Kept;
use crate::reading::read_all;
use crate::refused::refused_words;
use crate::scene::Scene;
use crate::sending::sent;
use gob_explain::{LinesOut, push_first_bytes};
use gob_go::GoSession;
use gob_stream::{Input, Limits, Output};
use gob_tool::{Sending, ToolFault, end_run};
use std::alloc::Global;
use std::io::{Read, Write};

/// Writes the rows of a stream of Go's encoder: the bytes of each number and of each run of raw bytes at their offset,
/// with what they are, and ends with a flush. The rows of an item go out while they are made, once the item is known to
/// be whole. Ok exactly at the end of a whole stream. Where the stream is refused, the rows of what stands before the
/// refused bytes are written, then these, and what is expected there, before the fault is answered. Where a read fails,
/// what was written are the rows of the items before it; at `ToolFault::Write`, or where memory is wanting, a prefix of
/// the rows of some items, or of all and the refused bytes. What it takes in memory grows with the types and the
/// largest item alone. No value may be deeper than `limits.depth()` or than 1000; what an interface holds is one deeper
/// than the interface.
pub fn run_explain<R: Read, W: Write>(
    alloc: Global,
    input: &mut Input<R>,
    output: &mut Output<W>,
    limits: Limits,
    which: Explained,
) -> Result<(), ToolFault>
    ensures explained { (bytes : List ℕ) → R.remaining (reader_of input.old) ≡ Some bytes
        → ExplainAnswers which (within_trees limits) bytes (R.remaining (reader_of input.new))
        (W.contents (writer_of output.old)) (W.contents (writer_of output.new)) result }
    ensures reads { CountsReadFaults (failed_reads input.old) (failed_reads input.new) result }
    ensures writes { CountsWriteFaults (failed_writes output.old) (failed_writes output.new) result }
    ensures flushed { IsFlushedSince (failed_writes output.old) output.new }
{
    end_run(explain_stream(alloc, input, output, limits, which), output)
}

/// Writes the rows.
fn explain_stream<R: Read, W: Write>(
    alloc: Global,
    input: &mut Input<R>,
    output: &mut Output<W>,
    limits: Limits,
    which: Explained,
) -> Result<(), ToolFault>
    ensures explained { (bytes : List ℕ) → R.remaining (reader_of input.old) ≡ Some bytes
        → ExplainAnswers which (within_trees limits) bytes (R.remaining (reader_of input.new))
        (W.contents (writer_of output.old)) (W.contents (writer_of output.new)) result }
    ensures reads { CountsReadFaults (failed_reads input.old) (failed_reads input.new) result }
    ensures writes { CountsOnlyWrites (failed_writes output.old) (failed_writes output.new) result }
{
    let mut lines = LinesOut::new(alloc, Sending { output });
    let explained = explain_to(alloc, input, limits, which, &mut lines);
    let (sending, _fault) = lines.into_parts();
    let Sending { output: _sent_to } = sending;
    explained
}

/// Sends the rows.
fn explain_to<R: Read, W: Write>(
    alloc: Global,
    input: &mut Input<R>,
    limits: Limits,
    which: Explained,
    lines: &mut LinesOut<Sending<'_, W>>,
) -> Result<(), ToolFault>
    requires sound { lines.old.fault ≡ None }
    ensures same { lines.new.out.output.ghost_name ≡ lines.old.out.output.ghost_name }
    ensures explained { (bytes : List ℕ) → R.remaining (reader_of input.old) ≡ Some bytes
        → ExplainAnswers which (within_trees limits) bytes (R.remaining (reader_of input.new))
        (W.contents (writer_of lines.old.out.output.now)) (W.contents (writer_of lines.new.out.output.now)) result }
    ensures reads { CountsReadFaults (failed_reads input.old) (failed_reads input.new) result }
    ensures writes { CountsOnlyWrites (failed_writes lines.old.out.output.now) (failed_writes lines.new.out.output.now)
        result }
{
    let mut session = GoSession::new(alloc, limits)?;
    let mut kept = Kept::new(alloc, Some(which));
    let Err(fault) = explain_items(alloc, input, &mut session, &mut kept, lines) else {
        return Ok(());
    };
    let ToolFault::Refused(refusal) = fault else {
        return Err(fault);
    };
    let scene = Scene {
        refusal,
        table: session.table(),
        limits,
        kept: &kept,
    };
    explain_refused(alloc, &scene, which, lines)?;
    Err(ToolFault::Refused(refusal))
}

/// Sends the rows of the items that are whole. Behind a refusal `kept` has the bytes from the start of the refused item
/// on that were read.
fn explain_items<R: Read, W: Write>(
    alloc: Global,
    input: &mut Input<R>,
    session: &mut GoSession,
    kept: &mut Kept,
    lines: &mut LinesOut<Sending<'_, W>>,
) -> Result<(), ToolFault>
    requires first { HasReadKept kept.old.explained session.old kept.old.items [] kept.old.item.items kept.old.begin
        [] }
    requires limits { AreLimits deepest (limits_of session.old) }
    requires sound { lines.old.fault ≡ None }
    ensures same { lines.new.out.output.ghost_name ≡ lines.old.out.output.ghost_name }
    ensures sound { lines.new.fault ≡ None }
    ensures explained { (which : Explained) → kept.old.explained ≡ Some which → (bytes : List ℕ)
        → R.remaining (reader_of input.old) ≡ Some bytes
        → ExplainsAll which (within_trees (limits_of session.old)) (types_of session.new) bytes
        kept.new.item.items kept.new.begin (R.remaining (reader_of input.new))
        (W.contents (writer_of lines.old.out.output.now)) (W.contents (writer_of lines.new.out.output.now)) result }
    ensures reads { CountsReadFaults (failed_reads input.old) (failed_reads input.new) result }
    ensures writes { CountsOnlyWrites (failed_writes lines.old.out.output.now) (failed_writes lines.new.out.output.now)
        result }
{
    let read = read_all(alloc, input, session, kept, lines);
    sent(lines)?;
    read?;
    Ok(())
}

/// Sends the rows of the refused item, where it is explained, and what is expected there.
fn explain_refused<W: Write>(
    alloc: Global,
    scene: &Scene<'_>,
    which: Explained,
    lines: &mut LinesOut<Sending<'_, W>>,
) -> Result<(), ToolFault>
    requires sound { lines.old.fault ≡ None }
    ensures same { lines.new.out.output.ghost_name ≡ lines.old.out.output.ghost_name }
    ensures sent { TellsRefused which (types scene.now.table.now) scene.now.kept.now.begin scene.now.refusal
        scene.now.kept.now.item.items (W.contents (writer_of lines.old.out.output.now))
        (W.contents (writer_of lines.new.out.output.now)) result }
    ensures writes { CountsOnlyWrites (failed_writes lines.old.out.output.now) (failed_writes lines.new.out.output.now)
        result }
{
    if !which.has_refused(scene.kept.begin) {
        return Ok(());
    }
    let front = scene.explained();
    let reached = push_first_bytes(alloc, scene.table, front, scene.kept.begin, lines);
    sent(lines)?;
    let words = refused_words(alloc, scene, front, &reached)?;
    Ok(lines.out.output.send_all(words.as_bytes())?)
}
