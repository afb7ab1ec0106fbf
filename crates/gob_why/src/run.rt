//! The run that says why a stream is refused, or how much is in a whole one.

ghost use Rattle.std.specs.Prelude.{◌≡◌, ℕ, List, [], Some, IfOk, string_bytes};
ghost use Rattle.gob_stream.specs.Bounds.{AreLimits, deepest, within_trees};
ghost use Rattle.gob_stream.specs.Calls.Ends.{failed_reads, failed_writes, reader_of, writer_of};
ghost use Rattle.gob_filled.specs.Outcome.{profile};
ghost use Rattle.gob_go.specs.Calls.Session.{limits_of};
ghost use Rattle.gob_tool.specs.Ending.{CountsOnlyWrites};
ghost use Rattle.gob_tool.specs.Checking.{tally_line};
ghost use Rattle.gob_tool.specs.Machine.Counting.{CountsCounting, EndsCountingIn};
ghost use Rattle.gob_tool.specs.Showing.{CountsReadFaults, CountsWriteFaults, IsFlushedSince};
ghost use Rattle.gob_why.specs.Machine.Keeping.{HasReadKept};
ghost use Rattle.gob_why.specs.Why.{IsHeaded, Tells, WhyAnswers, refusal_line};

use crate::kept::Kept;
use crate::reading::read_all;
use crate::report::{refusal_words, whole_words};
use crate::scene::Scene;
use gob_explain::LinesOut;
use gob_go::GoSession;
use gob_num::Memory;
use gob_stream::{Input, Limits, Output};
use gob_tool::{Tally, ToolFault, end_run};
use gob_types::Table;
use std::alloc::Global;
use std::io::{Read, Write};

/// Reads a stream of Go's encoder to its end or to its refusal, and says of a whole one how many items, types and bytes
/// it has, in the line of [`gob_tool::run_check_go`], and then how many values of each type; of a refused one the
/// line of its refusal, and then in words where and why it is refused, what is behind it and what to do. It ends with a
/// flush. Ok exactly at the end of a whole stream. Where a read fails or memory is wanting, nothing is written; at
/// `ToolFault::Write` a prefix may be. What it takes in memory grows with the types and the largest item alone. No
/// value may be deeper than `limits.depth()` or than 1000; what an interface holds is one deeper than the interface.
/// `name` is that of the file that is read, if it has one: what to type has it in place of IN.
pub fn run_why<R: Read, W: Write>(
    alloc: Global,
    input: &mut Input<R>,
    output: &mut Output<W>,
    limits: Limits,
    name: Option<&str>,
) -> Result<(), ToolFault>
    ensures told { (bytes : List ℕ) → R.remaining (reader_of input.old) ≡ Some bytes
        → WhyAnswers (within_trees limits) bytes (R.remaining (reader_of input.new))
        (W.contents (writer_of output.old)) (W.contents (writer_of output.new)) result }
    ensures reads { CountsReadFaults (failed_reads input.old) (failed_reads input.new) result }
    ensures writes { CountsWriteFaults (failed_writes output.old) (failed_writes output.new) result }
    ensures flushed { IsFlushedSince (failed_writes output.old) output.new }
{
    end_run(tell_stream(alloc, input, output, limits, name), output)
}

/// Writes what is said of the stream.
fn tell_stream<R: Read, W: Write>(
    alloc: Global,
    input: &mut Input<R>,
    output: &mut Output<W>,
    limits: Limits,
    name: Option<&str>,
) -> Result<(), ToolFault>
    ensures told { (bytes : List ℕ) → R.remaining (reader_of input.old) ≡ Some bytes
        → WhyAnswers (within_trees limits) bytes (R.remaining (reader_of input.new))
        (W.contents (writer_of output.old)) (W.contents (writer_of output.new)) result }
    ensures reads { CountsReadFaults (failed_reads input.old) (failed_reads input.new) result }
    ensures writes { CountsOnlyWrites (failed_writes output.old) (failed_writes output.new) result }
{
    let mut session = GoSession::new(alloc, limits)?;
    let mut kept = Kept::new(alloc, None);
    match count_all(alloc, input, &mut session, &mut kept) {
        Ok(tally) => tell_whole(alloc, tally, session.table(), &kept, output),
        Err(ToolFault::Refused(refusal)) => {
            let scene = Scene {
                refusal,
                table: session.table(),
                limits,
                kept: &kept,
            };
            tell_refusal(alloc, &scene, name, output)?;
            Err(ToolFault::Refused(refusal))
        }
        Err(fault) => Err(fault),
    }
}

/// Reads all of the input, and counts what there is in it. Behind a refusal `kept` has the bytes from the start of the
/// refused item on that were read.
fn count_all<R: Read>(
    alloc: Global,
    input: &mut Input<R>,
    session: &mut GoSession,
    kept: &mut Kept,
) -> Result<Tally, ToolFault>
    requires first { HasReadKept kept.old.explained session.old kept.old.items [] kept.old.item.items kept.old.begin
        [] }
    requires limits { AreLimits deepest (limits_of session.old) }
    ensures counted { (bytes : List ℕ) → R.remaining (reader_of input.old) ≡ Some bytes
        → EndsCountingIn profile (within_trees (limits_of session.old)) bytes (R.remaining (reader_of input.new))
        result }
    ensures reads { CountsCounting (failed_reads input.old) (failed_reads input.new) result }
{
    let mut lines = LinesOut::new(alloc, Vec::new(alloc));
    let is_whole = read_all(alloc, input, session, kept, &mut lines)?;
    // lines that go to memory are cut off where there is none
    if !is_whole {
        return Err(ToolFault::Memory);
    }
    Ok(Tally {
        items: kept.items,
        types: session.table().count(),
        bytes: kept.begin,
    })
}

/// Writes what is said of a whole stream.
fn tell_whole<W: Write>(
    alloc: Global,
    tally: Tally,
    table: &Table,
    kept: &Kept,
    output: &mut Output<W>,
) -> Result<(), ToolFault>
    ensures told { Tells (tally_line tally) (W.contents (writer_of output.old)) (W.contents (writer_of output.new))
        result }
    ensures writes { CountsOnlyWrites (failed_writes output.old) (failed_writes output.new) result }
{
    let text = whole_text(alloc, tally, table, kept)?;
    Ok(output.send_all(text.as_bytes())?)
}

/// Writes what is said of a refused one.
fn tell_refusal<W: Write>(
    alloc: Global,
    scene: &Scene<'_>,
    name: Option<&str>,
    output: &mut Output<W>,
) -> Result<(), ToolFault>
    ensures told { Tells (refusal_line scene.now.refusal) (W.contents (writer_of output.old))
        (W.contents (writer_of output.new)) result }
    ensures writes { CountsOnlyWrites (failed_writes output.old) (failed_writes output.new) result }
{
    let text = refusal_text(alloc, scene, name)?;
    Ok(output.send_all(text.as_bytes())?)
}

/// What is said of a whole stream.
fn whole_text(alloc: Global, tally: Tally, table: &Table, kept: &Kept) -> Result<String, Memory>
    ensures { IfOk result (λ text. IsHeaded (tally_line tally) (string_bytes text)) }
{
    let mut text = tally.line(alloc)?;
    let words = whole_words(alloc, table, kept)?;
    text.push_str(words.as_str())?;
    Ok(text)
}

/// What is said of a refused one.
fn refusal_text(alloc: Global, scene: &Scene<'_>, name: Option<&str>) -> Result<String, Memory>
    ensures { IfOk result (λ text. IsHeaded (refusal_line scene.now.refusal) (string_bytes text)) }
{
    let refusal = scene.refusal;
    let mut text = format!(in alloc; "{refusal}\n")?;
    let words = refusal_words(alloc, scene, name)?;
    text.push_str(words.as_str())?;
    Ok(text)
}
