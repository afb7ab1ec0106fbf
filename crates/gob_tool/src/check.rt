//! The run that says whether bytes are a stream, and how much there is in it.

ghost use Rattle.std.specs.Prelude.{◌≡◌, ◌≢◌, ◌+◌, ◌<◌, ℕ, List, Option, Some, IfErr, IfOk, length, string_bytes};
ghost use Rattle.gob_stream.specs.Bounds.{deepest, no_deeper};
ghost use Rattle.gob_stream.specs.Calls.Ends.{failed_reads, failed_writes, reader_of, writer_of};
ghost use Rattle.gob_stream.specs.Calls.ReaderOf.{HasReadBy, session_of, waits_in};
ghost use Rattle.gob_stream.specs.Stepping.{StandsBy};
ghost use Rattle.gob_tool.specs.Checking.{CheckAnswers, ChecksIn, definitions_behind, tally_line};
ghost use Rattle.gob_tool.specs.Ending.{CountsOnlyWrites};
ghost use Rattle.gob_tool.specs.Machine.Counting.{CountsCounting, CountsNext, EndsCountingIn, given_count};
ghost use Rattle.gob_tool.specs.Showing.{CountsReadFaults, CountsWriteFaults, IsFlushedSince};

use crate::end::end_run;
use crate::fault::ToolFault;
use gob_num::Memory;
use gob_read::SkipBuilder;
use gob_stream::{Fault, Input, Limits, Output, Passed, ReaderOf, Session, Steps};
use std::alloc::Global;
use std::io::{Read, Write};

/// How much there is in a stream.
#[derive(Clone, Copy, Debug, PartialEq, Eq)]
pub struct Tally {
    /// How many items.
    pub items: u64,
    /// How many of the items define a type.
    pub types: u64,
    /// How many bytes.
    pub bytes: u64,
}

impl Tally {
    /// The line that says so of a whole stream: `ok: 6 items, 4 types, 185 bytes`, and its line feed.
    pub fn line(self, alloc: Global) -> Result<String, Memory>
        ensures { IfOk result (λ line. string_bytes line ≡ tally_line self) }
    {
        let items = self.items;
        let types = self.types;
        let bytes = self.bytes;
        Ok(format!(in alloc; "ok: {items} items, {types} types, {bytes} bytes\n")?)
    }
}

/// Reads a stream to its end, and writes one line of it: `ok: I items, T types, B bytes`, of which T counts the
/// definitions. Ok exactly at the end of a whole stream; before any other answer but `ToolFault::Write` nothing is
/// written, and at that one a prefix of the line may be. The run ends with a flush. Values aren't kept, so that it
/// takes no more memory for a large one; none may be deeper than `limits.depth()`.
pub fn run_check<R: Read, W: Write>(
    alloc: Global,
    input: &mut Input<R>,
    output: &mut Output<W>,
    limits: Limits,
) -> Result<(), ToolFault>
    ensures checked { (bytes : List ℕ) → R.remaining (reader_of input.old) ≡ Some bytes
        → CheckAnswers (no_deeper deepest limits) bytes (R.remaining (reader_of input.new))
        (W.contents (writer_of output.old)) (W.contents (writer_of output.new)) result }
    ensures reads { CountsReadFaults (failed_reads input.old) (failed_reads input.new) result }
    ensures writes { CountsWriteFaults (failed_writes output.old) (failed_writes output.new) result }
    ensures flushed { IsFlushedSince (failed_writes output.old) output.new }
{
    run_check_in::<Session<SkipBuilder>, R, W>(alloc, input, output, limits)
}

/// Reads a stream in the grammar of the session `S` to its end, and writes the line of it, as [`run_check`] does; T
/// counts the types that the stream defines.
pub fn run_check_in<S: Steps, R: Read, W: Write>(
    alloc: Global,
    input: &mut Input<R>,
    output: &mut Output<W>,
    limits: Limits,
) -> Result<(), ToolFault>
    ensures checked { (bytes : List ℕ) → R.remaining (reader_of input.old) ≡ Some bytes
        → ChecksIn S.stepping.grammar definitions_behind (S.stepping.within limits) bytes
        (R.remaining (reader_of input.new)) (W.contents (writer_of output.old)) (W.contents (writer_of output.new))
        result }
    ensures reads { CountsReadFaults (failed_reads input.old) (failed_reads input.new) result }
    ensures writes { CountsWriteFaults (failed_writes output.old) (failed_writes output.new) result }
    ensures flushed { IsFlushedSince (failed_writes output.old) output.new }
{
    end_run(
        check_stream::<S, R, W>(alloc, input, output, limits),
        output,
    )
}

/// Writes the line of the stream.
fn check_stream<S: Steps, R: Read, W: Write>(
    alloc: Global,
    input: &mut Input<R>,
    output: &mut Output<W>,
    limits: Limits,
) -> Result<(), ToolFault>
    ensures checked { (bytes : List ℕ) → R.remaining (reader_of input.old) ≡ Some bytes
        → ChecksIn S.stepping.grammar definitions_behind (S.stepping.within limits) bytes
        (R.remaining (reader_of input.new)) (W.contents (writer_of output.old)) (W.contents (writer_of output.new))
        result }
    ensures reads { CountsReadFaults (failed_reads input.old) (failed_reads input.new) result }
    ensures writes { CountsOnlyWrites (failed_writes output.old) (failed_writes output.new) result }
{
    let tally = count_stream::<S, R>(alloc, input, limits)?;
    let line = tally.line(alloc)?;
    Ok(output.send_all(line.as_bytes())?)
}

/// Counts what there is in the stream.
fn count_stream<S: Steps, R: Read>(
    alloc: Global,
    input: &mut Input<R>,
    limits: Limits,
) -> Result<Tally, ToolFault>
    ensures counted { (bytes : List ℕ) → R.remaining (reader_of input.old) ≡ Some bytes
        → EndsCountingIn S.stepping.grammar (S.stepping.within limits) bytes (R.remaining (reader_of input.new))
        result }
    ensures reads { CountsCounting (failed_reads input.old) (failed_reads input.new) result }
{
    let mut reader = ReaderOf::<S>::new(alloc, limits)?;
    let mut items = 0;
    let mut bytes = 0;
    while reader.more(input)? {
        let passed = count_next(alloc, &mut reader)?;
        items += passed.items;
        bytes += passed.used as u64;
    }
    let types = reader.table().count();
    Ok(Tally {
        items,
        types,
        bytes,
    })
}

/// Takes some of the bytes that wait: items of values that stand whole, or else one item at the most. How many items
/// are whole with them, and how many bytes they are. Nothing is built of a value that stands whole.
fn count_next<S: Steps>(alloc: Global, reader: &mut ReaderOf<S>) -> Result<Passed, Fault>
    requires { 0 < length (waits_in reader.old) }
    ensures counted { (read now : Option (List ℕ)) (given : List S.Told)
        → HasReadBy S.stepping reader.old read now given
        → CountsNext S.stepping reader.old reader.new read now given result }
    ensures onward { IfOk result (λ passed. 0 < passed.items + passed.used) }
    ensures stands { IfOk result (λ _. StandsBy S.stepping (session_of reader.new)) }
    ensures unread { IfErr result (λ fault. fault ≢ Fault.Read) }
    ensures limits { S.stepping.limits (session_of reader.new) ≡ S.stepping.limits (session_of reader.old) }
{
    let passed = reader.pass_values();
    if passed.items > 0 {
        return Ok(passed);
    }
    let step = reader.step(alloc)?;
    let passed = Passed {
        items: count_given(&step.item),
        used: step.used,
    };
    drop(step);
    Ok(passed)
}

/// How many items a step gave.
fn count_given<T>(item: &Option<T>) -> u64
    ensures { result ≡ given_count item.now }
{
    match item {
        Some(_) => 1,
        None => 0,
    }
}
