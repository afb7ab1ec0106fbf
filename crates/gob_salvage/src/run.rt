//! The run that keeps what isn't damaged of an input.

ghost use Rattle.std.specs.Prelude.{◌≡◌, ℕ, ◌≤◌, List, [], length, Some, IfErr, IfOk, OnOk};
ghost use Rattle.std.specs.Io.KnownBytes.{Consumes, IsAtEnd};
ghost use Rattle.gob_stream.specs.Bounds.{within_trees};
ghost use Rattle.gob_stream.specs.Calls.Ends.{failed_reads, failed_writes, reader_of, writer_of};
ghost use Rattle.gob_stream.specs.Calls.Waiting.{waiting};
ghost use Rattle.gob_tool.specs.Ending.{CountsOnlyWrites};
ghost use Rattle.gob_tool.specs.Showing.{CountsReadFaults, CountsWriteFaults, IsFlushedSince};
ghost use Rattle.gob_salvage.specs.Running.{CountsReading, IsOf, SalvageAnswers, StopsReading};

use crate::keeping::Salvaged;
use crate::streams::salvage;
use gob_stream::{Input, Limits, Output, Waiting, refusal};
use gob_tool::{ToolFault, end_run};
use gob_types::Reason;
use std::alloc::Global;
use std::io::{Read, Write};

/// Reads all of the input, and writes what isn't damaged of it, which is a stream, and ends with a flush. `told` is
/// then what was kept and what was left out. Ok however much that is; an input that is longer than a stream may be is
/// refused, as `StreamTooLong`. Nothing is written before all is read: it takes the input in memory, and again as much
/// of it as is kept. No value may be deeper than `limits.depth()` or than 1000.
pub fn run_salvage<R: Read, W: Write>(
    alloc: Global,
    input: &mut Input<R>,
    output: &mut Output<W>,
    limits: Limits,
    told: &mut Option<Salvaged>,
) -> Result<(), ToolFault>
    ensures kept { (bytes : List ℕ) → R.remaining (reader_of input.old) ≡ Some bytes
        → SalvageAnswers (within_trees limits) bytes (R.remaining (reader_of input.new))
        (W.contents (writer_of output.old)) (W.contents (writer_of output.new)) told.new result }
    ensures reads { CountsReadFaults (failed_reads input.old) (failed_reads input.new) result }
    ensures writes { CountsWriteFaults (failed_writes output.old) (failed_writes output.new) result }
    ensures flushed { IsFlushedSince (failed_writes output.old) output.new }
{
    end_run(send_kept(alloc, input, output, limits, told), output)
}

// Sends what isn't damaged.
fn send_kept<R: Read, W: Write>(
    alloc: Global,
    input: &mut Input<R>,
    output: &mut Output<W>,
    limits: Limits,
    told: &mut Option<Salvaged>,
) -> Result<(), ToolFault>
    ensures kept { (bytes : List ℕ) → R.remaining (reader_of input.old) ≡ Some bytes
        → SalvageAnswers (within_trees limits) bytes (R.remaining (reader_of input.new))
        (W.contents (writer_of output.old)) (W.contents (writer_of output.new)) told.new result }
    ensures reads { CountsReadFaults (failed_reads input.old) (failed_reads input.new) result }
    ensures writes { CountsOnlyWrites (failed_writes output.old) (failed_writes output.new) result }
{
    let kept = salvage_all(alloc, input, limits)?;
    output.send_all(&kept.bytes)?;
    *told = Some(kept);
    Ok(())
}

/// Reads all of the input, and keeps what isn't damaged of it, which is a stream. An input that is longer than a stream
/// may be is refused, as `StreamTooLong`; no other is. It takes the input in memory, and what is kept beside it. No
/// value may be deeper than `limits.depth()` or than 1000.
pub fn salvage_all<R: Read>(
    alloc: Global,
    input: &mut Input<R>,
    limits: Limits,
) -> Result<Salvaged, ToolFault>
    ensures kept { (bytes : List ℕ) → R.remaining (reader_of input.old) ≡ Some bytes
        → IfOk result (IsOf (within_trees limits) bytes) }
    ensures end { (bytes : List ℕ) → R.remaining (reader_of input.old) ≡ Some bytes
        → OnOk result (R.remaining (reader_of input.new) ≡ Some []) }
    ensures stops { (bytes : List ℕ) → R.remaining (reader_of input.old) ≡ Some bytes
        → IfErr result (StopsReading limits.stream bytes) }
    ensures reads { CountsReading (failed_reads input.old) (failed_reads input.new) result }
{
    let read = read_all(alloc, input, limits.stream())?;
    Ok(salvage(alloc, limits, read.bytes())?)
}

// Reads all of the input, which may have so many bytes.
fn read_all<R: Read>(alloc: Global, input: &mut Input<R>, most: u64) -> Result<Waiting, ToolFault>
    ensures all { IfOk result (λ read. Consumes (R.remaining (reader_of input.old)) (R.remaining (reader_of input.new))
        (waiting read)) }
    ensures end { OnOk result (IsAtEnd (R.remaining (reader_of input.new))) }
    ensures small { IfOk result (λ read. length (waiting read) ≤ most) }
    ensures stops { (bytes : List ℕ) → R.remaining (reader_of input.old) ≡ Some bytes
        → IfErr result (StopsReading most bytes) }
    ensures reads { CountsReading (failed_reads input.old) (failed_reads input.new) result }
{
    let mut read = Waiting::new(alloc)?;
    'reads: while read.bytes().len() as u64 <= most {
        if read.read_more(input)? == 0 {
            return Ok(read);
        }
    }
    Err(ToolFault::Refused(refusal(most, most, Reason::StreamTooLong)))
}
