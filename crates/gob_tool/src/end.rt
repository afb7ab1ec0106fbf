//! When what was written is flushed: at the end of a run, and before it may have to wait for its input.

ghost use Rattle.std.specs.Prelude.{◌≡◌, ℕ, [], false, IfErr, OnOk};
ghost use Rattle.std.specs.Io.KnownBytes.{Keeps};
ghost use Rattle.gob_stream.specs.Calls.Ends.{failed_writes, is_unflushed, writer_of};
ghost use Rattle.gob_stream.specs.Calls.ReaderOf.{IsShort, waits_in};
ghost use Rattle.gob_tool.specs.Ending.{CountsOnlyWrites, EndsRun};
ghost use Rattle.gob_tool.specs.Showing.{CountsWriteFaults, IsFlushedSince};
ghost use Rattle.gob_stream.specs.Calls.Writing.{CountsWriterFaults};

use crate::fault::ToolFault;
use gob_stream::{Output, ReaderOf, Steps, WriteFault};
use std::io::Write;

/// Flushes behind what was written, unless a write failed. The first fault is answered.
pub fn end_run<W: Write>(
    answer: Result<(), ToolFault>,
    output: &mut Output<W>,
) -> Result<(), ToolFault>
    ensures ends { EndsRun answer result }
    ensures bytes { Keeps (W.contents (writer_of output.old)) (W.contents (writer_of output.new)) }
    ensures writes { (failures : ℕ) → CountsOnlyWrites failures (failed_writes output.old) answer
        → CountsWriteFaults failures (failed_writes output.new) result }
    ensures flushed { (failures : ℕ) → CountsOnlyWrites failures (failed_writes output.old) answer
        → IsFlushedSince failures output.new }
{
    if matches!(answer, Err(ToolFault::Write)) {
        return answer;
    }
    let flushed = output.flush();
    match answer {
        Ok(()) if flushed.is_err() => Err(ToolFault::Write),
        _ => answer,
    }
}

/// Flushes where the reader may have to wait for its input, so that what is made of an item is out as soon as the item
/// is whole.
#[inline(always)]
pub fn flush_before_waiting<S: Steps, W: Write>(
    reader: &ReaderOf<S>,
    output: &mut Output<W>,
) -> Result<(), WriteFault>
    ensures bytes { Keeps (W.contents (writer_of output.old)) (W.contents (writer_of output.new)) }
    ensures flushed { waits_in reader.now ≡ [] → IsShort reader.now → OnOk result (is_unflushed output.new ≡ false) }
    ensures fault { IfErr result (λ fault. fault ≡ WriteFault.Write) }
    ensures counted { CountsWriterFaults (failed_writes output.old) (failed_writes output.new) result }
{
    if !reader.may_wait() {
        return Ok(());
    }
    output.flush_written()
}
