//! The run that says whether bytes are a stream of Go's encoder, and how much there is in it.

ghost use Rattle.std.specs.Prelude.{◌≡◌, ℕ, List, Some};
ghost use Rattle.gob_stream.specs.Bounds.{within_trees};
ghost use Rattle.gob_stream.specs.Calls.Ends.{failed_reads, failed_writes, reader_of, writer_of};
ghost use Rattle.gob_tool.specs.Showing.{CountsReadFaults, CountsWriteFaults, IsFlushedSince};
ghost use Rattle.gob_tool.specs.CheckingGo.{CheckGoAnswers};

use crate::check::run_check_in;
use crate::fault::ToolFault;
use gob_go::PassingSession;
use gob_stream::{Input, Limits, Output};
use std::alloc::Global;
use std::io::{Read, Write};

/// Reads a stream of Go's encoder to its end, and writes one line of it: `ok: I items, T types, B bytes`, of which T
/// counts the types that it defines, also those in front of what an interface holds. Ok exactly at the end of a whole
/// stream; before any other answer but `ToolFault::Write` nothing is written, and at that one a prefix of the line may
/// be. The run ends with a flush. Nothing is kept of a value, so that it takes no more memory for a large one. None may
/// be deeper than `limits.depth()` or than 1000; what an interface holds is one deeper than the interface.
pub fn run_check_go<R: Read, W: Write>(
    alloc: Global,
    input: &mut Input<R>,
    output: &mut Output<W>,
    limits: Limits,
) -> Result<(), ToolFault>
    ensures checked { (bytes : List ℕ) → R.remaining (reader_of input.old) ≡ Some bytes
        → CheckGoAnswers (within_trees limits) bytes (R.remaining (reader_of input.new))
        (W.contents (writer_of output.old)) (W.contents (writer_of output.new)) result }
    ensures reads { CountsReadFaults (failed_reads input.old) (failed_reads input.new) result }
    ensures writes { CountsWriteFaults (failed_writes output.old) (failed_writes output.new) result }
    ensures flushed { IsFlushedSince (failed_writes output.old) output.new }
{
    run_check_in::<PassingSession, R, W>(alloc, input, output, limits)
}
