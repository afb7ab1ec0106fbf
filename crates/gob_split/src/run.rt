//! The run that splits a stream into parts.

ghost use Rattle.std.specs.Prelude.{◌≡◌, ◌⊎◌, ℕ, List, ◌++◌, Some, IfErr};
ghost use Rattle.gob_stream.specs.Bounds.{within_trees};
ghost use Rattle.gob_stream.specs.Calls.Ends.{failed_reads, reader_of};
ghost use Rattle.gob_tool.specs.Ending.{EndsRun};
ghost use Rattle.gob_tool.specs.Showing.{CountsReadFaults};
ghost use Rattle.gob_tool.specs.declared.fault.ToolFault.TheVariants as fault;
ghost use Rattle.gob_split.specs.Running.{SplitAnswers};

use crate::cutter::Cutter;
use crate::item_text::ItemText;
use crate::next_text::take_next;
use crate::part_size::PartSize;
use crate::parts::Parts;
use gob_go::GoReader;
use gob_stream::{Input, Limits};
use gob_tool::ToolFault;
use std::alloc::Global;
use std::io::Read;

/// Splits a stream of Go's encoder into parts behind those that are there. Each part begins with the definitions of the
/// items before it, and then has items in their bytes, up to the first value with which it is as large as `size` says.
/// So none ends with a definition but the last one of a stream that does; Go's decoder takes that for one that was cut
/// off. A definition that stands in a value stands in an item of its own before it instead.
///
/// Ok exactly at the end of a whole stream, which may be of no part. Before a fault is answered the items before it are
/// put into parts; at `ToolFault::Write` a prefix of these may be. What it takes in memory grows with the types and the
/// largest item alone; `ToolFault::Memory` also comes at an item of 2^60 bytes or more. No value may be deeper than
/// `limits.depth()` or than 1000; what an interface holds is one deeper than the interface.
pub fn run_split<R: Read, P: Parts>(
    alloc: Global,
    input: &mut Input<R>,
    parts: &mut P,
    limits: Limits,
    size: PartSize,
) -> Result<(), ToolFault>
    ensures split { (bytes : List ℕ) (before : List (List ℕ)) → R.remaining (reader_of input.old) ≡ Some bytes
        → P.are parts.old before
        → SplitAnswers size (within_trees limits) bytes (R.remaining (reader_of input.new))
        (λ made. P.are parts.new (before ++ made)) result }
    ensures reads { CountsReadFaults (failed_reads input.old) (failed_reads input.new) result }
    ensures failed { IfErr result (λ given. given ≡ fault.Write → P.has_failed parts.new) }
    ensures finished { P.is_finished parts.new ⊎ P.has_failed parts.new }
{
    let answer = split_items(alloc, input, parts, limits, size);
    end_parts(answer, parts)
}

// Finishes the last part. The first fault is answered.
fn end_parts<P: Parts>(answer: Result<(), ToolFault>, parts: &mut P) -> Result<(), ToolFault>
    requires { IfErr answer (λ given. given ≡ fault.Write → P.has_failed parts.old) }
    ensures ends { EndsRun answer result }
    ensures same { (all : List (List ℕ)) → P.are parts.old all → P.are parts.new all }
    ensures failed { IfErr result (λ given. given ≡ fault.Write → P.has_failed parts.new) }
    ensures finished { P.is_finished parts.new ⊎ P.has_failed parts.new }
{
    if matches!(answer, Err(ToolFault::Write)) {
        return answer;
    }
    let finished = parts.finish();
    match answer {
        Ok(()) if finished.is_err() => Err(ToolFault::Write),
        _ => answer,
    }
}

// Splits the items of the stream.
fn split_items<R: Read, P: Parts>(
    alloc: Global,
    input: &mut Input<R>,
    parts: &mut P,
    limits: Limits,
    size: PartSize,
) -> Result<(), ToolFault>
    ensures split { (bytes : List ℕ) (before : List (List ℕ)) → R.remaining (reader_of input.old) ≡ Some bytes
        → P.are parts.old before
        → SplitAnswers size (within_trees limits) bytes (R.remaining (reader_of input.new))
        (λ made. P.are parts.new (before ++ made)) result }
    ensures reads { CountsReadFaults (failed_reads input.old) (failed_reads input.new) result }
    ensures failed { IfErr result (λ given. given ≡ fault.Write → P.has_failed parts.new) }
{
    let mut reader = GoReader::new(alloc, limits)?;
    let mut cutter = Cutter::new(alloc, size);
    let mut text = ItemText {
        bytes: Vec::new(alloc),
        definitions: 0,
    };
    'items: while reader.fill(input)? {
        if !take_next(alloc, &mut reader, &mut text)? {
            continue;
        }
        cutter.put(parts, &text)?;
    }
    Ok(())
}
