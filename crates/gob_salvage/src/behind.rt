//! The run that keeps what isn't damaged of an input behind a stream, whose types are known so.

ghost use Rattle.std.specs.Prelude.{◌≡◌, ◌++◌, ◌≤◌, ℕ, List, Some, drop, length};
ghost use Rattle.gob_stream.specs.Bounds.{within_trees};
ghost use Rattle.gob_stream.specs.Calls.Ends.{failed_reads, failed_writes, reader_of, writer_of};
ghost use Rattle.gob_tool.specs.Showing.{CountsReadFaults, CountsWriteFaults, IsFlushedSince};
ghost use Rattle.gob_salvage.specs.Behind.{BehindAnswers, IsBehind, TellsBehind, gap_behind, gaps_behind};

use crate::gap::Gap;
use crate::keeping::Salvaged;
use crate::run::run_salvage;
use gob_stream::{Input, Limits, Output};
use gob_tool::ToolFault;
use std::alloc::Global;
use std::io::{Read, Write};

/// Does what [`run_salvage`] does with an input that begins with the bytes of `front`, as where a stream of the
/// definitions of types stands in front of a file that has lost its own. `told` speaks of what is behind these bytes:
/// its offsets begin there, and the items and bytes of `front`, with which what is kept begins, aren't counted. Only
/// where several streams were joined, which then may not begin so, all that is kept is counted.
pub fn run_salvage_behind<R: Read, W: Write>(
    alloc: Global,
    front: &Salvaged,
    input: &mut Input<R>,
    output: &mut Output<W>,
    limits: Limits,
    told: &mut Option<Salvaged>,
) -> Result<(), ToolFault>
    ensures kept { (bytes : List ℕ) → R.remaining (reader_of input.old) ≡ Some (front.now.bytes.items ++ bytes)
        → BehindAnswers (within_trees limits) front.now bytes (R.remaining (reader_of input.new))
        (W.contents (writer_of output.old)) (W.contents (writer_of output.new)) told.new result }
    ensures reads { CountsReadFaults (failed_reads input.old) (failed_reads input.new) result }
    ensures writes { CountsWriteFaults (failed_writes output.old) (failed_writes output.new) result }
    ensures flushed { IsFlushedSince (failed_writes output.old) output.new }
{
    let answer = run_salvage(alloc, input, output, limits, told);
    tell_behind(front, told);
    answer
}

// Has what is told speak of what is behind the front.
fn tell_behind(front: &Salvaged, told: &mut Option<Salvaged>)
    ensures { TellsBehind front.now told.old told.new }
{
    if let Some(kept) = told {
        kept.drop_front(front);
    }
}

impl Salvaged {
    // Lets go of the front, of which this is kept with all that is behind it.
    fn drop_front(&mut self, front: &Salvaged)
        ensures { IsBehind front.now self.old self.new }
    {
        let count = front.bytes.len();
        move_behind(&mut self.gaps, count as u64);
        if !self.bytes.starts_with(&front.bytes) {
            return;
        }
        drop_first(&mut self.bytes, count);
        self.items = self.items.saturating_sub(front.items);
    }
}

// Lets go of so many bytes.
fn drop_first(bytes: &mut Vec<u8>, count: usize)
    requires { count ≤ length bytes.old.items }
    ensures { bytes.new.items ≡ drop count bytes.old.items }
{
    bytes.as_mut_slice().rotate_left(count);
    bytes.truncate(bytes.len() - count);
}

// Tells the gaps by offsets of what is behind so many bytes.
fn move_behind(gaps: &mut [Gap], count: u64)
    ensures { gaps.new ≡ gaps_behind count gaps.old }
{
    for gap in gaps.iter_mut() {
        *gap = gap_behind(*gap, count);
    }
}

// The gap, by offsets of what is behind so many bytes.
fn gap_behind(gap: Gap, count: u64) -> Gap
    ensures { result ≡ gap_behind count gap }
{
    Gap {
        begin: gap.begin.saturating_sub(count),
        end: gap.end.saturating_sub(count),
        reason: gap.reason,
        place: gap.place.saturating_sub(count),
        is_repeated: gap.is_repeated,
    }
}
