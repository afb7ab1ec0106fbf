//! The run that prints a stream of Go's encoder.

ghost use Rattle.std.specs.Prelude.{◌≡◌, ℕ, List, Some};
ghost use Rattle.gob_stream.specs.Bounds.{within_trees};
ghost use Rattle.gob_stream.specs.Calls.Ends.{failed_reads, failed_writes, reader_of, writer_of};
ghost use Rattle.gob_tool.specs.Showing.{CountsReadFaults, CountsWriteFaults, IsFlushedSince};
ghost use Rattle.gob_tool.specs.Machine.LinesGo.{ShowsInLines};
ghost use Rattle.gob_tool.specs.ShowingGo.{ShowGoAnswers};
ghost use Rattle.gob_tool.specs.TextsGo.{of_given, of_value};

use crate::fault::ToolFault;
use crate::go::item_lines::push_lines;
use crate::go::whole_form::whole_depth;
use crate::texts::{ItemTexts, run_texts};
use gob_filled_walk::line_of_filled;
use gob_go::{GoItem, GoReader, GoSession};
use gob_num::Memory;
use gob_stream::{Input, Limits, Output};
use gob_types::Table;
use std::alloc::Global;
use std::io::{Read, Write};

/// Writes the JSON lines of each item of a stream of Go's encoder, and nothing else, and ends with a flush. The line of
/// a value stands behind those of the definitions that it holds. Ok exactly at the end of a whole stream. Before a
/// fault is answered the lines of the items before it are written; at `ToolFault::Write` a prefix of them may be. A
/// flush that fails is that fault where no other came before it. What it takes in memory grows with the types and the
/// largest item alone. No value may be deeper than `limits.depth()` or than 1000; what an interface holds is one deeper
/// than the interface.
pub fn run_show_go<R: Read, W: Write>(
    alloc: Global,
    input: &mut Input<R>,
    output: &mut Output<W>,
    limits: Limits,
) -> Result<(), ToolFault>
    ensures shown { (bytes : List ℕ) → R.remaining (reader_of input.old) ≡ Some bytes
        → ShowGoAnswers (within_trees limits) bytes (R.remaining (reader_of input.new))
        (W.contents (writer_of output.old)) (W.contents (writer_of output.new)) result }
    ensures reads { CountsReadFaults (failed_reads input.old) (failed_reads input.new) result }
    ensures writes { CountsWriteFaults (failed_writes output.old) (failed_writes output.new) result }
    ensures flushed { IsFlushedSince (failed_writes output.old) output.new }
{
    run_texts::<GoSession, R, W, Lines>(alloc, input, output, limits, &Lines)
}

/// The JSON lines of items.
#[derive(Drop)]
struct Lines;

impl ItemTexts<GoSession> for Lines {
    ghost of_item = { λ lines. of_given ShowsInLines };

    ghost of_value = { λ lines. of_value ShowsInLines };

    fn push_item(
        &self,
        alloc: Global,
        item: GoItem,
        table: &Table,
        text: &mut Vec<u8>,
    ) -> Result<(), Memory> {
        let made = push_lines(alloc, &item, table, text);
        drop(item);
        made
    }

    fn push_whole(
        &self,
        _alloc: Global,
        reader: &GoReader,
        text: &mut Vec<u8>,
    ) -> Result<Option<usize>, Memory> {
        let Some(item) = reader.whole() else {
            return Ok(None);
        };
        let depth = whole_depth(reader);
        if !line_of_filled(reader.table(), item.id, item.body, depth, text)? {
            return Ok(None);
        }
        Ok(Some(item.used))
    }
}
