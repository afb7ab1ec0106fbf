//! The run that prints a stream.

ghost use Rattle.std.specs.Prelude.{◌≡◌, ℕ, List, Some};
ghost use Rattle.gob_stream.specs.Bounds.{within_trees};
ghost use Rattle.gob_stream.specs.Calls.Ends.{failed_reads, failed_writes, reader_of, writer_of};
ghost use Rattle.gob_tool.specs.Machine.Lines.{is_line_of_item, is_line_of_value};
ghost use Rattle.gob_tool.specs.Showing.{ShowAnswers, CountsReadFaults, CountsWriteFaults, IsFlushedSince};

use crate::fault::ToolFault;
use crate::item_line::{given_line, line_depth, push_whole_line, send_item, whole_item};
use crate::texts::{ItemTexts, MOST_GATHERED, Sent, run_texts};
use gob_num::Memory;
use gob_read::{Builder, TreeBuilder};
use gob_stream::{Input, Item, Limits, Output, Session, StreamReader};
use gob_types::Table;
use gob_value::Value;
use std::alloc::Global;
use std::io::{Read, Write};

/// Writes the JSON line of each item of a stream, and nothing else, and ends with a flush. Ok exactly at the
/// end of a whole stream. Before a fault is answered the lines of the items before it are written; at
/// `ToolFault::Write` a prefix of them may be. A flush that fails is that fault where no other came before it.
/// What it takes in memory grows with the types and the largest item alone. No value may be deeper than the lesser of
/// `limits.depth()` and 1000.
pub fn run_show<R: Read, W: Write>(
    alloc: Global,
    input: &mut Input<R>,
    output: &mut Output<W>,
    limits: Limits,
) -> Result<(), ToolFault>
    ensures shown { (bytes : List ℕ) → R.remaining (reader_of input.old) ≡ Some bytes
        → ShowAnswers (within_trees limits) bytes (R.remaining (reader_of input.new))
        (W.contents (writer_of output.old)) (W.contents (writer_of output.new)) result }
    ensures reads { CountsReadFaults (failed_reads input.old) (failed_reads input.new) result }
    ensures writes { CountsWriteFaults (failed_writes output.old) (failed_writes output.new) result }
    ensures flushed { IsFlushedSince (failed_writes output.old) output.new }
{
    run_texts::<Session<TreeBuilder>, R, W, Lines>(alloc, input, output, limits, &Lines)
}

/// The JSON lines of items.
#[derive(Drop)]
struct Lines;

impl<B: Builder<Out = Value>> ItemTexts<Session<B>> for Lines {
    ghost of_item = { λ lines. is_line_of_item };

    ghost of_value = { λ lines. is_line_of_value };

    fn push_item(
        &self,
        alloc: Global,
        item: Item<Value>,
        table: &Table,
        text: &mut Vec<u8>,
    ) -> Result<(), Memory> {
        let given = Some(item);
        let made = given_line(alloc, &given, table, text);
        drop(given);
        made
    }

    fn push_whole(
        &self,
        alloc: Global,
        reader: &StreamReader<B>,
        text: &mut Vec<u8>,
    ) -> Result<Option<usize>, Memory> {
        push_whole_line(alloc, reader, line_depth(reader), MOST_GATHERED, text)
    }

    fn send_whole<W: Write>(
        &self,
        _alloc: Global,
        reader: &StreamReader<B>,
        output: &mut Output<W>,
    ) -> Option<Sent> {
        if reader.waiting() <= MOST_GATHERED {
            return None;
        }
        let depth = line_depth(reader);
        let item = whole_item(reader, depth, MOST_GATHERED)?;
        let sent = send_item(reader.table(), item.id, item.body, depth, output);
        Some(Sent {
            used: item.used,
            sent,
        })
    }
}
