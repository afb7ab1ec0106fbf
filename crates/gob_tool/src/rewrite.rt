//! The run that writes a stream again, in its tidy form.

ghost use Rattle.std.specs.Prelude.{◌≡◌, ℕ, List, Some};
ghost use Rattle.gob_stream.specs.Bounds.{deepest, no_deeper};
ghost use Rattle.gob_stream.specs.Calls.Ends.{failed_reads, failed_writes, reader_of, writer_of};
ghost use Rattle.gob_stream.specs.Calls.Session.{limits_of};
ghost use Rattle.gob_stream.specs.Calls.Reader.{session_of};
ghost use Rattle.gob_tool.specs.Rewriting.{RewriteAnswers};
ghost use Rattle.gob_tool.specs.Machine.Rewritten.{is_tidy_of_item, is_tidy_of_value};
ghost use Rattle.gob_tool.specs.Showing.{CountsReadFaults, CountsWriteFaults, IsFlushedSince};

use crate::fault::ToolFault;
use crate::texts::{ItemTexts, Sent, run_texts};
use crate::tidied::{push_tidied, push_tidy_whole, send_tidy_whole};
use gob_num::Memory;
use gob_read::Builder;
use gob_stream::{Input, Item, Limits, Output, Session, StreamReader};
use gob_tape::{Tape, TapeBuilder};
use gob_types::Table;
use std::alloc::Global;
use std::io::{Read, Write};

// An item with more bytes goes out as soon as it is tidied.
const MOST_COPIED: usize = 1024;

/// Writes the stream of the items of a stream, each in its tidy form, and ends with a flush. Ok exactly at the end of
/// a whole stream; no limit refuses what is written, as it is no longer and no deeper than what was read. Before a
/// fault is answered the items before it are written; at `ToolFault::Write` a prefix of them may be. What it takes in
/// memory grows with the types and the largest item alone. No value may be deeper than `limits.depth()`.
pub fn run_rewrite<R: Read, W: Write>(
    alloc: Global,
    input: &mut Input<R>,
    output: &mut Output<W>,
    limits: Limits,
) -> Result<(), ToolFault>
    ensures rewritten { (bytes : List ℕ) → R.remaining (reader_of input.old) ≡ Some bytes
        → RewriteAnswers (no_deeper deepest limits) bytes (R.remaining (reader_of input.new))
        (W.contents (writer_of output.old)) (W.contents (writer_of output.new)) result }
    ensures reads { CountsReadFaults (failed_reads input.old) (failed_reads input.new) result }
    ensures writes { CountsWriteFaults (failed_writes output.old) (failed_writes output.new) result }
    ensures flushed { IsFlushedSince (failed_writes output.old) output.new }
{
    run_texts::<Session<TapeBuilder>, R, W, TidyItems<MOST_COPIED>>(
        alloc, input, output, limits, &TidyItems,
    )
}

/// The items in their tidy form. One with more bytes than `MOST` isn't copied behind others before it goes out.
#[derive(Drop)]
struct TidyItems<const MOST: usize>;

impl<const MOST: usize> ItemTexts<Session<TapeBuilder>> for TidyItems<MOST> {
    ghost of_item = { λ items. is_tidy_of_item };

    ghost of_value = { λ items. is_tidy_of_value };

    fn push_item(
        &self,
        alloc: Global,
        item: Item<Tape>,
        table: &Table,
        text: &mut Vec<u8>,
    ) -> Result<(), Memory> {
        push_tidied(alloc, item, table, text)
    }

    fn push_whole(
        &self,
        alloc: Global,
        reader: &StreamReader<TapeBuilder>,
        text: &mut Vec<u8>,
    ) -> Result<Option<usize>, Memory> {
        let Some(item) = reader.whole() else {
            return Ok(None);
        };
        let depth = rewritten_depth(reader);
        if !push_tidy_whole(alloc, reader.table(), item.id, item.body, depth, text)? {
            return Ok(None);
        }
        Ok(Some(item.used))
    }

    fn send_whole<W: Write>(
        &self,
        alloc: Global,
        reader: &StreamReader<TapeBuilder>,
        output: &mut Output<W>,
    ) -> Option<Sent> {
        let item = reader.whole()?;
        if item.used <= MOST {
            return None;
        }
        let depth = rewritten_depth(reader);
        let sent = send_tidy_whole(alloc, reader.table(), item.id, item.body, depth, output)?;
        Some(Sent {
            used: item.used,
            sent,
        })
    }
}

/// How deep a value may be that is written again: no deeper than one that the session builds.
fn rewritten_depth(reader: &StreamReader<TapeBuilder>) -> u64
    ensures { result ≡ (no_deeper deepest (limits_of (session_of reader.now))).depth }
{
    reader.limits().depth().min(TapeBuilder::DEPTH)
}
