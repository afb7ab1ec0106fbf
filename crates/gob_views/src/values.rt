//! The run that prints the values of a stream as plain JSON.

ghost use Rattle.std.specs.Prelude.{◌≡◌, [], ℕ, List, Some, IfOk, OnOk, MatchOption};
ghost use Rattle.gob_types.specs.Defined.{types};
ghost use Rattle.gob_stream.specs.Bounds.{within_trees};
ghost use Rattle.gob_stream.specs.Calls.Ends.{failed_reads, failed_writes, reader_of, writer_of};
ghost use Rattle.gob_filled.specs.Stream.{FilledItem};
ghost use Rattle.gob_go.specs.Meaning.{ItemMeans};
ghost use Rattle.gob_tool.specs.Showing.{CountsReadFaults, CountsWriteFaults, IsFlushedSince};
ghost use Rattle.gob_tool.specs.TextsGo.{of_given, of_value, IsWholeText};
ghost use Rattle.gob_views.specs.Values.{IsPlainLine, ValuesAnswers};

use crate::body_lines::{TypeLines, push_body_line};
use crate::value_line::{ValueLines, push_filled_line, style_of, taken_of};
use gob_go::{GoItem, GoReader, GoSession};
use gob_num::Memory;
use gob_stream::{Input, Limits, Output};
use gob_tool::{ItemTexts, MOST_GATHERED, Sent, ToolFault, run_texts};
use gob_types::Table;
use std::alloc::Global;
use std::io::{Read, Write};

/// Writes such lines of plain JSON for each value of a stream of Go's encoder whose type is chosen, and nothing else,
/// and ends with a flush. An interface is shown as what it holds. Ok exactly at the end of a whole stream. Before a
/// fault is answered the lines of the values before it are written; at `ToolFault::Write` a prefix of them may be. A
/// flush that fails is that fault where no other came before it. What it takes in memory grows with the types and the
/// largest item alone. No value may be deeper than `limits.depth()` or than 1000; what an interface holds is one deeper
/// than the interface.
pub fn run_values<R: Read, W: Write>(
    alloc: Global,
    input: &mut Input<R>,
    output: &mut Output<W>,
    limits: Limits,
    lines: ValueLines<'_>,
) -> Result<(), ToolFault>
    ensures printed { (bytes : List ℕ) → R.remaining (reader_of input.old) ≡ Some bytes
        → ValuesAnswers lines.entry (within_trees limits) bytes (R.remaining (reader_of input.new))
        (W.contents (writer_of output.old)) (W.contents (writer_of output.new)) result }
    ensures reads { CountsReadFaults (failed_reads input.old) (failed_reads input.new) result }
    ensures writes { CountsWriteFaults (failed_writes output.old) (failed_writes output.new) result }
    ensures flushed { IsFlushedSince (failed_writes output.old) output.new }
{
    run_texts::<GoSession, R, W, ValueLines<'_>>(alloc, input, output, limits, &lines)
}

/// The lines of items: plain JSON of values. No character of them controls how a terminal shows them.
impl ItemTexts<GoSession> for ValueLines<'_> {
    ghost of_item = { λ lines. of_given (IsPlainLine lines) };

    ghost of_value = { λ lines. of_value (IsPlainLine lines) };

    fn push_item(
        &self,
        alloc: Global,
        item: GoItem,
        table: &Table,
        text: &mut Vec<u8>,
    ) -> Result<(), Memory> {
        let made = push_item_line(alloc, &item, table, *self, text);
        drop(item);
        made
    }

    fn push_whole(
        &self,
        alloc: Global,
        reader: &GoReader,
        text: &mut Vec<u8>,
    ) -> Result<Option<usize>, Memory> {
        push_whole_line(alloc, reader, *self, text)
    }

    fn send_whole<W: Write>(
        &self,
        alloc: Global,
        reader: &GoReader,
        output: &mut Output<W>,
    ) -> Option<Sent> {
        if !is_large(reader) {
            return None;
        }
        let mut text = Vec::new(alloc);
        let Ok(Some(used)) = push_whole_line(alloc, reader, *self, &mut text) else {
            return None;
        };
        let sent = output.send_all(&text);
        Some(Sent { used, sent })
    }
}

/// Whether an item of a value waits as a whole that is so large that its lines had better not be copied.
fn is_large(reader: &GoReader) -> bool {
    match reader.whole() {
        Some(item) => item.used > MOST_GATHERED,
        None => false,
    }
}

/// Makes the lines of an item, if it is a value whose type is chosen, in `text`, which is empty.
fn push_item_line(
    alloc: Global,
    item: &GoItem,
    table: &Table,
    lines: ValueLines<'_>,
    text: &mut Vec<u8>,
) -> Result<(), Memory>
    requires { text.old.items ≡ [] }
    ensures { OnOk result ((i : FilledItem) → ItemMeans (types table.now) item.now i
        → IsPlainLine lines.entry (types table.now) i text.new.items) }
{
    match item {
        GoItem::Define { .. } => Ok(()),
        GoItem::Put { id, value } => push_filled_line(alloc, *id, value, table, lines, text),
    }
}

/// Makes the lines of the item of a value that waits as a whole and defines nothing in `text`, which is empty, and
/// answers how many bytes the item has. None says nothing of what waits.
fn push_whole_line(
    alloc: Global,
    reader: &GoReader,
    lines: ValueLines<'_>,
    text: &mut Vec<u8>,
) -> Result<Option<usize>, Memory>
    requires { text.old.items ≡ [] }
    ensures { IfOk result (λ found. MatchOption found (text.new.items ≡ [])
        (λ used. IsWholeText (IsPlainLine lines.entry) reader.now used text.new.items)) }
{
    let Some(item) = reader.whole() else {
        return Ok(None);
    };
    let depth = reader.limits().depth().min(Limits::GREATEST_DEPTH);
    let taken = taken_of(alloc, lines.kinds)?;
    let of = TypeLines {
        table: reader.table(),
        id: item.id,
        lines,
        style: style_of(lines, &taken),
    };
    let made = push_body_line(alloc, &of, item.body, depth, text)?;
    if made {
        return Ok(Some(item.used));
    }
    Ok(None)
}
