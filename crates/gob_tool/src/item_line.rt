//! The line of an item: made before it goes out, or sent while it is made.

ghost use Rattle.std.specs.Prelude.{◌≡◌, ◌≤◌, [], IfOk, IfSome, MatchOption, MatchResult, min};
ghost use Rattle.gob_types.specs.Defined.{types};
ghost use Rattle.gob_value.specs.Whole.{IsWhole};
ghost use Rattle.gob_stream.specs.Bounds.{greatest_depth};
ghost use Rattle.gob_stream.specs.Calls.Ends.{failed_writes, writer_of};
ghost use Rattle.gob_stream.specs.Calls.Reader.{session_of};
ghost use Rattle.gob_stream.specs.Calls.Session.{limits_of};
ghost use Rattle.gob_stream.specs.Calls.Writing.{CountsWriterFaults};
ghost use Rattle.gob_stream.specs.Item.{puts};
ghost use Rattle.gob_tool.specs.Line.{line};
ghost use Rattle.gob_tool.specs.Machine.Lines.{IsWholeItem, line_given};
ghost use Rattle.gob_tool.specs.Sending.{Sends};
ghost use Rattle.gob_tool.specs.Texts.{IsLineAhead};

use crate::item_json::write_item;
use crate::sending::Sending;
use gob_json::{line_of_whole, send_line};
use gob_num::Memory;
use gob_read::Builder;
use gob_stream::{Item, Limits, Output, ReaderOf, Steps, StreamReader, Whole, WriteFault};
use gob_types::{Shapes, Table, TypeId};
use gob_value::{Value, is_whole};
use json::Writer;
use std::alloc::Global;
use std::io::Write;
use std::mem;

/// Makes the line of an item, if there is one. After [`Memory`] there is none.
pub(crate) fn given_line(
    alloc: Global,
    item: &Option<Item<Value>>,
    table: &Table,
    line: &mut Vec<u8>,
) -> Result<(), Memory>
    requires { line.old.items ≡ [] }
    ensures { MatchResult result (λ _. line.new.items ≡ line_given (types table.now) item.now)
        (λ _. line.new.items ≡ []) }
{
    let Some(item) = item else {
        return Ok(());
    };
    let mut out = Writer::new(mem::replace(line, Vec::new(alloc)));
    write_item(alloc, item, table, &mut out)?;
    let mut made = out.into_inner();
    made.push(b'\n')?;
    *line = made;
    Ok(())
}

/// Makes in `text`, which is empty, the line of the item of a value that waits as a whole, straight from its bytes, and
/// answers how many bytes the item has: where these are no more than `most`, no interface in it holds another value and
/// none of its parts is deeper than `depth`. None says nothing of what waits, and leaves `text` empty.
pub fn push_whole_line<S: Steps>(
    alloc: Global,
    reader: &ReaderOf<S>,
    depth: u64,
    most: usize,
    text: &mut Vec<u8>,
) -> Result<Option<usize>, Memory>
    requires { text.old.items ≡ [] }
    ensures { IfOk result (λ found. MatchOption found (text.new.items ≡ [])
        (λ used. IsLineAhead S.stepping depth reader.now used text.new.items)) }
{
    let Some(item) = reader.whole() else {
        return Ok(None);
    };
    if item.used > most {
        return Ok(None);
    }
    let mut room = Vec::new(alloc);
    if !line_of_whole(reader.table(), item.id, item.body, depth, &mut room, text)? {
        return Ok(None);
    }
    Ok(Some(item.used))
}

/// Writes the line of the item that puts the value of the type that the body spells, as is known of it, while it is
/// made.
pub(crate) fn send_item<S: Shapes, W: Write>(
    shapes: &S,
    id: TypeId,
    body: &[u8],
    depth: u64,
    output: &mut Output<W>,
) -> Result<(), WriteFault>
    requires depth { depth ≤ 1000 }
    requires whole { IsWhole (S.table shapes.now) id depth body.now }
    ensures sent { (w : IsWhole (S.table shapes.now) id depth body.now)
        → Sends (W.contents (writer_of output.old)) (W.contents (writer_of output.new))
        (line (S.table shapes.now) (puts id w.value)) result }
    ensures counted { CountsWriterFaults (failed_writes output.old) (failed_writes output.new) result }
{
    let mut sending = Sending { output };
    let sent = send_line(shapes, id, body, depth, &mut sending);
    let Sending { output: _sent_to } = sending;
    sent
}

/// How deep a value may be whose line is made of its bytes: no deeper than one that the session builds.
pub(crate) fn line_depth<B: Builder>(reader: &StreamReader<B>) -> u64
    ensures { result ≡ min (min (limits_of (session_of reader.now)).depth B.DEPTH) greatest_depth }
{
    reader
        .limits()
        .depth()
        .min(B::DEPTH)
        .min(Limits::GREATEST_DEPTH)
}

/// The item of a value that waits as a whole, if it has more bytes than this. None says nothing of what waits.
pub(crate) fn whole_item<B: Builder>(
    reader: &StreamReader<B>,
    depth: u64,
    more_than: usize,
) -> Option<Whole<'_>>
    ensures { IfSome result (λ item. IsWholeItem reader.now depth item.id item.body.now item.used) }
{
    let item = reader.whole()?;
    if item.used <= more_than || !is_whole(reader.table(), item.id, item.body, depth) {
        return None;
    }
    Some(item)
}
