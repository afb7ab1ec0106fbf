//! Items in their tidy form: made before they go out, or sent.

ghost use Rattle.std.specs.Prelude.{◌≡◌, ◌++◌, ◌<◌, ◌^◌, ℕ, List, [], false, pos, length, IfOk, IsTrue, MatchOption};
ghost use Rattle.std.specs.Prelude.{OnOk};
ghost use Rattle.gob_num.specs.Spelled.{Appends};
ghost use Rattle.gob_types.specs.Base.{wire_type};
ghost use Rattle.gob_types.specs.Defined.{types};
ghost use Rattle.gob_value.specs.Spelling.{Spells};
ghost use Rattle.gob_value.specs.Top.{SpellsTop};
ghost use Rattle.gob_value.specs.Tree.{Tree};
ghost use Rattle.gob_value.specs.View.{view};
ghost use Rattle.gob_value.specs.Within.{FitsWithin};
ghost use Rattle.gob_stream.specs.Bounds.{greatest_depth};
ghost use Rattle.gob_stream.specs.Calls.Ends.{failed_writes, writer_of};
ghost use Rattle.gob_stream.specs.Calls.Writing.{CountsWriterFaults};
ghost use Rattle.gob_stream.specs.Item.{defines, puts};
ghost use Rattle.gob_stream.specs.StrictStepping.{strict_stepping};
ghost use Rattle.gob_tape.specs.Calls.Builder.{tape_building};
ghost use Rattle.gob_tape.specs.Meaning.{Means};
ghost use Rattle.gob_tool.specs.Machine.Rewritten.{is_tidy_of_item, IsHead, IsLastOfStream, IsNumbered, IsTidyItem};
ghost use Rattle.gob_tool.specs.Machine.Rewritten.{IsTidyText, SendsNumbered, SendsTidy};
ghost use Rattle.gob_tool.specs.Sending.{Sends};
ghost use Rattle.gob_tool.specs.Texts.{IsGiven};

use gob_num::{Memory, write_int, write_uint};
use gob_stream::{Item, Limits, Output, WriteFault};
use gob_tape::{Tape, tidy_tape};
use gob_tidy::tidy_whole;
use gob_types::{Table, TypeId};
use gob_value::{SpellFault, Value, has_structs, is_tidy_whole, spell, tidy};
use std::alloc::Global;
use std::io::Write;

/// Makes an item of a stream in its tidy form in `text`, which is empty.
pub(crate) fn push_tidied(
    alloc: Global,
    item: Item<Tape>,
    table: &Table,
    text: &mut Vec<u8>,
) -> Result<(), Memory>
    requires of_stream { IsGiven (strict_stepping tape_building) (types table.now) item }
    requires empty { text.old.items ≡ [] }
    ensures { OnOk result (is_tidy_of_item (types table.now) item text.new.items) }
{
    match item {
        Item::Define { id, described } => push_tidy_definition(alloc, id, described, table, text),
        Item::Put { id, value } => {
            let pushed = push_tidy_value(alloc, id, &value, table, text);
            drop(value);
            pushed
        }
    }
}

/// Makes the definition of a type in its tidy form in `text`, which is empty.
fn push_tidy_definition(
    alloc: Global,
    id: TypeId,
    described: Value,
    table: &Table,
    text: &mut Vec<u8>,
) -> Result<(), Memory>
    requires of_stream { IsLastOfStream (types table.now) (defines id (view described)) }
    requires empty { text.old.items ≡ [] }
    ensures { OnOk result (IsTidyItem (types table.now) (defines id (view described)) text.new.items) }
{
    let tidied = tidy(alloc, table, TypeId::WIRE_TYPE, described)?;
    let mut content = Vec::new(alloc);
    let spelled = spell_fitting(alloc, table, TypeId::WIRE_TYPE, &tidied, &mut content);
    drop(tidied);
    spelled?;
    push_content(alloc, -(id.0 as i64), &content, text)
}

/// Appends the spelling of a value that fits its type.
pub(crate) fn spell_fitting(
    alloc: Global,
    table: &Table,
    id: TypeId,
    value: &Value,
    content: &mut Vec<u8>,
) -> Result<(), Memory>
    requires { FitsWithin (types table.now) id greatest_depth (view value.now) }
    ensures { OnOk result (Appends (Spells (types table.now) id (view value.now)) content.old.items
        content.new.items) }
{
    match spell(alloc, table, id, value, Limits::GREATEST_DEPTH, content) {
        Ok(()) => Ok(()),
        Err(SpellFault::Memory) => Err(Memory),
        // it fits
        Err(SpellFault::TooDeep | SpellFault::DoesNotFit) => unreachable!(),
    }
}

/// Makes the item of a value in its tidy form in `text`, which is empty.
fn push_tidy_value(
    alloc: Global,
    id: TypeId,
    tape: &Tape,
    table: &Table,
    text: &mut Vec<u8>,
) -> Result<(), Memory>
    requires of_stream { (v : Tree) × Means tape.now v × IsLastOfStream (types table.now) (puts id v) }
    requires empty { text.old.items ≡ [] }
    ensures { OnOk result ((v : Tree) → Means tape.now v → IsLastOfStream (types table.now) (puts id v)
        → IsTidyItem (types table.now) (puts id v) text.new.items) }
{
    let tidied = tidy_tape(alloc, table, id, tape)?;
    let mut content = Vec::new(alloc);
    let spelled = spell_top(alloc, table, id, &tidied, &mut content);
    drop(tidied);
    spelled?;
    push_content(alloc, id.0 as i64, &content, text)
}

/// Spells a value of the type in `content`, which is empty, behind its tag where it isn't a struct.
fn spell_top(
    alloc: Global,
    table: &Table,
    id: TypeId,
    tape: &Tape,
    content: &mut Vec<u8>,
) -> Result<(), Memory>
    requires { content.old.items ≡ [] }
    ensures { OnOk result ((v : Tree) (bytes : List ℕ) → Means tape.now v → SpellsTop (types table.now) id v bytes
        → content.new.items ≡ bytes) }
{
    if has_structs(table, id) {
        return tape.spell_tape(alloc, content);
    }
    content.push(0)?;
    tape.spell_tape(alloc, content)
}

/// Makes the item of the value that the body spells in its tidy form in `text`, which is empty: as it stands, where it
/// is tidy. False says nothing of the body, and leaves `text` empty.
pub(crate) fn push_tidy_whole(
    alloc: Global,
    table: &Table,
    id: TypeId,
    body: &[u8],
    depth: u64,
    text: &mut Vec<u8>,
) -> Result<bool, Memory>
    requires number { id.0 < 2 ^ 63 }
    requires empty { text.old.items ≡ [] }
    ensures found { IfOk result (λ found. IsTrue found
        → IsTidyText (types table.now) id depth body.now text.new.items) }
    ensures none { IfOk result (λ found. found ≡ false → text.new.items ≡ []) }
{
    if is_tidy_whole(table, id, body, depth) {
        push_content(alloc, id.0 as i64, body, text)?;
        return Ok(true);
    }
    let mut tidied = Vec::new(alloc);
    if !tidy_whole(alloc, table, id, body, depth, &mut tidied)? {
        return Ok(false);
    }
    push_content(alloc, id.0 as i64, &tidied, text)?;
    Ok(true)
}

/// Sends that item, and answers whether all of it went out. None says nothing of the body, and nothing was sent.
pub(crate) fn send_tidy_whole<W: Write>(
    alloc: Global,
    table: &Table,
    id: TypeId,
    body: &[u8],
    depth: u64,
    output: &mut Output<W>,
) -> Option<Result<(), WriteFault>>
    requires number { id.0 < 2 ^ 63 }
    ensures { SendsTidy (types table.now) id depth body.now (failed_writes output.old) (failed_writes output.new)
        (W.contents (writer_of output.old)) (W.contents (writer_of output.new)) result }
{
    if is_tidy_whole(table, id, body, depth) {
        return send_content(alloc, id.0 as i64, body, output);
    }
    let mut tidied = Vec::new(alloc);
    match tidy_whole(alloc, table, id, body, depth, &mut tidied) {
        Ok(true) => send_content(alloc, id.0 as i64, &tidied, output),
        Ok(false) | Err(_) => None,
    }
}

/// Makes the item of this type number and content in `text`, which is empty.
pub(crate) fn push_content(
    alloc: Global,
    number: i64,
    content: &[u8],
    text: &mut Vec<u8>,
) -> Result<(), Memory>
    requires { text.old.items ≡ [] }
    ensures { OnOk result (IsNumbered number content.now text.new.items) }
{
    write_head(alloc, number, content, text)?;
    text.extend_from_slice(content)?;
    Ok(())
}

/// Sends the item of this type number and content, and answers whether all of it went out. None: no memory was had for
/// what stands before the content, and nothing was sent.
pub(crate) fn send_content<W: Write>(
    alloc: Global,
    number: i64,
    content: &[u8],
    output: &mut Output<W>,
) -> Option<Result<(), WriteFault>>
    ensures { SendsNumbered number content.now (failed_writes output.old) (failed_writes output.new)
        (W.contents (writer_of output.old)) (W.contents (writer_of output.new)) result }
{
    let mut head = Vec::new(alloc);
    if write_head(alloc, number, content, &mut head).is_err() {
        return None;
    }
    Some(send_both(&head, content, output))
}

/// Writes what stands before the content of an item in `head`, which is empty: the count of the bytes of its body, and
/// its type number.
fn write_head(alloc: Global, number: i64, content: &[u8], head: &mut Vec<u8>) -> Result<(), Memory>
    requires { head.old.items ≡ [] }
    ensures { OnOk result (IsHead number content.now head.new.items) }
{
    write_int(alloc, number, head)?;
    let count = head.len() + content.len();
    head.clear();
    write_uint(alloc, count as u64, head)?;
    write_int(alloc, number, head)
}

/// Sends bytes, and others behind them.
fn send_both<W: Write>(
    first: &[u8],
    second: &[u8],
    output: &mut Output<W>,
) -> Result<(), WriteFault>
    ensures sent { Sends (W.contents (writer_of output.old)) (W.contents (writer_of output.new))
        (first.now ++ second.now) result }
    ensures counted { CountsWriterFaults (failed_writes output.old) (failed_writes output.new) result }
{
    output.send_all(first)?;
    output.send_all(second)
}
