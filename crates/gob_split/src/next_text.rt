//! The text of the next item of a stream.

ghost use Rattle.std.specs.Prelude.{◌≡◌, ◌≢◌, ◌<◌, ℕ, List, Option, length, IfErr, IfOk, IfSome, IsTrue, OnErr, min};
ghost use Rattle.gob_types.specs.Defined.{types};
ghost use Rattle.gob_stream.specs.Bounds.{greatest_depth};
ghost use Rattle.gob_stream.specs.Stepping.{StandsBy};
ghost use Rattle.gob_filled.specs.Stream.{FilledItem};
ghost use Rattle.gob_go.specs.Calls.Reader.{HasReadFrom, session_of, waits_in};
ghost use Rattle.gob_go.specs.Calls.Session.{limits_of};
ghost use Rattle.gob_go.specs.GoStepping.{go_stepping};
ghost use Rattle.gob_split.specs.Machine.Items.{HasReadSome, IsWholeBody, IsWholeNext, PassesText, TakesNext};

use crate::item_text::{ItemText, make_text};
use gob_go::GoReader;
use gob_num::Memory;
use gob_stream::{Advance, Fault, Limits, Whole};
use gob_types::{Table, TypeId};
use gob_value::is_whole;
use std::alloc::Global;

/// Takes some of the bytes that wait, and makes in `text` the text of the item that is whole with them. False where
/// none is.
pub(crate) fn take_next(
    alloc: Global,
    reader: &mut GoReader,
    text: &mut ItemText,
) -> Result<bool, Fault>
    requires some { 0 < length (waits_in reader.old) }
    requires so_far { HasReadSome reader.old }
    ensures taken { (read now : Option (List ℕ)) (given : List FilledItem) → HasReadFrom reader.old read now given
        → TakesNext reader.old reader.new read now given text.new result }
    ensures stands { IfOk result (λ _. StandsBy go_stepping (session_of reader.new)) }
    ensures unread { IfErr result (λ fault. fault ≢ Fault.Read) }
    ensures limits { limits_of (session_of reader.new) ≡ limits_of (session_of reader.old) }
{
    if pass_whole(reader, text)? {
        return Ok(true);
    }
    step_on(alloc, reader, text)
}

/// Makes the text of the item of a value that waits as a whole, in which no interface holds another, and goes past it.
/// False where there is none; the reader hasn't changed then, nor behind [`Memory`].
fn pass_whole(reader: &mut GoReader, text: &mut ItemText) -> Result<bool, Memory>
    ensures passed { PassesText reader.old reader.new text.new result }
{
    let Some(item) = whole_next(reader) else {
        return Ok(false);
    };
    let used = item.used;
    text.bytes.clear();
    text.bytes.extend_from_slice(&reader.bytes()[..used])?;
    text.definitions = 0;
    reader.pass(used);
    Ok(true)
}

/// The item of a value that waits as a whole, in which no interface holds another. None says nothing of what waits.
fn whole_next(reader: &GoReader) -> Option<Whole<'_>>
    ensures { IfSome result (λ item. IsWholeNext reader.now item.id item.body.now item.used) }
{
    let item = reader.whole()?;
    let depth = reader.limits().depth().min(Limits::GREATEST_DEPTH);
    if is_value(reader.table(), item.id, item.body, depth) {
        Some(item)
    } else {
        None
    }
}

/// Whether the body is that of a value of the type, no deeper than this. A false says nothing.
fn is_value(table: &Table, id: TypeId, body: &[u8], depth: u64) -> bool
    ensures { IsTrue result → IsWholeBody (types table.now) id depth body.now }
{
    is_whole(table, id, body, depth)
}

/// Takes some of the bytes that wait by a step.
fn step_on(alloc: Global, reader: &mut GoReader, text: &mut ItemText) -> Result<bool, Fault>
    requires some { 0 < length (waits_in reader.old) }
    requires so_far { HasReadSome reader.old }
    ensures taken { (read now : Option (List ℕ)) (given : List FilledItem) → HasReadFrom reader.old read now given
        → TakesNext reader.old reader.new read now given text.new result }
    ensures stands { IfOk result (λ _. StandsBy go_stepping (session_of reader.new)) }
    ensures unread { IfErr result (λ fault. fault ≢ Fault.Read) }
    ensures limits { limits_of (session_of reader.new) ≡ limits_of (session_of reader.old) }
{
    let Advance { item, .. } = reader.step(alloc)?;
    let Some(item) = item else {
        return Ok(false);
    };
    make_text(alloc, item, reader.table(), text)?;
    Ok(true)
}
