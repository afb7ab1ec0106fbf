//! The tidy form of a value that waits as a whole, straight from its bytes.

ghost use Rattle.std.specs.Prelude.{◌≡◌, [], Bool, IfOk, IfSome, IsTrue, MatchOption, min};
ghost use Rattle.gob_num.specs.Unsigned.{AreBytes};
ghost use Rattle.gob_types.specs.Defined.{types};
ghost use Rattle.gob_tidy.specs.TidiedWhole.{TidiesWhole};
ghost use Rattle.gob_stream.specs.Bounds.{greatest_depth};
ghost use Rattle.gob_go.specs.Calls.Reader.{session_of};
ghost use Rattle.gob_go.specs.Calls.Session.{limits_of};
ghost use Rattle.gob_tool.specs.Machine.FormsGo.{IsFormOf, IsUnfilled, IsWholeForm};
ghost use Rattle.gob_tool.specs.RewritingGo.{IsRewritten};
ghost use Rattle.gob_tool.specs.TextsGo.{IsWholeText};

use gob_go::{Filled, GoItem, GoReader};
use gob_go_writer::write_item;
use gob_num::Memory;
use gob_stream::Limits;
use gob_tidy::tidy_whole;
use gob_types::{Table, TypeId};
use std::alloc::Global;

/// Makes the bytes of the tidy form of the item of a value that waits as a whole, and in which no interface holds
/// another, in `text`, which is empty, and answers how many bytes the item has. None says nothing of what waits.
pub(crate) fn push_whole_form(
    alloc: Global,
    reader: &GoReader,
    text: &mut Vec<u8>,
) -> Result<Option<usize>, Memory>
    requires { text.old.items ≡ [] }
    ensures { IfOk result (λ found. MatchOption found (text.new.items ≡ [])
        (λ used. (hoist : Bool) → IsWholeText (IsRewritten hoist) reader.now used text.new.items)) }
{
    let Some(whole) = whole_form(alloc, reader)? else {
        return Ok(None);
    };
    let WholeForm { form, used } = whole;
    let written = write_item(alloc, reader.table(), &form, text);
    drop(form);
    written?;
    Ok(Some(used))
}

/// The tidy form of an item that waits.
struct WholeForm {
    /// The form.
    form: GoItem,
    /// How many bytes the item has.
    used: usize,
}

/// The tidy form of the item of a value that waits as a whole, and in which no interface holds another. None says
/// nothing of what waits.
fn whole_form(alloc: Global, reader: &GoReader) -> Result<Option<WholeForm>, Memory>
    ensures { IfOk result (λ found. IfSome found (λ whole. IsWholeForm reader.now whole.used whole.form)) }
{
    let Some(item) = reader.whole() else {
        return Ok(None);
    };
    let depth = whole_depth(reader);
    let Some(form) = form_of(alloc, reader.table(), item.id, item.body, depth)? else {
        return Ok(None);
    };
    Ok(Some(WholeForm {
        form,
        used: item.used,
    }))
}

/// The item of the tidy form of the value of the type that the body spells, if none of its parts is deeper than
/// `depth`. None says nothing of the body.
fn form_of(
    alloc: Global,
    table: &Table,
    id: TypeId,
    body: &[u8],
    depth: u64,
) -> Result<Option<GoItem>, Memory>
    ensures { IfOk result (λ found. IfSome found (λ form. IsFormOf (types table.now) id depth body.now form)) }
{
    let mut skeleton = Vec::new(alloc);
    if !tidy_body(alloc, table, id, body, depth, &mut skeleton)? {
        return Ok(None);
    }
    Ok(Some(unfilled(alloc, id, skeleton)))
}

/// Makes in `tidied` the bytes of the tidy form of the value of the type that the body spells, as [`tidy_whole`] does.
fn tidy_body(
    alloc: Global,
    table: &Table,
    id: TypeId,
    body: &[u8],
    depth: u64,
    tidied: &mut Vec<u8>,
) -> Result<bool, Memory>
    ensures tidied { IfOk result (λ found. IsTrue found
        → TidiesWhole (types table.now) id depth body.now tidied.new.items) }
    ensures bytes { AreBytes tidied.new.items }
{
    tidy_whole(alloc, table, id, body, depth, tidied)
}

/// The item of the value of the type that has this skeleton, of which no nil is filled.
fn unfilled(alloc: Global, id: TypeId, skeleton: Vec<u8>) -> GoItem
    ensures { IsUnfilled id skeleton.items result }
{
    let value = Filled {
        skeleton,
        fillings: Vec::new(alloc),
    };
    GoItem::Put { id, value }
}

/// How deep a value that waits as a whole may be: no deeper than one that the session reads.
pub(crate) fn whole_depth(reader: &GoReader) -> u64
    ensures { result ≡ min (limits_of (session_of reader.now)).depth greatest_depth }
{
    reader.limits().depth().min(Limits::GREATEST_DEPTH)
}
