//! The line of the item of a value, straight from the bytes.

ghost use Rattle.std.specs.Prelude.{◌≡◌, ◌≤◌, [], IsTrue, IfOk, OnErr, OnOk, false};
ghost use Rattle.gob_types.specs.Defined.{types};
ghost use Rattle.gob_stream.specs.Bounds.{greatest_depth};
ghost use Rattle.gob_filled_walk.specs.FilledLine.{FilledLine};
ghost use Rattle.gob_filled_walk.specs.HeldText.{PutsFilled};

use crate::walk::walk_filled;
use gob_json::{Exact, PartOut, TextOut, put_head};
use gob_num::Memory;
use gob_types::{Table, TypeId};
use gob_walk::WalkEnd;

/// Makes the line of the item that puts the value of the type that the body is, whatever its interfaces hold, in
/// `line`, which is empty. True says that the body is such a value, no deeper than `depth`, which defines nothing, and
/// that its line stands. False says nothing of the body, and leaves `line` empty.
pub fn line_of_filled(
    table: &Table,
    id: TypeId,
    body: &[u8],
    depth: u64,
    line: &mut Vec<u8>,
) -> Result<bool, Memory>
    requires depth { depth ≤ greatest_depth }
    requires empty { line.old.items ≡ [] }
    ensures line { IfOk result (λ done. IsTrue done
        → FilledLine (types table.now) id depth body.now line.new.items) }
    ensures none { IfOk result (λ done. done ≡ false → line.new.items ≡ []) }
{
    match put_line(table, id, body, depth, line) {
        Ok(()) => Ok(true),
        Err(WalkEnd::NotWhole) => {
            line.clear();
            Ok(false)
        }
        Err(WalkEnd::Out(memory)) => Err(memory),
    }
}

// Makes the line. After an error some of it may stand.
// line: {"type":ID,"value":TEXT}
fn put_line(
    table: &Table,
    id: TypeId,
    body: &[u8],
    depth: u64,
    line: &mut Vec<u8>,
) -> Result<(), WalkEnd<Memory>>
    requires depth { depth ≤ greatest_depth }
    requires empty { line.old.items ≡ [] }
    ensures { OnOk result (FilledLine (types table.now) id depth body.now line.new.items) }
{
    put_head(id, line)?;
    put_filled(table, id, body, depth, line)?;
    Ok(line.put(b"}\n")?)
}

// Puts out the exact text of the value.
fn put_filled<O: PartOut>(
    table: &Table,
    id: TypeId,
    body: &[u8],
    depth: u64,
    out: &mut O,
) -> Result<(), WalkEnd<O::Fault>>
    requires { depth ≤ greatest_depth }
    ensures { OnOk result (PutsFilled O.puts (types table.now) id depth body.now out.old out.new) }
{
    let mut exact = Exact { out };
    let held = walk_filled::<Exact<'_, O>>(table, id, body, depth, &mut exact);
    let Exact { out: _put_to } = exact;
    held
}
