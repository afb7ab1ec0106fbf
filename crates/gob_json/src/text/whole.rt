//! The text of a whole item's value, and its line.

ghost use Rattle.std.specs.Prelude.{◌≡◌, ◌≤◌, ◌++◌, ◌∷◌, [], IsTrue, IfOk, OnErr, OnOk, false};
ghost use Rattle.serde_json.specs.Written.{compact_text};
ghost use Rattle.gob_value.specs.Top.{SpellsTop};
ghost use Rattle.gob_value.specs.Tree.{Tree, depth as DepthOf};
ghost use Rattle.gob_value.specs.Whole.{IsWhole};
ghost use Rattle.gob_json.specs.Json.{put_json};
ghost use Rattle.gob_json.specs.TextWhole.{LineOfWhole, head_text};
ghost use Rattle.gob_json.specs.Machine.Piece.{piece_text};
ghost use Rattle.gob_walk.specs.Told.{Reaches};

use super::exact::put_value;
use super::gathered::{Gathered, PartOut};
use super::leaf::put_natural;
use super::out::TextOut;
use super::piece::Piece;
use gob_num::Memory;
use gob_types::{Shapes, TypeId};
use gob_walk::WalkEnd;
use std::mem;

// How deep a value may be whose text is written: each level is a call within a call.
const MOST_DEPTH: u64 = 1000;

/// Appends the line of the item that puts the value of the type that the body spells. True says that the body is such
/// a value, no deeper than `depth`, and that its line stands. False says nothing, and the lines are as before; so they
/// are after [`Memory`]. Either the line is made in `room` first, or what waits is kept there: what is shorter.
pub fn line_of_whole<S: Shapes>(
    shapes: &S,
    id: TypeId,
    body: &[u8],
    depth: u64,
    room: &mut Vec<u8>,
    out: &mut Vec<u8>,
) -> Result<bool, Memory>
    ensures line { IfOk result (λ done. IsTrue done
        → LineOfWhole (S.table shapes.now) id depth body.now out.old.items out.new.items) }
    ensures same { IfOk result (λ done. done ≡ false → out.new.items ≡ out.old.items) }
    ensures err { OnErr result (out.new.items ≡ out.old.items) }
{
    match append_line(shapes, id, body, depth, room, out) {
        Ok(()) => Ok(true),
        Err(WalkEnd::NotWhole) => Ok(false),
        Err(WalkEnd::Out(memory)) => Err(memory),
    }
}

// Appends the line. After an error the lines are as before.
fn append_line<S: Shapes>(
    shapes: &S,
    id: TypeId,
    body: &[u8],
    depth: u64,
    room: &mut Vec<u8>,
    out: &mut Vec<u8>,
) -> Result<(), WalkEnd<Memory>>
    ensures ok { OnOk result (LineOfWhole (S.table shapes.now) id depth body.now out.old.items out.new.items) }
    ensures err { OnErr result (out.new.items ≡ out.old.items) }
{
    let most = depth.min(MOST_DEPTH);
    room.clear();
    if body.len() > out.len() {
        copy(out, room)?;
        let made = put_line::<S, Vec<u8>, false>(shapes, id, body, most, out);
        if made.is_err() {
            mem::swap(room, out);
        }
        return made;
    }
    put_line::<S, Vec<u8>, false>(shapes, id, body, most, room)?;
    Ok(copy(room, out)?)
}

// Appends the bytes. After an error the others are as before.
#[inline(always)]
fn copy(bytes: &[u8], to: &mut Vec<u8>) -> Result<(), Memory>
    ensures ok { OnOk result (to.new.items ≡ to.old.items ++ bytes.now) }
    ensures err { OnErr result (to.new.items ≡ to.old.items) }
{
    Ok(to.extend_from_slice(bytes)?)
}

/// Puts out the line of the item that puts the value of the type that the body spells, as is known of it. It takes no
/// memory, and nothing but the output can fail; then a prefix of the line is put out.
pub fn send_line<S: Shapes, O: TextOut>(
    shapes: &S,
    id: TypeId,
    body: &[u8],
    depth: u64,
    out: &mut O,
) -> Result<(), O::Fault>
    requires { depth ≤ 1000 }
    ensures { (v : Tree) → SpellsTop (S.table shapes.now) id v body.now → DepthOf v ≤ depth
        → O.puts out.old out.new (compact_text (put_json (S.table shapes.now) id v) ++ 10 ∷ []) result }
{
    let mut gathered = Gathered {
        waiting: Piece::new(),
        out,
    };
    let sent = send_gathered(shapes, id, body, depth, &mut gathered);
    let Gathered {
        waiting: _,
        out: _put_to,
    } = gathered;
    sent
}

// Puts out the line where nothing waits before it, and nothing behind it.
fn send_gathered<S: Shapes, O: TextOut>(
    shapes: &S,
    id: TypeId,
    body: &[u8],
    depth: u64,
    out: &mut Gathered<'_, O>,
) -> Result<(), O::Fault>
    requires depth { depth ≤ 1000 }
    requires empty { piece_text out.old.waiting ≡ [] }
    ensures { (v : Tree) → SpellsTop (S.table shapes.now) id v body.now → DepthOf v ≤ depth
        → (out.new.out.ghost_name ≡ out.old.out.ghost_name) × O.puts out.old.out.now out.new.out.now
        (compact_text (put_json (S.table shapes.now) id v) ++ 10 ∷ []) result }
{
    match put_line::<S, Gathered<'_, O>, true>(shapes, id, body, depth, out) {
        Ok(()) => out.flush(),
        Err(WalkEnd::Out(fault)) => Err(fault),
        Err(WalkEnd::NotWhole) => Ok(()),
    }
}

// Puts out the line of the item that puts the value of the type that the body spells. It may be known that it spells
// one; else it is looked at whether it does.
// line: {"type":ID,"value":TEXT}
fn put_line<S: Shapes, O: PartOut, const KNOWN: bool>(
    shapes: &S,
    id: TypeId,
    body: &[u8],
    depth: u64,
    out: &mut O,
) -> Result<(), WalkEnd<O::Fault>>
    requires { depth ≤ 1000 }
    ensures sent { (v : Tree) → SpellsTop (S.table shapes.now) id v body.now → DepthOf v ≤ depth
        → Reaches O.puts out.old out.new (compact_text (put_json (S.table shapes.now) id v) ++ 10 ∷ []) result }
    ensures whole { KNOWN ≡ false → OnOk result (IsWhole (S.table shapes.now) id depth body.now) }
{
    put_head(id, out)?;
    put_value::<S, O, KNOWN>(shapes, id, body, depth, out)?;
    Ok(put_end(out)?)
}

// Puts out what stands behind the value.
#[inline(always)]
fn put_end<O: PartOut>(out: &mut O) -> Result<(), O::Fault>
    ensures { O.puts out.old out.new (125 ∷ 10 ∷ []) result }
{
    out.put_mark(b'}')?;
    out.put_mark(b'\n')
}

/// Puts out what stands before the value in the line of an item of this type.
// head: {"type":ID,"value":
pub fn put_head<O: TextOut>(id: TypeId, out: &mut O) -> Result<(), O::Fault>
    ensures { O.puts out.old out.new (head_text id) result }
{
    out.put(b"{\"type\":")?;
    put_natural(id.0, out)?;
    out.put(b",\"value\":")
}
