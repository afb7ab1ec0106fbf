//! What interfaces hold: what stands in front of a value.

ghost use Rattle.std.specs.Prelude.{◌≡◌, ◌+◌, ◌<◌, ◌^◌, ℕ, List, IfErr, IfOk, IsTrue, OnOk};
ghost use Rattle.gob_num.specs.Spelled.{Appends};
ghost use Rattle.gob_types.specs.Defined.{types};
ghost use Rattle.gob_types.specs.declared.id.TypeId.{TypeId as Id};
ghost use Rattle.gob_stream.specs.Body.{MayPut};
ghost use Rattle.gob_nodes.specs.Calls.{ReadsIt, SpellsHeld, known, nodes_of, pool_of};
ghost use Rattle.gob_nodes.specs.Nodes.{IsWrong};
ghost use Rattle.gob_nodes.specs.Says.{IsHeldAt};

use crate::fault::NodesFault;
use crate::nodes::{HELD, TEXT};
use crate::part::put_bytes;
use crate::value::{Places, Walk};
use gob_num::write_int;
use gob_types::{Table, TypeId};
use std::alloc::Global;

/// The type of what an interface holds.
#[derive(Clone, Copy)]
pub(crate) struct Held<'a> {
    /// Its name, of one byte at least.
    pub(crate) name: &'a [u8],
    /// Its number.
    pub(crate) id: TypeId,
}

/// The type of what the next node's interface holds, of which values may stand in interfaces. Its name stands at the
/// place of what is held next.
pub(crate) fn take_held<'a>(walk: &Walk<'a>, places: &Places) -> Result<Held<'a>, NodesFault>
    ensures next { OnOk result (places.now.held + 1 < 2 ^ 64) }
    ensures there { IfOk result (λ held. IsHeldAt (nodes_of walk.now) (pool_of walk.now) places.now.at places.now.held
        held.id held.name.now) }
    ensures may { IfOk result (λ held. MayPut (known walk.now) held.id) }
    ensures small { IfOk result (λ held. held.id.0 < 2 ^ 63) }
    ensures whole { (id : Id) (name : List ℕ) → IsHeldAt (nodes_of walk.now) (pool_of walk.now) places.now.at
        places.now.held id name → MayPut (known walk.now) id → id.0 < 2 ^ 63
        → ReadsIt {B = List ℕ × Id} (λ held. (held.name.now, held.id)) result (name, id) }
{
    let at = places.at;
    let node = walk.given.node_of(at, HELD)?;
    if (at as u64).checked_add(node.first) != Some(places.held as u64) {
        return Err(NodesFault::Wrong(at));
    }
    let text = walk.given.node_of(places.held, TEXT)?;
    let name = walk.given.bytes_of(places.held, text)?;
    if name.is_empty() {
        return Err(NodesFault::Wrong(places.held));
    }
    let id = TypeId(node.second);
    if !may_hold(walk.table, id) {
        return Err(NodesFault::Wrong(at));
    }
    Ok(Held { name, id })
}

/// Whether values of the type may stand in interfaces, and its number is that of a type in a stream.
fn may_hold(table: &Table, id: TypeId) -> bool
    ensures may { IsTrue result → MayPut (types table.now) id }
    ensures small { IsTrue result → id.0 < 2 ^ 63 }
    ensures whole { MayPut (types table.now) id → id.0 < 2 ^ 63 → IsTrue result }
{
    if id.0 > i64::MAX as u64 || id.0 == TypeId::GOB_ENCODER_TYPE.0 {
        return false;
    }
    table.kept(id)
}

/// Puts what an interface holds: the name of its type, its type's number, and its bytes behind their count.
// held: count name number count body
pub(crate) fn put_held(
    alloc: Global,
    held: Held<'_>,
    body: &[u8],
    out: &mut Vec<u8>,
) -> Result<(), NodesFault>
    requires { held.id.0 < 2 ^ 63 }
    ensures ok { OnOk result (Appends (SpellsHeld held.entry.name.now held.entry.id body.now)
        out.old.items out.new.items) }
    ensures memory { IfErr result (λ f. ¬ IsWrong f) }
{
    put_bytes(alloc, held.name, out)?;
    write_int(alloc, held.id.0 as i64, out)?;
    put_bytes(alloc, body, out)
}
