//! The nodes and the bytes of a value that may hold others.

ghost use Rattle.std.specs.Prelude.{◌≡◌, ◌++◌, ◌∷◌, ℕ, List, [], IfOk, OnOk, length, map, set};
ghost use Rattle.gob_types.specs.Defined.{types};
ghost use Rattle.gob_types.specs.declared.id.TypeId.{TypeId};
ghost use Rattle.gob_tape.specs.FlatNodes.{flat};
ghost use Rattle.gob_filled.specs.Filled as spelled;
ghost use Rattle.gob_go.specs.Meaning.{AreFillings, IsFilled};
ghost use Rattle.gob_go.specs.declared.filled.Filling.{out-Filling};
ghost use Rattle.gob_json_writer.specs.Gaps.{AreGaps};
ghost use Rattle.gob_handed.specs.ValueNodes.{PutsValue, PutsFillings, PutsHeld, behind, begun, text_node};
ghost use Rattle.gob_handed.specs.Machine.Putting.{HoldsNil};

use crate::kinds::{BYTES, HELD, NIL, OPAQUE, TEXT};
use gob_go::{Filled, Filling};
use gob_json_writer::{gaps_of, tape_of};
use gob_num::Memory;
use gob_tape::{FlatNode, Tape};
use gob_types::{Table, TypeId};
use std::alloc::Global;

const NO_NODE: FlatNode = FlatNode {
    first: 0,
    second: 0,
    number: 0,
    kind: 0,
    named: 0,
};

/// Nodes and bytes.
#[derive(Drop)]
pub struct FlatValue {
    pub(crate) nodes: Vec<FlatNode>,
    pub(crate) pool: Vec<u8>,
}

impl FlatValue {
    /// None.
    pub(crate) fn new(alloc: Global) -> FlatValue
        ensures nodes { result.nodes.items ≡ [] }
        ensures pool { result.pool.items ≡ [] }
    {
        FlatValue {
            nodes: Vec::new(alloc),
            pool: Vec::new(alloc),
        }
    }
}

/// Appends the nodes and the bytes of a value of the type. Recursion is as deep as values hold one another. `Memory`
/// also where it is no value of the type.
#[cycle(flat)]
pub(crate) fn push_value(
    alloc: Global,
    table: &Table,
    id: TypeId,
    value: &Filled,
    out: &mut FlatValue,
) -> Result<(), Memory>
    ensures { OnOk result ((w : spelled.Filled) → IsFilled (types table.now) id value.now w
        → PutsValue (types table.now) id w out.old.nodes.items out.old.pool.items out.new.nodes.items
        out.new.pool.items) }
{
    if !table.kept(id) {
        return Err(Memory);
    }
    let tape = tape_of(alloc, table, id, &value.skeleton)?;
    let gaps = gaps_of(alloc, table, id, &value.skeleton, &value.fillings)?;
    let first = out.nodes.len();
    push_tape(tape, out)?;
    push_fillings(alloc, table, first, &value.fillings, &gaps, out)
}

/// Appends what fills nils of a value whose nodes begin at this place: each stands so many nodes behind the one before.
#[cycle(flat)]
fn push_fillings(
    alloc: Global,
    table: &Table,
    first: usize,
    fillings: &[Filling],
    gaps: &[u64],
    out: &mut FlatValue,
) -> Result<(), Memory>
    ensures { OnOk result ((t : TypeId) (b : List ℕ) (fs : spelled.Fillings)
        → AreGaps (types table.now) t b 0 fillings.now gaps.now → AreFillings (types table.now) fillings.now fs
        → PutsFillings (types table.now) t b first fs out.old.nodes.items out.old.pool.items out.new.nodes.items
        out.new.pool.items) }
{
    let mut next = first;
    'fillings: for place in 0..fillings.len() {
        let filling = &fillings[place];
        if place >= gaps.len() {
            return Err(Memory);
        }
        let Some(nil) = (next as u64).checked_add(gaps[place]) else {
            return Err(Memory);
        };
        let Some(onward) = nil.checked_add(1) else {
            return Err(Memory);
        };
        push_filling(alloc, table, nil as usize, filling, out)?;
        next = onward as usize;
    }
    Ok(())
}

/// Appends what fills the nil whose node stands at this place.
#[cycle(flat)]
fn push_filling(
    alloc: Global,
    table: &Table,
    nil: usize,
    filling: &Filling,
    out: &mut FlatValue,
) -> Result<(), Memory>
    ensures { OnOk result ((w : spelled.Filled)
        → IsFilled (types table.now) (out-Filling filling.now).id (out-Filling filling.now).value w
        → PutsHeld (types table.now) nil (out-Filling filling.now).name.items (out-Filling filling.now).id w
        out.old.nodes.items out.old.pool.items out.new.nodes.items out.new.pool.items) }
{
    hold(nil, filling.id, out)?;
    push_name(&filling.name, out)?;
    push_value(alloc, table, filling.id, &filling.value, out)
}

/// Makes the nil at this place an interface that holds a value of the type, which is put behind all nodes.
fn hold(nil: usize, id: TypeId, out: &mut FlatValue) -> Result<(), Memory>
    ensures nodes { OnOk result (HoldsNil nil id out.old.nodes.items out.new.nodes.items) }
    ensures pool { OnOk result (out.new.pool.items ≡ out.old.pool.items) }
{
    let count = out.nodes.len();
    if nil >= count {
        return Err(Memory);
    }
    let old = out.nodes[nil];
    if old.kind != NIL {
        return Err(Memory);
    }
    out.nodes[nil] = FlatNode {
        first: (count - nil) as u64,
        second: id.0,
        number: old.number,
        kind: HELD,
        named: old.named,
    };
    Ok(())
}

/// Appends a node of the name.
fn push_name(name: &[u8], out: &mut FlatValue) -> Result<(), Memory>
    ensures nodes { OnOk result (out.new.nodes.items
        ≡ out.old.nodes.items ++ text_node (length out.old.pool.items) name.now ∷ []) }
    ensures pool { OnOk result (out.new.pool.items ≡ out.old.pool.items ++ name.now) }
{
    out.nodes.push(FlatNode {
        first: out.pool.len() as u64,
        second: name.len() as u64,
        number: 0,
        kind: TEXT,
        named: 0,
    })?;
    Ok(out.pool.extend_from_slice(name)?)
}

/// Appends the nodes and the bytes of a tape.
fn push_tape(tape: Tape, out: &mut FlatValue) -> Result<(), Memory>
    ensures nodes { OnOk result (out.new.nodes.items
        ≡ out.old.nodes.items ++ map (behind (length out.old.pool.items)) (map flat tape.nodes)) }
    ensures pool { OnOk result (out.new.pool.items ≡ out.old.pool.items ++ tape.pool) }
{
    let more = out.pool.len() as u64;
    out.pool.extend_from_slice(tape.pool())?;
    let first = out.nodes.len();
    let count = tape.node_count();
    let all = first.checked_add(count).ok_or(Memory)?;
    out.nodes.resize(all, NO_NODE)?;
    tape.move_flat(&mut out.nodes[first..]);
    put_behind(more, &mut out.nodes[first..])
}

/// Puts each node behind so many other bytes.
fn put_behind(more: u64, nodes: &mut [FlatNode]) -> Result<(), Memory>
    ensures { OnOk result (nodes.new ≡ map (behind more) nodes.old) }
{
    'nodes: for place in 0..nodes.len() {
        nodes[place] = behind(more, nodes[place])?;
    }
    Ok(())
}

/// The node, whose bytes stand behind so many others.
fn behind(more: u64, node: FlatNode) -> Result<FlatNode, Memory>
    ensures { IfOk result (λ n. n ≡ behind more node) }
{
    let first = begun(more, node.kind, node.first)?;
    Ok(FlatNode {
        first,
        second: node.second,
        number: node.number,
        kind: node.kind,
        named: node.named,
    })
}

/// Where the bytes begin of a node of this kind, behind so many others.
fn begun(more: u64, kind: u16, first: u64) -> Result<u64, Memory>
    ensures { IfOk result (λ n. n ≡ begun more kind first) }
{
    if kind == BYTES || kind == TEXT || kind == OPAQUE {
        return more.checked_add(first).ok_or(Memory);
    }
    Ok(first)
}
