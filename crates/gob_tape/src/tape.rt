//! Tapes: their views, and their spelling.

ghost use Rattle.std.specs.Prelude.{◌≡◌, ℕ, ◌≤◌, List, ◌++◌, None, OnOk, OnErr, IfOk};
ghost use Rattle.gob_types.specs.declared.id.TypeId.{TypeId};
ghost use Rattle.gob_types.specs.Table.{Table};
ghost use Rattle.gob_value.specs.Tree.{Tree, depth as depth_of};
ghost use Rattle.gob_value.specs.Spelling.{Spells};

use crate::node::Node;
use crate::spelling::write_nodes;
use crate::values::{take_part, values_of};
use crate::view::View;
use gob_num::Memory;
use gob_value::Value;
use std::alloc::Global;
use std::marker::Model;

/// A value, kept flat. It means the value of which a [`TapeBuilder`](crate::TapeBuilder) was told, and there is no tape
/// that means none. (docs/LIBRARY.md, Tapes.)
#[derive(Drop)]
pub struct Tape {
    /// A node for each part, in the order of their first bytes.
    pub(crate) nodes: Vec<Node>,
    /// The raw bytes of all parts, in the same order.
    pub(crate) pool: Vec<u8>,
    /// The depth of the value.
    pub(crate) depth: u64,
}

impl Model for Tape {
    ghost use Rattle.std.specs.Coded.{codes};
    ghost use Rattle.gob_tape.specs.Flat.{Flat};
    ghost use Rattle.gob_tape.specs.Meaning.{MeansSome};

    ghost Value = { Flat };

    ghost coded = { Prim.hlevel codes };

    ghost view = { λ tape. record { nodes = tape.nodes.items; pool = tape.pool.items; depth = tape.depth } };

    // It means some value.
    ghost invariant = { λ tape. MeansSome (record {
      nodes = tape.nodes.items;
      pool = tape.pool.items;
      depth = tape.depth;
    }) };
}

impl Tape {
    ghost use Rattle.gob_value.specs.View.{view};
    ghost use Rattle.gob_tape.specs.Meaning.{Means, MeansSome};
    ghost use Rattle.gob_tape.specs.Seeing.{Sees};

    /// A view of the whole value.
    pub fn root(&self) -> View<'_>
        ensures { (v : Tree) → Means self.now v → Sees result None v }
    {
        View {
            nodes: &self.nodes,
            pool: &self.pool,
            place: 0,
        }
    }

    /// The depth of the value, of which there is one.
    pub fn depth(&self) -> u64
        ensures some { MeansSome self.now }
        ensures depth { (v : Tree) → Means self.now v → result ≡ depth_of v }
    {
        self.depth
    }

    /// Appends the spelling of the value, at each type that it fits, without a tag. It goes over the nodes once, and
    /// takes no more of the machine's stack for a deep value than for a flat one. After `Memory` the vector holds
    /// what it held.
    pub fn spell_tape(&self, alloc: Global, out: &mut Vec<u8>) -> Result<(), Memory>
        ensures ok { OnOk result ((T : Table) (t : TypeId) (v : Tree) (b : List ℕ)
            → Means self.now v → Spells T t v b → out.new.items ≡ out.old.items ++ b) }
        ensures err { OnErr result (out.new.items ≡ out.old.items) }
    {
        let start = out.len();
        match write_nodes(alloc, &self.nodes, &self.pool, out) {
            Ok(()) => Ok(()),
            Err(_) => {
                out.truncate(start);
                Err(Memory)
            }
        }
    }

    /// The value, as a tree. It is at most 1000 deep, since a tree is let go of by recursion. Making it doesn't
    /// recurse.
    pub fn to_value(&self, alloc: Global) -> Result<Value, Memory>
        requires { (v : Tree) → Means self.now v → depth_of v ≤ 1000 }
        ensures { IfOk result (λ value. (v : Tree) → Means self.now v → view value ≡ v) }
    {
        let mut parts = values_of(alloc, &self.nodes, &self.pool)?;
        let (_, value) = take_part(&mut parts);
        Ok(value)
    }
}
