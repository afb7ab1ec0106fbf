//! Places in the room that is given for nodes and bytes.

ghost use Rattle.std.specs.Prelude.{◌≡◌, ◌≤◌, ◌++◌, drop, length};

use gob_tape::FlatNode;

// After so many nodes the memory of those that were moved is given back.
const GIVEN_BACK: usize = 65536;

/// How much of the room is taken.
#[derive(Clone, Copy)]
pub(crate) struct RoomTaken {
    /// How many nodes.
    pub(crate) nodes: usize,
    /// How many bytes.
    pub(crate) bytes: usize,
}

/// The front of the room.
pub(crate) const FRONT: RoomTaken = RoomTaken { nodes: 0, bytes: 0 };

impl RoomTaken {
    ghost use Rattle.std.specs.Prelude.{◌≡◌, ◌↔◌, ◌+◌, ◌≤◌, ◌∷◌, [], IfSome, IsSome, IsTrue, length, take};
    ghost use Rattle.gob_handed.specs.Puts.{PutsNodes, PutsBytes};

    /// The place behind a node that is put here; None where there is no room for it.
    pub(crate) fn node(self, out: &mut [FlatNode], node: FlatNode) -> Option<RoomTaken>
        ensures put { IfSome result (λ to. PutsNodes self to out.old out.new (node ∷ [])) }
        ensures bytes { IfSome result (λ to. to.bytes ≡ self.bytes) }
        ensures room { self.nodes + 1 ≤ length out.old → IsSome result }
        ensures kept { take self.nodes out.new ≡ take self.nodes out.old }
        ensures length { length out.new ≡ length out.old }
    {
        if self.nodes >= out.len() {
            return None;
        }
        out[self.nodes] = node;
        Some(RoomTaken {
            nodes: self.nodes + 1,
            bytes: self.bytes,
        })
    }

    /// The place behind nodes that are put here; None where there is no room for them.
    pub(crate) fn nodes(self, out: &mut [FlatNode], nodes: Vec<FlatNode>) -> Option<RoomTaken>
        ensures put { IfSome result (λ to. PutsNodes self to out.old out.new nodes.items) }
        ensures bytes { IfSome result (λ to. to.bytes ≡ self.bytes) }
        ensures room { self.nodes + length nodes.items ≤ length out.old → IsSome result }
        ensures kept { take self.nodes out.new ≡ take self.nodes out.old }
        ensures length { length out.new ≡ length out.old }
    {
        if self.nodes > out.len() || nodes.len() > out.len() - self.nodes {
            return None;
        }
        let end = self.nodes + nodes.len();
        move_nodes(nodes, &mut out[self.nodes..]);
        Some(RoomTaken {
            nodes: end,
            bytes: self.bytes,
        })
    }

    /// Whether there is room for so much more in so many nodes and bytes.
    pub(crate) fn has_room(self, more: RoomTaken, nodes: usize, bytes: usize) -> bool
        ensures { IsTrue result ↔ ((self.nodes + more.nodes ≤ nodes) × (self.bytes + more.bytes ≤ bytes)) }
    {
        self.nodes <= nodes
            && more.nodes <= nodes - self.nodes
            && self.bytes <= bytes
            && more.bytes <= bytes - self.bytes
    }

    /// The place behind bytes that are put here; None where there is no room for them.
    pub(crate) fn bytes(self, pool: &mut [u8], bytes: &[u8]) -> Option<RoomTaken>
        ensures put { IfSome result (λ to. PutsBytes self to pool.old pool.new bytes.now) }
        ensures nodes { IfSome result (λ to. to.nodes ≡ self.nodes) }
        ensures room { self.bytes + length bytes.now ≤ length pool.old → IsSome result }
        ensures kept { take self.bytes pool.new ≡ take self.bytes pool.old }
        ensures length { length pool.new ≡ length pool.old }
    {
        if self.bytes > pool.len() || bytes.len() > pool.len() - self.bytes {
            return None;
        }
        let end = self.bytes + bytes.len();
        pool[self.bytes..end].copy_from_slice(bytes);
        Some(RoomTaken {
            nodes: self.nodes,
            bytes: end,
        })
    }
}

// Moves the nodes to the front of `out`, the last one first, and gives their memory back meanwhile.
fn move_nodes(nodes: Vec<FlatNode>, out: &mut [FlatNode])
    requires { length nodes.items ≤ length out.old }
    ensures { out.new ≡ nodes.items ++ drop (length nodes.items) out.old }
{
    let mut left = nodes;
    'nodes: while let Some(node) = left.pop() {
        let place = left.len();
        out[place] = node;
        if place % GIVEN_BACK == 0 {
            left.shrink_to_fit();
        }
    }
}
