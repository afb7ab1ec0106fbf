//! A tape in words that programs in other languages read: its flat nodes, and its pool. (docs/LIBRARY.md, Flat nodes.)

ghost use Rattle.std.specs.Prelude.{◌≡◌, ◌≤◌, ◌++◌, length, map, drop};
ghost use Rattle.gob_tape.specs.FlatNodes.{flat, number_code, raw_code, group_code};

use crate::node::{Content, Node};
use crate::tape::Tape;
use gob_read::{GroupKind, RawKind};
use gob_types::Basic;

/// A node of a tape, laid out as C has it. By its kind the other words are understood.
#[repr(C)]
#[derive(Clone, Copy)]
pub struct FlatNode {
    /// Of a part that is told by its numbers the first; of raw bytes where they begin in the pool, from 0; else
    /// how many elements, pairs or fields there are.
    pub first: u64,
    /// Of a part that is told by its numbers the second; of raw bytes how many there are; else how many nodes the part
    /// has, its own among them.
    pub second: u64,
    /// Its number in its struct, from 0, where it is a field; else 0.
    pub number: u32,
    /// 1 bool, 2 int, 3 uint, 4 float, 5 bytes, 6 string, 7 complex, 8 nil, 9 list, 10 map, 11 struct, 12 opaque. The
    /// first eight are the type ids of the basic types.
    pub kind: u16,
    /// 1 where it is a field of a struct, else 0.
    pub named: u16,
}

// After so many nodes the memory of those that were moved is given back.
const GIVEN_BACK: usize = 65536;

impl Tape {
    /// How many nodes there are.
    pub fn node_count(&self) -> usize
        ensures { result ≡ length self.now.nodes }
    {
        self.nodes.len()
    }

    /// The raw bytes of all parts, in the order of the parts.
    pub fn pool(&self) -> &[u8]
        ensures { result.now ≡ self.now.pool }
    {
        &self.pool
    }

    /// Moves the words of all nodes to the front of `out`, the last one first. The memory of those that were moved is
    /// given back meanwhile: so tape and words take little more than one of the two. The pool goes with the tape.
    pub fn move_flat(self, out: &mut [FlatNode])
        requires { length self.nodes ≤ length out.old }
        ensures written { out.new ≡ map flat self.nodes ++ drop (length self.nodes) out.old }
        ensures length { length out.new ≡ length out.old }
    {
        let Tape { nodes, pool, .. } = self;
        drop(pool);
        move_nodes(nodes, out);
    }
}

// Moves the words of the nodes to the front of `out`.
fn move_nodes(nodes: Vec<Node>, out: &mut [FlatNode])
    requires { length nodes.items ≤ length out.old }
    ensures { out.new ≡ map flat nodes.items ++ drop (length nodes.items) out.old }
{
    let mut left = nodes;
    'nodes: while let Some(node) = left.pop() {
        let place = left.len();
        out[place] = flatten(node);
        if place % GIVEN_BACK == 0 {
            left.shrink_to_fit();
        }
    }
}

// The words of a node.
fn flatten(node: Node) -> FlatNode
    ensures { result ≡ flat node }
{
    let (kind, first, second) = match node.content() {
        Content::Number(kind, first, second) => (number_code(kind), first, second),
        Content::Raw(kind, start, count) => (raw_code(kind), start as u64, count as u64),
        Content::Group(kind, count, nodes) => (group_code(kind), count as u64, nodes as u64),
    };
    let field = node.kept_field();
    FlatNode {
        first,
        second,
        number: field.unwrap_or(0),
        kind,
        named: field.is_some() as u16,
    }
}

// The code of a part that is told by its numbers.
fn number_code(kind: Basic) -> u16
    ensures { result ≡ number_code kind }
{
    match kind {
        Basic::Bool => 1,
        Basic::Int => 2,
        Basic::Uint => 3,
        Basic::Float => 4,
        Basic::Bytes => 5,
        Basic::Str => 6,
        Basic::Complex => 7,
        Basic::Interface => 8,
    }
}

// The code of a part of raw bytes.
fn raw_code(kind: RawKind) -> u16
    ensures { result ≡ raw_code kind }
{
    match kind {
        RawKind::Bytes => 5,
        RawKind::Str => 6,
        RawKind::Opaque => 12,
    }
}

// The code of a part that has parts.
fn group_code(kind: GroupKind) -> u16
    ensures { result ≡ group_code kind }
{
    match kind {
        GroupKind::Many => 9,
        GroupKind::Pairs => 10,
        GroupKind::Fields => 11,
    }
}
