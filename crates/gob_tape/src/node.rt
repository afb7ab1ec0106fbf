//! The nodes of a tape.

use gob_read::{GroupKind, RawKind};
use gob_types::Basic;
use std::marker::Model;

/// What a node says of its part, beside its number in a struct.
#[derive(Clone, Copy)]
pub(crate) enum Content {
    /// A part of a basic type: its unsigned number as spelled, or its patterns.
    Number(Basic, u64, u64),
    /// A part of raw bytes: where they begin in the pool, and how many there are.
    Raw(RawKind, usize, usize),
    /// A part with parts: how many elements, pairs or fields there are, and how many nodes, its own included.
    Group(GroupKind, usize, usize),
}

impl Content {
    ghost use Rattle.std.specs.Prelude.{◌≡◌};
    ghost use Rattle.std.specs.Prelude.{◌+◌, ◌-◌, ◌^◌, min};
    ghost use Rattle.gob_tape.specs.Machine.State.{ended, extent_of};

    /// Where the part ends whose node stands at this place.
    pub(crate) fn end(self, place: usize) -> usize
        ensures { result ≡ min (place + extent_of self) (2 ^ 64 - 1) }
    {
        match self {
            Content::Number(_, _, _) => place.saturating_add(1),
            Content::Raw(_, _, _) => place.saturating_add(1),
            Content::Group(_, _, nodes) => place.saturating_add(nodes),
        }
    }

    /// The content of a part that ends where there are so many nodes and so many raw bytes.
    pub(crate) fn ended(self, begun: Begun, nodes: usize, pool: usize) -> Content
        ensures { result ≡ ended self begun.parts begun.node nodes pool }
    {
        match self {
            Content::Number(kind, first, second) => Content::Number(kind, first, second),
            Content::Raw(kind, start, _) => Content::Raw(kind, start, pool.saturating_sub(start)),
            Content::Group(kind, _, _) => Content::Group(
                kind,
                count_of(kind, begun.parts),
                nodes.saturating_sub(begun.node),
            ),
        }
    }
}

ghost use Rattle.std.specs.Prelude.{◌≡◌};
ghost use Rattle.gob_tape.specs.Machine.State as state;

/// The elements, pairs or fields that so many parts are.
fn count_of(kind: GroupKind, parts: usize) -> usize
    ensures { result ≡ state.count_of kind parts }
{
    match kind {
        GroupKind::Many => parts,
        GroupKind::Pairs => parts / 2,
        GroupKind::Fields => parts,
    }
}

/// The kind of a part, by which its two numbers are understood.
#[derive(Clone, Copy)]
pub(crate) enum PartKind {
    Number(Basic),
    Raw(RawKind),
    Group(GroupKind),
}

/// One part of a value, which contracts see as its number in a struct and its content. Kept in 24 bytes, as a tape has
/// a node for each part.
#[derive(Clone, Copy)]
pub(crate) struct Node {
    first: u64,
    second: u64,
    /// Its number, where it is a field; else 0.
    number: u32,
    kind: PartKind,
    /// Whether it is a field of a struct.
    named: bool,
}

impl Model for Node {
    ghost use Rattle.gob_tape.specs.Machine.Noted.{Noted};

    ghost Value = { Noted };

    ghost use Rattle.gob_tape.specs.Machine.Packing.{noted, packed, IsPacked, packed_back};

    ghost view = { noted };

    ghost invariant = { IsPacked };

    ghost inverse = { packed };

    ghost inverse_ok = { packed_back };
}

impl Node {
    ghost use Rattle.std.specs.Prelude.{◌≡◌};
    ghost use Rattle.gob_tape.specs.Meaning.{node};

    /// A node of a part with this number in a struct, or in none.
    pub(crate) fn new(field: Option<u32>, content: Content) -> Node
        ensures { result ≡ node field content }
    {
        let (kind, first, second) = match content {
            Content::Number(kind, first, second) => (PartKind::Number(kind), first, second),
            Content::Raw(kind, start, count) => (PartKind::Raw(kind), start as u64, count as u64),
            Content::Group(kind, count, nodes) => (
                PartKind::Group(kind),
                count as u64,
                nodes as u64,
            ),
        };
        Node {
            first,
            second,
            number: field.unwrap_or(0),
            kind,
            named: field.is_some(),
        }
    }

    /// Its number, where it is a field of a struct.
    pub(crate) fn field(self) -> Option<u64>
        ensures { result ≡ self.field }
    {
        if self.named {
            Some(self.number as u64)
        } else {
            None
        }
    }

    /// That number, as a node keeps it.
    pub(crate) fn kept_field(self) -> Option<u32>
        ensures { result ≡ self.field }
    {
        if self.named { Some(self.number) } else { None }
    }

    /// What it says of its part.
    pub(crate) fn content(self) -> Content
        ensures { result ≡ self.content }
    {
        match self.kind {
            PartKind::Number(kind) => Content::Number(kind, self.first, self.second),
            PartKind::Raw(kind) => Content::Raw(kind, self.first as usize, self.second as usize),
            PartKind::Group(kind) => Content::Group(
                kind,
                self.first as usize,
                self.second as usize,
            ),
        }
    }
}

/// A part that has begun and not ended.
#[derive(Clone, Copy)]
pub(crate) struct Begun {
    /// The place of its node.
    pub(crate) node: usize,
    /// How many parts in it have ended.
    pub(crate) parts: usize,
}
