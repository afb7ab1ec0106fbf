//! Views of the parts of a tape.

ghost use Rattle.std.specs.Prelude.{◌≡◌, ℕ, ◌<◌, List, Option, length};
ghost use Rattle.gob_value.specs.Tree.{Tree};

use crate::kind::{ValueKind, group_kind, number_kind, raw_kind};
use crate::node::{Content, Node};
use crate::raw::raw_bytes;

/// A view of one part of a tape, with all that is in it. What it shows is that of the value that the part means, and
/// nothing that it does takes memory.
#[derive(Clone, Copy)]
pub struct View<'a> {
    pub(crate) nodes: &'a [Node],
    pub(crate) pool: &'a [u8],
    pub(crate) place: usize,
    ghost inside: { place < length nodes.now },
}

/// The parts of a part that are to come, in order. It goes from each to the next at once, whatever is in it.
#[derive(Clone, Copy)]
pub struct Children<'a> {
    pub(crate) nodes: &'a [Node],
    pub(crate) pool: &'a [u8],
    pub(crate) place: usize,
    pub(crate) end: usize,
}

impl<'a> View<'a> {
    ghost use Rattle.gob_tape.specs.Seeing.{Sees, Gives, kind_of, numbers_of, bytes_of, parts_of};
    ghost use Rattle.gob_tape.specs.Seeing.{nodes_from, nodes_left};

    /// Its kind.
    pub fn kind(self) -> ValueKind
        ensures { (f : Option ℕ) (v : Tree) → Sees self.entry f v → result ≡ kind_of v }
    {
        match self.nodes[self.place].content() {
            Content::Number(kind, _, _) => number_kind(kind),
            Content::Raw(kind, _, _) => raw_kind(kind),
            Content::Group(kind, _, _) => group_kind(kind),
        }
    }

    /// Its number, where it is a field of a struct.
    pub fn field(self) -> Option<u64>
        ensures { (f : Option ℕ) (v : Tree) → Sees self.entry f v → result ≡ f }
    {
        self.nodes[self.place].field()
    }

    /// Its numbers: of a bool, an int or an uint the unsigned number as spelled; of a float the pattern, of a complex
    /// both, the real part first; else how many bytes, elements, pairs or fields it has. A number that isn't used is 0.
    pub fn numbers(self) -> (u64, u64)
        ensures { (f : Option ℕ) (v : Tree) → Sees self.entry f v → result ≡ numbers_of v }
    {
        match self.nodes[self.place].content() {
            Content::Number(_, first, second) => (first, second),
            Content::Raw(_, _, count) => (count as u64, 0),
            Content::Group(_, count, _) => (count as u64, 0),
        }
    }

    /// Its raw bytes, as they stand in the pool; none where it is no part of raw bytes.
    pub fn bytes(self) -> &'a [u8]
        ensures { (f : Option ℕ) (v : Tree) → Sees self.entry f v → result.now ≡ bytes_of v }
    {
        match self.nodes[self.place].content() {
            Content::Raw(_, start, count) => raw_bytes(self.pool, start, count),
            Content::Number(_, _, _) => &[],
            Content::Group(_, _, _) => &[],
        }
    }

    /// How many nodes the tape has from its own on: fewer than 2^64, so that a recursion which goes from a view into
    /// other tapes, and says how often it may, comes to an end.
    pub fn nodes(self) -> u64
        ensures { result ≡ nodes_from self.entry }
    {
        (self.nodes.len() - self.place) as u64
    }

    /// Its parts, none where it has none. The keys and elements of a map alternate. They have fewer nodes than it has,
    /// so a recursion over the parts of parts comes to an end.
    pub fn children(self) -> Children<'a>
        ensures parts { (f : Option ℕ) (v : Tree) → Sees self.entry f v → Gives result (parts_of v) }
        ensures fewer { nodes_left result < nodes_from self.entry }
    {
        let content = self.nodes[self.place].content();
        Children {
            nodes: self.nodes,
            pool: self.pool,
            place: self.place + 1,
            end: content.end(self.place),
        }
    }
}

impl<'a> Iterator for Children<'a> {
    ghost use Rattle.std.specs.Prelude.{◌-◌};
    ghost use Rattle.std.specs.Iterator.{at_most};
    ghost use Rattle.gob_tape.specs.Seeing.{GivesPart};

    type Item = View<'a>;

    ghost next_gives = { GivesPart };

    ghost remaining = { λ s. at_most (length s.nodes.now - s.place) };

    fn next(&mut self) -> Option<View<'a>> {
        let place = self.place;
        if place >= self.end {
            return None;
        }
        if place >= self.nodes.len() {
            return None;
        }
        self.place = self.nodes[place].content().end(place).max(place + 1);
        Some(View {
            nodes: self.nodes,
            pool: self.pool,
            place,
        })
    }
}
