//! The lines of an item: of its count, its type number and its body.

ghost use Rattle.std.specs.Prelude.{◌≡◌, ◌≤◌, ℕ, List, length};
ghost use Rattle.gob_num.specs.Unsigned.{IsUnsigned};
ghost use Rattle.gob_types.specs.Defined.{types};
ghost use Rattle.gob_explain.specs.Items.{NamesBody, ShowsFirst, ShowsItemTo};
ghost use Rattle.gob_explain.specs.Putting.{PutsMore};
ghost use Rattle.gob_explain.specs.Walk.{between};

use crate::row::Awaited;
use crate::text::heads::{size_meaning, type_meaning};
use crate::text::lines_out::LinesOut;
use crate::text::printer::push_body;
use gob_json::TextOut;
use gob_num::uint_at;
use gob_types::{Table, TypeId};
use std::alloc::Global;

/// How far the lines of an item lead.
#[derive(Clone, Copy, Debug, PartialEq, Eq)]
pub struct Reached {
    /// Where they end, counted from the item's first byte.
    pub place: usize,
    /// The type of the body, once its type number stands: that of descriptions for a definition.
    pub id: Option<TypeId>,
    /// Where the body begins behind its type number.
    pub body: usize,
    /// What comes next in the body, where its value isn't whole.
    pub awaited: Option<Awaited>,
}

impl Reached {
    fn at(place: usize) -> Reached
        ensures { result.place ≡ place }
    {
        Reached {
            place,
            id: None,
            body: place,
            awaited: None,
        }
    }
}

/// Puts out the lines of the first bytes of an item, up to their end: those of its count, its type number and its body,
/// and a line of what is left where these don't lead to the end. Answers how far they lead. The item begins with the
/// first of the bytes, which stands at this offset of the stream. A value of a type that isn't ready has no rows, and
/// none may be deeper than 1000.
pub fn push_first_bytes<O: TextOut>(
    alloc: Global,
    table: &Table,
    bytes: &[u8],
    offset: u64,
    lines: &mut LinesOut<O>,
) -> Reached
    ensures { PutsMore O.puts lines.old.out lines.old.fault lines.new.out lines.new.fault
        (ShowsFirst (types table.now) offset bytes.now result.place) }
{
    let reached = push_item(alloc, table, bytes, offset, lines);
    if reached.place < bytes.len() {
        let rest = part(bytes, reached.place, bytes.len());
        let place = offset.saturating_add(reached.place as u64);
        let meaning = String::from_str(alloc, "what comes next begins here");
        lines.put_line(place, rest, 0, meaning);
    }
    reached
}

// Puts out the lines of an item, as far as they stand in these bytes, and answers how far they lead.
fn push_item<O: TextOut>(
    alloc: Global,
    table: &Table,
    bytes: &[u8],
    offset: u64,
    lines: &mut LinesOut<O>,
) -> Reached
    ensures put { PutsMore O.puts lines.old.out lines.old.fault lines.new.out lines.new.fault
        (ShowsItemTo (types table.now) offset bytes.now result.place) }
    ensures inside { result.place ≤ length bytes.now }
{
    let Some((count, begin)) = uint_at(bytes, 0) else {
        return Reached::at(0);
    };
    let counted = size_meaning(alloc, "an item", count);
    lines.put_line(offset, part(bytes, 0, begin), 0, counted);
    let Some((number, body)) = uint_at(bytes, begin) else {
        return Reached::at(begin);
    };
    let named = type_meaning(alloc, table, number);
    let place = offset.saturating_add(begin as u64);
    lines.put_line(place, part(bytes, begin, body), 1, named);
    let id = body_type(number);
    let rest = part(bytes, body, bytes.len());
    let place = offset.saturating_add(body as u64);
    let walked = push_body(alloc, table, id, rest, place, lines);
    Reached {
        place: body + walked.place,
        id: Some(id),
        body,
        awaited: walked.awaited,
    }
}

// The bytes from one place up to the other.
fn part(bytes: &[u8], begin: usize, end: usize) -> &[u8]
    ensures { begin ≤ end → end ≤ length bytes.now → result.now ≡ between begin end bytes.now }
{
    bytes.get(begin..end).unwrap_or(&[])
}

// The type of the body behind this type number: that of descriptions for a definition.
fn body_type(number: u64) -> TypeId
    ensures { (bytes : List ℕ) → IsUnsigned number bytes → NamesBody bytes result }
{
    let sign = number % 2;
    if sign == 0 {
        return TypeId(number / 2);
    }
    TypeId::WIRE_TYPE
}
