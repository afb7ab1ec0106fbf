//! The lists of rows, and who judges the rows of each.

use crate::{bodies, held, skipped, to_nil};
use gob_num::Memory;
use gob_test_rows::{Body, Judge, List, body_of, part, wrong_row, wrong_row_wanting};
use gob_types::Table;
use std::alloc::Global;

// A struct of two ints, one of an int and another such struct, an array of two ints, a slice of itself, a map from
// strings to ints, an opaque type, a map from those slices to the first structs, a slice of uints, a struct with a
// field of each kind, of which the last is the struct's own, a slice of the first structs, a struct of an int, an
// interface and an int, a slice of interfaces, and a map from strings to interfaces.
const TYPES: &str =
    "65 struct A 2 B 2; 66 struct A 2 B 66; 67 array 2 2; 68 slice 68; 69 map 6 2; 70 opaque; 71 map 68 65;
72 slice 3; 73 struct A 1 B 2 C 3 D 4 E 5 F 6 G 7 H 8 I 72 J 69 K 70 L 73; 74 slice 65; 75 struct A 2 B 8 C 2;
76 slice 8; 77 map 6 8";

// What is judged of a row.
#[derive(Clone, Copy)]
enum Judged {
    Read,
    Counted,
    Built,
    Skipped,
    Filled,
    Held,
}

static LISTS: [List<Judged>; 7] = [
    List(Judged::Read, TYPES, bodies::ACCEPTED),
    List(Judged::Read, TYPES, bodies::REFUSED),
    List(Judged::Counted, TYPES, bodies::COUNTED),
    List(Judged::Built, TYPES, bodies::BUILT),
    List(Judged::Skipped, TYPES, skipped::ROWS),
    List(Judged::Filled, TYPES, to_nil::ROWS),
    List(Judged::Held, TYPES, held::ROWS),
];

// The lists, named in one function, since a table costs the proof of each that names it.
fn lists() -> &'static [List<Judged>; 7] {
    &LISTS
}

// Whether the row's body is read as it says.
fn is_as_said(
    alloc: Global,
    table: &Table,
    judged: Judged,
    text: &str,
    body: &Body,
) -> Result<bool, Memory> {
    match judged {
        Judged::Read => bodies::is_read(alloc, table, body),
        Judged::Counted => bodies::is_counted(alloc, table, body, usize::MAX),
        Judged::Built => bodies::is_built(alloc, table, body, usize::MAX),
        Judged::Skipped => skipped::is_skipped(alloc, table, body),
        Judged::Filled => to_nil::is_filled(alloc, table, body, part(text, 4)),
        Judged::Held => held::is_right(alloc, table, body, part(text, 3), part(text, 4)),
    }
}

impl Judge for Judged {
    fn is_right(&self, alloc: Global, table: &Table, text: &str) -> Result<bool, Memory> {
        let body = body_of(alloc, text)?;
        is_as_said(alloc, table, *self, text, &body)
    }
}

#[test]
fn bodies_are_read_as_rows_say(rt: HostRuntime) {
    let row = wrong_row(rt.alloc(), lists());
    assert!(rt; row.is_empty(), "{row}");
}

// Run by tools/refuse-memory with each allocation refused in turn: the right answer, or want of memory.
#[test]
fn reading_wants_memory(rt: HostRuntime) {
    let row = wrong_row_wanting(rt.alloc(), &lists()[..1]);
    assert!(rt; row.is_empty(), "{row}");
}

// Run so too.
#[test]
fn deep_reading_wants_memory(rt: HostRuntime) {
    let row = wrong_row_wanting(rt.alloc(), &lists()[2..3]);
    assert!(rt; row.is_empty(), "{row}");
}
