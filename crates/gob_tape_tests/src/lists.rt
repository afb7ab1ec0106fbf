//! The lists of rows, and who judges the rows of each.

use crate::sums::sum_of_ints;
use crate::{flat, tapes, tidied};
use gob_num::Memory;
use gob_tape::{Tape, TapeBuilder};
use gob_test_rows::{
    Body, Judge, List, body_of, is_refusal, part, read, wrong_row, wrong_row_wanting,
};
use gob_types::Table;
use std::alloc::Global;

// A struct of two ints, one of an int and another such struct, a slice of itself, a struct of an int and such a slice,
// a map from strings to ints, one from strings to such maps, a struct without fields, a slice of those, an opaque type,
// and a struct with a field of each kind, of which the last is the struct's own; an array of two ints, a struct of it
// and of a slice of ints, that slice, an array of no ints, and a struct of it and an int; a map from ints to the first
// structs, a slice of them, a struct of two strings, and one of a complex number and a float.
const TYPES: &str =
    "65 struct A 2 B 2; 66 struct A 2 B 66; 67 slice 67; 68 struct A 2 B 67; 69 map 6 2; 70 map 6 69;
71 struct; 72 slice 71; 73 opaque; 74 struct A 1 B 2 C 3 D 4 E 5 F 6 G 7 H 8 I 67 J 69 K 73 L 74;
75 array 2 2; 76 struct A 75 B 77; 77 slice 2; 78 array 0 2; 79 struct A 78 B 2;
80 map 2 65; 81 slice 65; 82 struct A 6 B 6; 83 struct A 7 B 4";

// What, its type, the body and the sum of its ints.
const SUMS: &str = "
no ints | 77 | 00 00 | 0
1, 2 and -2 | 77 | 00 03 02 04 03 | 1
the greatest int and 1 | 77 | 00 02 f8 ff ff ff ff ff ff ff fe 02 | -9223372036854775808
";

// What is judged of a tape.
#[derive(Clone, Copy)]
enum Shown {
    Parts,
    Depth,
    Flat,
    Sum,
}

// What is judged of a row.
#[derive(Clone, Copy)]
enum Judged {
    Tape(Shown),
    TidyForm,
}

static LISTS: [List<Judged>; 5] = [
    List(Judged::Tape(Shown::Parts), TYPES, tapes::ROWS),
    List(Judged::TidyForm, TYPES, tidied::ROWS),
    List(Judged::Tape(Shown::Depth), TYPES, tapes::DEEP),
    List(Judged::Tape(Shown::Flat), TYPES, flat::ROWS),
    List(Judged::Tape(Shown::Sum), TYPES, SUMS),
];

// The lists, named in one function, since a table costs the proof of each that names it.
fn lists() -> &'static [List<Judged>; 5] {
    &LISTS
}

// The lengths of the pieces in which each body is read.
const PIECES: [usize; 3] = [1, 3, usize::MAX];

// Whether the tape of the row's body is as it says.
fn is_shown(
    alloc: Global,
    table: &Table,
    shown: Shown,
    text: &str,
    body: &Body,
    tape: Tape,
) -> Result<bool, Memory> {
    match shown {
        Shown::Parts => tapes::is_right(alloc, table, body, part(text, 4), &tape),
        Shown::Depth => tapes::is_deep(alloc, body, &tape),
        Shown::Flat => Ok(flat::is_flat(tape, &body.due, part(text, 4))),
        Shown::Sum => { Ok(sum_of_ints(tape.root()) == part(text, 3).parse().unwrap_or(i64::MAX)) }
    }
}

// Whether it is so where the body comes in pieces of this length; or the refusal that is due comes.
fn is_read(
    alloc: Global,
    table: &Table,
    shown: Shown,
    text: &str,
    body: &Body,
    piece: usize,
) -> Result<bool, Memory> {
    match read::<TapeBuilder>(alloc, table, body, piece) {
        Ok(Some(tape)) => is_shown(alloc, table, shown, text, body, tape),
        Ok(None) => Ok(false),
        Err(stop) => is_refusal(stop, &body.due),
    }
}

// Whether it is so however the body comes.
fn is_tape(
    alloc: Global,
    table: &Table,
    shown: Shown,
    text: &str,
    body: &Body,
) -> Result<bool, Memory> {
    for piece in PIECES {
        if !is_read(alloc, table, shown, text, body, piece)? {
            return Ok(false);
        }
    }
    Ok(true)
}

impl Judge for Judged {
    fn is_right(&self, alloc: Global, table: &Table, text: &str) -> Result<bool, Memory> {
        let body = body_of(alloc, text)?;
        match *self {
            Judged::Tape(shown) => is_tape(alloc, table, shown, text, &body),
            Judged::TidyForm => tidied::is_tidied(alloc, table, &body, text),
        }
    }
}

#[test]
fn tapes_are_as_rows_say(rt: HostRuntime) {
    let row = wrong_row(rt.alloc(), lists());
    assert!(rt; row.is_empty(), "{row}");
}

// Run by tools/refuse-memory with each allocation refused in turn: the right answer, or want of memory.
#[test]
fn tapes_want_memory(rt: HostRuntime) {
    let row = wrong_row_wanting(rt.alloc(), &lists()[..1]);
    assert!(rt; row.is_empty(), "{row}");
}

// Run so too.
#[test]
fn tidy_forms_want_memory(rt: HostRuntime) {
    let row = wrong_row_wanting(rt.alloc(), &lists()[1..2]);
    assert!(rt; row.is_empty(), "{row}");
}
