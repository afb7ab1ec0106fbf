//! Streams counted in pieces, and as a whole.

use super::rows::{GO, STRICT};
use gob_counted::{Counter, Tally, TellsApart, check_bytes};
use gob_go::GoSession;
use gob_num::Memory;
use gob_read::SkipBuilder;
use gob_stream::{Fault, Limits, Session};
use gob_test_rows::{Judge, List, bytes_of, number, part, wrong_row};
use gob_types::Table;
use std::alloc::Global;

// Feeds the bytes in pieces of this length, one byte at least, and says that no byte follows.
fn feed<S: TellsApart>(
    alloc: Global,
    counter: &mut Counter<S>,
    bytes: &[u8],
    length: usize,
) -> Result<(), Fault> {
    let mut taken = 0usize;
    for _ in 0..bytes.len() {
        let rest = bytes.get(taken..).unwrap_or(b"");
        counter.feed(alloc, rest.get(..length).unwrap_or(rest))?;
        taken = taken.saturating_add(length);
    }
    counter.finish()
}

fn is_tally(tally: Tally, text: &str) -> bool {
    let due = Tally {
        items: number(text, 0),
        types: number(text, 1),
        values: number(text, 2),
        bytes: number(text, 3),
    };
    tally == due
}

// Whether that is what the text says is refused; nothing is where it has none.
fn is_answer(alloc: Global, answer: Result<(), Fault>, text: &str) -> bool {
    match answer {
        Ok(()) => text.is_empty(),
        Err(Fault::Refused(refusal)) => match refusal.to_string(alloc) {
            Ok(printed) => printed.as_str() == text,
            Err(_) => false,
        },
        Err(_) => false,
    }
}

// Whether a counter that has met a fault takes nothing more, and its tally stays.
fn fails_for_good<S: TellsApart>(alloc: Global, counter: &mut Counter<S>) -> bool {
    let before = counter.tally();
    let fed = counter.feed(alloc, b"\x03\x04\x00\x06");
    let end = counter.finish();
    fed == Err(Fault::Failed) && end == Err(Fault::Failed) && counter.tally() == before
}

// Whether a row gives what it says in pieces of this length.
fn is_counted<S: TellsApart>(alloc: Global, row: &str, length: usize) -> Result<bool, Memory> {
    let bytes = bytes_of(alloc, part(row, 1))?;
    let mut counter = Counter::<S>::new(alloc, Limits::standard())?;
    let answer = feed(alloc, &mut counter, &bytes, length);
    let is_due = is_tally(counter.tally(), part(row, 2)) && is_answer(alloc, answer, part(row, 3));
    Ok(is_due && (answer.is_ok() || fails_for_good(alloc, &mut counter)))
}

// Whether it gives so as a whole.
fn is_checked<S: TellsApart>(alloc: Global, row: &str) -> Result<bool, Memory> {
    let bytes = bytes_of(alloc, part(row, 1))?;
    let checked = check_bytes::<S>(alloc, &bytes, Limits::standard());
    Ok(is_tally(checked.tally, part(row, 2)) && is_answer(alloc, checked.ended, part(row, 3)))
}

fn is_right<S: TellsApart>(alloc: Global, row: &str) -> Result<bool, Memory> {
    for length in [1usize, 2, 3, 7, usize::MAX] {
        if !is_counted::<S>(alloc, row, length)? {
            return Ok(false);
        }
    }
    is_checked::<S>(alloc, row)
}

// The grammar of the streams.
#[derive(Clone, Copy)]
enum Grammar {
    Strict,
    Go,
}

impl Judge for Grammar {
    fn is_right(&self, alloc: Global, _table: &Table, row: &str) -> Result<bool, Memory> {
        match *self {
            Grammar::Strict => is_right::<Session<SkipBuilder>>(alloc, row),
            Grammar::Go => is_right::<GoSession>(alloc, row),
        }
    }
}

static LISTS: [List<Grammar>; 2] = [List(Grammar::Strict, "", STRICT), List(Grammar::Go, "", GO)];

// The lists, named in one function, since a table costs the proof of each that names it.
fn lists() -> &'static [List<Grammar>; 2] {
    &LISTS
}

#[test]
fn streams_of_the_format_and_of_go_are_counted(rt: HostRuntime) {
    let row = wrong_row(rt.alloc(), lists());
    assert!(rt; row.is_empty(), "{row}");
}
