//! Sessions that are fed, and what comes of it.

use crate::putting::put_all;
use crate::rows::limits_of;
use gob_go::{GoItem, GoSession};
use gob_go_writer::PutFault;
use gob_stream::{Fault, Limits, Refusal};
use gob_test_rows::{bytes_of, number, part};
use gob_types::Reason;
use std::alloc::Global;

// What feeding a session gives: how many items, their bytes when they are put again, and what stopped it.
#[derive(Drop)]
struct Given {
    // How many items.
    items: usize,
    // Their bytes.
    again: Vec<u8>,
    // What is answered up to the end of the input.
    answer: Result<(), Fault>,
}

// Feeds a new session the bytes in pieces of this length, one byte at least.
fn read(alloc: Global, bytes: &[u8], limits: Limits, length: usize) -> Result<Given, PutFault> {
    let mut session = GoSession::new(alloc, limits)?;
    let mut items = Vec::new(alloc);
    let answer = feed(alloc, &mut session, bytes, length, &mut items);
    let again = put_all(alloc, &items, limits)?;
    Ok(Given {
        items: items.len(),
        again,
        answer,
    })
}

/// Feeds the bytes in pieces of this length, and says that no byte follows.
pub(crate) fn feed(
    alloc: Global,
    session: &mut GoSession,
    bytes: &[u8],
    length: usize,
    out: &mut Vec<GoItem>,
) -> Result<(), Fault> {
    let mut taken = 0usize;
    for _ in 0..bytes.len() {
        let rest = bytes.get(taken..).unwrap_or(b"");
        session.feed(alloc, rest.get(..length).unwrap_or(rest), out)?;
        taken = taken.saturating_add(length);
    }
    session.finish()
}

/// Whether these are so many items as the text says, and what it says is refused behind them.
pub(crate) fn is_outcome(
    alloc: Global,
    text: &str,
    items: usize,
    answer: Result<(), Fault>,
) -> bool {
    let refused = text.split(" items, ").nth(1).unwrap_or("");
    let is_stopped = match answer {
        Ok(()) => refused.is_empty(),
        Err(Fault::Refused(refusal)) => is_printed(alloc, refusal, refused),
        Err(_) => false,
    };
    is_stopped && number(text, 0) == items as u64
}

fn is_printed(alloc: Global, refusal: Refusal, text: &str) -> bool {
    match refusal.to_string(alloc) {
        Ok(printed) => printed.as_str() == text,
        Err(_) => false,
    }
}

// Whether the bytes of the items are those that they were read from, and all of them where nothing is refused.
fn are_same(given: &Given, bytes: &[u8]) -> bool {
    let is_whole = given.answer.is_err() || given.again.len() == bytes.len();
    is_whole && bytes.starts_with(&given.again)
}

/// Whether a row gives what it says in pieces of this length, and its items are written as the bytes that they were
/// read from.
pub(crate) fn is_fed(alloc: Global, row: &str, length: usize) -> Result<bool, PutFault> {
    let bytes = bytes_of(alloc, part(row, 1))?;
    let given = read(alloc, &bytes, limits_of(row), length)?;
    let is_outcome = is_outcome(alloc, part(row, 2), given.items, given.answer);
    Ok(is_outcome && are_same(&given, &bytes))
}

// Whether these bytes are whole items, or else end within one, which is all that is refused.
fn is_cut(alloc: Global, bytes: &[u8]) -> Result<bool, PutFault> {
    let given = read(alloc, bytes, Limits::standard(), usize::MAX)?;
    let end = bytes.len() as u64;
    let ended = Fault::Refused(Refusal {
        place: end,
        seen: end,
        reason: Reason::Ended,
    });
    let is_refused = given.again.len() < bytes.len();
    let due = if is_refused { Err(ended) } else { Ok(()) };
    Ok(given.answer == due && are_same(&given, bytes))
}

// Whether it is so wherever the bytes are cut off, or in each sixteenth place where they are many.
fn are_cuts(alloc: Global, bytes: &[u8]) -> Result<bool, PutFault> {
    for cut in 0..bytes.len() {
        let is_due = bytes.len() <= 64 || cut % 16 == 0;
        if is_due && !is_cut(alloc, bytes.get(..cut).unwrap_or(b""))? {
            return Ok(false);
        }
    }
    Ok(true)
}

/// Whether a row that is cut off anywhere ends within an item, or behind one.
pub(crate) fn is_cut_anywhere(alloc: Global, row: &str) -> Result<bool, PutFault> {
    let bytes = bytes_of(alloc, part(row, 1))?;
    are_cuts(alloc, &bytes)
}

/// Whether the items of the row are given in pieces of seven bytes, or no more than they are before want of memory.
pub(crate) fn is_fed_within(alloc: Global, row: &str) -> Result<bool, PutFault> {
    let bytes = bytes_of(alloc, part(row, 1))?;
    let due = number(part(row, 2), 0);
    let mut session = GoSession::new(alloc, Limits::standard())?;
    let mut items = Vec::new(alloc);
    let answer = feed(alloc, &mut session, &bytes, 7, &mut items);
    Ok(is_within(answer, items.len() as u64, due))
}

/// Whether so many items came as are due, or no more before want of memory.
pub(crate) fn is_within(answer: Result<(), Fault>, items: u64, due: u64) -> bool {
    answer.is_ok() && items == due || answer == Err(Fault::Memory) && items <= due
}
