//! What is read of a stream, whole, cut off and in pieces.

use crate::rows::is_outcome;
use gob_num::Memory;
use gob_read::{Builder, TreeBuilder};
use gob_stream::{Fault, Input, Item, Limits, Output, Refusal, Session, read_stream, write_stream};
use gob_types::Reason;
use gob_value::Value;
use std::alloc::Global;

/// What is read: what stopped it, how many items it gave, and as how many of the stream's first bytes they are written
/// again.
#[derive(Clone, Copy)]
pub(crate) struct Given {
    answer: Result<(), Fault>,
    items: usize,
    again: Option<usize>,
}

// As how many of these bytes the items are written; none where they aren't.
fn written_again(alloc: Global, items: &[Item<Value>], bytes: &[u8]) -> Option<usize> {
    let mut again = Vec::new(alloc);
    let answer = write_stream(
        alloc,
        &mut Output::new(&mut again),
        items,
        Limits::standard(),
    );
    if answer.is_ok() && bytes.starts_with(&again) {
        Some(again.len())
    } else {
        None
    }
}

/// What the bytes give under these limits.
pub(crate) fn read(alloc: Global, bytes: &[u8], limits: Limits) -> Given {
    let mut items = Vec::new(alloc);
    let answer = read_stream(alloc, &mut Input::new(bytes), limits, &mut items);
    Given {
        answer,
        items: items.len(),
        again: written_again(alloc, &items, bytes),
    }
}

/// Whether the bytes give what the text says.
pub(crate) fn gives(alloc: Global, bytes: &[u8], limits: Limits, text: &str) -> bool {
    let given = read(alloc, bytes, limits);
    is_outcome(alloc, text, given.items, given.answer)
}

/// Whether they do, and the items are written as the bytes that they were read from.
pub(crate) fn is_read(alloc: Global, bytes: &[u8], limits: Limits, text: &str) -> bool {
    let given = read(alloc, bytes, limits);
    let is_whole = given.answer.is_err() || given.again == Some(bytes.len());
    is_outcome(alloc, text, given.items, given.answer) && given.again.is_some() && is_whole
}

// Whether these bytes are whole items, or else end within one, which is all that is refused.
fn is_cut(alloc: Global, bytes: &[u8]) -> bool {
    let given = read(alloc, bytes, Limits::standard());
    let end = bytes.len() as u64;
    let ended = Fault::Refused(Refusal {
        place: end,
        seen: end,
        reason: Reason::Ended,
    });
    match given.again {
        Some(length) if length == bytes.len() => given.answer.is_ok(),
        Some(_) => given.answer == Err(ended),
        None => false,
    }
}

/// Whether it is so wherever the bytes are cut off.
pub(crate) fn is_cut_anywhere(alloc: Global, bytes: &[u8]) -> bool {
    for cut in 0..bytes.len() {
        if !is_cut(alloc, &bytes[..cut]) {
            return false;
        }
    }
    true
}

/// Whether a session with this builder gives what the text says of the bytes.
pub(crate) fn is_fed<B: Builder>(
    alloc: Global,
    bytes: &[u8],
    limits: Limits,
    text: &str,
) -> Result<bool, Memory> {
    let mut session = Session::<B>::new(alloc, limits)?;
    let mut items = Vec::new(alloc);
    let answer = session.feed(alloc, bytes, &mut items);
    Ok(is_outcome(alloc, text, items.len(), answer))
}

// Feeds a session the bytes in two pieces. After a fault each further call answers `Failed`, so the first fault is the
// one that counts.
fn feed_both(
    alloc: Global,
    one: &[u8],
    two: &[u8],
    out: &mut Vec<Item<Value>>,
) -> Result<(), Fault> {
    let mut session = Session::<TreeBuilder>::new(alloc, Limits::standard())?;
    let first = session.feed(alloc, one, out);
    let second = session.feed(alloc, two, out);
    let end = session.finish();
    first.and(second).and(end)
}

/// What stops a session that is fed the bytes in two pieces, of which the second begins there, and how many items it
/// gives.
pub(crate) fn fed_in_two(alloc: Global, bytes: &[u8], at: usize) -> (Result<(), Fault>, usize) {
    let (one, two) = bytes.split_at(at.min(bytes.len()));
    let mut items = Vec::new(alloc);
    let answer = feed_both(alloc, one, two, &mut items);
    (answer, items.len())
}

/// Whether the bytes give what the text says wherever they are cut in two.
pub(crate) fn is_fed_in_two(alloc: Global, bytes: &[u8], text: &str) -> bool {
    for at in 0..=bytes.len() {
        let (answer, items) = fed_in_two(alloc, bytes, at);
        if !is_outcome(alloc, text, items, answer) {
            return false;
        }
    }
    true
}
