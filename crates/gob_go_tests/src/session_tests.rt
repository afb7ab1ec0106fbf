//! Steps of a session, what it says of itself, and that a fault is for good.

use crate::sessions::feed;
use gob_go::{GoItem, GoSession};
use gob_go_writer::PutFault;
use gob_num::Memory;
use gob_stream::{Fault, Limits};
use gob_test_rows::{bytes_of, number, part};
use gob_types::TypeId;
use std::alloc::Global;
use std::test::*;

// Takes a step, and counts the item that it ends with. Behind that the stream may end.
fn take_step(
    alloc: Global,
    session: &mut GoSession,
    piece: &[u8],
    items: &mut u64,
) -> Result<usize, Fault> {
    let step = session.step(alloc, piece)?;
    let is_item = step.item.is_some();
    if is_item {
        *items = items.saturating_add(1);
    }
    Ok(step.used)
}

// How many items come step by step. Behind each of them the stream may end.
fn count_steps(alloc: Global, session: &mut GoSession, bytes: &[u8]) -> Result<u64, Fault> {
    let mut taken = 0usize;
    let mut items = 0u64;
    for _ in 0..bytes.len() {
        let before = items;
        let rest = bytes.get(taken..).unwrap_or(b"");
        taken = taken.saturating_add(take_step(alloc, session, rest, &mut items)?);
        if items > before {
            session.finish()?;
        }
    }
    session.finish()?;
    Ok(items)
}

/// Whether so many come as the row says.
pub(crate) fn is_stepped(alloc: Global, row: &str) -> Result<bool, PutFault> {
    let bytes = bytes_of(alloc, part(row, 1))?;
    let mut session = GoSession::new(alloc, Limits::standard())?;
    Ok(count_steps(alloc, &mut session, &bytes) == Ok(number(part(row, 2), 0)))
}

// A big number in an interface, whose type is defined in front of it.
const BIG: &str =
    "15 10 00 08 2a 62 69 67 2e 49 6e 74 ff 81 05 01 02 ff 84 00 00 00 07 ff 82 04 00 02 02 05";

// Whether a session has the type that is defined in a value, and its limits, once it has read so many bytes of BIG.
fn has_type(alloc: Global, length: usize) -> Result<bool, Memory> {
    let bytes = bytes_of(alloc, BIG)?;
    let mut session = GoSession::new(alloc, Limits::standard())?;
    let mut items = Vec::new(alloc);
    let front = bytes.get(..length).unwrap_or(b"");
    let fed = session.feed(alloc, front, &mut items);
    let is_read = fed.is_ok() && session.limits() == Limits::standard();
    Ok(is_read && session.table().kept(TypeId(65)))
}

#[test]
fn types_are_there_behind_their_definition(rt: HostRuntime) {
    // Within the description, behind it, and behind the value.
    for (length, due) in [(21usize, false), (22, true), (30, true)] {
        let has_type = has_type(rt.alloc(), length);
        assert!(rt; has_type == Ok(due), "{length} bytes");
    }
}

// Whether a session that refuses the bytes takes nothing more.
fn fails_with(alloc: Global, session: &mut GoSession, bytes: &[u8]) -> bool {
    let mut items = Vec::new(alloc);
    let first = feed(alloc, session, bytes, usize::MAX, &mut items);
    let again = session.feed(alloc, bytes, &mut items);
    let is_stepped = session.step(alloc, bytes).is_ok();
    let end = session.finish();
    let is_refused = first.is_err() && first != Err(Fault::Failed) && !is_stepped;
    is_refused && again == Err(Fault::Failed) && end == Err(Fault::Failed) && items.is_empty()
}

// Whether a session does that has refused these bytes, in which a bool of 2 is held.
fn fails_for_good(alloc: Global) -> Result<bool, Memory> {
    let bytes = bytes_of(alloc, "0b 10 00 04 62 6f 6f 6c 02 02 00 02")?;
    let mut session = GoSession::new(alloc, Limits::standard())?;
    Ok(fails_with(alloc, &mut session, &bytes))
}

#[test]
fn sessions_fail_for_good(rt: HostRuntime) {
    assert!(rt; fails_for_good(rt.alloc()) == Ok(true), "behind a refusal");
}

// Feeds nothing, and an int in an interface in two pieces with nothing between them. Answers whether a step took
// nothing there.
fn feed_with_nothing(
    alloc: Global,
    session: &mut GoSession,
    items: &mut Vec<GoItem>,
) -> Result<bool, Fault> {
    session.feed(alloc, b"", items)?;
    session.finish()?;
    session.feed(alloc, b"\x0a\x10\x00\x03in", items)?;
    session.feed(alloc, b"", items)?;
    let step = session.step(alloc, b"")?;
    let is_nothing = step.used == 0 && step.item.is_none();
    session.feed(alloc, b"t\x04\x02\x00\x0a", items)?;
    session.finish()?;
    Ok(is_nothing)
}

// Whether nothing comes of a piece without bytes, also within an item.
fn takes_nothing(alloc: Global) -> Result<bool, Memory> {
    let mut session = GoSession::new(alloc, Limits::standard())?;
    let mut items = Vec::new(alloc);
    let is_nothing = feed_with_nothing(alloc, &mut session, &mut items);
    Ok(is_nothing == Ok(true) && items.len() == 1)
}

#[test]
fn pieces_may_be_empty(rt: HostRuntime) {
    assert!(rt; takes_nothing(rt.alloc()) == Ok(true), "an int held");
}
