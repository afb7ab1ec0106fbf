//! The rows on reading, where each value that stands whole is passed: a session that passes none would keep its
//! contract too.

use gob_read::{CheckBuilder, Counts};
use gob_stream::{Item, Limits, Session};
use gob_test_rows::number;
use std::alloc::Global;

// What came of the front of a stream: how many of its bytes were taken, and how many items they were.
#[derive(Clone, Copy)]
struct Prefix {
    bytes: usize,
    items: u64,
}

// The prefix with so many bytes and items more.
fn beyond(prefix: Prefix, used: usize, items: u64) -> Prefix {
    Prefix {
        bytes: prefix.bytes.saturating_add(used),
        items: prefix.items.saturating_add(items),
    }
}

// The prefix one step further on; none at a refusal, or where a value that stands whole was not passed.
fn further(
    alloc: Global,
    session: &mut Session<CheckBuilder>,
    prefix: Prefix,
    rest: &[u8],
) -> Option<Prefix> {
    if rest.is_empty() {
        return None;
    }
    let passed = session.pass_values(rest);
    if passed.items > 0 {
        return Some(beyond(prefix, passed.used, passed.items));
    }
    let Ok(step) = session.step(alloc, rest) else {
        return None;
    };
    match definitions(&step.item) {
        Some(items) => Some(beyond(prefix, step.used, items)),
        None => None,
    }
}

// How many definitions the item is; none where it is a value.
fn definitions(item: &Option<Item<Counts>>) -> Option<u64> {
    match item {
        Some(Item::Put { .. }) => None,
        Some(Item::Define { .. }) => Some(1),
        None => Some(0),
    }
}

// The longest prefix of the bytes of which each value was passed.
fn passed(alloc: Global, bytes: &[u8], limits: Limits) -> Prefix {
    let mut prefix = Prefix { bytes: 0, items: 0 };
    let Ok(mut session) = Session::<CheckBuilder>::new(alloc, limits) else {
        return prefix;
    };
    for _ in 0..bytes.len() {
        let rest = bytes.get(prefix.bytes..).unwrap_or(b"");
        if rest.is_empty() {
            return prefix;
        }
        match further(alloc, &mut session, prefix, rest) {
            Some(next) => prefix = next,
            None => return prefix,
        }
    }
    prefix
}

/// Whether the items are passed so, and up to their end where nothing is refused behind them.
pub(crate) fn is_passed(alloc: Global, bytes: &[u8], limits: Limits, text: &str) -> bool {
    let prefix = passed(alloc, bytes, limits);
    let is_refused = text.contains("refused");
    prefix.items == number(text, 0) && (is_refused || prefix.bytes == bytes.len())
}
