//! Items that are put by a writer.

use crate::rows::limits_of;
use gob_go::{GoItem, GoSession};
use gob_go_writer::{GoWriter, PutFault};
use gob_num::Memory;
use gob_stream::{Fault, Limits};
use gob_test_rows::{bytes_of, part};
use std::alloc::Global;

/// What is judged, or want of memory: where another fault came in its place, it isn't so.
pub(crate) fn judged(answer: Result<bool, PutFault>) -> Result<bool, Memory> {
    match answer {
        Ok(is_right) => Ok(is_right),
        Err(PutFault::Memory) => Err(Memory),
        Err(_) => Ok(false),
    }
}

/// The items that the bytes give, up to a refusal.
pub(crate) fn items_of(alloc: Global, bytes: &[u8], limits: Limits) -> Result<Vec<GoItem>, Memory> {
    let mut session = GoSession::new(alloc, limits)?;
    let mut items = Vec::new(alloc);
    match session.feed(alloc, bytes, &mut items) {
        Err(Fault::Memory) => Err(Memory),
        Ok(()) | Err(_) => Ok(items),
    }
}

/// Appends the bytes that the writer writes of these items.
pub(crate) fn put_with(
    alloc: Global,
    writer: &mut GoWriter,
    items: &[GoItem],
    out: &mut Vec<u8>,
) -> Result<(), PutFault> {
    for item in items {
        writer.put(alloc, item, out)?;
    }
    Ok(())
}

/// The bytes that a new writer writes of these items.
pub(crate) fn put_all(
    alloc: Global,
    items: &[GoItem],
    limits: Limits,
) -> Result<Vec<u8>, PutFault> {
    let mut writer = GoWriter::new(alloc, limits)?;
    let mut out = Vec::new(alloc);
    put_with(alloc, &mut writer, items, &mut out)?;
    Ok(out)
}

// The bytes of the items that the bytes give.
fn put_again(alloc: Global, bytes: &[u8], limits: Limits) -> Result<Vec<u8>, PutFault> {
    let items = items_of(alloc, bytes, limits)?;
    put_all(alloc, &items, limits)
}

/// Whether the items of a row are put as its own bytes, up to where the row is refused.
pub(crate) fn is_put(alloc: Global, row: &str) -> Result<bool, PutFault> {
    let bytes = bytes_of(alloc, part(row, 1))?;
    let out = put_again(alloc, &bytes, limits_of(row))?;
    let is_refused = part(row, 2).split(" items, ").nth(1).is_some();
    Ok(bytes.starts_with(&out) && (is_refused || out.len() == bytes.len()))
}

/// Whether the items of the row are put as its own bytes, where there is memory for that.
pub(crate) fn is_put_within(alloc: Global, row: &str) -> Result<bool, PutFault> {
    let bytes = bytes_of(alloc, part(row, 1))?;
    match put_again(alloc, &bytes, Limits::standard()) {
        Ok(out) => Ok(out.as_slice() == bytes.as_slice()),
        Err(fault) => Ok(fault == PutFault::Memory),
    }
}
