//! Streams written again: each as its own bytes.

use crate::rows::limits_of;
use gob_go_writer::{PutFault, write_again};
use gob_stream::{Fault, Limits};
use gob_test_rows::{bytes_of, part};
use std::alloc::Global;

/// Whether the stream of a row is written again as its own bytes, or is refused where the row says so.
pub(crate) fn is_written(alloc: Global, row: &str) -> Result<bool, PutFault> {
    let bytes = bytes_of(alloc, part(row, 1))?;
    let is_refused = part(row, 2).split(" items, ").nth(1).is_some();
    match write_again(alloc, &bytes, limits_of(row)) {
        Ok(again) => Ok(!is_refused && again.as_slice() == bytes.as_slice()),
        Err(Fault::Refused(_)) => Ok(is_refused),
        Err(_) => Err(PutFault::Memory),
    }
}

/// Whether the row is written again as its own bytes, where there is memory for that.
pub(crate) fn is_written_within(alloc: Global, row: &str) -> Result<bool, PutFault> {
    let bytes = bytes_of(alloc, part(row, 1))?;
    match write_again(alloc, &bytes, Limits::standard()) {
        Ok(again) => Ok(again.as_slice() == bytes.as_slice()),
        Err(fault) => Ok(fault == Fault::Memory),
    }
}
