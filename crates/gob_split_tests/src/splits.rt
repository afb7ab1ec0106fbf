//! The parts of the rows.

use crate::held::Held;
use crate::rows::{ROWS, Row};
use gob_num::Memory;
use gob_split::run_split;
use gob_stream::{Input, Limits};
use gob_test_rows::bytes_of;
use gob_tool::ToolFault;
use std::alloc::Global;
use std::test::*;

// Whether these are the parts that are due.
fn are_due(alloc: Global, parts: &[Vec<u8>], due: &str) -> Result<bool, Memory> {
    let mut count = 0usize;
    for (part, text) in parts.iter().zip(due.split(" | ")) {
        if part.as_slice() != bytes_of(alloc, text)?.as_slice() {
            return Ok(false);
        }
        count = count.saturating_add(1);
    }
    Ok(count == parts.len() && (parts.is_empty() == due.is_empty()) && count_of(due) == count)
}

// How many parts are due.
fn count_of(due: &str) -> usize {
    if due.is_empty() {
        return 0;
    }
    due.split(" | ").count()
}

// Whether the row's stream is split into its parts.
fn is_split(alloc: Global, row: &Row) -> Result<bool, Memory> {
    let bytes = bytes_of(alloc, row.stream)?;
    let mut held = Held::new(alloc, usize::MAX, usize::MAX);
    let mut input = Input::new(bytes.as_slice());
    let ended = run_split(alloc, &mut input, &mut held, Limits::standard(), row.size);
    match ended {
        Ok(()) => {}
        // A vector that has no memory for what it is given is a part that isn't written.
        Err(ToolFault::Memory | ToolFault::Write) => return Err(Memory),
        Err(_) => return Ok(false),
    }
    Ok(held.is_finished && !held.has_failed && are_due(alloc, &held.parts, row.parts)?)
}

#[test]
fn streams_are_split(rt: HostRuntime) {
    for row in &ROWS {
        let is_right = is_split(rt.alloc(), row) == Ok(true);
        assert!(rt; is_right, "{}", row.what);
    }
}

// Each allocation is refused in turn: of a definition in a value, which is hoisted.
#[test]
fn splitting_wants_memory(rt: HostRuntime) {
    let row = &ROWS[8];
    let is_right = is_split(rt.alloc(), row) != Ok(false);
    assert!(rt; is_right, "{}", row.what);
}
