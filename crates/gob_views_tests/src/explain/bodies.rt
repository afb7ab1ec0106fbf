//! The lines of bodies, and the paths of their ends.

use super::rows::{ROWS, Row};
use gob_explain::{LinesOut, path_text, path_to, push_body};
use gob_num::Memory;
use gob_test_rows::bytes_of;
use gob_types::{Table, TypeId};
use std::alloc::{AllocError, Global};
use std::test::*;

// Whether the row's body has the row's lines.
fn has_lines(alloc: Global, row: &Row) -> Result<bool, Memory> {
    let table = Table::new(alloc, 0)?;
    let body = bytes_of(alloc, row.bytes)?;
    let mut lines = LinesOut::new(alloc, Vec::new(alloc));
    push_body(alloc, &table, TypeId(row.id), &body, 0, &mut lines);
    let (text, fault) = lines.into_parts();
    if fault.is_some() {
        return Err(Memory);
    }
    let due = due_lines(alloc, row.lines)?;
    Ok(text.as_slice() == due.as_bytes())
}

// Whether the row's body ends at the row's path.
fn has_path(alloc: Global, row: &Row) -> Result<bool, Memory> {
    let table = Table::new(alloc, 0)?;
    let body = bytes_of(alloc, row.bytes)?;
    let path = path_to(alloc, &table, TypeId(row.id), &body)?;
    let text = path_text(alloc, &table, &path)?;
    Ok(text.as_str() == row.path)
}

// The lines behind the first line feed, with two spaces for each `>`.
fn due_lines(alloc: Global, lines: &str) -> Result<String, AllocError> {
    let mut due = String::new(alloc);
    for character in lines.chars().skip(1) {
        if character == '>' {
            due.push_str("  ")?;
        } else {
            due.push(character)?;
        }
    }
    Ok(due)
}

#[test]
fn bodies_have_their_lines(rt: HostRuntime) -> Result<(), Fail> {
    for row in &ROWS {
        assert!(rt; has_lines(rt.alloc(), row)?, "{}", row.what);
    }
    Ok(())
}

#[test]
fn ends_have_their_paths(rt: HostRuntime) -> Result<(), Fail> {
    for row in &ROWS {
        assert!(rt; has_path(rt.alloc(), row)?, "{}", row.what);
    }
    Ok(())
}
