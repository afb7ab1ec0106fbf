//! The source of the definitions of streams.

use super::rows::{ROWS, Row};
use gob_num::Memory;
use gob_read::TreeBuilder;
use gob_source::source_of;
use gob_stream::{Fault, Item, Limits, Session};
use gob_test_rows::bytes_of;
use std::alloc::Global;
use std::test::*;

// Whether the row's stream has the row's source, in which > stands for a tab.
fn is_due(alloc: Global, row: &Row) -> Result<bool, Memory> {
    let bytes = bytes_of(alloc, row.stream)?;
    let mut session = Session::<TreeBuilder>::new(alloc, Limits::standard())?;
    let mut items = Vec::new(alloc);
    if let Err(Fault::Memory) = session.feed(alloc, &bytes, &mut items) {
        return Err(Memory);
    }
    let mut ids = Vec::new(alloc);
    for item in items.as_slice() {
        if let Item::Define { id, .. } = item {
            ids.push(*id)?;
        }
    }
    let source = source_of(alloc, session.table(), &ids)?;
    let mut due = row.source.as_bytes().to_vec(alloc)?;
    for byte in due.as_mut_slice() {
        if *byte == b'>' {
            *byte = b'\t';
        }
    }
    Ok(source.as_slice() == due.as_slice())
}

#[test]
fn streams_have_their_source(rt: HostRuntime) -> Result<(), Fail> {
    for row in &ROWS {
        assert!(rt; is_due(rt.alloc(), row)?, "{}", row.what);
    }
    Ok(())
}

// Run by tools/refuse-memory with each allocation refused in turn: the right answer, or want of memory.
#[test]
fn sources_want_memory(rt: HostRuntime) {
    for row in &ROWS {
        assert!(rt; is_due(rt.alloc(), row) != Ok(false), "{}", row.what);
    }
}
