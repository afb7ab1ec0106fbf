//! Runs whose reader, writer or flush fails in one of its calls.

use crate::devices::{ByteReader, ByteWriter};
use crate::runs::{INT_ITEMS, INTS, MOST, ends_so, is_run, run};
use std::alloc::Global;
use std::test::*;

// What is written, and the line of the fault, where the reader fails in this call. There is a call for each byte, one
// for the end of the lines, and none behind it. A line's item is out before the next byte is read.
fn due_of_reader(fails_at: usize) -> (&'static [u8], &'static str) {
    match fails_at {
        0..21 => (&INT_ITEMS[..0], "gob: read fault"),
        21..42 => (&INT_ITEMS[..4], "gob: read fault"),
        42 => (INT_ITEMS, "gob: read fault"),
        _ => (INT_ITEMS, ""),
    }
}

#[test]
fn readers_fail_once(rt: HostRuntime) {
    for fails_at in 0..=43 {
        let (written, due) = due_of_reader(fails_at);
        let reader = ByteReader::new(INTS, fails_at);
        assert!(rt;
            is_run(rt.alloc(), reader, MOST, written, due),
            "fails at {fails_at}"
        );
    }
}

// Whether a writer that fails in this call ends the run so, and a byte was written in each call before.
fn writer_fails_so(alloc: Global, fails_at: usize, due: &str) -> bool {
    let mut device = ByteWriter::new(alloc, fails_at, false);
    let ended = run(alloc, INTS, &mut device, MOST);
    let written = INT_ITEMS.get(..fails_at).unwrap_or(INT_ITEMS);
    ends_so(alloc, ended, due) && device.held.as_slice() == written
}

#[test]
fn writers_fail_once(rt: HostRuntime) {
    for fails_at in 0..8 {
        let is_so = writer_fails_so(rt.alloc(), fails_at, "gob: write fault");
        assert!(rt; is_so, "fails at {fails_at}");
    }
    assert!(rt; writer_fails_so(rt.alloc(), 8, ""));
}

#[test]
fn a_flush_fails_last(rt: HostRuntime) {
    let mut device = ByteWriter::new(rt.alloc(), usize::MAX, true);
    let ended = run(rt.alloc(), INTS, &mut device, MOST);
    assert!(rt; ends_so(rt.alloc(), ended, "gob: write fault"));
}
