//! Runs of `show` over a reader that gives a byte a call, under other limits, and over more than a piece.

use crate::commands::{Command, is_run};
use crate::devices::PieceReader;
use crate::large::repeated;
use crate::streams::{EVERY, EVERY_LINES, POINT_VALUE, POINT_VALUE_LINE, THREE, THREE_LINES};
use gob_stream::Limits;
use std::alloc::{AllocError, Global};
use std::test::*;

// The definition of a slice of ints, and an item of no bytes.
const SLICE_AND_ZERO: &[u8] = b"\x0c\xff\x83\x02\x01\x02\xff\x84\x00\x01\x04\x00\x00\x00";

const SLICE_LINE: &[u8] = b"{\"define\":66,\"elem\":2,\"kind\":\"slice\",\"name\":\"\"}\n";

#[test]
fn streams_are_shown_byte_by_byte(rt: HostRuntime) {
    let (limits, lines) = (Limits::standard(), EVERY_LINES.as_bytes());
    let reader = PieceReader::new(EVERY, 1);
    let is_right = is_run(rt.alloc(), Command::Show, limits, reader, lines, b"");
    assert!(rt; is_right, "items of each shape");
}

#[test]
fn the_limit_for_the_stream_is_kept(rt: HostRuntime) {
    let bytes = b"\x03\x04\x00\x06\x03\x02\x00\x01".as_slice();
    let limits = Limits::new(u64::MAX, 1000, 0, 7).unwrap_or(Limits::standard());
    let due = b"gob: refused 4 StreamTooLong at 4 seen 5";
    let lines = b"{\"type\":2,\"value\":3}\n".as_slice();
    let is_right = is_run(rt.alloc(), Command::Show, limits, bytes, lines, due);
    assert!(rt; is_right, "a stream of 7");
}

// Whether the lines are right of more bytes than are read at a time, and more lines than are gathered before a write.
// Pieces end within items.
fn are_many_shown(alloc: Global) -> Result<bool, AllocError> {
    let bytes = repeated(alloc, THREE, POINT_VALUE, SLICE_AND_ZERO)?;
    let lines = repeated(alloc, THREE_LINES, POINT_VALUE_LINE, SLICE_LINE)?;
    let (limits, reader) = (Limits::standard(), bytes.as_slice());
    let due = b"gob: refused 5 Short at 160058 seen 160058";
    Ok(is_run(alloc, Command::Show, limits, reader, &lines, due))
}

#[test]
fn many_lines_are_shown(rt: HostRuntime) {
    assert!(rt; are_many_shown(rt.alloc()) == Ok(true), "20003 lines");
}
