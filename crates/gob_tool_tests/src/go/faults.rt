//! Runs whose readers or writers fail: the line is written whole, or a prefix of it where the writer failed, or else
//! nothing.

use super::runs::{check, ends_so};
use crate::devices::{PieceReader, SlowWriter, Trouble};
use gob_stream::Limits;
use std::alloc::Global;
use std::io::ErrorKind;
use std::test::*;

/// A value of two segments, in which a type is defined, and an int: items of 30 and 4 bytes.
pub(crate) const STREAM: &[u8] = b"\
    \x15\x10\x00\x08\x2a\x62\x69\x67\x2e\x49\x6e\x74\xff\x81\x05\x01\x02\xff\x84\x00\x00\x00\
    \x07\xff\x82\x04\x00\x02\x02\x05\
    \x03\x04\x00\x06";

/// What is written of it.
pub(crate) const LINE: &[u8] = b"ok: 2 items, 1 types, 34 bytes\n";

// Whether this is written where a reader fails in this call, and the run ends by a fault of this line.
fn reader_fails_so(alloc: Global, fails_at: usize, written: &[u8], due: &[u8]) -> bool {
    let reader = PieceReader::failing(STREAM, 1, fails_at, ErrorKind::Other);
    let mut held = Vec::new(alloc);
    let ended = check(alloc, reader, &mut held, Limits::standard());
    ends_so(alloc, &ended, due) && held.as_slice() == written
}

#[test]
fn readers_fail_once(rt: HostRuntime) {
    // a call for each byte, one for the end of the stream, and none behind it
    for fails_at in 0..=STREAM.len() {
        let is_right = reader_fails_so(rt.alloc(), fails_at, b"", b"gob: read fault");
        assert!(rt; is_right, "fails at {fails_at}");
    }
    let is_right = reader_fails_so(rt.alloc(), STREAM.len() + 1, LINE, b"");
    assert!(rt; is_right, "fails behind the end");
}

// Whether a writer that fails in this call ends the run so, and a byte was written in each call before.
fn writer_fails_so(alloc: Global, fails_at: usize, due: &[u8]) -> bool {
    let mut device = SlowWriter::new(alloc, fails_at, Trouble::Error(ErrorKind::Other), false);
    let ended = check(alloc, STREAM, &mut device, Limits::standard());
    let written = LINE.get(..fails_at).unwrap_or(LINE);
    ends_so(alloc, &ended, due) && device.held.as_slice() == written
}

#[test]
fn writers_fail_once(rt: HostRuntime) {
    for fails_at in 0..LINE.len() {
        let is_right = writer_fails_so(rt.alloc(), fails_at, b"gob: write fault");
        assert!(rt; is_right, "fails at {fails_at}");
    }
    let is_right = writer_fails_so(rt.alloc(), LINE.len(), b"");
    assert!(rt; is_right, "fails behind the end");
}

// Whether a run over these bytes, whose writer fails to be flushed, ends by a fault of this line.
fn flush_fails_so(alloc: Global, bytes: &[u8], due: &[u8]) -> bool {
    let mut device = SlowWriter::new(alloc, 1000, Trouble::Error(ErrorKind::Other), true);
    let ended = check(alloc, bytes, &mut device, Limits::standard());
    ends_so(alloc, &ended, due)
}

#[test]
fn flushes_fail_last(rt: HostRuntime) {
    let is_right = flush_fails_so(rt.alloc(), STREAM, b"gob: write fault");
    assert!(rt; is_right, "behind two items");
    let due = b"gob: refused 5 Short at 1 seen 1";
    let is_right = flush_fails_so(rt.alloc(), b"\x00", due);
    assert!(rt; is_right, "behind a refusal");
}
