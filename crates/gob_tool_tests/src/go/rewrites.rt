//! Streams that are written again in their tidy form, as far as they go.

use super::runs::{ends_so, rewrite};
use crate::devices::{PieceReader, SlowWriter, Trouble};
use gob_test_rows::{bytes_of, part};
use gob_tool::ToolFault;
use std::alloc::{AllocError, Global};
use std::io::ErrorKind;
use std::test::*;

// What, a stream, what is written of it, and the line of the fault, which is left out where there is none. An empty
// line stands between two rows. Of `top struct` Go 1.19 wrote the bytes (interop/filled); the others are by hand.
const TIDIED: &str = "
an int in an interface | 0a 10 00 03 69 6e 74 04 02 00 0a | 0a 10 00 03 69 6e 74 04 02 00 0a

nil, an int and a struct with a zero | 03 10 00 00 03 04 00 06 POINT 07 ff 82 01 00 01 42 00 | 03 10 00 00
03 04 00 06 POINT 05 ff 82 02 42 00

top struct | 22 10 00 08 6d 61 69 6e 2e 52 65 67 ff 81 03 01 01 03 52 65 67 01 ff 82 00 01 01 01 01 41 01 04 00 00
00 06 ff 82 03 01 06 00 0f 10 00 08 6d 61 69 6e 2e 52 65 67 ff 82 01 00 05 ff 82 01 08
00 | 22 10 00 08 6d 61 69 6e 2e 52 65 67 ff 81 03 01 01 03 52 65 67 01 ff 82 00 01 01 01 01 41 01 04 00 00
00 06 ff 82 03 01 06 00 0f 10 00 08 6d 61 69 6e 2e 52 65 67 ff 82 01 00 05 ff 82 01 08 00

a zero in each of two segments | 25 ff 81 03 01 01 05 4f 75 74 65 72 01 ff 82 00 01 03 01 01 4e 01 04 00 01 01 49 01 10
00 01 01 4d 01 04 00 00 00 1e ff 82 01 00 01 01 61 ff 83 03 01 01 03 52 65 67 01 ff 84 00 01 01 01 01 41 01 04 00 00 00
07 ff 84 03 01 00 00 00 | 25 ff 81 03 01 01 05 4f 75 74 65 72 01 ff 82 00 01 03 01 01 4e 01 04 00 01 01 49 01 10 00 01
01 4d 01 04 00 00 00 1c ff 82 02 01 61 ff 83 03 01 01 03 52 65 67 01 ff 84 00 01 01 01 01 41 01 04 00 00 00 05 ff 84 01
00 00

a zero in what an element holds, cut off in the last item | 0c ff 81 02 01 02 ff 82 00 01 10 00 00 17 ff 83 03 01 01 03
52 65 67 01 ff 84 00 01 01 01 01 41 01 04 00 00 00 0d ff 82 00 02 00 01 61 ff 84 03
01 | 0c ff 81 02 01 02 ff 82 00 01 10 00 00 17 ff 83 03 01 01 03 52 65 67 01 ff 84 00 01 01 01 01 41 01 04 00 00
00 | gob: refused 22 Ended at 49 seen 49

a wrong head behind a value | 03 04 00 06 04 04 00 f7 00 | 03 04 00 06 | gob: refused 1 BadHead at 7 seen 8
";

// As above, where each definition in a value is to stand in an item of its own; by hand.
const HOISTED: &str = "
an int in an interface | 0a 10 00 03 69 6e 74 04 02 00 0a | 0a 10 00 03 69 6e 74 04 02 00 0a

nil, an int and a struct with a zero | 03 10 00 00 03 04 00 06 POINT 07 ff 82 01 00 01 42 00 | 03 10 00 00
03 04 00 06 POINT 05 ff 82 02 42 00

a type defined in front of what is held | 15 10 00 08 2a 62 69 67 2e 49 6e 74 ff 81 05 01 02 ff 84 00 00 00
07 ff 82 04 00 02 02 05 | 0a ff 81 05 01 02 ff 84 00 00 00 12 10 00 08 2a 62 69 67 2e 49 6e 74 ff 82 04 00 02 02 05

a zero in each of two segments | 25 ff 81 03 01 01 05 4f 75 74 65 72 01 ff 82 00 01 03 01 01 4e 01 04 00 01 01 49 01 10
00 01 01 4d 01 04 00 00 00 1e ff 82 01 00 01 01 61 ff 83 03 01 01 03 52 65 67 01 ff 84 00 01 01 01 01 41 01 04 00 00 00
07 ff 84 03 01 00 00 00 | 25 ff 81 03 01 01 05 4f 75 74 65 72 01 ff 82 00 01 03 01 01 4e 01 04 00 01 01 49 01 10 00 01
01 4d 01 04 00 00 00 17 ff 83 03 01 01 03 52 65 67 01 ff 84 00 01 01 01 01 41 01 04 00 00 00 0a ff 82 02 01 61 ff 84 01
00 00

types defined in what is held, too | 25 ff 81 03 01 01 05 4f 75 74 65 72 01 ff 82 00 01 03 01 01 4e 01 04 00 01 01
49 01 10 00 01 01 4d 01 04 00 00 00 33 ff 82 01 02 01 09 6d 61 69 6e 2e 57 72 61 70 ff 83 03 01 01 04 57 72 61 70 01
ff 84 00 01 03 01 01 4e 01 04 00 01 01 49 01 10 00 01 01 53 01 0c 00 00 00 34 ff 84 23 01 04 01 08 6d 61 69 6e 2e 52
65 67 ff 85 03 01 01 03 52 65 67 01 ff 86 00 01 01 01 01 41 01 04 00 00 00 0a ff 86 03 01 06 00 01 01 73 00 01 08
00 | 25 ff 81 03 01 01 05 4f 75 74 65 72 01 ff 82 00 01 03 01 01 4e 01 04 00 01 01 49 01 10 00 01 01 4d 01 04 00 00
00 24 ff 83 03 01 01 04 57 72 61 70 01 ff 84 00 01 03 01 01 4e 01 04 00 01 01 49 01 10 00 01 01 53 01 0c 00 00 00 17
ff 85 03 01 01 03 52 65 67 01 ff 86 00 01 01 01 01 41 01 04 00 00 00 2b ff 82 01 02 01 09 6d 61 69 6e 2e 57 72 61 70
ff 84 16 01 04 01 08 6d 61 69 6e 2e 52 65 67 ff 86 03 01 06 00 01 01 73 00 01 08 00

a second segment that is cut off | 15 10 00 08 2a 62 69 67 2e 49 6e 74 ff 81 05 01 02 ff 84 00 00
00 |  | gob: refused 22 Ended at 22 seen 22
";

// Whether the stream of the row is written so, where at most so many bytes of it come in a call.
fn is_right(alloc: Global, row: &str, hoist: bool, most: usize) -> Result<bool, AllocError> {
    let bytes = bytes_of(alloc, part(row, 1))?;
    let due = bytes_of(alloc, part(row, 2))?;
    let mut held = Vec::new(alloc);
    let ended = rewrite(alloc, PieceReader::new(&bytes, most), &mut held, hoist);
    let is_told = ends_so(alloc, &ended, part(row, 3).as_bytes());
    Ok(is_told && held.as_slice() == due.as_slice())
}

// Whether each stream of the rows is written so as a whole, byte by byte, and cut at several places.
fn are_right(alloc: Global, rows: &str, hoist: bool) -> Result<bool, AllocError> {
    for row in rows.trim().split("\n\n") {
        for most in [1, 5, 17, 40, 1000] {
            if !is_right(alloc, row, hoist, most)? {
                return Ok(false);
            }
        }
    }
    Ok(true)
}

#[test]
fn streams_are_tidied_or_refused(rt: HostRuntime) -> Result<(), Fail> {
    for row in TIDIED.trim().split("\n\n") {
        assert!(rt; are_right(rt.alloc(), row, false)?, "{row}");
    }
    Ok(())
}

#[test]
fn streams_are_hoisted_or_refused(rt: HostRuntime) -> Result<(), Fail> {
    for row in HOISTED.trim().split("\n\n") {
        assert!(rt; are_right(rt.alloc(), row, true)?, "{row}");
    }
    Ok(())
}

// An int in an interface, and a type and a value of two segments: items of 11 and 30 bytes.
const STREAM: &[u8] = b"\
    \x0a\x10\x00\x03\x69\x6e\x74\x04\x02\x00\x0a\
    \x15\x10\x00\x08\x2a\x62\x69\x67\x2e\x49\x6e\x74\xff\x81\x05\x01\x02\xff\x84\x00\x00\x00\
    \x07\xff\x82\x04\x00\x02\x02\x05";

// What is written of it: three items, of 11, 11 and 19 bytes.
const WRITTEN: &[u8] = b"\
    \x0a\x10\x00\x03\x69\x6e\x74\x04\x02\x00\x0a\
    \x0a\xff\x81\x05\x01\x02\xff\x84\x00\x00\x00\
    \x12\x10\x00\x08\x2a\x62\x69\x67\x2e\x49\x6e\x74\xff\x82\x04\x00\x02\x02\x05";

const FIRST: usize = 11;

// Whether what is written of the items before it is out where a reader fails in this call, and nothing else.
fn reader_fails_so(alloc: Global, fails_at: usize) -> bool {
    let reader = PieceReader::failing(STREAM, 1, fails_at, ErrorKind::Other);
    let mut held = Vec::new(alloc);
    let ended = rewrite(alloc, reader, &mut held, true);
    let due = if fails_at < FIRST { 0 } else { FIRST };
    let written = WRITTEN.get(..due).unwrap_or(WRITTEN);
    ends_so(alloc, &ended, b"gob: read fault") && held.as_slice() == written
}

#[test]
fn items_before_a_failed_read_are_out(rt: HostRuntime) {
    for fails_at in 0..STREAM.len() {
        assert!(rt;
            reader_fails_so(rt.alloc(), fails_at),
            "fails at {fails_at}"
        );
    }
}

// Whether a writer that fails in this call ends the run so, and a byte was written in each call before.
fn writer_fails_so(alloc: Global, fails_at: usize) -> bool {
    let mut device = SlowWriter::new(alloc, fails_at, Trouble::Error(ErrorKind::Other), false);
    let ended = rewrite(alloc, STREAM, &mut device, true);
    let written = WRITTEN.get(..fails_at).unwrap_or(WRITTEN);
    ends_so(alloc, &ended, b"gob: write fault") && device.held.as_slice() == written
}

#[test]
fn a_prefix_of_them_is_out_at_a_failed_write(rt: HostRuntime) {
    for fails_at in 0..WRITTEN.len() {
        assert!(rt;
            writer_fails_so(rt.alloc(), fails_at),
            "fails at {fails_at}"
        );
    }
}

// Whether nothing but whole items is there without memory. The device takes memory too.
fn is_right_without_memory(alloc: Global, hoist: bool) -> bool {
    let mut held = Vec::new(alloc);
    let ended = rewrite(alloc, STREAM, &mut held, hoist);
    let written = if hoist { WRITTEN } else { STREAM };
    match ended {
        Ok(()) => held.as_slice() == written,
        Err(ToolFault::Memory) => held.is_empty() || held.len() == FIRST,
        Err(ToolFault::Write) => written.starts_with(&held),
        Err(_) => false,
    }
}

#[test]
fn a_rewriting_without_memory(rt: HostRuntime) {
    for hoist in [false, true] {
        assert!(rt;
            is_right_without_memory(rt.alloc(), hoist),
            "the result, and what is written"
        );
    }
}
