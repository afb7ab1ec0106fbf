//! Streams whose lines are written, as far as they go.

use super::runs::{ends_so, is_shown, show};
use crate::devices::{PieceReader, SlowWriter, Trouble};
use gob_stream::{Input, Limits, Output};
use gob_test_rows::{bytes_of, part};
use gob_tool::{ToolFault, run_show};
use std::alloc::{AllocError, Global};
use std::io::ErrorKind;
use std::test::*;

// What, the stream, its lines, and the line of the fault, which is left out where there is none. An empty line stands
// between two rows. Of those with definitions in values Go 1.19 wrote the bytes (interop/filled).
const ROWS: &str = "
an int in an interface | 0a 10 00 03 69 6e 74 04 02 00 0a | {\"type\":8,\"value\":{\"interface\":{\"name\":\"int\",\
\"type\":2,\"value\":5}}}

nil | 03 10 00 00 | {\"type\":8,\"value\":null}

top struct | 22 10 00 08 6d 61 69 6e 2e 52 65 67 ff 81 03 01 01 03 52 65 67 01 ff 82 00 01 01 01 01 41 01 04 00 00
00 06 ff 82 03 01 06 00 0f 10 00 08 6d 61 69 6e 2e 52 65 67 ff 82 01 00 05 ff 82 01 08
00 | {\"define\":65,\"fields\":[[\"A\",2]],\"kind\":\"struct\",\"name\":\"Reg\"}
{\"type\":8,\"value\":{\"interface\":{\"name\":\"main.Reg\",\"type\":65,\"value\":[[0,\"A\",3]]}}}
{\"type\":8,\"value\":{\"interface\":{\"name\":\"main.Reg\",\"type\":65,\"value\":[]}}}
{\"type\":65,\"value\":[[0,\"A\",4]]}

nest two | 25 ff 81 03 01 01 05 4f 75 74 65 72 01 ff 82 00 01 03 01 01 4e 01 04 00 01 01 49 01 10 00 01 01 4d 01
04 00 00 00 33 ff 82 01 02 01 09 6d 61 69 6e 2e 57 72 61 70 ff 83 03 01 01 04 57 72 61 70 01 ff 84 00 01 03 01 01 4e
01 04 00 01 01 49 01 10 00 01 01 53 01 0c 00 00 00 34 ff 84 23 01 04 01 08 6d 61 69 6e 2e 52 65 67 ff 85 03 01 01 03
52 65 67 01 ff 86 00 01 01 01 01 41 01 04 00 00 00 0a ff 86 03 01 06 00 01 01 73 00 01 08
00 | {\"define\":65,\"fields\":[[\"N\",2],[\"I\",8],[\"M\",2]],\"kind\":\"struct\",\"name\":\"Outer\"}
{\"define\":66,\"fields\":[[\"N\",2],[\"I\",8],[\"S\",6]],\"kind\":\"struct\",\"name\":\"Wrap\"}
{\"define\":67,\"fields\":[[\"A\",2]],\"kind\":\"struct\",\"name\":\"Reg\"}
{\"type\":65,\"value\":[[0,\"N\",1],[1,\"I\",{\"interface\":{\"name\":\"main.Wrap\",\"type\":66,\"value\":[[0,\"N\",2],\
[1,\"I\",{\"interface\":{\"name\":\"main.Reg\",\"type\":67,\"value\":[[0,\"A\",3]]}}],[2,\"S\",\"s\"]]}}],[2,\"M\",4]]}

a wrong head in a field, behind an item | 25 ff 81 03 01 01 05 4f 75 74 65 72 01 ff 82 00 01 03 01 01 4e 01 04 00 01
01 49 01 10 00 01 01 4d 01 04 00 00 00 04 ff 82 02
f7 | {\"define\":65,\"fields\":[[\"N\",2],[\"I\",8],[\"M\",2]],\"kind\":\"struct\",\"name\":\"Outer\"} | \
gob: refused 1 BadHead at 42 seen 43

two ints, and a wrong head behind them | 03 04 00 06 03 04 00 08 01 f7 | {\"type\":2,\"value\":3}
{\"type\":2,\"value\":4} | gob: refused 1 BadHead at 9 seen 10

a second segment that is cut off | 15 10 00 08 2a 62 69 67 2e 49 6e 74 ff 81 05 01 02 ff 84 00 00
00 |  | gob: refused 22 Ended at 22 seen 22
";

// Whether the stream of the row is shown or refused as it says.
fn is_right(alloc: Global, row: &str) -> Result<bool, AllocError> {
    let bytes = bytes_of(alloc, part(row, 1))?;
    let mut written = Vec::from_slice(alloc, part(row, 2).as_bytes())?;
    if !written.is_empty() {
        written.push(b'\n')?;
    }
    let due = part(row, 3).as_bytes();
    Ok(is_shown(alloc, &bytes, Limits::standard(), &written, due))
}

#[test]
fn streams_are_shown_or_refused(rt: HostRuntime) -> Result<(), Fail> {
    for row in ROWS.trim().split("\n\n") {
        assert!(rt; is_right(rt.alloc(), row)?, "{row}");
    }
    Ok(())
}

// A definition, two values of the type and an int, with nothing in an interface.
const PLAIN: &str =
    "1f ff 81 03 01 01 05 50 6f 69 6e 74 01 ff 82 00 01 02 01 01 58 01 04 00 01 01 59 01 04 00 00 00
07 ff 82 01 2c 01 42 00 03 ff 82 00 03 04 00 06";

#[test]
fn a_stream_of_the_format_is_shown_as_ever(rt: HostRuntime) -> Result<(), Fail> {
    let bytes = bytes_of(rt.alloc(), PLAIN)?;
    let mut held = Vec::new(rt.alloc());
    let mut input = Input::new(bytes.as_slice());
    let mut output = Output::new(&mut held);
    let ended = run_show(rt.alloc(), &mut input, &mut output, Limits::standard());
    assert!(rt; ended.is_ok(), "shown");
    drop(output);
    assert!(rt; !held.is_empty(), "lines");
    let is_same = is_shown(rt.alloc(), &bytes, Limits::standard(), &held, b"");
    assert!(rt; is_same, "the lines");
    Ok(())
}

// An int in an interface, and a type and a value of two segments: items of 11 and 30 bytes.
const STREAM: &[u8] = b"\
    \x0a\x10\x00\x03\x69\x6e\x74\x04\x02\x00\x0a\
    \x15\x10\x00\x08\x2a\x62\x69\x67\x2e\x49\x6e\x74\xff\x81\x05\x01\x02\xff\x84\x00\x00\x00\
    \x07\xff\x82\x04\x00\x02\x02\x05";

const FIRST: &[u8] =
    b"{\"type\":8,\"value\":{\"interface\":{\"name\":\"int\",\"type\":2,\"value\":5}}}\n";

// Whether the lines of the items before it are out where a reader fails in this call.
fn reader_fails_so(alloc: Global, fails_at: usize) -> bool {
    let reader = PieceReader::failing(STREAM, 1, fails_at, ErrorKind::Other);
    let mut held = Vec::new(alloc);
    let ended = show(alloc, reader, &mut held, Limits::standard());
    let due: &[u8] = if fails_at < 11 { b"" } else { FIRST };
    ends_so(alloc, &ended, b"gob: read fault") && held.starts_with(due)
}

#[test]
fn lines_before_a_failed_read_are_out(rt: HostRuntime) {
    for fails_at in 0..STREAM.len() {
        assert!(rt;
            reader_fails_so(rt.alloc(), fails_at),
            "fails at {fails_at}"
        );
    }
}

// Whether a writer that fails in this call ends the run so, and a byte was written in each call before.
fn writer_fails_so(alloc: Global, fails_at: usize) -> bool {
    let mut device = SlowWriter::new(alloc, fails_at, Trouble::Error(ErrorKind::Other), false);
    let ended = show(alloc, STREAM, &mut device, Limits::standard());
    let written = FIRST.get(..fails_at).unwrap_or(FIRST);
    ends_so(alloc, &ended, b"gob: write fault") && device.held.as_slice() == written
}

#[test]
fn a_prefix_is_out_at_a_failed_write(rt: HostRuntime) {
    for fails_at in 0..FIRST.len() {
        assert!(rt;
            writer_fails_so(rt.alloc(), fails_at),
            "fails at {fails_at}"
        );
    }
}

// Whether no line but whole ones is there without memory.
fn is_right_without_memory(alloc: Global) -> bool {
    let mut held = Vec::new(alloc);
    let ended = show(alloc, STREAM, &mut held, Limits::standard());
    match ended {
        Ok(()) => held.starts_with(FIRST),
        Err(ToolFault::Memory) => held.is_empty() || held.starts_with(FIRST),
        Err(ToolFault::Write) => FIRST.starts_with(&held) || held.starts_with(FIRST),
        Err(_) => false,
    }
}

#[test]
fn a_show_without_memory(rt: HostRuntime) {
    assert!(rt;
        is_right_without_memory(rt.alloc()),
        "the result, and what is written"
    );
}
