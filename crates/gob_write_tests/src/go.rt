//! Lines where interfaces hold values, and the streams or the faults that they are.

use crate::devices::{ByteReader, ByteWriter};
use crate::runs::{MOST, ends_so};
use gob_stream::{Input, Limits, Output};
use gob_test_rows::bytes_of;
use gob_write::{LinesFault, ShownLines, run_write};
use std::alloc::Global;
use std::io::{Read, Write};
use std::test::*;

// Lines, their stream, and the line of the fault, empty where there is none.
const ROWS: [(&str, &str, &str); 13] = [
    ("\n{\"type\":2,\"value\":3}\n", "03 04 00 06", ""),
    ("{\"type\":8,\"value\":null}\n", "03 10 00 00", ""),
    (
        "{\"type\":8,\"value\":{\"interface\":{\"name\":\"int\",\"type\":2,\"value\":3}}}\n",
        "0a 10 00 03 69 6e 74 04 02 00 06",
        "",
    ),
    (
        "{\"type\":\"8\",\"value\":{\"interface\":{\"name\":\"int\",\"type\":\"2\",\"value\":\"3\"}}}\n",
        "0a 10 00 03 69 6e 74 04 02 00 06",
        "",
    ),
    (
        "{\"type\":8,\"value\":{\"interface\":{\"name\":\"string\",\"type\":6,\"value\":\"go\"}}}",
        "0f 10 00 06 73 74 72 69 6e 67 0c 04 00 02 67 6f",
        "",
    ),
    (
        "{\"define\":65,\"elem\":8,\"kind\":\"slice\",\"name\":\"\"}\n\
            {\"type\":8,\"value\":{\"interface\":{\"name\":\"S\",\"type\":65,\"value\":[null,\
            {\"interface\":{\"name\":\"int\",\"type\":2,\"value\":3}}]}}}\n",
        "0c ff 81 02 01 02 ff 82 00 01 10 00 00 12 10 00 01 53 ff 82 0b 00 02 00 03 69 6e 74 04 02 00 06",
        "",
    ),
    (
        "{\"define\":65,\"fields\":[[\"V\",8]],\"kind\":\"struct\",\"name\":\"P\"}\n\
            {\"type\":65,\"value\":[[0,\"V\",{\"interface\":{\"name\":\"P\",\"type\":65,\"value\":[]}}]]}\n",
        "15 ff 81 03 01 01 01 50 01 ff 82 00 01 01 01 01 56 01 10 00 00 00 0a ff 82 01 01 50 ff 82 01 00 00",
        "",
    ),
    (
        "{\"type\":2,\"value\":3}\n{\"type\":8,\"value\":3}\n",
        "03 04 00 06",
        "gob: line 2, column 19: null or {\"interface\":{\"name\":..,\"type\":..,\"value\":..}} is due",
    ),
    (
        "{\"type\":8,\"value\":{\"interface\":{\"name\":\"\",\"type\":2,\"value\":3}}}\n",
        "",
        "gob: line 1, column 40: the name of a type, of one character at least is due",
    ),
    (
        "{\"type\":8,\"value\":{\"interface\":{\"name\":\"int\",\"type\":99,\"value\":3}}}\n",
        "",
        "gob: line 1, column 53: a type that the lines before define, with what it leads to is due",
    ),
    (
        "{\"type\":8,\"value\":{\"interface\":{\"name\":\"x\",\"type\":24,\"value\":[]}}}\n",
        "",
        "gob: line 1, column 51: a type that the lines before define, with what it leads to is due",
    ),
    (
        "{\"type\":99,\"value\":3}\n",
        "",
        "gob: line 1: refused 10 UndefinedType(99)",
    ),
    (
        "{\"define\":63,\"elem\":2,\"kind\":\"slice\",\"name\":\"\"}\n",
        "",
        "gob: line 1: refused 7 ReservedType(63)",
    ),
];

// The int 3 in an interface, and its stream.
const HELD: &[u8] =
    b"{\"type\":8,\"value\":{\"interface\":{\"name\":\"int\",\"type\":2,\"value\":3}}}\n";

const HELD_ITEM: &[u8] = b"\x0a\x10\x00\x03int\x04\x02\x00\x06";

// How a run over these devices ends.
fn run_go<R: Read + Drop, W: Write + Drop>(
    alloc: Global,
    reader: R,
    writer: W,
) -> Result<(), LinesFault> {
    let mut input = Input::new(reader);
    let mut output = Output::new(writer);
    let lines = ShownLines {
        most: MOST,
        holds: true,
    };
    run_write(alloc, &mut input, &mut output, Limits::standard(), lines)
}

// Whether a run over this reader writes this, and ends by a fault with this line, or without one where it is empty.
fn is_go_run<R: Read + Drop>(alloc: Global, reader: R, written: &[u8], due: &str) -> bool {
    let mut held = Vec::new(alloc);
    let is_ended = ends_so(alloc, run_go(alloc, reader, &mut held), due);
    is_ended && held.as_slice() == written
}

// Whether the lines are this stream, and the fault is told so.
fn is_right(alloc: Global, lines: &str, stream: &str, due: &str) -> bool {
    match bytes_of(alloc, stream) {
        Ok(stream) => is_go_run(alloc, lines.as_bytes(), stream.as_slice(), due),
        Err(_) => false,
    }
}

#[test]
fn lines_with_interfaces_are_streams_or_faults(rt: HostRuntime) {
    for (lines, stream, due) in &ROWS {
        assert!(rt; is_right(rt.alloc(), lines, stream, due), "{lines}");
    }
}

// What is written, and the line of the fault, where the reader fails in this call, of which there is one for each byte
// and one for the end.
fn due_of_reader(fails_at: usize) -> (&'static [u8], &'static str) {
    if fails_at < HELD.len() {
        (&HELD_ITEM[..0], "gob: read fault")
    } else if fails_at == HELD.len() {
        (HELD_ITEM, "gob: read fault")
    } else {
        (HELD_ITEM, "")
    }
}

#[test]
fn readers_of_held_values_fail_once(rt: HostRuntime) {
    for fails_at in 0..=HELD.len() + 1 {
        let (written, due) = due_of_reader(fails_at);
        let reader = ByteReader::new(HELD, fails_at);
        assert!(rt;
            is_go_run(rt.alloc(), reader, written, due),
            "fails at {fails_at}"
        );
    }
}

// Whether a writer that fails in this call ends the run so, and a byte was written in each call before.
fn writer_fails_so(alloc: Global, fails_at: usize, due: &str) -> bool {
    let mut device = ByteWriter::new(alloc, fails_at, false);
    let ended = run_go(alloc, HELD, &mut device);
    let written = HELD_ITEM.get(..fails_at).unwrap_or(HELD_ITEM);
    ends_so(alloc, ended, due) && device.held.as_slice() == written
}

#[test]
fn writers_of_held_values_fail_once(rt: HostRuntime) {
    for fails_at in 0..11 {
        let is_so = writer_fails_so(rt.alloc(), fails_at, "gob: write fault");
        assert!(rt; is_so, "fails at {fails_at}");
    }
    assert!(rt; writer_fails_so(rt.alloc(), 11, ""));
}

// Whether the run's result and what was written go together. The device takes memory too.
fn go_together(ended: Result<(), LinesFault>, written: &[u8]) -> bool {
    match ended {
        Ok(()) => written == HELD_ITEM,
        Err(LinesFault::Memory) => written.is_empty() || written == HELD_ITEM,
        Err(LinesFault::Write) => true,
        Err(_) => false,
    }
}

// tools/refuse-memory has each allocation refused in turn.
#[test]
fn a_run_of_held_values_wants_memory(rt: HostRuntime) {
    let mut device = ByteWriter::new(rt.alloc(), usize::MAX, false);
    let ended = run_go(rt.alloc(), HELD, &mut device);
    assert!(rt; go_together(ended, device.held.as_slice()));
}
