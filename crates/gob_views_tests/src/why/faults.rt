//! What is written of a whole stream and of a refused one, byte by byte, and where a device fails.

use crate::devices::{SlowReader, SlowWriter};
use crate::ending::{Ending, ending_of};
use gob_stream::{Input, Limits, Output};
use gob_test_rows::bytes_of;
use gob_why::run_why;
use std::alloc::{AllocError, Global};
use std::test::*;

// A stream, and what is said of it.
#[derive(Clone, Copy)]
struct Row {
    stream: &'static str,
    said: &'static str,
    ending: Ending,
}

const ROWS: [Row; 2] = [
    Row {
        stream: "03 04 00 06 POINT 07 ff 82 01 2c 01 42 00",
        said: "ok: 3 items, 1 types, 44 bytes\n1 value of type 2, int\n1 value of type 65, Point\n",
        ending: Ending::Whole,
    },
    Row {
        stream: "POINT 07 ff 82 01 2c 02 42 00",
        said: "refused 15 FieldNumber at 37 seen 38
what: A struct has no such field.
where: item 1, Point: a value of type 65, Point, which begins at byte 32
expected: 0 for the end of the struct, or how far on the next field stands: of X, Y
found: 02, at byte 37
cause: These bytes were changed, or something else stands in the file from here on.
next: Get the file once more from where it comes from, or read what isn't damaged: gob values --salvage IN
",
        ending: Ending::Refused,
    },
];

// How the run over these devices ends, and how much of what is due was written; None: something else was.
fn ends(
    alloc: Global,
    row: &Row,
    read_fails_at: usize,
    mut writer: SlowWriter,
) -> Result<(Ending, Option<usize>), AllocError> {
    let reader = SlowReader {
        bytes: bytes_of(alloc, row.stream)?,
        piece: 1,
        fails_at: read_fails_at,
        at: 0,
    };
    let mut input = Input::new(reader);
    let mut output = Output::new(&mut writer);
    let ended = run_why(alloc, &mut input, &mut output, Limits::standard(), None);
    let is_prefix = row.said.as_bytes().starts_with(writer.held.as_slice());
    let written = if is_prefix {
        Some(writer.held.len())
    } else {
        None
    };
    Ok((ending_of(ended), written))
}

#[test]
fn all_is_said_of_what_comes_byte_by_byte(rt: HostRuntime) -> Result<(), Fail> {
    let alloc = rt.alloc();
    for row in &ROWS {
        let writer = SlowWriter::new(alloc, usize::MAX, false);
        let ended = ends(alloc, row, usize::MAX, writer)?;
        assert!(rt;
            ended == (row.ending, Some(row.said.len())),
            "{}",
            row.stream
        );
    }
    Ok(())
}

#[test]
fn failed_writes_cut_what_is_said(rt: HostRuntime) -> Result<(), Fail> {
    let alloc = rt.alloc();
    for row in &ROWS {
        for fails_at in 0..row.said.len() {
            let writer = SlowWriter::new(alloc, fails_at, false);
            let ended = ends(alloc, row, usize::MAX, writer)?;
            assert!(rt; ended == (Ending::Write, Some(fails_at)), "{fails_at}");
        }
    }
    Ok(())
}

// The refused stream shows its refusal with its 38th byte, so no read behind that fails.
#[test]
fn failed_reads_leave_nothing_said(rt: HostRuntime) -> Result<(), Fail> {
    let alloc = rt.alloc();
    for row in &ROWS {
        for fails_at in 0..38 {
            let writer = SlowWriter::new(alloc, usize::MAX, false);
            let ended = ends(alloc, row, fails_at, writer)?;
            assert!(rt; ended == (Ending::Read, Some(0)), "{fails_at}");
        }
    }
    Ok(())
}

// What is due is written where there is room, and without memory nothing is said.
#[test]
fn without_memory_nothing_is_said(rt: HostRuntime) {
    let alloc = rt.alloc();
    for row in &ROWS {
        let writer = SlowWriter::new(alloc, usize::MAX, false);
        let is_right = match ends(alloc, row, usize::MAX, writer) {
            Ok((Ending::Other, written)) => written == Some(0),
            Ok((Ending::Write, written)) => written.is_some(),
            Ok(ended) => ended == (row.ending, Some(row.said.len())),
            Err(_) => true,
        };
        assert!(rt; is_right, "{}", row.stream);
    }
}
