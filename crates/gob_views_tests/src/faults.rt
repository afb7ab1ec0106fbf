//! Devices that fail in one of their calls.

use crate::devices::{SlowReader, SlowWriter};
use crate::ending::{Ending, ending_of};
use gob_stream::{Input, Limits, Output};
use gob_test_rows::bytes_of;
use gob_views::{SourceForm, ValueLines, run_types, run_values};
use std::alloc::{AllocError, Global};
use std::test::*;

const STREAM: &str = "03 04 00 06 POINT 07 ff 82 01 2c 01 42 00";

const VALUES: &[u8] = b"3\n{\"X\":22,\"Y\":33}\n";

const TYPES: &[u8] = b"package types\n\n// type 65\ntype Point struct {\n\tX int\n\tY int\n}\n";

// How the run over these devices ends, and whether a prefix of what is due was written, of this length where one is
// given.
fn ends(
    alloc: Global,
    of_values: bool,
    reader: SlowReader,
    mut writer: SlowWriter,
    length: Option<usize>,
) -> (Ending, bool) {
    let mut input = Input::new(reader);
    let mut output = Output::new(&mut writer);
    let limits = Limits::standard();
    let ended = if of_values {
        run_values(
            alloc,
            &mut input,
            &mut output,
            limits,
            ValueLines::default(),
        )
    } else {
        run_types(alloc, &mut input, &mut output, limits, SourceForm::Types)
    };
    let due = if of_values { VALUES } else { TYPES };
    let is_prefix = due.starts_with(writer.held.as_slice());
    (
        ending_of(ended),
        is_prefix && length.is_none_or(|length| length == writer.held.len()),
    )
}

fn reader_of(alloc: Global, fails_at: usize) -> Result<SlowReader, AllocError> {
    Ok(SlowReader {
        bytes: bytes_of(alloc, STREAM)?,
        piece: 1,
        fails_at,
        at: 0,
    })
}

#[test]
fn failed_writes_cut_what_is_written(rt: HostRuntime) -> Result<(), Fail> {
    let alloc = rt.alloc();
    for of_values in [true, false] {
        let due = if of_values { VALUES } else { TYPES };
        for fails_at in 0..due.len() {
            let reader = reader_of(alloc, usize::MAX)?;
            let writer = SlowWriter::new(alloc, fails_at, false);
            let ended = ends(alloc, of_values, reader, writer, Some(fails_at));
            assert!(rt; ended == (Ending::Write, true), "{fails_at}");
        }
    }
    Ok(())
}

#[test]
fn a_failed_flush_is_a_failed_write(rt: HostRuntime) -> Result<(), Fail> {
    let alloc = rt.alloc();
    for of_values in [true, false] {
        let reader = reader_of(alloc, usize::MAX)?;
        let writer = SlowWriter::new(alloc, usize::MAX, true);
        let ended = ends(alloc, of_values, reader, writer, None);
        assert!(rt; ended == (Ending::Write, true), "{of_values}");
    }
    Ok(())
}

// The first value's line has two bytes; that of the second is out once its last byte was read.
#[test]
fn failed_reads_leave_the_lines_before(rt: HostRuntime) -> Result<(), Fail> {
    let alloc = rt.alloc();
    let count = bytes_of(alloc, STREAM)?.len();
    for fails_at in 0..=count {
        let written = if fails_at < 4 {
            0
        } else if fails_at < count {
            2
        } else {
            VALUES.len()
        };
        let reader = reader_of(alloc, fails_at)?;
        let writer = SlowWriter::new(alloc, usize::MAX, false);
        let ended = ends(alloc, true, reader, writer, Some(written));
        assert!(rt; ended == (Ending::Read, true), "values: {fails_at}");
        let reader = reader_of(alloc, fails_at)?;
        let writer = SlowWriter::new(alloc, usize::MAX, false);
        let ended = ends(alloc, false, reader, writer, Some(0));
        assert!(rt; ended == (Ending::Read, true), "types: {fails_at}");
    }
    Ok(())
}
