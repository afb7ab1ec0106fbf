//! What is kept of the rows, and what is told.

use super::rows::{ROWS, Row};
use gob_num::Memory;
use gob_salvage::{report, run_salvage, salvage};
use gob_stream::{Input, Limits, Output};
use gob_test_rows::bytes_of;
use gob_tool::ToolFault;
use std::alloc::{AllocError, Global};
use std::test::*;

// Whether so much is kept of the row's bytes, and that is told.
fn is_kept(alloc: Global, row: &Row) -> Result<bool, Memory> {
    let bytes = bytes_of(alloc, row.bytes)?;
    let due = bytes_of(alloc, row.kept)?;
    let limits = Limits::standard();
    if bytes.len() as u64 > limits.stream() {
        return Ok(false);
    }
    let kept = salvage(alloc, limits, &bytes)?;
    let told = report(alloc, &kept)?;
    Ok(
        kept.items == row.items
            && kept.bytes.as_slice() == due.as_slice()
            && kept.is_damaged() == row.is_damaged
            && told.as_str() == row.told,
    )
}

// Whether the run writes what is kept, and tells the same.
fn is_sent(alloc: Global, row: &Row) -> Result<bool, Memory> {
    let bytes = bytes_of(alloc, row.bytes)?;
    let due = bytes_of(alloc, row.kept)?;
    let mut written = Vec::new(alloc);
    let mut told = None;
    let mut input = Input::new(bytes.as_slice());
    let mut output = Output::new(&mut written);
    match run_salvage(
        alloc,
        &mut input,
        &mut output,
        Limits::standard(),
        &mut told,
    ) {
        Ok(()) => {}
        // A vector that has no memory for what it is given is a writer that fails.
        Err(ToolFault::Memory | ToolFault::Write) => return Err(Memory),
        Err(_) => return Ok(false),
    }
    let Some(kept) = told else {
        return Ok(false);
    };
    let told = report(alloc, &kept)?;
    Ok(written.as_slice() == due.as_slice() && told.as_str() == row.told)
}

#[test]
fn what_is_not_damaged_is_kept(rt: HostRuntime) -> Result<(), Fail> {
    for row in &ROWS {
        let is_right = is_kept(rt.alloc(), row) == Ok(true);
        assert!(rt; is_right, "{}", row.what);
        let is_right = is_sent(rt.alloc(), row) == Ok(true);
        assert!(rt; is_right, "the run: {}", row.what);
    }
    Ok(())
}

// What is due is sent where there is room: of a whole stream, behind a changed byte, and of a definition said again.
// Each allocation of these is refused in turn, so other rows would take longer and meet no other call.
#[test]
fn salvaging_wants_memory(rt: HostRuntime) {
    for row in [&ROWS[1], &ROWS[2], &ROWS[6]] {
        let is_right = is_sent(rt.alloc(), row) != Ok(false);
        assert!(rt; is_right, "{}", row.what);
    }
}

// So many ints with a byte too many behind each.
fn ints_apart(alloc: Global, count: usize) -> Result<Vec<u8>, AllocError> {
    let mut bytes = Vec::new(alloc);
    for _ in 0..count {
        bytes.extend_from_slice(b"\x03\x04\x00\x06\x03\x04\x00\x06\x03\x04\x00\x06\x00")?;
    }
    Ok(bytes)
}

// So many gaps are told one by one, and how many more there are.
#[test]
fn twenty_gaps_are_told(rt: HostRuntime) -> Result<(), Fail> {
    let alloc = rt.alloc();
    let mut bytes = bytes_of(alloc, "POINT")?;
    bytes.extend_from_slice(&ints_apart(alloc, 22)?)?;
    let limits = Limits::standard();
    assert!(rt;
        bytes.len() as u64 <= limits.stream(),
        "a stream may be so long"
    );
    let kept = salvage(alloc, limits, &bytes)?;
    let told = report(alloc, &kept)?;
    assert!(rt; kept.items == 67 && kept.gaps.len() == 22, "what is kept");
    assert!(rt; told.as_str().lines().count() == 22, "the lines");
    assert!(rt;
        told.as_str().contains("\ngob: and 2 places more\n"),
        "the gaps that aren't told"
    );
    Ok(())
}

#[test]
fn too_long_an_input_is_refused(rt: HostRuntime) -> Result<(), Fail> {
    let alloc = rt.alloc();
    let limits = match Limits::deep(100, 1000, 10, 40) {
        Some(limits) => limits,
        None => Limits::standard(),
    };
    let bytes = bytes_of(alloc, "POINT 07 ff 82 01 2c 01 42 00 03")?;
    let mut written = Vec::new(alloc);
    let mut input = Input::new(bytes.as_slice());
    let mut output = Output::new(&mut written);
    let ended = run_salvage(alloc, &mut input, &mut output, limits, &mut None);
    let line = match ended {
        Err(fault) => fault.to_string(alloc)?,
        Ok(()) => String::new(alloc),
    };
    let is_right = line.as_str() == "gob: refused 4 StreamTooLong at 40 seen 40";
    assert!(rt; is_right, "{line}");
    assert!(rt; written.is_empty(), "what is written");
    Ok(())
}
