//! Devices that fail in one of their calls.

use crate::devices::{SlowReader, SlowWriter};
use crate::ending::{Ending, ending_of};
use gob_salvage::run_salvage;
use gob_stream::{Input, Limits, Output};
use gob_test_rows::bytes_of;
use std::alloc::{AllocError, Global};
use std::test::*;

const DAMAGED: &str = "03 04 00 06 03 ff 84 00 03 04 00 08";

const KEPT: &[u8] = b"\x03\x04\x00\x06\x03\x04\x00\x08";

fn reader_of(alloc: Global, fails_at: usize) -> Result<SlowReader, AllocError> {
    Ok(SlowReader {
        bytes: bytes_of(alloc, DAMAGED)?,
        piece: 1,
        fails_at,
        at: 0,
    })
}

// How the run over these devices ends, and whether so many of the first bytes that are due were written.
fn ends(alloc: Global, reader: SlowReader, mut writer: SlowWriter, count: usize) -> (Ending, bool) {
    let mut input = Input::new(reader);
    let mut output = Output::new(&mut writer);
    let limits = Limits::standard();
    let ended = run_salvage(alloc, &mut input, &mut output, limits, &mut None);
    let is_prefix = KEPT.starts_with(writer.held.as_slice()) && writer.held.len() == count;
    (ending_of(ended), is_prefix)
}

#[test]
fn failed_reads_write_nothing(rt: HostRuntime) -> Result<(), Fail> {
    let alloc = rt.alloc();
    for fails_at in 0..=bytes_of(alloc, DAMAGED)?.len() {
        let reader = reader_of(alloc, fails_at)?;
        let writer = SlowWriter::new(alloc, usize::MAX, false);
        let ended = ends(alloc, reader, writer, 0);
        assert!(rt; ended == (Ending::Read, true), "{fails_at}");
    }
    Ok(())
}

#[test]
fn failed_writes_cut_what_is_written(rt: HostRuntime) -> Result<(), Fail> {
    let alloc = rt.alloc();
    for fails_at in 0..KEPT.len() {
        let reader = reader_of(alloc, usize::MAX)?;
        let writer = SlowWriter::new(alloc, fails_at, false);
        let ended = ends(alloc, reader, writer, fails_at);
        assert!(rt; ended == (Ending::Write, true), "{fails_at}");
    }
    Ok(())
}

#[test]
fn a_failed_flush_is_a_failed_write(rt: HostRuntime) -> Result<(), Fail> {
    let alloc = rt.alloc();
    let reader = reader_of(alloc, usize::MAX)?;
    let writer = SlowWriter::new(alloc, usize::MAX, true);
    let ended = ends(alloc, reader, writer, KEPT.len());
    assert!(rt; ended == (Ending::Write, true), "the flush");
    Ok(())
}

#[test]
fn what_is_kept_goes_out(rt: HostRuntime) -> Result<(), Fail> {
    let alloc = rt.alloc();
    let reader = reader_of(alloc, usize::MAX)?;
    let writer = SlowWriter::new(alloc, usize::MAX, false);
    let ended = ends(alloc, reader, writer, KEPT.len());
    assert!(rt; ended == (Ending::Whole, true), "the run");
    Ok(())
}
