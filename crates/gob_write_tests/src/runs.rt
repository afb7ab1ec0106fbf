//! Runs, and how they end.

use gob_stream::{Input, Limits, Output};
use gob_write::{LinesFault, ShownLines, run_write};
use std::alloc::Global;
use std::io::{Read, Write};

/// The most bytes of a line that the program takes.
pub(crate) const MOST: u64 = 268435456;

/// Two ints, a line each of 21 bytes, and their stream.
pub(crate) const INTS: &[u8] = b"{\"type\":2,\"value\":3}\n{\"type\":2,\"value\":4}\n";

pub(crate) const INT_ITEMS: &[u8] = b"\x03\x04\x00\x06\x03\x04\x00\x08";

/// How a run over these devices ends.
pub(crate) fn run<R: Read + Drop, W: Write + Drop>(
    alloc: Global,
    reader: R,
    writer: W,
    most: u64,
) -> Result<(), LinesFault> {
    let mut input = Input::new(reader);
    let mut output = Output::new(writer);
    let lines = ShownLines { most, holds: false };
    run_write(alloc, &mut input, &mut output, Limits::standard(), lines)
}

/// Whether a run ended by a fault with this line, or without one where the line is empty.
pub(crate) fn ends_so(alloc: Global, ended: Result<(), LinesFault>, line: &str) -> bool {
    match ended {
        Ok(()) => line.is_empty(),
        Err(fault) => has_line(alloc, &fault, line),
    }
}

fn has_line(alloc: Global, fault: &LinesFault, line: &str) -> bool {
    match fault.to_string(alloc) {
        Ok(text) => text.as_bytes() == line.as_bytes(),
        Err(_) => false,
    }
}

/// Whether a run over this reader writes this, and ends by a fault with this line, or without one where the line is
/// empty.
pub(crate) fn is_run<R: Read + Drop>(
    alloc: Global,
    reader: R,
    most: u64,
    written: &[u8],
    due: &str,
) -> bool {
    let mut held = Vec::new(alloc);
    let is_ended = ends_so(alloc, run(alloc, reader, &mut held, most), due);
    is_ended && held.as_slice() == written
}
