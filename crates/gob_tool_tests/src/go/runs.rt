//! Runs over devices, and how they end.

use gob_stream::{Input, Limits, Output};
use gob_tool::{ToolFault, run_check_go, run_rewrite_go, run_show_go};
use std::alloc::Global;
use std::io::{Read, Write};

/// How a check over these devices ends.
pub(crate) fn check<R: Read + Drop, W: Write + Drop>(
    alloc: Global,
    reader: R,
    writer: W,
    limits: Limits,
) -> Result<(), ToolFault> {
    let mut input = Input::new(reader);
    let mut output = Output::new(writer);
    run_check_go(alloc, &mut input, &mut output, limits)
}

/// Whether a run ended by a fault with this line, or without one where the line is empty.
pub(crate) fn ends_so(alloc: Global, ended: &Result<(), ToolFault>, line: &[u8]) -> bool {
    match ended {
        Ok(()) => line.is_empty(),
        Err(fault) => match fault.to_string(alloc) {
            Ok(text) => text.as_bytes() == line,
            Err(_) => false,
        },
    }
}

/// Whether a check of the bytes writes this, and ends by a fault of this line.
pub(crate) fn is_checked(
    alloc: Global,
    bytes: &[u8],
    limits: Limits,
    written: &[u8],
    due: &[u8],
) -> bool {
    let mut held = Vec::new(alloc);
    let ended = check(alloc, bytes, &mut held, limits);
    ends_so(alloc, &ended, due) && held.as_slice() == written
}

/// How a run that writes the lines of what these devices give ends.
pub(crate) fn show<R: Read + Drop, W: Write + Drop>(
    alloc: Global,
    reader: R,
    writer: W,
    limits: Limits,
) -> Result<(), ToolFault> {
    let mut input = Input::new(reader);
    let mut output = Output::new(writer);
    run_show_go(alloc, &mut input, &mut output, limits)
}

/// Whether a run over the bytes writes these lines, and ends by a fault of this line.
pub(crate) fn is_shown(
    alloc: Global,
    bytes: &[u8],
    limits: Limits,
    written: &[u8],
    due: &[u8],
) -> bool {
    let mut held = Vec::new(alloc);
    let ended = show(alloc, bytes, &mut held, limits);
    ends_so(alloc, &ended, due) && held.as_slice() == written
}

/// How a run that writes the tidy forms of what these devices give ends, hoisted or not.
pub(crate) fn rewrite<R: Read + Drop, W: Write + Drop>(
    alloc: Global,
    reader: R,
    writer: W,
    hoist: bool,
) -> Result<(), ToolFault> {
    let mut input = Input::new(reader);
    let mut output = Output::new(writer);
    run_rewrite_go(alloc, &mut input, &mut output, Limits::standard(), hoist)
}
