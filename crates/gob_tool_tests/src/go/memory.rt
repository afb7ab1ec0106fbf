//! Runs that may lack memory. tools/refuse-memory has each allocation refused in turn.

use super::faults::{LINE, STREAM};
use super::runs::check;
use crate::devices::{SlowWriter, Trouble};
use gob_stream::Limits;
use gob_tool::ToolFault;
use std::alloc::Global;
use std::io::ErrorKind;
use std::test::*;

// Whether the run's result and what was written go together. The device takes memory too.
fn is_right_without_memory(alloc: Global) -> bool {
    let mut device = SlowWriter::new(alloc, 1000, Trouble::Error(ErrorKind::Other), false);
    let ended = check(alloc, STREAM, &mut device, Limits::standard());
    match ended {
        Ok(()) => device.held.as_slice() == LINE,
        Err(ToolFault::Memory) => device.held.is_empty(),
        Err(ToolFault::Write) => LINE.starts_with(device.held.as_slice()),
        Err(_) => false,
    }
}

#[test]
fn a_check_without_memory(rt: HostRuntime) {
    assert!(rt;
        is_right_without_memory(rt.alloc()),
        "the result, and what is written"
    );
}
