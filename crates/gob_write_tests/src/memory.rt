//! A run that may lack memory. tools/refuse-memory has each allocation refused in turn.

use crate::devices::ByteWriter;
use crate::runs::{INT_ITEMS, INTS, MOST, run};
use gob_write::LinesFault;
use std::test::*;

// Whether the run's result and what was written go together. The device takes memory too.
fn go_together(ended: Result<(), LinesFault>, written: &[u8]) -> bool {
    match ended {
        Ok(()) => written == INT_ITEMS,
        Err(LinesFault::Memory) => written.is_empty() || written == &INT_ITEMS[..4],
        Err(LinesFault::Write) => true,
        Err(_) => false,
    }
}

#[test]
fn a_run_wants_memory(rt: HostRuntime) {
    let mut device = ByteWriter::new(rt.alloc(), usize::MAX, false);
    let ended = run(rt.alloc(), INTS, &mut device, MOST);
    assert!(rt; go_together(ended, device.held.as_slice()));
}
