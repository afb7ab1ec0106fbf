//! Runs that may lack memory. tools/refuse-memory has each allocation refused in turn.

use crate::devices::{SlowWriter, Trouble};
use crate::trials::{HELD, RENAMED, Trial, trials};
use gob_stream::Limits;
use gob_tool::ToolFault;
use std::alloc::Global;
use std::test::*;

// Whether the run's result and what was written go together. The device takes memory too.
fn is_right_without_memory(alloc: Global, trial: &Trial) -> bool {
    let mut device = SlowWriter::new(alloc, 1000, Trouble::TakesNothing, false);
    let limits = Limits::standard();
    let ended = trial.command.run(alloc, limits, trial.stream, &mut device);
    go_together(trial, ended, &device.held)
}

fn go_together(trial: &Trial, ended: Result<(), ToolFault>, written: &[u8]) -> bool {
    match ended {
        Ok(()) => written == trial.written,
        Err(ToolFault::Memory) => is_begun(trial, written),
        Err(ToolFault::Write) => true,
        Err(_) => false,
    }
}

// Whether nothing is written, as before the wanted type is known, or that of fewer bytes than the stream has.
fn is_begun(trial: &Trial, written: &[u8]) -> bool {
    written.is_empty()
        || (0..trial.stream.len()).any(|bytes| trial.written_within(bytes) == written)
}

#[test]
fn runs_want_memory(rt: HostRuntime) {
    for trial in &trials() {
        let is_right = is_right_without_memory(rt.alloc(), trial);
        assert!(rt; is_right, "{}", trial.what);
    }
}

#[test]
fn conversions_want_memory(rt: HostRuntime) {
    for trial in &[RENAMED, HELD] {
        let is_right = is_right_without_memory(rt.alloc(), trial);
        assert!(rt; is_right, "{}", trial.what);
    }
}
