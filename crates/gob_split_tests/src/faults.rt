//! Parts that aren't written, and inputs that are refused or can't be read.

use crate::held::Held;
use crate::rows::ROWS;
use gob_num::Memory;
use gob_split::{PartSize, run_split};
use gob_stream::{Input, Limits};
use gob_test_rows::bytes_of;
use gob_tool::ToolFault;
use std::alloc::Global;
use std::test::*;

// How a run ends.
#[derive(Clone, Copy, Debug, PartialEq, Eq)]
enum Ending {
    Whole,
    Refused,
    NotWritten,
    Other,
}

fn ending_of(ended: Result<(), ToolFault>) -> Ending {
    match ended {
        Ok(()) => Ending::Whole,
        Err(ToolFault::Refused(_)) => Ending::Refused,
        Err(ToolFault::Write) => Ending::NotWritten,
        Err(_) => Ending::Other,
    }
}

// How the bytes are split into parts of two values, which are then held there.
fn split(alloc: Global, bytes: &[u8], held: &mut Held) -> Ending {
    let mut input = Input::new(bytes);
    let limits = Limits::standard();
    ending_of(run_split(alloc, &mut input, held, limits, PartSize::Values(2)))
}

// The bytes of all parts, one part behind another.
fn joined(alloc: Global, parts: &[Vec<u8>]) -> Result<Vec<u8>, Memory> {
    let mut all = Vec::new(alloc);
    for part in parts {
        all.extend_from_slice(part)?;
    }
    Ok(all)
}

#[test]
fn a_failed_write_leaves_a_prefix(rt: HostRuntime) -> Result<(), Fail> {
    let alloc = rt.alloc();
    let stream = bytes_of(alloc, ROWS[8].stream)?;
    let mut whole = Held::new(alloc, usize::MAX, usize::MAX);
    assert!(rt;
        split(alloc, &stream, &mut whole) == Ending::Whole,
        "the whole stream"
    );
    let due = joined(alloc, &whole.parts).unwrap_or(Vec::new(alloc));
    for bytes_left in 0..due.len() {
        let mut held = Held::new(alloc, bytes_left, usize::MAX);
        let ending = split(alloc, &stream, &mut held);
        let sent = joined(alloc, &held.parts).unwrap_or(Vec::new(alloc));
        let is_prefix = due.starts_with(&sent) && sent.len() == bytes_left;
        assert!(rt; ending == Ending::NotWritten && is_prefix, "{bytes_left}");
    }
    Ok(())
}

#[test]
fn a_part_that_is_not_begun_or_finished_is_a_failed_write(rt: HostRuntime) -> Result<(), Fail> {
    let alloc = rt.alloc();
    let stream = bytes_of(alloc, ROWS[8].stream)?;
    for calls_left in 0..3 {
        let mut held = Held::new(alloc, usize::MAX, calls_left);
        let ending = split(alloc, &stream, &mut held);
        assert!(rt;
            ending == Ending::NotWritten && held.parts.len() == calls_left.min(2),
            "{calls_left}"
        );
    }
    Ok(())
}

#[test]
fn what_stands_before_a_refusal_is_split(rt: HostRuntime) -> Result<(), Fail> {
    let alloc = rt.alloc();
    let stream = bytes_of(alloc, "03 04 00 06 03 04 00 08 03 04 00 0a 03 ff 84 00")?;
    let mut held = Held::new(alloc, usize::MAX, usize::MAX);
    let ending = split(alloc, &stream, &mut held);
    let sent = joined(alloc, &held.parts).unwrap_or(Vec::new(alloc));
    let are_whole = stream.starts_with(&sent) && sent.len() == 12 && held.parts.len() == 2;
    assert!(rt;
        ending == Ending::Refused && are_whole && held.is_finished,
        "the items before the refusal"
    );
    Ok(())
}
