//! When what was written is flushed.

use crate::devices::{SlowReader, SlowWriter};
use gob_stream::{Input, Limits, Output};
use gob_views::{ValueLines, run_values};
use std::test::*;

// Two items of four bytes, whose lines have two bytes each.
const TWO: &[u8] = b"\x03\x04\x00\x06\x03\x04\x00\x08";

#[test]
fn a_line_is_out_before_more_is_read(rt: HostRuntime) -> Result<(), Fail> {
    let alloc = rt.alloc();
    let reader = SlowReader {
        bytes: TWO.to_vec(alloc)?,
        piece: 1,
        fails_at: usize::MAX,
        at: 0,
    };
    let mut writer = SlowWriter::new(alloc, usize::MAX, false);
    let mut input = Input::new(reader);
    let mut output = Output::new(&mut writer);
    let lines = ValueLines::default();
    let is_whole = run_values(alloc, &mut input, &mut output, Limits::standard(), lines).is_ok();
    assert!(rt; is_whole, "the run");
    assert!(rt; writer.held.as_slice() == b"3\n4\n".as_slice(), "the lines");
    assert!(rt; writer.at_flushes.contains(&2), "the first line");
    Ok(())
}
