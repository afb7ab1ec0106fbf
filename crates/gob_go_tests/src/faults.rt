//! Readers behind a fault, of either grammar: they answer `Failed` for good, and find and pass nothing.

use gob_go::GoSession;
use gob_num::Memory;
use gob_read::TreeBuilder;
use gob_stream::{Fault, Input, Limits, Passed, ReaderOf, Session, Steps};
use std::alloc::Global;
use std::io;
use std::io::{ErrorKind, Read};
use std::test::*;

// An input that gives bytes, and then fails or ends.
#[derive(Drop)]
struct Cut {
    bytes: &'static [u8],
    is_given: bool,
    fails: bool,
}

impl Read for Cut {
    fn read(&mut self, buf: &mut [u8]) -> io::Result<usize> {
        if self.is_given {
            return if self.fails {
                Err(io::Error::from(ErrorKind::Other))
            } else {
                Ok(0)
            };
        }
        self.is_given = true;
        let count = self.bytes.len().min(buf.len());
        buf[..count].copy_from_slice(&self.bytes[..count]);
        Ok(count)
    }
}

// Goes on by a step. False at the end of the input.
fn go_on<S: Steps>(
    alloc: Global,
    reader: &mut ReaderOf<S>,
    input: &mut Input<Cut>,
) -> Result<bool, Fault> {
    let more = reader.fill(input)?;
    if reader.waiting() > 0 {
        reader.step(alloc)?;
    }
    Ok(more)
}

// The fault that ends the input.
fn fault_of<S: Steps>(
    alloc: Global,
    reader: &mut ReaderOf<S>,
    input: &mut Input<Cut>,
) -> Option<Fault> {
    for _ in 0..20 {
        match go_on(alloc, reader, input) {
            Ok(true) => {}
            Ok(false) => return None,
            Err(fault) => return Some(fault),
        }
    }
    None
}

// Whether a step answers `Failed`, where bytes wait.
fn steps_no_more<S: Steps>(alloc: Global, reader: &mut ReaderOf<S>) -> bool {
    if reader.waiting() == 0 {
        return true;
    }
    matches!(reader.step(alloc), Err(Fault::Failed))
}

// Whether the reader reads no more, and what waits stays.
fn has_failed<S: Steps>(alloc: Global, reader: &mut ReaderOf<S>, input: &mut Input<Cut>) -> bool {
    let waiting = reader.waiting();
    let filled = reader.fill(input);
    let more = reader.more(input);
    let stepped = steps_no_more(alloc, reader);
    let passed = reader.pass_values();
    let is_failed = filled == Err(Fault::Failed) && more == Err(Fault::Failed) && stepped;
    is_failed && passed == Passed::NONE && reader.whole().is_none() && reader.waiting() == waiting
}

// Bytes, whether the input fails behind them or ends, and how many of them wait behind the fault.
static FAULTS: [(&[u8], bool, usize); 4] = [
    (b"\x03\x04\x00\x06\x80\x03\x04\x00\x06", false, 5),
    (b"\x03\x04\x00", false, 0),
    (b"\x03\x04\x00\x06", true, 0),
    (b"\x03\x04\x00", true, 3),
];

// Whether the bytes end in a refusal or a failed read, as the input ends or fails, or in want of memory, and the reader
// reads no more from there on.
fn fails_for_good<S: Steps>(
    alloc: Global,
    bytes: &'static [u8],
    fails: bool,
    waiting: usize,
) -> Result<bool, Memory> {
    let mut reader = ReaderOf::<S>::new(alloc, Limits::standard())?;
    let mut input = Input::new(Cut {
        bytes,
        is_given: false,
        fails,
    });
    let is_right = match fault_of(alloc, &mut reader, &mut input) {
        Some(Fault::Refused(_)) => !fails && reader.waiting() == waiting,
        Some(Fault::Read) => fails && reader.waiting() == waiting,
        Some(Fault::Memory) => true,
        _ => false,
    };
    Ok(is_right && has_failed(alloc, &mut reader, &mut input))
}

#[test]
fn readers_fail_for_good(rt: HostRuntime) {
    for (bytes, fails, waiting) in &FAULTS {
        let strict = fails_for_good::<Session<TreeBuilder>>(rt.alloc(), bytes, *fails, *waiting);
        let profile = fails_for_good::<GoSession>(rt.alloc(), bytes, *fails, *waiting);
        assert!(rt;
            strict != Ok(false) && profile != Ok(false),
            "{waiting} wait"
        );
    }
}
