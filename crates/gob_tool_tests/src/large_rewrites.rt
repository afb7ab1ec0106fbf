//! Streams that are written again, with an item that is larger than what is gathered, and smaller ones around it.

use crate::commands::{Command, ends_so, is_run};
use crate::devices::{PieceReader, SlowWriter, Trouble};
use crate::large::{INTS, repeated};
use gob_stream::Limits;
use std::alloc::{AllocError, Global};
use std::io::ErrorKind;
use std::test::*;

// Whether these bytes, so many a call, are written again so.
fn is_rewritten(alloc: Global, bytes: &[u8], most: usize, tidy: &[u8]) -> bool {
    let reader = PieceReader::new(bytes, most);
    is_run(
        alloc,
        Command::Rewrite,
        Limits::standard(),
        reader,
        tidy,
        b"",
    )
}

fn stays(alloc: Global, most: usize) -> Result<bool, AllocError> {
    let tidy = INTS.stream(alloc)?;
    Ok(is_rewritten(alloc, &tidy, most, &tidy))
}

#[test]
fn a_tidy_one_stays(rt: HostRuntime) {
    for most in [1usize, 7, 100, 65536] {
        assert!(rt; stays(rt.alloc(), most) == Ok(true), "{most} a call");
    }
}

// The definition of a struct of an int and of bytes, and what stands before the bytes where the int is 0: written, and
// left out as it is in the tidy form.
const UNTIDY: &[u8] = b"\x1f\xff\x81\x03\x01\x01\x05\x50\x6f\x69\x6e\x74\x01\xff\x82\x00\
    \x01\x02\x01\x01\x58\x01\x04\x00\x01\x01\x59\x01\x0a\x00\x00\x00\
    \xfd\x03\x0d\x4a\xff\x82\x01\x00\x01\xfd\x03\x0d\x40";

const TIDY: &[u8] = b"\x1f\xff\x81\x03\x01\x01\x05\x50\x6f\x69\x6e\x74\x01\xff\x82\x00\
    \x01\x02\x01\x01\x58\x01\x04\x00\x01\x01\x59\x01\x0a\x00\x00\x00\
    \xfd\x03\x0d\x48\xff\x82\x02\xfd\x03\x0d\x40";

// Ten of the bytes, the end of the struct, and an int.
const TEN: &[u8] = b"\x0a\x0a\x0a\x0a\x0a\x0a\x0a\x0a\x0a\x0a";

const TAIL: &[u8] = b"\x00\x03\x04\x00\x06";

fn is_tidied(alloc: Global, most: usize) -> Result<bool, AllocError> {
    let untidy = repeated(alloc, UNTIDY, TEN, TAIL)?;
    let tidy = repeated(alloc, TIDY, TEN, TAIL)?;
    Ok(is_rewritten(alloc, &untidy, most, &tidy))
}

#[test]
fn an_untidy_one_is_tidied(rt: HostRuntime) {
    for most in [1usize, 7, 65536] {
        assert!(rt; is_tidied(rt.alloc(), most) == Ok(true), "{most} a call");
    }
}

// Whether a writer that makes trouble in this call ends the run so, and a byte was written in each call before.
fn writer_fails_so(alloc: Global, bytes: &[u8], fails_at: usize, trouble: Trouble) -> bool {
    let mut device = SlowWriter::new(alloc, fails_at, trouble, false);
    let ended = Command::Rewrite.run(alloc, Limits::standard(), bytes, &mut device);
    let is_ended = ends_so(alloc, ended, b"gob: write fault");
    is_ended && bytes.get(..fails_at) == Some(device.held.as_slice())
}

fn is_cut(alloc: Global, fails_at: usize, trouble: Trouble) -> Result<bool, AllocError> {
    let bytes = INTS.stream(alloc)?;
    Ok(writer_fails_so(alloc, &bytes, fails_at, trouble))
}

// How many calls are made in the definition, which is gathered, in the head of the item, and in its first bytes.
const FIRST: usize = 30;

#[test]
fn a_writer_fails_around_and_within(rt: HostRuntime) {
    for trouble in [Trouble::Error(ErrorKind::Other), Trouble::TakesNothing] {
        // Behind the first ones in the middle of the item, in its last byte, and behind it.
        for fails_at in (0..FIRST).chain([100000usize, 200024, 200025, 200032]) {
            let is_cut = is_cut(rt.alloc(), fails_at, trouble);
            assert!(rt; is_cut == Ok(true), "fails at {fails_at}");
        }
    }
}
