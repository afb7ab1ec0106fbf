//! Runs of `show` over items that are larger than a piece: their lines go out in blocks.

use crate::commands::ends_so;
use crate::devices::{PieceReader, SlowWriter, Trouble};
use crate::large::{INTS, Large, PAIRS, RECORDS, SIZES, STRINGS};
use gob_stream::{Input, Limits, Output};
use gob_tool::run_show;
use std::alloc::{AllocError, Global};
use std::io::ErrorKind;
use std::test::*;

// Whether a reader gives these lines, and the run ends by a fault of this line when so many bytes were read.
fn is_shown(alloc: Global, reader: PieceReader<'_>, lines: &[u8], due: &str, read: usize) -> bool {
    let mut held = Vec::new(alloc);
    let mut input = Input::new(reader);
    let mut output = Output::new(&mut held);
    let ended = run_show(alloc, &mut input, &mut output, Limits::standard());
    let is_ended = ends_so(alloc, ended, due.as_bytes());
    is_ended && input.taken() == read as u64 && held.as_slice() == lines
}

// Whether the lines are written of the stream, of which so many bytes come in a call.
fn is_right(alloc: Global, large: &Large, most: usize) -> Result<bool, AllocError> {
    let lines = large.lines(alloc)?;
    let bytes = large.stream(alloc)?;
    let reader = PieceReader::new(&bytes, most);
    Ok(is_shown(alloc, reader, &lines, "", bytes.len()))
}

// Items, and how many bytes of their streams come in a call.
const WHOLE: [(Large, &[usize]); 5] = [
    (INTS, &[1, 7, 100, 65536]),
    (SIZES, &[7, 65536]),
    (STRINGS, &[7, 65536]),
    (PAIRS, &[7, 65536]),
    (RECORDS, &[7, 65536]),
];

#[test]
fn large_items_are_shown(rt: HostRuntime) {
    for (large, counts) in &WHOLE {
        for most in *counts {
            let is_right = is_right(rt.alloc(), large, *most);
            assert!(rt; is_right == Ok(true), "{}, {most} a call", large.what);
        }
    }
}

// Whether a run ends by a failed write, which is counted once.
fn is_failed(alloc: Global, bytes: &[u8], writer: &mut SlowWriter) -> bool {
    let mut input = Input::new(PieceReader::new(bytes, 65536));
    let mut output = Output::new(writer);
    let ended = run_show(alloc, &mut input, &mut output, Limits::standard());
    ends_so(alloc, ended, b"gob: write fault") && output.failures() == 1
}

// Whether a run whose write behind so many bytes fails has written a prefix of the lines.
fn is_cut(alloc: Global, bytes: &[u8], lines: &[u8], fails_at: usize) -> bool {
    let trouble = Trouble::Error(ErrorKind::Other);
    let mut writer = SlowWriter::new(alloc, fails_at, trouble, false);
    let is_failed = is_failed(alloc, bytes, &mut writer);
    is_failed && lines.get(..fails_at) == Some(writer.held.as_slice())
}

// Whether it has, where the call of so many bytes fails, of which there is one for each.
fn is_prefix_written(alloc: Global, large: &Large, fails_at: usize) -> Result<bool, AllocError> {
    let lines = large.lines(alloc)?;
    let bytes = large.stream(alloc)?;
    Ok(is_cut(alloc, &bytes, &lines, fails_at))
}

// Items, and behind how many bytes of their lines a write fails.
const CUTS: [(Large, &[usize]); 4] = [
    (
        INTS,
        &[0, 47, 70, 71, 65600, 65601, 131136, 400000, 400071, 400074],
    ),
    (STRINGS, &[0, 60, 65535, 65536, 131200, 250000]),
    (PAIRS, &[0, 60, 65535, 65536, 131200, 250000]),
    (RECORDS, &[0, 60, 65535, 65536, 131200, 250000]),
];

#[test]
fn a_write_fails_in_their_middle(rt: HostRuntime) {
    for (large, places) in &CUTS {
        for fails_at in *places {
            let is_right = is_prefix_written(rt.alloc(), large, *fails_at);
            assert!(rt; is_right == Ok(true), "{}, at {fails_at}", large.what);
        }
    }
}

// The line of the definition before the ints.
const DEFINITION: &[u8] = b"{\"define\":66,\"elem\":2,\"kind\":\"slice\",\"name\":\"\"}\n";

// How many bytes stand before the element in the middle of the ints that is spoiled.
const MIDDLE: usize = 100024;

// What happens in their middle.
#[derive(Clone, Copy)]
enum Spoiling {
    // One of the ints is none.
    Refused,
    // The stream ends.
    Ended,
    // The third read fails.
    Unread,
}

// What happens, how many bytes come in a call, the line of the fault, and how many bytes were read then. An item whose
// head stands in one piece is kept until it is whole, and judged then. Before a read fails two are whole, each of as
// many bytes as the reader gives at once.
const SPOILED: [(Spoiling, usize, &str, usize); 10] = [
    (
        Spoiling::Refused,
        1,
        "gob: refused 1 BadHead at 100024 seen 100025",
        100025,
    ),
    (
        Spoiling::Refused,
        7,
        "gob: refused 1 BadHead at 100024 seen 100025",
        100030,
    ),
    (
        Spoiling::Refused,
        100,
        "gob: refused 1 BadHead at 100024 seen 100025",
        200033,
    ),
    (
        Spoiling::Refused,
        65536,
        "gob: refused 1 BadHead at 100024 seen 100025",
        200033,
    ),
    (
        Spoiling::Ended,
        1,
        "gob: refused 22 Ended at 100024 seen 100024",
        100024,
    ),
    (
        Spoiling::Ended,
        7,
        "gob: refused 22 Ended at 100024 seen 100024",
        100024,
    ),
    (
        Spoiling::Ended,
        65536,
        "gob: refused 22 Ended at 100024 seen 100024",
        100024,
    ),
    (Spoiling::Unread, 7, "gob: read fault", 14),
    (Spoiling::Unread, 100, "gob: read fault", 200),
    (Spoiling::Unread, 32768, "gob: read fault", 65536),
];

// The bytes of the ints, so far as they come.
fn spoil(bytes: &mut Vec<u8>, spoiling: Spoiling) {
    match spoiling {
        Spoiling::Refused => {
            if let Some(byte) = bytes.get_mut(MIDDLE) {
                *byte = 0xf7;
            }
        }
        Spoiling::Ended => bytes.truncate(MIDDLE),
        Spoiling::Unread => {}
    }
}

// The call in which the reader fails.
fn call_of(spoiling: Spoiling) -> usize {
    match spoiling {
        Spoiling::Unread => 2,
        _ => usize::MAX,
    }
}

// Whether the definition alone is shown, and the run ends so.
fn is_stopped(
    alloc: Global,
    spoiling: Spoiling,
    most: usize,
    due: &str,
    read: usize,
) -> Result<bool, AllocError> {
    let mut bytes = INTS.stream(alloc)?;
    spoil(&mut bytes, spoiling);
    let reader = PieceReader::failing(&bytes, most, call_of(spoiling), ErrorKind::Other);
    Ok(is_shown(alloc, reader, DEFINITION, due, read))
}

#[test]
fn runs_are_stopped_in_the_middle_of_an_item(rt: HostRuntime) {
    for (spoiling, most, due, read) in SPOILED {
        let is_right = is_stopped(rt.alloc(), spoiling, most, due, read);
        assert!(rt; is_right == Ok(true), "{due}, {most} a call");
    }
}
