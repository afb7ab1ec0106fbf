//! Readers that fail or never end, and limits.

use crate::devices::{Endless, Failing};
use crate::rows::is_outcome;
use gob_read::TreeBuilder;
use gob_stream::{Fault, Input, Limits, Session, read_stream};
use std::alloc::Global;
use std::io::{ErrorKind, Read};

// Whether a stream without end, which these bytes are over and over, gives this under a limit for the stream, and no
// more than so many bytes are taken.
fn ends_so(alloc: Global, bytes: &'static [u8], stream: u64, gives: &str, most: u64) -> bool {
    let Some(limits) = Limits::new(u64::MAX, 1000, 1, stream) else {
        return false;
    };
    let mut input = Input::new(Endless::new(bytes));
    let mut items = Vec::new(alloc);
    let answer = read_stream(alloc, &mut input, limits, &mut items);
    is_outcome(alloc, gives, items.len(), answer) && input.taken() <= most
}

// Streams without end: what they are over and over, the limit for the stream, what they give, and how many bytes are
// taken at most.
static ENDLESS: [(&[u8], u64, &str, u64); 3] = [
    (
        b"\x03\x04\x00\x06",
        10,
        "2 items, refused 4 StreamTooLong at 8 seen 9",
        19,
    ),
    (
        b"\xff",
        1000,
        "0 items, refused 15 FieldNumber at 4 seen 6",
        257,
    ),
    (b"\x00", 1000, "0 items, refused 5 Short at 1 seen 1", 1),
];

#[test]
fn streams_without_end_are_refused(rt: HostRuntime) {
    for (bytes, stream, gives, most) in &ENDLESS {
        assert!(rt;
            ends_so(rt.alloc(), bytes, *stream, gives, *most),
            "{gives}"
        );
    }
}

// Whether the session gives another item.
fn is_given<R: Read>(
    alloc: Global,
    session: &mut Session<TreeBuilder>,
    input: &mut Input<R>,
) -> Result<bool, Fault> {
    let item = session.read_item(alloc, input)?;
    Ok(item.is_some())
}

// Takes the items of an input one at a time, at most so many, and counts them up to the end or a fault.
fn count_items<R: Read>(
    alloc: Global,
    session: &mut Session<TreeBuilder>,
    input: &mut Input<R>,
    most: usize,
) -> Result<usize, (usize, Fault)> {
    for count in 0..most {
        match is_given(alloc, session, input) {
            Ok(true) => {}
            Ok(false) => return Ok(count),
            Err(fault) => return Err((count, fault)),
        }
    }
    Ok(most)
}

// Whether a reader that gives a byte a call, and fails in this one, ends two items of four bytes each with a fault,
// counted once and read no further.
fn fails_there(alloc: Global, fails_at: usize, kind: ErrorKind) -> bool {
    let bytes = b"\x03\x04\x00\x06\x03\x02\x00\x01";
    let mut input = Input::new(Failing::new(bytes, fails_at, kind));
    let mut items = Vec::new(alloc);
    let answer = read_stream(alloc, &mut input, Limits::standard(), &mut items);
    let counted = input.failures() == 1 && input.taken() == fails_at as u64;
    answer == Err(Fault::Read) && counted && items.len() == fails_at / 4
}

// Whether a session takes the same items one at a time, has the same fault, and takes none from then on.
fn fails_for_good(alloc: Global, fails_at: usize, kind: ErrorKind) -> bool {
    let bytes = b"\x03\x04\x00\x06\x03\x02\x00\x01";
    let mut input = Input::new(Failing::new(bytes, fails_at, kind));
    let Ok(mut session) = Session::<TreeBuilder>::new(alloc, Limits::standard()) else {
        return false;
    };
    let taken = count_items(alloc, &mut session, &mut input, 3);
    let again = count_items(alloc, &mut session, &mut input, 3);
    taken == Err((fails_at / 4, Fault::Read)) && again == Err((0, Fault::Failed))
}

// Whether both are so, where the call fails in either way.
fn fail_once(alloc: Global, fails_at: usize) -> bool {
    fails_there(alloc, fails_at, ErrorKind::Interrupted)
        && fails_there(alloc, fails_at, ErrorKind::Other)
        && fails_for_good(alloc, fails_at, ErrorKind::Interrupted)
        && fails_for_good(alloc, fails_at, ErrorKind::Other)
}

#[test]
fn readers_fail_once(rt: HostRuntime) {
    // four calls for each of two items, and one for the end of the input
    for fails_at in 0..9 {
        assert!(rt; fail_once(rt.alloc(), fails_at), "fails at {fails_at}");
    }
}

// Depths, and whether limits may be so deep: those of `new`, and those of `deep`.
static DEPTHS: [(u64, bool, bool); 5] = [
    (1000, true, true),
    (1001, false, true),
    (65536, false, true),
    (65537, false, false),
    (0, false, false),
];

#[test]
fn limits_go_down_to_65536(rt: HostRuntime) {
    for (depth, is_new, is_deep) in &DEPTHS {
        let is_right = Limits::new(1, *depth, 1, 1).is_some() == *is_new
            && Limits::deep(1, *depth, 1, 1).is_some() == *is_deep;
        assert!(rt; is_right, "depth {depth}");
    }
}

// Whether limits are no deeper than asked for.
fn are_lowered() -> bool {
    let Some(deep) = Limits::deep(7, 65536, 8, 9) else {
        return false;
    };
    Some(deep.up_to(1000)) == Limits::new(7, 1000, 8, 9) && deep.up_to(65537) == deep
}

#[test]
fn limits_are_no_deeper_than_asked_for(rt: HostRuntime) {
    assert!(rt; are_lowered());
}
