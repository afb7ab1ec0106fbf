//! Streams that are joined.

use crate::rows::{HELD, RECORDS};
use gob_go_writer::GoWriter;
use gob_join::{JoinFault, join_file};
use gob_num::Memory;
use gob_stream::{Input, Limits, Output};
use gob_test_rows::bytes_of;
use std::alloc::Global;
use std::test::*;

// Two streams, and what is due of them, in the notation of docs/FORMAT.md.
struct Joint {
    what: &'static str,
    first: &'static str,
    second: &'static str,
    joined: &'static str,
    ending: Ending,
}

// How the second one ends.
#[derive(Clone, Copy, Debug, PartialEq, Eq)]
enum Ending {
    Whole,
    Refused,
}

// What another process writes of `Q{"a"}`, where Q is `struct{ S string }`: under the id that P has in RECORDS.
const OTHER: &str =
    "15 ff 81 03 01 01 01 51 01 ff 82 00 01 01 01 01 53 01 0c 00 00 00 06 ff 82 01 01 61 00";

const JOINTS: [Joint; 8] = [
    Joint {
        what: "ints",
        first: "03 04 00 06",
        second: "03 04 00 08 03 04 00 0a",
        joined: "03 04 00 06 03 04 00 08 03 04 00 0a",
        ending: Ending::Whole,
    },
    Joint {
        what: "a type of which no value comes is left out",
        first: "15 ff 81 03 01 01 01 50 01 ff 82 00 01 01 01 01 58 01 04 00 00 00",
        second: OTHER,
        joined: OTHER,
        ending: Ending::Whole,
    },
    Joint {
        what: "a type that is the same under its id is defined once",
        first: RECORDS,
        second: RECORDS,
        joined: "15 ff 81 03 01 01 01 50 01 ff 82 00 01 01 01 01 58 01 04 00 00 00 05 ff 82 01 02 00 05 ff 82 \
            01 04 00 15 ff 83 03 01 01 01 51 01 ff 84 00 01 01 01 01 53 01 0c 00 00 00 06 ff 84 01 01 61 \
            00 05 ff 82 01 06 00 06 ff 84 01 01 62 00 05 ff 82 01 02 00 05 ff 82 01 04 00 06 ff 84 01 01 \
            61 00 05 ff 82 01 06 00 06 ff 84 01 01 62 00",
        ending: Ending::Whole,
    },
    Joint {
        what: "a type whose id another one has gets the least free id",
        first: OTHER,
        second: RECORDS,
        joined: "15 ff 81 03 01 01 01 51 01 ff 82 00 01 01 01 01 53 01 0c 00 00 00 06 ff 82 01 01 61 00 15 ff \
            83 03 01 01 01 50 01 ff 84 00 01 01 01 01 58 01 04 00 00 00 05 ff 84 01 02 00 05 ff 84 01 04 \
            00 06 ff 82 01 01 61 00 05 ff 84 01 06 00 06 ff 82 01 01 62 00",
        ending: Ending::Whole,
    },
    Joint {
        what: "a type that is the same under another id is defined once",
        first: RECORDS,
        second: OTHER,
        joined: "15 ff 81 03 01 01 01 50 01 ff 82 00 01 01 01 01 58 01 04 00 00 00 05 ff 82 01 02 00 05 ff 82 \
            01 04 00 15 ff 83 03 01 01 01 51 01 ff 84 00 01 01 01 01 53 01 0c 00 00 00 06 ff 84 01 01 61 \
            00 05 ff 82 01 06 00 06 ff 84 01 01 62 00 06 ff 84 01 01 61 00",
        ending: Ending::Whole,
    },
    Joint {
        what: "so is one that leads to itself",
        first: "15 ff 81 03 01 01 01 51 01 ff 82 00 01 01 01 01 53 01 0c 00 00 00 06 ff 82 01 01 61 00 19 ff \
            83 03 01 01 01 4e 01 ff 84 00 01 01 01 04 4e 65 78 74 01 ff 84 00 00 00 05 ff 84 01 00 00",
        second: "19 ff 81 03 01 01 01 4e 01 ff 82 00 01 01 01 04 4e 65 78 74 01 ff 82 00 00 00 05 ff 82 01 00 00",
        joined: "15 ff 81 03 01 01 01 51 01 ff 82 00 01 01 01 01 53 01 0c 00 00 00 06 ff 82 01 01 61 00 19 ff \
            83 03 01 01 01 4e 01 ff 84 00 01 01 01 04 4e 65 78 74 01 ff 84 00 00 00 05 ff 84 01 00 00 05 \
            ff 84 01 00 00",
        ending: Ending::Whole,
    },
    Joint {
        what: "a definition in a value stands in front of it",
        first: HELD,
        second: "",
        joined: "15 ff 85 03 01 01 01 42 01 ff 86 00 01 01 01 01 56 01 10 00 00 00 0c ff 86 01 03 69 6e 74 04 \
            02 00 06 00 15 ff 83 03 01 01 01 51 01 ff 84 00 01 01 01 01 53 01 0c 00 00 00 0d ff 86 01 01 \
            51 ff 84 04 01 01 61 00 00 0d ff 86 01 01 51 ff 84 04 01 01 62 00 00 0c ff 86 01 03 69 6e 74 \
            04 02 00 08 00",
        ending: Ending::Whole,
    },
    Joint {
        what: "the values before a refusal are taken in",
        first: "03 04 00 06",
        second: "03 04 00 08 03 ff 84 00",
        joined: "03 04 00 06 03 04 00 08",
        ending: Ending::Refused,
    },
];

// How a stream ends. Of one that has ended otherwise nothing is due.
fn ending_of(ended: Result<(), JoinFault>) -> Result<Option<Ending>, Memory> {
    match ended {
        Ok(()) => Ok(Some(Ending::Whole)),
        Err(JoinFault::Refused(_)) => Ok(Some(Ending::Refused)),
        // A vector that has no memory for what it is given is a failed write.
        Err(JoinFault::Memory | JoinFault::Write) => Err(Memory),
        Err(_) => Ok(None),
    }
}

// Joins both streams into `held`, and says how the second one ends, if the first one is whole.
fn join(
    alloc: Global,
    first: &[u8],
    second: &[u8],
    held: &mut Vec<u8>,
) -> Result<Option<Ending>, Memory> {
    let limits = Limits::standard();
    let mut output = Output::new(held);
    let mut joined = GoWriter::new(alloc, limits)?;
    let ended = join_file(
        alloc,
        &mut Input::new(first),
        &mut joined,
        &mut output,
        limits,
    );
    if ending_of(ended)? != Some(Ending::Whole) {
        return Ok(None);
    }
    ending_of(join_file(
        alloc,
        &mut Input::new(second),
        &mut joined,
        &mut output,
        limits,
    ))
}

// Whether the streams of the row are joined as is due.
fn is_joined(alloc: Global, row: &Joint) -> Result<bool, Memory> {
    let first = bytes_of(alloc, row.first)?;
    let second = bytes_of(alloc, row.second)?;
    let due = bytes_of(alloc, row.joined)?;
    let mut held = Vec::new(alloc);
    let ending = join(alloc, &first, &second, &mut held)?;
    Ok(ending == Some(row.ending) && held == due)
}

#[test]
fn streams_are_joined(rt: HostRuntime) {
    for row in &JOINTS {
        let is_right = is_joined(rt.alloc(), row) == Ok(true);
        assert!(rt; is_right, "{}", row.what);
    }
}

// Each allocation is refused in turn: of types that get other ids.
#[test]
fn joining_wants_memory(rt: HostRuntime) {
    let row = &JOINTS[3];
    let is_right = is_joined(rt.alloc(), row) != Ok(false);
    assert!(rt; is_right, "{}", row.what);
}
