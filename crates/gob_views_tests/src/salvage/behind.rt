//! What is kept behind definitions that stand in front of the bytes, and what is told of these.

use gob_num::Memory;
use gob_salvage::{report, run_salvage_behind, salvage};
use gob_stream::{Input, Limits, Output};
use gob_test_rows::bytes_of;
use gob_tool::ToolFault;
use std::alloc::Global;
use std::io::Read;
use std::test::*;

// Bytes behind POINT, what is written of both, and what is told.
struct Row {
    what: &'static str,
    bytes: &'static str,
    kept: &'static str,
    told: &'static str,
}

const ROWS: [Row; 4] = [
    Row {
        what: "nothing",
        bytes: "",
        kept: "POINT",
        told: "gob: kept 0 items, 0 bytes; left out nothing",
    },
    Row {
        what: "values whose definition is lost, the first one cut",
        bytes: "82 01 2c 01 42 00 07 ff 82 01 02 01 04 00 07 ff 82 01 02 01 06 00",
        kept: "POINT 07 ff 82 01 02 01 04 00 07 ff 82 01 02 01 06 00",
        told: "gob: left out 6 bytes, 0 to 5: BadHead at 0
gob: kept 2 items, 16 bytes; left out 6 bytes in 1 place",
    },
    Row {
        what: "a whole stream of the same type",
        bytes: "POINT 07 ff 82 01 2c 01 42 00",
        kept: "POINT 07 ff 82 01 2c 01 42 00",
        told: "gob: left out 32 bytes, 0 to 31: type 65 is defined again, in the same way
gob: kept 1 item, 8 bytes; left out 32 bytes in 1 place",
    },
    Row {
        what: "a stream with another type under the id, which is joined",
        bytes: "ARRAY 06 ff 82 00 02 02 04",
        kept: "ARRAY 06 ff 82 00 02 02 04",
        told: "gob: kept 2 items, 22 bytes; left out nothing",
    },
];

// Whether the run writes what is kept, and tells of what is behind POINT.
fn is_sent(alloc: Global, row: &Row) -> Result<bool, Memory> {
    let bytes = bytes_of(alloc, row.bytes)?;
    let due = bytes_of(alloc, row.kept)?;
    let point = bytes_of(alloc, "POINT")?;
    let limits = Limits::standard();
    if point.len() as u64 > limits.stream() {
        return Ok(false);
    }
    let front = salvage(alloc, limits, &point)?;
    let mut written = Vec::new(alloc);
    let mut told = None;
    let mut input = Input::new(point.as_slice().chain(bytes.as_slice()));
    let mut output = Output::new(&mut written);
    match run_salvage_behind(alloc, &front, &mut input, &mut output, limits, &mut told) {
        Ok(()) => {}
        // A vector that has no memory for what it is given is a writer that fails.
        Err(ToolFault::Memory | ToolFault::Write) => return Err(Memory),
        Err(_) => return Ok(false),
    }
    let Some(kept) = told else {
        return Ok(false);
    };
    let told = report(alloc, &kept)?;
    Ok(written.as_slice() == due.as_slice() && told.as_str() == row.told)
}

#[test]
fn what_is_behind_is_told(rt: HostRuntime) {
    for row in &ROWS {
        let is_right = is_sent(rt.alloc(), row) == Ok(true);
        assert!(rt; is_right, "{}", row.what);
    }
}

// Each allocation is refused in turn.
#[test]
fn keeping_behind_wants_memory(rt: HostRuntime) {
    let row = &ROWS[1];
    assert!(rt; is_sent(rt.alloc(), row) != Ok(false), "{}", row.what);
}
