//! Runs of `take` over a large item, of which no tree is made.

use crate::commands::{Command, is_run};
use crate::devices::PieceReader;
use crate::large::{RECORDS, repeated};
use gob_stream::Limits;
use std::alloc::{AllocError, Global};
use std::test::*;

// A slice of structs of the string B, and one of structs of the string B and the int A, each with its empty value. The
// records have A first.
const B_ALONE: &[u8] = b"\x0d\xff\x81\x02\x01\x02\xff\x82\x00\x01\xff\x84\x00\x00\
    \x12\xff\x83\x03\x01\x02\xff\x84\x00\x01\x01\x01\x01B\x01\x0c\x00\x00\x00\
    \x04\xff\x82\x00\x00";

const B_AND_A: &[u8] = b"\x0d\xff\x81\x02\x01\x02\xff\x82\x00\x01\xff\x84\x00\x00\
    \x18\xff\x83\x03\x01\x02\xff\x84\x00\x01\x02\x01\x01B\x01\x0c\x00\x01\x01A\x01\x04\x00\x00\x00\
    \x04\xff\x82\x00\x00";

const HEAD_LINE: &[u8] = b"{\"type\":65,\"value\":[[]";

// Behind the records stands an int, which clashes.
const DUE: &[u8] = b"gob: clash 33 DifferentKind at top";

// What, the wanted stream, and the text of each of the records.
const ROWS: [(&str, &[u8], &[u8]); 2] = [
    ("one field", B_ALONE, b",[[0,\"B\",\"x\\\"y\"]]"),
    (
        "another order",
        B_AND_A,
        b",[[0,\"B\",\"x\\\"y\"],[1,\"A\",5]]",
    ),
];

// Whether the records are received as values of the wanted type, each with this text, from so many bytes a read.
fn are_taken(alloc: Global, wanted: &[u8], text: &[u8], most: usize) -> Result<bool, AllocError> {
    let lines = repeated(alloc, HEAD_LINE, text, b"]}\n")?;
    let bytes = RECORDS.stream(alloc)?;
    let (limits, reader) = (Limits::standard(), PieceReader::new(&bytes, most));
    Ok(is_run(alloc, Command::Take(wanted), limits, reader, &lines, DUE))
}

#[test]
fn a_large_item_is_taken(rt: HostRuntime) {
    for (what, wanted, text) in ROWS {
        for most in [7usize, 65536] {
            let is_right = are_taken(rt.alloc(), wanted, text, most);
            assert!(rt; is_right == Ok(true), "{what}, {most} a read");
        }
    }
}
