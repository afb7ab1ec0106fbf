//! Streams that are written again in their tidy form.

use crate::commands::{Command, is_run};
use crate::devices::PieceReader;
use crate::nested::{limits_of, nested};
use gob_num::Memory;
use gob_stream::Limits;
use gob_test_rows::{bytes_of, part};
use std::alloc::Global;
use std::test::*;

// What, the stream, its tidy form, and the line of the fault. Empty parts at the end of a row are left out. What stands
// before a refusal is written.
const ROWS: &str = "
nothing
a struct, a value and an int | POINT 07 ff 82 01 2c 01 42 00 03 04 00 06 | POINT 07 ff 82 01 2c 01 42 00 03 04 00 06
X 0, Y 33 | POINT 07 ff 82 01 00 01 42 00 | POINT 05 ff 82 02 42 00
an empty name in a description | 0e ff 81 02 01 01 00 01 ff 82 00 01 04 00 00 04 ff 82 00 00 | \
0c ff 81 02 01 02 ff 82 00 01 04 00 00 04 ff 82 00 00
an empty body behind an int | 03 04 00 06 00 | 03 04 00 06 | gob: refused 5 Short at 5 seen 5
an item cut off behind an int | 03 04 00 06 03 04 | 03 04 00 06 | gob: refused 22 Ended at 6 seen 6
";

// Whether the stream of the row, in pieces of at most this length, is written or refused as it says.
fn is_right(alloc: Global, row: &str, most: usize) -> Result<bool, Memory> {
    let bytes = bytes_of(alloc, part(row, 1))?;
    let tidy = bytes_of(alloc, part(row, 2))?;
    let reader = PieceReader::new(&bytes, most);
    let (limits, due) = (Limits::standard(), part(row, 3).as_bytes());
    Ok(is_run(alloc, Command::Rewrite, limits, reader, &tidy, due))
}

#[test]
fn streams_are_tidied_or_refused(rt: HostRuntime) {
    for row in ROWS.trim().lines() {
        for most in [usize::MAX, 1] {
            let is_right = is_right(rt.alloc(), row, most);
            assert!(rt; is_right == Ok(true), "{most} a call: {row}");
        }
    }
}

// How deep slices stand in slices, whether the limits are as wide as can be, how many of the bytes are written, and the
// line of the fault.
const NESTED: [(u64, bool, usize, &[u8]); 4] = [
    (2000, true, 2020, b""),
    (
        2000,
        false,
        14,
        b"gob: refused 17 TooDeep at 1020 seen 1020",
    ),
    (65536, true, 65557, b""),
    (
        65537,
        true,
        14,
        b"gob: refused 17 TooDeep at 65557 seen 65557",
    ),
];

// Whether slices in slices give so many of their bytes again, and the run ends so.
fn nested_is_right(
    alloc: Global,
    depth: u64,
    limits: Limits,
    written: usize,
    due: &[u8],
) -> Result<bool, Memory> {
    let bytes = nested(alloc, depth)?;
    let tidy = bytes.get(..written).unwrap_or(b"");
    Ok(is_run(alloc, Command::Rewrite, limits, bytes.as_slice(), tidy, due))
}

#[test]
fn slices_in_slices_are_rewritten(rt: HostRuntime) {
    for (depth, is_deep, written, due) in NESTED {
        let limits = limits_of(is_deep);
        let is_right = nested_is_right(rt.alloc(), depth, limits, written, due);
        assert!(rt; is_right == Ok(true), "{depth} deep");
    }
}
