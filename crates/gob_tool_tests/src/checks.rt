//! Streams that are counted.

use crate::commands::{Command, is_run};
use crate::nested::{limits_of, nested};
use crate::streams::lines_of;
use gob_num::Memory;
use gob_stream::Limits;
use gob_test_rows::{bytes_of, part};
use std::alloc::Global;
use std::test::*;

// What, the stream, its line, and the line of the fault. Empty parts at the end of a row are left out. What is refused
// isn't counted, nor what stands before it.
const ROWS: &str = "
nothing |  | ok: 0 items, 0 types, 0 bytes
an int | 03 04 00 06 | ok: 1 items, 0 types, 4 bytes
a struct and a value | POINT 07 ff 82 01 2c 01 42 00 | ok: 2 items, 1 types, 40 bytes
a struct and two values | POINT 07 ff 82 01 2c 01 42 00 07 ff 82 01 2c 01 42 00 | ok: 3 items, 1 types, 48 bytes
an empty body behind an int | 03 04 00 06 00 |  | gob: refused 5 Short at 5 seen 5
an item cut off behind an int | 03 04 00 06 03 04 |  | gob: refused 22 Ended at 6 seen 6
no such type | 02 ff 82 |  | gob: refused 10 UndefinedType(65) at 1 seen 3
";

// Whether the stream of the row is counted or refused as it says.
fn is_right(alloc: Global, row: &str) -> Result<bool, Memory> {
    let bytes = bytes_of(alloc, part(row, 1))?;
    let counted = lines_of(alloc, part(row, 2))?;
    let (limits, due) = (Limits::standard(), part(row, 3).as_bytes());
    Ok(is_run(
        alloc,
        Command::Check,
        limits,
        bytes.as_slice(),
        &counted,
        due,
    ))
}

#[test]
fn streams_are_counted_or_refused(rt: HostRuntime) {
    for row in ROWS.trim().lines() {
        assert!(rt; is_right(rt.alloc(), row) == Ok(true), "{row}");
    }
}

// How deep slices stand in slices, whether the limits are as wide as can be, the line, and that of the fault.
const NESTED: [(u64, bool, &[u8], &[u8]); 4] = [
    (2000, true, b"ok: 2 items, 1 types, 2020 bytes\n", b""),
    (
        2000,
        false,
        b"",
        b"gob: refused 17 TooDeep at 1020 seen 1020",
    ),
    (65536, true, b"ok: 2 items, 1 types, 65557 bytes\n", b""),
    (
        65537,
        true,
        b"",
        b"gob: refused 17 TooDeep at 65557 seen 65557",
    ),
];

// Whether slices in slices are counted so, or refused.
fn nested_is_right(
    alloc: Global,
    depth: u64,
    limits: Limits,
    counted: &[u8],
    due: &[u8],
) -> Result<bool, Memory> {
    let bytes = nested(alloc, depth)?;
    Ok(is_run(
        alloc,
        Command::Check,
        limits,
        bytes.as_slice(),
        counted,
        due,
    ))
}

#[test]
fn slices_in_slices_are_counted(rt: HostRuntime) {
    for (depth, is_deep, counted, due) in NESTED {
        let limits = limits_of(is_deep);
        let is_right = nested_is_right(rt.alloc(), depth, limits, counted, due);
        assert!(rt; is_right == Ok(true), "{depth} deep");
    }
}
