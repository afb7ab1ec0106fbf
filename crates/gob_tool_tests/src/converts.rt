//! Streams of values received as values of a type of another stream.

use crate::commands::{Command, is_run};
use crate::takes::stream_of;
use gob_num::Memory;
use gob_stream::Limits;
use gob_test_rows::part;
use std::alloc::Global;
use std::test::*;

// What is received, the wanted stream, the input, the stream that is written, and the line of the fault. A stream
// stands as its bytes, or by its name in takes.rt. Empty parts at the end of a row are left out.
const ROWS: &str = "
B of A and B | B_AND_C | A_AND_B | B_ALONE
B and A are wanted, in this order | \
1b ff 81 03 01 01 01 57 01 ff 82 00 01 02 01 01 42 01 04 00 01 01 41 01 04 00 00 00 \
03 ff 82 00 | A_AND_B | \
1b ff 81 03 01 01 01 57 01 ff 82 00 01 02 01 01 42 01 04 00 01 01 41 01 04 00 00 00 \
07 ff 82 01 04 01 02 00
no input | 0d ff 8b 02 01 02 ff 8c 00 01 ff 8c 00 00 04 ff 8c 00 00 |  | 0d ff 8b 02 01 02 ff 8c 00 01 ff 8c 00 00
two ints, and no definition | 03 04 00 06 | 03 04 00 08 03 04 00 0a | 03 04 00 08 03 04 00 0a
slice 65 of itself, and slice 70 of itself is wanted | \
0d ff 8b 02 01 02 ff 8c 00 01 ff 8c 00 00 04 ff 8c 00 00 0d ff 81 02 01 02 ff 82 00 01 ff 82 00 00 | \
0d ff 81 02 01 02 ff 82 00 01 ff 82 00 00 05 ff 82 00 01 00 | \
0d ff 8b 02 01 02 ff 8c 00 01 ff 8c 00 00 05 ff 8c 00 01 00
nothing is wanted | 0d ff 8b 02 01 02 ff 8c 00 01 ff 8c 00 00 | A_AND_B |  | gob: refused 35 NoWantedType
the wanted stream is cut off | 03 04 00 | A_AND_B |  | gob: wanted: refused 22 Ended at 3 seen 3
an empty body behind an int | 03 04 00 06 | 03 04 00 08 00 | 03 04 00 08 | gob: refused 5 Short at 5 seen 5
a bool behind an int, before an empty body | 03 04 00 06 | 03 04 00 08 03 02 00 01 00 | 03 04 00 08 | \
gob: clash 33 DifferentKind at top
";

// Whether the run of the row writes its stream and ends by its fault.
fn is_right(alloc: Global, row: &str) -> Result<bool, Memory> {
    let wanted = stream_of(alloc, part(row, 1))?;
    let bytes = stream_of(alloc, part(row, 2))?;
    let written = stream_of(alloc, part(row, 3))?;
    let (limits, due) = (Limits::standard(), part(row, 4).as_bytes());
    Ok(is_run(
        alloc,
        Command::Convert(&wanted),
        limits,
        bytes.as_slice(),
        &written,
        due,
    ))
}

#[test]
fn values_are_converted_or_refused(rt: HostRuntime) {
    for row in ROWS.trim().lines() {
        assert!(rt; is_right(rt.alloc(), row) == Ok(true), "{row}");
    }
}
