//! Values received as values of a type of another stream.

use crate::commands::{Command, is_run};
use crate::streams::lines_of;
use gob_num::Memory;
use gob_stream::Limits;
use gob_test_rows::{bytes_of, part};
use std::alloc::{AllocError, Global};
use std::test::*;

/// A struct of A and B, both int, and a value of A 1, B 2: items of 28 and 8 bytes.
pub(crate) const A_AND_B: &[u8] = b"\
    \x1b\xff\x81\x03\x01\x01\x01S\x01\xff\x82\x00\x01\x02\x01\x01A\x01\x04\x00\x01\x01B\x01\x04\x00\x00\x00\
    \x07\xff\x82\x01\x02\x01\x04\x00";

/// A struct of B and C, both int, and its empty value.
pub(crate) const B_AND_C: &[u8] = b"\
    \x1b\xff\x81\x03\x01\x01\x01W\x01\xff\x82\x00\x01\x02\x01\x01B\x01\x04\x00\x01\x01C\x01\x04\x00\x00\x00\
    \x03\xff\x82\x00";

/// The definition of that struct, and B 2 as its first field.
pub(crate) const B_ALONE: &[u8] = b"\
    \x1b\xff\x81\x03\x01\x01\x01W\x01\xff\x82\x00\x01\x02\x01\x01B\x01\x04\x00\x01\x01C\x01\x04\x00\x00\x00\
    \x05\xff\x82\x01\x04\x00";

/// The definition of that struct, and B 2, C 1.
pub(crate) const B_AND_A_AS_C: &[u8] = b"\
    \x1b\xff\x81\x03\x01\x01\x01W\x01\xff\x82\x00\x01\x02\x01\x01B\x01\x04\x00\x01\x01C\x01\x04\x00\x00\x00\
    \x07\xff\x82\x01\x04\x01\x02\x00";

/// The line of B 2 as the first field.
pub(crate) const B_LINE: &[u8] = b"{\"type\":65,\"value\":[[0,\"B\",2]]}\n";

/// A struct of A int and I interface, and two values of it, in which I holds structs of X int under the name P: A 1 and
/// X 3, with the definition of that struct, which cuts the item in two; A 2 and X 4. Items of 28, 37 and 15 bytes.
pub(crate) const A_AND_I: &[u8] = b"\
    \x1b\xff\x81\x03\x01\x01\x01S\x01\xff\x82\x00\x01\x02\x01\x01A\x01\x04\x00\x01\x01I\x01\x10\x00\x00\x00\
    \x1c\xff\x82\x01\x02\x01\x01P\xff\x83\x03\x01\x01\x01P\x01\xff\x84\x00\x01\x01\x01\x01X\x01\x04\x00\x00\x00\
    \x07\xff\x84\x03\x01\x06\x00\x00\
    \x0e\xff\x82\x01\x04\x01\x01P\xff\x84\x03\x01\x08\x00\x00";

/// A struct of I interface and A int, and its empty value.
pub(crate) const I_AND_A: &[u8] = b"\
    \x1b\xff\x81\x03\x01\x01\x01W\x01\xff\x82\x00\x01\x02\x01\x01I\x01\x10\x00\x01\x01A\x01\x04\x00\x00\x00\
    \x03\xff\x82\x00";

/// The definitions of that struct and of the one that is held, and both values: I holds X 3, A 1; I holds X 4, A 2.
/// Items of 28, 22, 15 and 15 bytes.
pub(crate) const I_AND_A_RECEIVED: &[u8] = b"\
    \x1b\xff\x81\x03\x01\x01\x01W\x01\xff\x82\x00\x01\x02\x01\x01I\x01\x10\x00\x01\x01A\x01\x04\x00\x00\x00\
    \x15\xff\x83\x03\x01\x01\x01P\x01\xff\x84\x00\x01\x01\x01\x01X\x01\x04\x00\x00\x00\
    \x0e\xff\x82\x01\x01P\xff\x84\x03\x01\x06\x00\x01\x02\x00\
    \x0e\xff\x82\x01\x01P\xff\x84\x03\x01\x08\x00\x01\x04\x00";

/// The lines of these items.
pub(crate) const I_AND_A_LINES: &[u8] = b"\
    {\"define\":65,\"fields\":[[\"I\",8],[\"A\",2]],\"kind\":\"struct\",\"name\":\"W\"}\n\
    {\"define\":66,\"fields\":[[\"X\",2]],\"kind\":\"struct\",\"name\":\"P\"}\n\
    {\"type\":65,\"value\":[[0,\"I\",\
    {\"interface\":{\"name\":\"P\",\"type\":66,\"value\":[[0,\"X\",3]]}}],[1,\"A\",1]]}\n\
    {\"type\":65,\"value\":[[0,\"I\",\
    {\"interface\":{\"name\":\"P\",\"type\":66,\"value\":[[0,\"X\",4]]}}],[1,\"A\",2]]}\n";

/// A struct of two ints, both X, and its empty value.
pub(crate) const X_TWICE: &[u8] = b"\
    \x1b\xff\x81\x03\x01\x01\x01W\x01\xff\x82\x00\x01\x02\x01\x01X\x01\x04\x00\x01\x01X\x01\x04\x00\x00\x00\
    \x03\xff\x82\x00";

// What is received, the wanted stream, the input, the lines with ` / ` between them, and the line of the fault. A
// stream stands as its bytes, or by its name here. Empty parts at the end of a row are left out.
const ROWS: &str = "
B of A and B | B_AND_C | A_AND_B | {\"type\":65,\"value\":[[0,\"B\",2]]}
B and A are wanted, in this order | \
1b ff 81 03 01 01 01 57 01 ff 82 00 01 02 01 01 42 01 04 00 01 01 41 01 04 00 00 00 \
03 ff 82 00 | A_AND_B | {\"type\":65,\"value\":[[0,\"B\",2],[1,\"A\",1]]}
values with one field and with none | B_AND_C | \
1b ff 81 03 01 01 01 53 01 ff 82 00 01 02 01 01 41 01 04 00 01 01 42 01 04 00 00 00 \
05 ff 82 01 02 00 03 ff 82 00 05 ff 82 02 04 00 | \
{\"type\":65,\"value\":[]} / {\"type\":65,\"value\":[]} / {\"type\":65,\"value\":[[0,\"B\",2]]}
no input | B_AND_C
two ints | 03 04 00 06 03 02 00 01 | 03 04 00 08 03 04 00 0a | {\"type\":2,\"value\":4} / {\"type\":2,\"value\":5}
B int, and B uint is wanted | 1b ff 81 03 01 01 01 57 01 ff 82 00 01 02 01 01 41 01 04 00 01 01 42 01 06 00 00 00 \
03 ff 82 00 | A_AND_B |  | gob: clash 33 DifferentKind at .B
C and D are wanted | 1b ff 81 03 01 01 01 57 01 ff 82 00 01 02 01 01 43 01 04 00 01 01 44 01 04 00 00 00 \
03 ff 82 00 | A_AND_B |  | gob: clash 32 NoCommonField at top
a node, and A of Next B, B of V uint, Next A are wanted | \
19 ff 81 03 01 01 01 41 01 ff 82 00 01 01 01 04 4e 65 78 74 01 ff 84 00 00 00 \
1f ff 83 03 01 01 01 42 01 ff 84 00 01 02 01 01 56 01 06 00 01 04 4e 65 78 74 01 ff 82 00 00 00 \
03 ff 82 00 | NODE 09 ff 82 01 02 01 01 04 00 00 |  | gob: clash 33 DifferentKind at .Next.V
an array of 2, and one of 3 is wanted | 0e ff 81 01 01 02 ff 82 00 01 04 01 06 00 00 07 ff 82 00 03 02 04 06 | \
ARRAY 06 ff 82 00 02 02 04 |  | gob: clash 34 DifferentLength at top
a map to int, and one to uint is wanted | 0e ff 81 04 01 02 ff 82 00 01 0c 01 06 00 00 04 ff 82 00 00 | \
MAP 0a ff 82 00 02 01 61 02 01 61 04 |  | gob: clash 33 DifferentKind at []
a map from string, and one from int is wanted | 0e ff 81 04 01 02 ff 82 00 01 04 01 04 00 00 04 ff 82 00 00 | \
MAP 0a ff 82 00 02 01 61 02 01 61 04 |  | gob: clash 33 DifferentKind at {}
a name twice in both | X_TWICE | X_TWICE |  | gob: clash 31 RepeatedName at top
slice 65 of itself, and slice 70 of itself is wanted | 0d ff 8b 02 01 02 ff 8c 00 01 ff 8c 00 00 04 ff 8c 00 00 | \
LIST 05 ff 82 00 01 00 | {\"type\":70,\"value\":[[]]}
nothing is wanted |  | A_AND_B |  | gob: refused 35 NoWantedType
the wanted stream is cut off | 03 04 00 | A_AND_B |  | gob: wanted: refused 22 Ended at 3 seen 3
an empty body behind an int | 03 04 00 06 | 03 04 00 08 00 | {\"type\":2,\"value\":4} | gob: refused 5 Short at 5 seen 5
a bool behind an int, before an empty body | 03 04 00 06 | 03 04 00 08 03 02 00 01 00 | {\"type\":2,\"value\":4} | \
gob: clash 33 DifferentKind at top
";

/// The stream of this name, or of these bytes.
pub(crate) fn stream_of(alloc: Global, text: &str) -> Result<Vec<u8>, AllocError> {
    match text {
        "A_AND_B" => A_AND_B.to_vec(alloc),
        "B_AND_C" => B_AND_C.to_vec(alloc),
        "X_TWICE" => X_TWICE.to_vec(alloc),
        "B_ALONE" => B_ALONE.to_vec(alloc),
        "B_AND_A_AS_C" => B_AND_A_AS_C.to_vec(alloc),
        "A_AND_I" => A_AND_I.to_vec(alloc),
        "I_AND_A" => I_AND_A.to_vec(alloc),
        "I_AND_A_RECEIVED" => I_AND_A_RECEIVED.to_vec(alloc),
        _ => bytes_of(alloc, text),
    }
}

// Whether the run of the row writes its lines and ends by its fault.
fn is_right(alloc: Global, row: &str) -> Result<bool, Memory> {
    let wanted = stream_of(alloc, part(row, 1))?;
    let bytes = stream_of(alloc, part(row, 2))?;
    let lines = lines_of(alloc, part(row, 3))?;
    let (limits, due) = (Limits::standard(), part(row, 4).as_bytes());
    Ok(is_run(
        alloc,
        Command::Take(&wanted),
        limits,
        bytes.as_slice(),
        &lines,
        due,
    ))
}

#[test]
fn values_are_received_or_refused(rt: HostRuntime) {
    for row in ROWS.trim().lines() {
        assert!(rt; is_right(rt.alloc(), row) == Ok(true), "{row}");
    }
}
