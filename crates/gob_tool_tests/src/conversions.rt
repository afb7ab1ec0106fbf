//! Streams of Go's encoder received as values of a type of another stream: with fields that have other names there,
//! without a field left out, with what interfaces hold, and with what is told of the fields that are left out.

use crate::commands::{convert_go, take_go};
use crate::takes::stream_of;
use gob_convert::{ConvertFault, ConvertOptions};
use gob_left_out::Tally;
use gob_num::Memory;
use gob_rename::renames_said_by;
use gob_stream::{Input, Limits, Output};
use gob_test_rows::part;
use gob_tool::run_show_go;
use std::alloc::{AllocError, Global};
use std::test::*;

// What is tried, `--all` or the words for fields that have other names, the wanted stream, the input, the stream that
// is written, how it ends, and the line of what was left out. A stream stands as its bytes, or by its name in takes.rt.
// Empty parts at the end of a row are left out.
const NAMED: &str = "
no field has another name |  | B_AND_C | A_AND_B | B_ALONE |  | gob: left out .A of 1 value: it isn't wanted
C has the name A | A=C | B_AND_C | A_AND_B | B_AND_A_AS_C
C of W has the name A | W.A=C | B_AND_C | A_AND_B | B_AND_A_AS_C
B has no name of the stream, and C has B's | X=B B=C | B_AND_C | A_AND_B | \
1b ff 81 03 01 01 01 57 01 ff 82 00 01 02 01 01 42 01 04 00 01 01 43 01 04 00 00 00 05 ff 82 02 04 00 |  | \
gob: left out .A of 1 value: it isn't wanted
B and C are exchanged | X=B B=C C=X | B_AND_C | A_AND_B | \
1b ff 81 03 01 01 01 57 01 ff 82 00 01 02 01 01 42 01 04 00 01 01 43 01 04 00 00 00 05 ff 82 02 04 00 |  | \
gob: left out .A of 1 value: it isn't wanted
no input | A=C | B_AND_C |  | 1b ff 81 03 01 01 01 57 01 ff 82 00 01 02 01 01 42 01 04 00 01 01 43 01 04 00 00 00
no name is in both | X=B | B_AND_C | A_AND_B | \
1b ff 81 03 01 01 01 57 01 ff 82 00 01 02 01 01 42 01 04 00 01 01 43 01 04 00 00 00 | \
gob: clash 32 NoCommonField at top: in value 1
no field is D | A=D | B_AND_C | A_AND_B |  | 0 NoField
no struct is S | A=C S.A=C | B_AND_C | A_AND_B |  | 1 NoField
B is there | B=C | B_AND_C | A_AND_B |  | 0 OldNameTaken
A is there by then | A=C A=B | B_AND_C | A_AND_B |  | 1 OldNameTaken
nothing is wanted | A=C | 0d ff 8b 02 01 02 ff 8c 00 01 ff 8c 00 00 | A_AND_B |  | gob: refused 35 NoWantedType
the wanted stream is cut off | A=C | 03 04 00 | A_AND_B |  | gob: wanted: refused 22 Ended at 3 seen 3
no struct is wanted | A=C | 03 04 00 06 | 03 04 00 08 |  | 0 NoField
a value of A and C, one of A, B and C, and an empty body, where A is wanted |  | \
15 ff 81 03 01 01 01 56 01 ff 82 00 01 01 01 01 41 01 04 00 00 00 03 ff 82 00 | \
21 ff 81 03 01 01 01 53 01 ff 82 00 01 03 01 01 41 01 04 00 01 01 42 01 04 00 01 01 43 01 04 00 00 00 \
07 ff 82 01 02 02 04 00 09 ff 82 01 04 01 06 01 08 00 00 | \
15 ff 81 03 01 01 01 56 01 ff 82 00 01 01 01 01 41 01 04 00 00 00 05 ff 82 01 02 00 05 ff 82 01 04 00 | \
gob: refused 5 Short at 53 seen 53 | gob: left out .C of 2 values, .B of 1: they aren't wanted
";

// Values of which one clashes, in such rows.
const CLASHES: &str = "
the second value has a string |  | B_AND_C | \
1b ff 81 03 01 01 01 53 01 ff 82 00 01 02 01 01 41 01 04 00 01 01 42 01 04 00 00 00 07 ff 82 01 02 01 04 00 \
15 ff 83 03 01 01 01 54 01 ff 84 00 01 01 01 01 42 01 0c 00 00 00 06 ff 84 01 01 78 00 | B_ALONE | \
gob: clash 33 DifferentKind at .B: value 2 has a string there, and an int is wanted | \
gob: left out .A of 1 value: it isn't wanted
an array of 2, and one of 3 is wanted |  | 0e ff 81 01 01 02 ff 82 00 01 04 01 06 00 00 07 ff 82 00 03 02 04 06 | \
ARRAY 06 ff 82 00 02 02 04 | 0e ff 81 01 01 02 ff 82 00 01 04 01 06 00 00 | \
gob: clash 34 DifferentLength at top: value 1 has an array of 2 there, and an array of 3 is wanted
a map from string, and one from int is wanted |  | 0e ff 81 04 01 02 ff 82 00 01 04 01 04 00 00 04 ff 82 00 00 | \
MAP 0a ff 82 00 02 01 61 02 01 61 04 | 0e ff 81 04 01 02 ff 82 00 01 04 01 04 00 00 | \
gob: clash 33 DifferentKind at {}: value 1 has a string there, and an int is wanted
a node, and A of Next B, B of V uint, Next A are wanted |  | \
19 ff 81 03 01 01 01 41 01 ff 82 00 01 01 01 04 4e 65 78 74 01 ff 84 00 00 00 \
1f ff 83 03 01 01 01 42 01 ff 84 00 01 02 01 01 56 01 06 00 01 04 4e 65 78 74 01 ff 82 00 00 00 \
03 ff 82 00 | NODE 09 ff 82 01 02 01 01 04 00 00 | \
19 ff 81 03 01 01 01 41 01 ff 82 00 01 01 01 04 4e 65 78 74 01 ff 84 00 00 00 \
1f ff 83 03 01 01 01 42 01 ff 84 00 01 02 01 01 56 01 06 00 01 04 4e 65 78 74 01 ff 82 00 00 00 | \
gob: clash 33 DifferentKind at .Next.V: value 1 has an int there, and a uint is wanted
a name twice in both |  | X_TWICE | X_TWICE | \
1b ff 81 03 01 01 01 57 01 ff 82 00 01 02 01 01 58 01 04 00 01 01 58 01 04 00 00 00 | \
gob: clash 31 RepeatedName at top: in value 1
";

// Values of which no field may be left out, in such rows.
const WHOLE: &str = "
each field is wanted | --all | A_AND_B | A_AND_B | A_AND_B
each field is wanted, and what is held goes along | --all | I_AND_A | A_AND_I | I_AND_A_RECEIVED
A isn't wanted | --all | B_AND_C | A_AND_B | \
1b ff 81 03 01 01 01 57 01 ff 82 00 01 02 01 01 42 01 04 00 01 01 43 01 04 00 00 00 | \
gob: value 1 has .A, which isn't wanted
A isn't wanted, and the first value doesn't have it | --all | B_AND_C | \
1b ff 81 03 01 01 01 53 01 ff 82 00 01 02 01 01 41 01 04 00 01 01 42 01 04 00 00 00 \
05 ff 82 02 04 00 05 ff 82 01 02 00 | B_ALONE | gob: value 2 has .A, which isn't wanted
the second element has A | --all | \
1b ff 81 03 01 01 01 57 01 ff 82 00 01 02 01 01 42 01 04 00 01 01 43 01 04 00 00 00 \
0d ff 83 02 01 02 ff 84 00 01 ff 82 00 00 04 ff 84 00 00 | \
1b ff 81 03 01 01 01 53 01 ff 82 00 01 02 01 01 41 01 04 00 01 01 42 01 04 00 00 00 \
0d ff 83 02 01 02 ff 84 00 01 ff 82 00 00 0a ff 84 00 02 02 04 00 01 02 00 | \
1b ff 81 03 01 01 01 57 01 ff 82 00 01 02 01 01 42 01 04 00 01 01 43 01 04 00 00 00 \
0d ff 83 02 01 02 ff 84 00 01 ff 82 00 00 | gob: value 1 has [].A, which isn't wanted
a key has A | --all | \
1b ff 81 03 01 01 01 57 01 ff 82 00 01 02 01 01 42 01 04 00 01 01 43 01 04 00 00 00 \
0f ff 83 04 01 02 ff 84 00 01 ff 82 01 04 00 00 04 ff 84 00 00 | \
1b ff 81 03 01 01 01 53 01 ff 82 00 01 02 01 01 41 01 04 00 01 01 42 01 04 00 00 00 \
0f ff 83 04 01 02 ff 84 00 01 ff 82 01 04 00 00 08 ff 84 00 01 01 02 00 0a | \
1b ff 81 03 01 01 01 57 01 ff 82 00 01 02 01 01 42 01 04 00 01 01 43 01 04 00 00 00 \
0f ff 83 04 01 02 ff 84 00 01 ff 82 01 04 00 00 | gob: value 1 has {}.A, which isn't wanted
F has A | --all | \
1b ff 81 03 01 01 01 57 01 ff 82 00 01 02 01 01 42 01 04 00 01 01 43 01 04 00 00 00 \
16 ff 83 03 01 01 01 54 01 ff 84 00 01 01 01 01 46 01 ff 82 00 00 00 03 ff 84 00 | \
1b ff 81 03 01 01 01 53 01 ff 82 00 01 02 01 01 41 01 04 00 01 01 42 01 04 00 00 00 \
16 ff 83 03 01 01 01 54 01 ff 84 00 01 01 01 01 46 01 ff 82 00 00 00 \
07 ff 84 01 02 04 00 00 07 ff 84 01 01 02 00 00 | \
1b ff 81 03 01 01 01 57 01 ff 82 00 01 02 01 01 42 01 04 00 01 01 43 01 04 00 00 00 \
16 ff 83 03 01 01 01 54 01 ff 84 00 01 01 01 01 46 01 ff 82 00 00 00 \
07 ff 84 01 01 04 00 00 | gob: value 2 has .F.A, which isn't wanted
";

// Values whose interfaces hold something, in such rows. In I_AND_A_RECEIVED an interface is the name P, `01 50`; type
// 66, `ff 84`; and three bytes: X 3, `01 06`, and the end. Where that type is 65 it is `01 50 ff 82 03 01 06 00`.
//
// In the row of Go's bytes, those of docs/FORMAT.md (Examples, byte by byte), the item of 41 bytes that is written has
// its type, `ff 82`; M 4, `01 08`; I, `01`; the name main.Wrap, type 66 and 22 bytes, as no definition cuts them:
// N 2, `01 04`; I, `01`; the name main.Reg, type 67 and its three bytes; S, `01 01 73`; the end; and the end.
//
// In the row of B and C the item of 14 bytes has its type; C, `01`, the name int, type 2, two bytes; A 1; and the end.
const HELD: &str = "
structs are held, of a type that the first value defines |  | I_AND_A | A_AND_I | I_AND_A_RECEIVED
W has the id of what is held, which has the least free one |  | \
1b ff 83 03 01 01 01 57 01 ff 84 00 01 02 01 01 49 01 10 00 01 01 41 01 04 00 00 00 03 ff 84 00 | A_AND_I | \
1b ff 83 03 01 01 01 57 01 ff 84 00 01 02 01 01 49 01 10 00 01 01 41 01 04 00 00 00 \
15 ff 81 03 01 01 01 50 01 ff 82 00 01 01 01 01 58 01 04 00 00 00 \
0e ff 84 01 01 50 ff 82 03 01 06 00 01 02 00 0e ff 84 01 01 50 ff 82 03 01 08 00 01 04 00
J has the name I | I=J | \
1b ff 81 03 01 01 01 57 01 ff 82 00 01 02 01 01 4a 01 10 00 01 01 43 01 04 00 00 00 03 ff 82 00 | A_AND_I | \
1b ff 81 03 01 01 01 57 01 ff 82 00 01 02 01 01 4a 01 10 00 01 01 43 01 04 00 00 00 \
15 ff 83 03 01 01 01 50 01 ff 84 00 01 01 01 01 58 01 04 00 00 00 \
0c ff 82 01 01 50 ff 84 03 01 06 00 00 0c ff 82 01 01 50 ff 84 03 01 08 00 00 |  | \
gob: left out .A of 2 values: it isn't wanted
I isn't wanted, so the type of what it holds isn't written |  | \
15 ff 81 03 01 01 01 56 01 ff 82 00 01 01 01 01 41 01 04 00 00 00 03 ff 82 00 | A_AND_I | \
15 ff 81 03 01 01 01 56 01 ff 82 00 01 01 01 01 41 01 04 00 00 00 05 ff 82 01 02 00 05 ff 82 01 04 00 |  | \
gob: left out .I of 2 values: it isn't wanted
C and A are wanted, where B holds the string x and C holds 7 |  | \
1b ff 81 03 01 01 01 52 01 ff 82 00 01 02 01 01 43 01 10 00 01 01 41 01 04 00 00 00 03 ff 82 00 | \
21 ff 81 03 01 01 01 53 01 ff 82 00 01 03 01 01 41 01 04 00 01 01 42 01 10 00 01 01 43 01 10 00 00 00 \
1b ff 82 01 02 01 06 73 74 72 69 6e 67 0c 03 00 01 78 01 03 69 6e 74 04 02 00 0e 00 | \
1b ff 81 03 01 01 01 52 01 ff 82 00 01 02 01 01 43 01 10 00 01 01 41 01 04 00 00 00 \
0e ff 82 01 03 69 6e 74 04 02 00 0e 01 02 00 |  | gob: left out .B of 1 value: it isn't wanted
Go's Outer{1, Wrap{2, Reg{3}, s}, 4}, where M and I are wanted |  | \
1b ff 81 03 01 01 01 56 01 ff 82 00 01 02 01 01 4d 01 04 00 01 01 49 01 10 00 00 00 03 ff 82 00 | \
25 ff 81 03 01 01 05 4f 75 74 65 72 01 ff 82 00 01 03 01 01 4e 01 04 00 01 01 49 01 10 00 01 01 4d 01 04 00 00 00 \
33 ff 82 01 02 01 09 6d 61 69 6e 2e 57 72 61 70 \
ff 83 03 01 01 04 57 72 61 70 01 ff 84 00 01 03 01 01 4e 01 04 00 01 01 49 01 10 00 01 01 53 01 0c 00 00 00 \
34 ff 84 23 01 04 01 08 6d 61 69 6e 2e 52 65 67 \
ff 85 03 01 01 03 52 65 67 01 ff 86 00 01 01 01 01 41 01 04 00 00 00 \
0a ff 86 03 01 06 00 01 01 73 00 01 08 00 | \
1b ff 81 03 01 01 01 56 01 ff 82 00 01 02 01 01 4d 01 04 00 01 01 49 01 10 00 00 00 \
24 ff 83 03 01 01 04 57 72 61 70 01 ff 84 00 01 03 01 01 4e 01 04 00 01 01 49 01 10 00 01 01 53 01 0c 00 00 00 \
17 ff 85 03 01 01 03 52 65 67 01 ff 86 00 01 01 01 01 41 01 04 00 00 00 \
29 ff 82 01 08 01 09 6d 61 69 6e 2e 57 72 61 70 ff 84 16 01 04 01 08 6d 61 69 6e 2e 52 65 67 \
ff 86 03 01 06 00 01 01 73 00 00 |  | gob: left out .N of 1 value: it isn't wanted
the wanted stream has as many types as a stream may have |  | \
15 ff 85 03 01 01 01 56 01 ff 86 00 01 01 01 01 41 01 04 00 00 00 0c ff 83 02 01 02 ff 84 00 01 04 00 00 \
1b ff 81 03 01 01 01 57 01 ff 82 00 01 02 01 01 49 01 10 00 01 01 41 01 04 00 00 00 03 ff 82 00 | A_AND_I | \
15 ff 85 03 01 01 01 56 01 ff 86 00 01 01 01 01 41 01 04 00 00 00 0c ff 83 02 01 02 ff 84 00 01 04 00 00 \
1b ff 81 03 01 01 01 57 01 ff 82 00 01 02 01 01 49 01 10 00 01 01 41 01 04 00 00 00 | full TooManyTypes
";

// Those of a stream of at most three types.
fn limits() -> Limits {
    Limits::new(u64::MAX, 1000, 3, Limits::GREATEST_STREAM).unwrap_or(Limits::standard())
}

// Whether it ended as the row has it.
fn ends_so(alloc: Global, ended: Result<(), ConvertFault>, due: &str) -> Result<bool, AllocError> {
    let ending = match ended {
        Ok(()) => return Ok(due.is_empty()),
        Err(ConvertFault::Run(fault)) => fault.to_string(alloc)?,
        Err(ConvertFault::Clash(clash)) => format!(in alloc; "gob: {clash}")?,
        Err(ConvertFault::Misfits { number, misfit }) => format!(in alloc; "{number} {misfit:?}")?,
        Err(ConvertFault::Full(reason)) => format!(in alloc; "full {reason:?}")?,
    };
    Ok(ending.as_str() == due)
}

// Whether this line tells what was left out.
fn is_told(alloc: Global, left_out: &Tally, due: &str) -> Result<bool, AllocError> {
    if left_out.is_empty() {
        return Ok(due.is_empty());
    }
    let told = left_out.to_string(alloc)?;
    Ok(told.as_str() == due)
}

// Whether a conversion writes, ends and tells what the row says.
fn converts(alloc: Global, row: &str, options: &ConvertOptions<'_>) -> Result<bool, Memory> {
    let wanted = stream_of(alloc, part(row, 2))?;
    let bytes = stream_of(alloc, part(row, 3))?;
    let mut input = Input::new(bytes.as_slice());
    let mut output = Output::new(Vec::new(alloc));
    let mut left_out = Tally::new(alloc);
    let ended = convert_go(
        alloc,
        options,
        &wanted,
        &mut input,
        &mut output,
        &mut left_out,
    );
    if !ends_so(alloc, ended, part(row, 5))? || !is_told(alloc, &left_out, part(row, 6))? {
        return Ok(false);
    }
    let written = stream_of(alloc, part(row, 4))?;
    Ok(output.into_inner().as_slice() == written.as_slice())
}

// Whether the lines of the stream that the row says are printed, with the same end.
fn prints(alloc: Global, row: &str, options: &ConvertOptions<'_>) -> Result<bool, Memory> {
    let wanted = stream_of(alloc, part(row, 2))?;
    let bytes = stream_of(alloc, part(row, 3))?;
    let mut input = Input::new(bytes.as_slice());
    let mut output = Output::new(Vec::new(alloc));
    let mut left_out = Tally::new(alloc);
    let ended = take_go(
        alloc,
        options,
        &wanted,
        &mut input,
        &mut output,
        &mut left_out,
    );
    if !ends_so(alloc, ended, part(row, 5))? || !is_told(alloc, &left_out, part(row, 6))? {
        return Ok(false);
    }
    let written = stream_of(alloc, part(row, 4))?;
    Ok(is_shown(alloc, &written, output.into_inner().as_slice()))
}

// Whether these are the lines of the stream, with what interfaces hold.
fn is_shown(alloc: Global, stream: &[u8], lines: &[u8]) -> bool {
    let mut input = Input::new(stream);
    let mut output = Output::new(Vec::new(alloc));
    match run_show_go(alloc, &mut input, &mut output, Limits::standard()) {
        Ok(()) => output.into_inner().as_slice() == lines,
        Err(_) => false,
    }
}

// Whether those of the row do.
fn is_right(alloc: Global, row: &str) -> Result<bool, Memory> {
    let said = part(row, 1);
    let all = said == "--all";
    let words = if all { "" } else { said };
    let words = words.split_whitespace().collect::<Vec<&str>>(alloc)?;
    let Ok(renames) = renames_said_by(alloc, &words) else {
        return Ok(false);
    };
    let options = ConvertOptions {
        renames: &renames,
        all,
        limits: limits(),
    };
    Ok(converts(alloc, row, &options)? && prints(alloc, row, &options)?)
}

#[test]
fn values_are_converted_with_what_they_hold(rt: HostRuntime) {
    for rows in [NAMED, CLASHES, WHOLE, HELD] {
        for row in rows.trim().lines() {
            assert!(rt; is_right(rt.alloc(), row) == Ok(true), "{row}");
        }
    }
}
