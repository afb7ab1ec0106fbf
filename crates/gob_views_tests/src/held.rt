//! What is printed of values whose interfaces hold others.

use gob_num::Memory;
use gob_stream::{Input, Limits, Output};
use gob_test_rows::{bytes_of, part};
use gob_tool::ToolFault;
use gob_views::{SourceForm, ValueLines, run_types, run_values};
use std::alloc::Global;
use std::test::*;

// What, the stream, its lines plain and tagged, and the line of the fault, which is left out where there is none. Go
// 1.19 wrote the bytes (interop/filled), but for the last item of the last stream. An empty line stands between two
// rows, and | in a column between two lines.
const ROWS: &str = r#"
an int in a field | 25 ff 81 03 01 01 05 4f 75 74 65 72 01 ff 82 00 01 03 01 01 4e 01 04 00 01 01 49 01 10 00 01 01
4d 01 04 00 00 00 10 ff 82 01 02 01 03 69 6e 74 04 02 00 06 01 04
00 | {"N":1,"I":3,"M":2} | {"N":1,"I":{"int":3},"M":2}

a type defined in a value, and used by the next item | 15 10 00 08 2a 62 69 67 2e 49 6e 74 ff 81 05 01 02 ff 84 00 00
00 07 ff 82 04 00 02 02 05 06 ff 82 00 02 02 05 | 5|5 | {"*big.Int":5}|5

a document | 0e ff 81 04 01 02 ff 82 00 01 0c 01 10 00 00 21 ff 82 00 01 01 61 0e 5b 5d 69 6e 74 65 72 66 61 63 65 20
7b 7d ff 83 02 01 02 ff 84 00 01 10 00 00 5c ff 84 59 00 04 07 66 6c 6f 61 74 36 34 08 04 00 fe f8 3f 06 73 74 72 69
6e 67 0c 03 00 01 78 00 17 6d 61 70 5b 73 74 72 69 6e 67 5d 69 6e 74 65 72 66 61 63 65 20 7b 7d ff 82 19 00 01 01 62
08 5b 5d 73 74 72 69 6e 67 ff 85 02 01 02 ff 86 00 01 0c 00 00 07 ff 86 04 00 01 01
63 | {"a":[1.5,"x",null,{"b":["c"]}]} | {"a":{"[]interface {}":[{"float64":1.5},{"string":"x"},null,
{"map[string]interface {}":{"b":{"[]string":["c"]}}}]}}

a refusal behind such a value | 25 ff 81 03 01 01 05 4f 75 74 65 72 01 ff 82 00 01 03 01 01 4e 01 04 00 01 01 49 01
10 00 01 01 4d 01 04 00 00 00 10 ff 82 01 02 01 03 69 6e 74 04 02 00 06 01 04 00 04 ff 82 02
f7 | {"N":1,"I":3,"M":2} | {"N":1,"I":{"int":3},"M":2} | gob: refused 1 BadHead at 59 seen 60
"#;

// The lines of a column, each with its line feed.
fn lines_of(alloc: Global, column: &str) -> Result<Vec<u8>, Memory> {
    let mut lines = Vec::new(alloc);
    for line in column.split('|') {
        for piece in line.split('\n') {
            lines.extend_from_slice(piece.as_bytes())?;
        }
        lines.push(b'\n')?;
    }
    Ok(lines)
}

// Whether these lines are printed of the row's stream, and the run ends as it says.
fn prints_so(alloc: Global, row: &str, tagged: bool) -> Result<bool, Memory> {
    let bytes = bytes_of(alloc, part(row, 1))?;
    let due = lines_of(alloc, part(row, if tagged { 3 } else { 2 }))?;
    let mut written = Vec::new(alloc);
    let mut input = Input::new(bytes.as_slice());
    let mut output = Output::new(&mut written);
    let limits = Limits::standard();
    let lines = ValueLines {
        tagged,
        ..ValueLines::default()
    };
    let ended = run_values(alloc, &mut input, &mut output, limits, lines);
    Ok(ends_so(alloc, ended, part(row, 4))? && written == due)
}

// What, the stream, the source of its types, in which > stands for a tab, and the line of the fault, which is left out
// where there is none. Go 1.19 wrote the bytes of the first three (interop/filled).
const TYPES: &str = r#"
a type defined in a value, and used by the next item | 15 10 00 08 2a 62 69 67 2e 49 6e 74 ff 81 05 01 02 ff 84 00 00
00 07 ff 82 04 00 02 02 05 06 ff 82 00 02 02 05 | package types||// type 65, which encodes itself by GobEncode|//
 registered as *big.Int|type T65 string||func (value T65) GobEncode() ([]byte, error) {|>return []byte(value), nil|}||
func (value *T65) GobDecode(data []byte) error {|>*value = T65(data)|>return nil|}

types defined before a value, and within what it holds | 0e ff 81 04 01 02 ff 82 00 01 0c 01 10 00 00 21 ff 82 00 01 01
61 0e 5b 5d 69 6e 74 65 72 66 61 63 65 20 7b 7d ff 83 02 01 02 ff 84 00 01 10 00 00 5c ff 84 59 00 04 07 66 6c 6f 61 74
36 34 08 04 00 fe f8 3f 06 73 74 72 69 6e 67 0c 03 00 01 78 00 17 6d 61 70 5b 73 74 72 69 6e 67 5d 69 6e 74 65 72 66 61
63 65 20 7b 7d ff 82 19 00 01 01 62 08 5b 5d 73 74 72 69 6e 67 ff 85 02 01 02 ff 86 00 01 0c 00 00 07 ff 86 04 00 01 01
63 | package types||// type 65|// registered as map[string]interface {}|type T65 map[string]interface{}||// type 66|//
 registered as []interface {}|type T66 []interface{}||// type 67|// registered as []string|type T67 []string

no type is defined in what is held | 25 ff 81 03 01 01 05 4f 75 74 65 72 01 ff 82 00 01 03 01 01 4e 01 04 00 01 01 49 01
10 00 01 01 4d 01 04 00 00 00 10 ff 82 01 02 01 03 69 6e 74 04 02 00 06 01 04 00 | package types||// type 65|type Outer
 struct {|>N int|>I interface{}|>M int|}

a definition in each of two values, behind one in an item | 0e ff 81 04 01 02 ff 82 00 01 0c 01 10 00 00 19 10 00 04 4c
69 73 74 ff 83 02 01 01 04 4c 69 73 74 01 ff 84 00 01 04 00 00 06 ff 84 03 00 01 02 16 10 00 01 54 ff 85 02 01 01 04 54
65 78 74 01 ff 86 00 01 0c 00 00 06 ff 86 03 00 01 00 | package types||// type 65|type T65 map[string]interface{}||
// type 66|// registered as List|type List []int||// type 67|// registered as T|type Text []string

a refusal behind a value that defines a type | 15 10 00 08 2a 62 69 67 2e 49 6e 74 ff 81 05 01 02 ff 84 00 00 00 07 ff
82 04 00 02 02 05 80 | package types||// type 65, which encodes itself by GobEncode|// registered
 as *big.Int|type T65 string||func (value T65) GobEncode() ([]byte, error) {|>return []byte(value), nil|}||func
 (value *T65) GobDecode(data []byte) error {|>*value = T65(data)|>return nil|} | gob: refused 1 BadHead at 30 seen 31

an end within a value, behind a type that it defines | 03 04 00 06 15 10 00 08 2a 62 69 67 2e 49 6e 74 ff 81 05 01 02 ff
84 00 00 00 07 ff | package types | gob: refused 22 Ended at 28 seen 28
"#;

// Whether the run ended by a fault with this line, or without one where the line is empty.
fn ends_so(alloc: Global, ended: Result<(), ToolFault>, fault: &str) -> Result<bool, Memory> {
    match ended {
        Ok(()) => Ok(fault.is_empty()),
        Err(other) => Ok(other.to_string(alloc)?.as_str() == fault),
    }
}

// Whether the source of the row's types is written, and the run ends as it says.
fn writes_so(alloc: Global, row: &str) -> Result<bool, Memory> {
    let bytes = bytes_of(alloc, part(row, 1))?;
    let mut due = lines_of(alloc, part(row, 2))?;
    for byte in due.as_mut_slice() {
        if *byte == b'>' {
            *byte = b'\t';
        }
    }
    let mut written = Vec::new(alloc);
    let mut input = Input::new(bytes.as_slice());
    let mut output = Output::new(&mut written);
    let limits = Limits::standard();
    let ended = run_types(alloc, &mut input, &mut output, limits, SourceForm::Types);
    Ok(ends_so(alloc, ended, part(row, 3))? && written == due)
}

#[test]
fn types_in_values_are_written(rt: HostRuntime) -> Result<(), Fail> {
    for row in TYPES.trim().split("\n\n") {
        assert!(rt; writes_so(rt.alloc(), row)?, "{row}");
    }
    Ok(())
}

#[test]
fn values_are_shown_with_what_they_hold(rt: HostRuntime) -> Result<(), Fail> {
    for row in ROWS.trim().split("\n\n") {
        assert!(rt; prints_so(rt.alloc(), row, false)?, "{row}");
    }
    Ok(())
}

#[test]
fn held_values_are_tagged(rt: HostRuntime) -> Result<(), Fail> {
    for row in ROWS.trim().split("\n\n") {
        assert!(rt; prints_so(rt.alloc(), row, true)?, "{row}");
    }
    Ok(())
}
