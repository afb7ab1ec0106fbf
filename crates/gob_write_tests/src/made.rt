//! Plain JSON under the types of a stream, and the streams or the faults that it is.

use crate::runs::MOST;
use gob_stream::{Input, Limits, Output};
use gob_test_rows::bytes_of;
use gob_write::{LinesFault, Types, TypesFault, read_types, run_make};
use std::alloc::Global;
use std::test::*;

// The stream of the types, JSON, what is written behind the definitions, and the line of the fault, empty where there
// is none.
const ROWS: [(&str, &str, &str, &str); 22] = [
    ("POINT 07 ff 82 01 2c 01 42 00", "", "", ""),
    (
        "POINT 07 ff 82 01 2c 01 42 00",
        " { \"Y\" : 33, \"\\u0058\":22 }\n",
        "07 ff 82 01 2c 01 42 00",
        "",
    ),
    (
        "POINT 07 ff 82 01 2c 01 42 00",
        "{\"X\":0,\"Y\":33}\n{\"X\":null}\nnull",
        "05 ff 82 02 42 00 03 ff 82 00 03 ff 82 00",
        "",
    ),
    (
        "POINT 07 ff 82 01 2c 01 42 00",
        "{}\n{\"X\":1,\"Z\":1}\n",
        "03 ff 82 00",
        "gob: line 2, column 8, at .Z: a field of the struct is due",
    ),
    (
        "POINT 07 ff 82 01 2c 01 42 00",
        "{\"X\":1,\"X\":2}\n",
        "",
        "gob: line 1, column 8, at .X: a field that no member before has is due",
    ),
    (
        "POINT 07 ff 82 01 2c 01 42 00",
        "{\"X\":1.0}\n",
        "",
        "gob: line 1, column 6, at .X: a whole number of 64 bits is due",
    ),
    (
        "ARRAY 06 ff 82 00 02 02 04",
        "[1]\n[]\n[1,2]\n[1,2,3]\n",
        "06 ff 82 00 02 02 00 06 ff 82 00 02 00 00 06 ff 82 00 02 02 04",
        "gob: line 4, column 1: an array of 2 elements at most is due",
    ),
    (
        "MAP 0a ff 82 00 02 01 61 02 01 61 04",
        "{\"a\":1,\"a\":2}\n[[\"a\",1],[\"a\",2]]\n",
        "0a ff 82 00 02 01 61 02 01 61 04 0a ff 82 00 02 01 61 02 01 61 04",
        "",
    ),
    (
        "TIME 06 ff 82 00 02 0a 0b",
        "\"2009-11-10T23:00:00.000Z\"\n\"2006-01-02T15:04:05.5+05:30\"\n",
        "13 ff 82 00 0f 01 00 00 00 0e c2 8b e7 70 00 00 00 00 ff ff \
            13 ff 82 00 0f 01 00 00 00 0e bb 4a ea 8d 1d cd 65 00 01 4a",
        "",
    ),
    (
        "TIME 06 ff 82 00 02 0a 0b",
        "\"Cgs=\"\n",
        "",
        "gob: line 1, column 1: a time as \"2006-01-02T15:04:05Z\", of the years 1 to 9999 is due",
    ),
    (
        "10 ff 81 07 01 01 04 54 69 6d 65 01 ff 82 00 00 00 06 ff 82 00 02 61 62",
        "\"ab\"\n",
        "06 ff 82 00 02 61 62",
        "",
    ),
    (
        "05 08 00 fe 31 40",
        "17\n1.7e1\n\"NaN\"\n\"-Infinity\"\n1e999\n",
        "05 08 00 fe 31 40 05 08 00 fe 31 40 0b 08 00 f8 01 00 00 00 00 00 f8 7f 05 08 00 fe f0 ff",
        "gob: line 5, column 1: a number that a float holds, \"NaN\", \"Infinity\" or \"-Infinity\" is due",
    ),
    (
        "06 0e 00 fe 31 40 00",
        "[17,0]\n",
        "06 0e 00 fe 31 40 00",
        "",
    ),
    (
        "05 0a 00 02 00 ff",
        "\"AP8=\"\n\"AP8\"\n",
        "05 0a 00 02 00 ff",
        "gob: line 2, column 1: a string of base64 with padding is due",
    ),
    ("03 10 00 00", "null\n", "03 10 00 00", ""),
    ("03 04 00 06", "3 4\n", "03 04 00 06 03 04 00 08", ""),
    (
        "03 04 00 06",
        "3 4,5\n",
        "03 04 00 06",
        "gob: line 1, column 5: the end of the line is due",
    ),
    (
        "POINT 07 ff 82 01 2c 01 42 00",
        "{\"X\":0,\n \"Y\":33\n} {\"X\":22,\"Y\":33}{\"X\":null}",
        "05 ff 82 02 42 00 07 ff 82 01 2c 01 42 00 03 ff 82 00",
        "",
    ),
    (
        "POINT 07 ff 82 01 2c 01 42 00",
        "{} {}\n{\n  \"X\": 22,\n  \"Y\": 1.0\n}\n{}",
        "03 ff 82 00 03 ff 82 00",
        "gob: line 4, column 8, at .Y: a whole number of 64 bits is due",
    ),
    (
        "POINT 07 ff 82 01 2c 01 42 00",
        "{} {\"X\":1,\n\"Y\":2\n{}\n",
        "03 ff 82 00",
        "gob: line 3, column 1: the end of the object is due",
    ),
    (
        "MAP 0a ff 82 00 02 01 61 02 01 61 04",
        "{\"}\\\"{[\":1}\n{\"a",
        "0a ff 82 00 01 04 7d 22 7b 5b 02",
        "gob: line 2, column 2: the end of the object is due",
    ),
    (
        "MAP 0a ff 82 00 02 01 61 02 01 61 04",
        "{\"a\":1,\"a\":2}}{}",
        "0a ff 82 00 02 01 61 02 01 61 04",
        "gob: line 1, column 14: an object, or an array of [key,element] is due",
    ),
];

// What comes of JSON under the types of a stream, with members left out that no field has or not.
fn made(
    alloc: Global,
    types: &[u8],
    json: &str,
    lenient: bool,
    held: &mut Vec<u8>,
) -> Result<Result<u64, LinesFault>, TypesFault> {
    let types = read_types(
        alloc,
        &mut Input::new(types),
        None,
        lenient,
        Limits::standard(),
    )?;
    Ok(run_on(alloc, &types, json, held))
}

fn run_on(alloc: Global, types: &Types, json: &str, held: &mut Vec<u8>) -> Result<u64, LinesFault> {
    let mut input = Input::new(json.as_bytes());
    let mut output = Output::new(held);
    run_make(
        alloc,
        types,
        &mut input,
        &mut output,
        Limits::standard(),
        MOST,
    )
}

// Whether a run ended by a fault with this line, or left this many members out where the line is empty.
fn ends_so(alloc: Global, ended: Result<u64, LinesFault>, left_out: u64, line: &str) -> bool {
    match ended {
        Ok(count) => line.is_empty() && count == left_out,
        Err(fault) => match fault.to_string(alloc) {
            Ok(text) => text.as_str() == line,
            Err(_) => false,
        },
    }
}

// Whether this is written behind the definitions, which are all but the last item of the types.
fn is_right(alloc: Global, types: &str, json: &str, stream: &str, due: &str) -> bool {
    let (Ok(types), Ok(stream)) = (bytes_of(alloc, types), bytes_of(alloc, stream)) else {
        return false;
    };
    let mut held = Vec::new(alloc);
    match made(alloc, types.as_slice(), json, false, &mut held) {
        Ok(ended) => ends_so(alloc, ended, 0, due) && held.as_slice().ends_with(stream.as_slice()),
        Err(_) => false,
    }
}

#[test]
fn json_is_a_stream_or_a_fault(rt: HostRuntime) {
    for (types, json, stream, due) in &ROWS {
        assert!(rt; is_right(rt.alloc(), types, json, stream, due), "{json}");
    }
}
