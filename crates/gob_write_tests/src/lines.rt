//! Lines, and the streams or the faults that they are.

use crate::runs::{INT_ITEMS, INTS, MOST, is_run};
use gob_test_rows::bytes_of;
use std::alloc::Global;
use std::test::*;

// Lines, their stream, and the line of the fault, empty where there is none.
const ROWS: [(&str, &str, &str); 31] = [
    ("", "", ""),
    ("\n \t\r\n", "", ""),
    ("{\"type\":2,\"value\":3}", "03 04 00 06", ""),
    (
        " {\t\"type\" : 2 , \"v\\u0061lue\" : 3 } \r\n",
        "03 04 00 06",
        "",
    ),
    (
        "{\"type\":2,\"value\":-9223372036854775808}\n",
        "0b 04 00 f8 ff ff ff ff ff ff ff ff",
        "",
    ),
    ("{\"type\":\"2\",\"value\":\"-3\"}\n", "03 04 00 05", ""),
    (
        "{\"type\":7,\"value\":[\"4031000000000000\",\"0000000000000000\"]}\n",
        "06 0e 00 fe 31 40 00",
        "",
    ),
    ("{\"type\":5,\"value\":\"00ff\"}\n", "05 0a 00 02 00 ff", ""),
    (
        "{\"type\":6,\"value\":{\"hex\":\"ff\"}}\n",
        "04 0c 00 01 ff",
        "",
    ),
    (
        "{\"type\":6,\"value\":\"\\u00e9\"}\n",
        "05 0c 00 02 c3 a9",
        "",
    ),
    ("{\"type\":8,\"value\":null}\n", "03 10 00 00", ""),
    (
        "{\"define\":65,\"elem\":2,\"kind\":\"array\",\"len\":2,\"name\":\"\"}\n{\"type\":65,\"value\":[1,2]}\n",
        "0e ff 81 01 01 02 ff 82 00 01 04 01 04 00 00 06 ff 82 00 02 02 04",
        "",
    ),
    (
        "{\"define\":64,\"elem\":2,\"kind\":\"slice\",\"name\":\"\"}\n",
        "0b 7f 02 01 02 ff 80 00 01 04 00 00",
        "",
    ),
    (
        "{\"define\":65,\"elem\":2,\"key\":6,\"kind\":\"map\",\"name\":\"\"}\n\
            {\"type\":65,\"value\":[[\"a\",1],[\"a\",2]]}\n",
        "0e ff 81 04 01 02 ff 82 00 01 0c 01 04 00 00 0a ff 82 00 02 01 61 02 01 61 04",
        "",
    ),
    (
        "{\"define\":65,\"kind\":\"text\",\"name\":\"Time\"}\n",
        "10 ff 81 07 01 01 04 54 69 6d 65 01 ff 82 00 00 00",
        "",
    ),
    (
        "{\"define\":65,\"fields\":[[\"X\",2],[\"Y\",2]],\"kind\":\"struct\",\"name\":\"Point\"}\n\
            {\"type\":65,\"value\":[[0,\"X\",0],[1,\"Y\",33]]}\n",
        "POINT 07 ff 82 01 00 01 42 00",
        "",
    ),
    (
        "{\"type\":2,\"value\":3}\n{\"type\":2,\"value\":\"3a\"}\n",
        "03 04 00 06",
        "gob: line 2, column 19: a whole number of 64 bits is due",
    ),
    (
        "{\"type\":2,\"value\":9223372036854775808}\n",
        "",
        "gob: line 1, column 19: a whole number of 64 bits is due",
    ),
    (
        "{\"define\":65,\"fields\":[[\"X\",2],[\"Y\",2]],\"kind\":\"struct\",\"name\":\"Point\"}\n\
            {\"type\":65,\"value\":[[0,\"X\",true]]}\n",
        "POINT",
        "gob: line 2, column 28, at .X: a whole number of 64 bits is due",
    ),
    (
        "{\"define\":65,\"fields\":[[\"X\",2],[\"Y\",2]],\"kind\":\"struct\",\"name\":\"Point\"}\n\
            {\"type\":65,\"value\":[[1,\"Y\",1],[0,\"X\",1]]}\n",
        "POINT",
        "gob: line 2, column 32: the number of a later field of the struct is due",
    ),
    (
        "{\"define\":65,\"elem\":2,\"kind\":\"array\",\"len\":2,\"name\":\"\"}\n{\"type\":65,\"value\":[1]}\n",
        "0e ff 81 01 01 02 ff 82 00 01 04 01 04 00 00",
        "gob: line 2, column 20: an array of 2 elements is due",
    ),
    (
        "{\"type\":2,\"value\":3} 4\n",
        "",
        "gob: line 1, column 22: the end of the line is due",
    ),
    (
        "3\n",
        "",
        "gob: line 1, column 1: {\"define\": or {\"type\": is due",
    ),
    (
        "{\"type\":99,\"value\":3}\n",
        "",
        "gob: line 1: refused 10 UndefinedType(99)",
    ),
    (
        "{\"define\":63,\"elem\":2,\"kind\":\"slice\",\"name\":\"\"}\n",
        "",
        "gob: line 1: refused 7 ReservedType(63)",
    ),
    (
        "{\"define\":\"65\",\"name\":\"\",\"len\":\"2\",\"kind\":\"array\",\"elem\":\"2\"}\n\
            {\"type\":65,\"value\":[1,2]}\n",
        "0e ff 81 01 01 02 ff 82 00 01 04 01 04 00 00 06 ff 82 00 02 02 04",
        "",
    ),
    (
        "{\"define\":65,\"name\":\"Point\",\"kind\":\"struct\",\"fields\":[[\"X\",\"2\"],[\"Y\",2]]}\n",
        "POINT",
        "",
    ),
    (
        "{\"define\":65,\"elem\":2,\"elem\":2,\"kind\":\"slice\",\"name\":\"\"}\n",
        "",
        "gob: line 1, column 23: another key is due",
    ),
    (
        "{\"define\":65,\"elem\":2,\"kind\":\"slice\",\"len\":1,\"name\":\"\"}\n",
        "",
        "gob: line 1, column 55: a definition of its kind without the key \"len\" is due",
    ),
    (
        "{\"define\":65,\"elem\":2,\"kind\":\"map\",\"name\":\"\"}\n",
        "",
        "gob: line 1, column 45: the key \"key\" is due",
    ),
    (
        "{\"define\":65,\"id\":3}\n",
        "",
        "gob: line 1, column 14: elem, fields, key, kind, len, name or the end of the object is due",
    ),
];

// Whether the lines are this stream, and the fault is told so.
fn is_right(alloc: Global, lines: &str, stream: &str, due: &str) -> bool {
    match bytes_of(alloc, stream) {
        Ok(stream) => is_run(alloc, lines.as_bytes(), MOST, stream.as_slice(), due),
        Err(_) => false,
    }
}

#[test]
fn lines_are_streams_or_faults(rt: HostRuntime) {
    for (lines, stream, due) in &ROWS {
        assert!(rt; is_right(rt.alloc(), lines, stream, due), "{lines}");
    }
}

#[test]
fn bytes_that_are_no_text_are_told(rt: HostRuntime) {
    let line = b"{\"type\":6,\"value\":\"\xff\"}\n";
    let due = "gob: line 1, column 20: UTF-8 is due";
    assert!(rt; is_run(rt.alloc(), &line[..], MOST, b"", due));
}

#[test]
fn lines_have_a_limit(rt: HostRuntime) {
    assert!(rt; is_run(rt.alloc(), INTS, 21, INT_ITEMS, ""));
    assert!(rt; is_run(rt.alloc(), INTS, 20, b"", "gob: line 1: more than 20 bytes"));
}
