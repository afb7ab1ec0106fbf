//! Plain JSON under the types of Go source, and the streams or the faults that it is.

use crate::runs::MOST;
use gob_stream::{Input, Limits, Output};
use gob_test_rows::bytes_of;
use gob_write::{SourceTypesFault, Types, run_make, types_of_source};
use std::alloc::Global;
use std::test::*;

// Source, the word for the type or nothing, JSON, and the stream that is due.
const STREAMS: [(&str, &str, &str, &str); 6] = [
    (
        "type Point struct { X, Y int }",
        "",
        "{\"X\":22,\"Y\":33}",
        "POINT 07 ff 82 01 2c 01 42 00",
    ),
    (
        "package p\n\n// type 65\ntype Point struct {\n\tX int `json:\"x\"`\n\tY int8\n}\n",
        "65",
        "{\"Y\":33}",
        "POINT 05 ff 82 02 42 00",
    ),
    (
        "type (\n\tSmall int\n\tPoint struct { X Small; c chan int; C chan int; y, Y *Small; F func() error }\n)",
        "Point",
        "{}",
        "POINT 03 ff 82 00",
    ),
    (
        "type Größe struct { Länge int; 世界 int }",
        "",
        "{\"Länge\":3}",
        "20 ff 81 03 01 01 07 47 72 c3 b6 c3 9f 65 01 ff 82 00 01 01 01 06 4c c3 a4 6e 67 65 01 04 00 00 00 \
         05 ff 82 01 06 00",
    ),
    ("type Small int", "", "3", "03 04 00 06"),
    (
        "type Bytes []byte; type T struct { A Bytes }",
        "Bytes",
        "\"AP8=\"",
        "05 0a 00 02 00 ff",
    ),
];

// Source, the word for the type or nothing, and the line of the fault.
const FAULTS: [(&str, &str, &str); 9] = [
    ("type T", "", "gob: types: line 1, column 7: a type is due"),
    (
        "type T []\n\ntype U",
        "",
        "gob: types: line 1, column 10: a type is due",
    ),
    ("", "", "gob: types: no type is declared"),
    (
        "type T int",
        "U",
        "gob: types: no type of this name or id is declared",
    ),
    (
        "type T int; type T uint",
        "",
        "gob: types: line 1, column 6: T is declared twice",
    ),
    (
        "type T struct { A U }",
        "",
        "gob: types: line 1, column 19: U isn't declared",
    ),
    (
        "type T struct { A other.U }",
        "",
        "gob: types: line 1, column 25: other.U isn't known",
    ),
    (
        "type T chan int",
        "",
        "gob: types: the values of a type are channels or functions, or hold them",
    ),
    (
        "type T U; type U T",
        "",
        "gob: types: a type stands for itself, or names stand for one another too far",
    ),
];

fn types_in<'a>(
    alloc: Global,
    source: &'a str,
    word: &'a str,
) -> Result<Types, SourceTypesFault<'a>> {
    let named = if word.is_empty() { None } else { Some(word) };
    types_of_source(alloc, source.as_bytes(), named, false)
}

// Whether this stream is written of the JSON under the types of the source.
fn is_made(alloc: Global, source: &str, word: &str, json: &str, stream: &str) -> bool {
    let Ok(due) = bytes_of(alloc, stream) else {
        return false;
    };
    let Ok(types) = types_in(alloc, source, word) else {
        return false;
    };
    let mut held = Vec::new(alloc);
    let ran = run_make(
        alloc,
        &types,
        &mut Input::new(json.as_bytes()),
        &mut Output::new(&mut held),
        Limits::standard(),
        MOST,
    );
    ran.is_ok() && held.as_slice() == due.as_slice()
}

// Whether the source has no types, by this fault.
fn is_told(alloc: Global, source: &str, word: &str, line: &str) -> bool {
    match types_in(alloc, source, word) {
        Ok(_) => false,
        Err(fault) => match fault.to_string(alloc) {
            Ok(text) => text.as_str() == line,
            Err(_) => false,
        },
    }
}

#[test]
fn json_under_source_is_a_stream(rt: HostRuntime) {
    for (source, word, json, stream) in &STREAMS {
        assert!(rt; is_made(rt.alloc(), source, word, json, stream), "{source}");
    }
}

#[test]
fn source_without_types_is_told(rt: HostRuntime) {
    for (source, word, line) in &FAULTS {
        assert!(rt; is_told(rt.alloc(), source, word, line), "{source}");
    }
}
