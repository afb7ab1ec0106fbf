//! Streams, and the parts that are due of them.

use gob_split::PartSize;

/// A stream and its parts, in the notation of docs/FORMAT.md; parts stand apart by a bar.
pub(crate) struct Row {
    pub(crate) what: &'static str,
    pub(crate) stream: &'static str,
    pub(crate) size: PartSize,
    pub(crate) parts: &'static str,
}

// What Go's encoder writes of `P{1}, P{2}, Q{"a"}, P{3}, Q{"b"}`, where P is `struct{ X int }`, and Q is
// `struct{ S string }`.
pub(crate) const RECORDS: &str =
    "15 ff 81 03 01 01 01 50 01 ff 82 00 01 01 01 01 58 01 04 00 00 00 05 ff 82 01 02 00 05 ff 82 \
        01 04 00 15 ff 83 03 01 01 01 51 01 ff 84 00 01 01 01 01 53 01 0c 00 00 00 06 ff 84 01 01 61 \
        00 05 ff 82 01 06 00 06 ff 84 01 01 62 00";

// And of `B{3}, B{Q{"a"}}, B{Q{"b"}}, B{4}`, where B is `struct{ V any }`: Q is defined within a value.
pub(crate) const HELD: &str =
    "15 ff 85 03 01 01 01 42 01 ff 86 00 01 01 01 01 56 01 10 00 00 00 0c ff 86 01 03 69 6e 74 04 \
        02 00 06 00 1a ff 86 01 01 51 ff 83 03 01 01 01 51 01 ff 84 00 01 01 01 01 53 01 0c 00 00 00 \
        08 ff 84 04 01 01 61 00 00 0d ff 86 01 01 51 ff 84 04 01 01 62 00 00 0c ff 86 01 03 69 6e 74 \
        04 02 00 08 00";

pub(crate) const ROWS: [Row; 9] = [
    Row {
        what: "nothing",
        stream: "",
        size: PartSize::Bytes(1),
        parts: "",
    },
    Row {
        what: "ints, by bytes: a part ends with the first value with which it has as many",
        stream: "03 04 00 06 03 04 00 08 03 04 00 0a 03 04 00 0c 03 04 00 0e",
        size: PartSize::Bytes(5),
        parts: "03 04 00 06 03 04 00 08 | 03 04 00 0a 03 04 00 0c | 03 04 00 0e",
    },
    Row {
        what: "ints, by just as many bytes",
        stream: "03 04 00 06 03 04 00 08 03 04 00 0a",
        size: PartSize::Bytes(8),
        parts: "03 04 00 06 03 04 00 08 | 03 04 00 0a",
    },
    Row {
        what: "ints, by values",
        stream: "03 04 00 06 03 04 00 08 03 04 00 0a",
        size: PartSize::Values(2),
        parts: "03 04 00 06 03 04 00 08 | 03 04 00 0a",
    },
    Row {
        what: "no size: each value is a part",
        stream: "03 04 00 06 03 04 00 08",
        size: PartSize::Bytes(0),
        parts: "03 04 00 06 | 03 04 00 08",
    },
    Row {
        what: "one part",
        stream: RECORDS,
        size: PartSize::Bytes(1000),
        parts: RECORDS,
    },
    Row {
        what: "definitions in force stand in front",
        stream: RECORDS,
        size: PartSize::Values(2),
        parts: "15 ff 81 03 01 01 01 50 01 ff 82 00 01 01 01 01 58 01 04 00 00 00 05 ff 82 01 02 00 05 ff 82 \
        01 04 00 | 15 ff 81 03 01 01 01 50 01 ff 82 00 01 01 01 01 58 01 04 00 00 00 15 ff 83 03 01 \
        01 01 51 01 ff 84 00 01 01 01 01 53 01 0c 00 00 00 06 ff 84 01 01 61 00 05 ff 82 01 06 00 | \
        15 ff 81 03 01 01 01 50 01 ff 82 00 01 01 01 01 58 01 04 00 00 00 15 ff 83 03 01 01 01 51 01 \
        ff 84 00 01 01 01 01 53 01 0c 00 00 00 06 ff 84 01 01 62 00",
    },
    Row {
        what: "a definition ends no part",
        stream: RECORDS,
        size: PartSize::Values(1),
        parts: "15 ff 81 03 01 01 01 50 01 ff 82 00 01 01 01 01 58 01 04 00 00 00 05 ff 82 01 02 00 | 15 ff \
        81 03 01 01 01 50 01 ff 82 00 01 01 01 01 58 01 04 00 00 00 05 ff 82 01 04 00 | 15 ff 81 03 \
        01 01 01 50 01 ff 82 00 01 01 01 01 58 01 04 00 00 00 15 ff 83 03 01 01 01 51 01 ff 84 00 01 \
        01 01 01 53 01 0c 00 00 00 06 ff 84 01 01 61 00 | 15 ff 81 03 01 01 01 50 01 ff 82 00 01 01 \
        01 01 58 01 04 00 00 00 15 ff 83 03 01 01 01 51 01 ff 84 00 01 01 01 01 53 01 0c 00 00 00 05 \
        ff 82 01 06 00 | 15 ff 81 03 01 01 01 50 01 ff 82 00 01 01 01 01 58 01 04 00 00 00 15 ff 83 \
        03 01 01 01 51 01 ff 84 00 01 01 01 01 53 01 0c 00 00 00 06 ff 84 01 01 62 00",
    },
    Row {
        what: "a definition in a value stands in front of it",
        stream: HELD,
        size: PartSize::Values(2),
        parts: "15 ff 85 03 01 01 01 42 01 ff 86 00 01 01 01 01 56 01 10 00 00 00 0c ff 86 01 03 69 6e 74 04 \
        02 00 06 00 15 ff 83 03 01 01 01 51 01 ff 84 00 01 01 01 01 53 01 0c 00 00 00 0d ff 86 01 01 \
        51 ff 84 04 01 01 61 00 00 | 15 ff 85 03 01 01 01 42 01 ff 86 00 01 01 01 01 56 01 10 00 00 \
        00 15 ff 83 03 01 01 01 51 01 ff 84 00 01 01 01 01 53 01 0c 00 00 00 0d ff 86 01 01 51 ff 84 \
        04 01 01 62 00 00 0c ff 86 01 03 69 6e 74 04 02 00 08 00",
    },
];
