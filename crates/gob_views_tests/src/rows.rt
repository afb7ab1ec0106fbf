//! Streams, and what the views write of them.

/// A stream, and what is due.
#[derive(Clone, Copy)]
pub(crate) struct Row {
    /// What it is.
    pub what: &'static str,
    /// Its bytes, as docs/FORMAT.md writes them.
    pub stream: &'static str,
    /// The lines of its values.
    pub values: &'static str,
    /// The source of its types, in which > stands for a tab.
    pub types: &'static str,
    /// The line of the fault, or nothing.
    pub fault: &'static str,
}

const NO_TYPE: &str = "package types\n";

const POINT: &str = "package types

// type 65
type Point struct {
>X int
>Y int
}
";

const TIME: &str = "package types

import (
>\"time\"
)

// type 65, which encodes itself by GobEncode
type Time = time.Time
";

const LIST: &str = "package types

// type 65
type T65 [][][]T65
";

/// The rows.
pub(crate) const ROWS: [Row; 12] = [
    Row {
        what: "no byte",
        stream: "",
        values: "",
        types: NO_TYPE,
        fault: "",
    },
    Row {
        what: "values of the basic types",
        stream: "03 02 00 01 04 04 00 ff a5 03 06 00 05 05 08 00 fe 31 40 06 0e 00 fe 31 40 00 04 0a 00 01 66 \
            05 0c 00 02 61 62 03 10 00 00",
        values: "true\n-83\n5\n17.0\n[17.0,0.0]\n\"Zg==\"\n\"ab\"\nnull\n",
        types: NO_TYPE,
        fault: "",
    },
    Row {
        what: "floats that aren't finite",
        stream: "05 08 00 fe f0 7f 05 08 00 fe f0 ff 0b 08 00 f8 01 00 00 00 00 00 f8 7f",
        values: "\"Infinity\"\n\"-Infinity\"\n\"NaN\"\n",
        types: NO_TYPE,
        fault: "",
    },
    Row {
        what: "a definition alone",
        stream: "POINT",
        values: "",
        types: POINT,
        fault: "",
    },
    Row {
        what: "structs behind their definition",
        stream: "POINT 07 ff 82 01 2c 01 42 00 05 ff 82 02 42 00 03 ff 82 00",
        values: "{\"X\":22,\"Y\":33}\n{\"Y\":33}\n{}\n",
        types: POINT,
        fault: "",
    },
    Row {
        what: "a value before a definition, and one behind it",
        stream: "03 04 00 06 TIME 06 ff 82 00 02 0a 0b",
        values: "3\n\"Cgs=\"\n",
        types: TIME,
        fault: "",
    },
    Row {
        what: "a slice of slices",
        stream: "LIST 05 ff 82 00 01 00",
        values: "[[]]\n",
        types: LIST,
        fault: "",
    },
    Row {
        what: "a text of controls and one that is no UTF-8",
        stream: "05 0c 00 02 22 0a 04 0c 00 01 ff",
        values: "\"\\\"\\n\"\n{\"hex\":\"ff\"}\n",
        types: NO_TYPE,
        fault: "",
    },
    Row {
        what: "characters that control how a text is shown, and others beside them",
        stream: "04 0c 00 01 7f 07 0c 00 04 c2 80 c2 9f 07 0c 00 04 c2 a0 c3 a9 \
            0f 0c 00 0c e2 80 8d e2 80 8e e2 80 8f e2 80 90",
        values: "\"\\u007f\"\n\"\\u0080\\u009f\"\n\"\u{a0}\u{e9}\"\n\"\\u200d\\u200e\\u200f\u{2010}\"\n",
        types: NO_TYPE,
        fault: "",
    },
    Row {
        what: "a refusal behind a value",
        stream: "POINT 07 ff 82 01 2c 01 42 00 80",
        values: "{\"X\":22,\"Y\":33}\n",
        types: POINT,
        fault: "gob: refused 1 BadHead at 40 seen 41",
    },
    Row {
        what: "an end within an item",
        stream: "03 04 00 06 03 04",
        values: "3\n",
        types: NO_TYPE,
        fault: "gob: refused 22 Ended at 6 seen 6",
    },
    Row {
        what: "a refusal at once",
        stream: "80",
        values: "",
        types: NO_TYPE,
        fault: "gob: refused 1 BadHead at 0 seen 1",
    },
];
