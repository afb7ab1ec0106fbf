//! What is explained of streams.

use gob_num::Memory;
use gob_stream::{Input, Limits, Output};
use gob_test_rows::bytes_of;
use gob_tool::ToolFault;
use gob_why::{Explained, run_explain};
use std::alloc::Global;
use std::test::*;

// A stream, and what is due.
#[derive(Clone, Copy)]
struct Row {
    // What it is.
    what: &'static str,
    // Its bytes, as docs/FORMAT.md writes them.
    stream: &'static str,
    which: Explained,
    // What is written, behind a line feed.
    text: &'static str,
    // The line of the fault that ends the run, if one does.
    fault: &'static str,
}

const ROWS: [Row; 12] = [
    Row {
        what: "the documented example",
        stream: "POINT 07 ff 82 01 2c 01 42 00",
        which: Explained::All,
        text: "
     0  1f                       an item of 31 bytes
     1  ff 81                      defines type 65
     3  03                           StructT
     4  01                             CommonType
     5  01 05 50 6f 69 6e 74             Name \"Point\"
    12  01 ff 82                         Id 65
    15  00                               end of CommonType
    16  01 02                          Field 2 elements
    18  01 01 58                           [0].Name \"X\"
    21  01 04                              [0].Id 2
    23  00                                 end of [0]
    24  01 01 59                           [1].Name \"Y\"
    27  01 04                              [1].Id 2
    29  00                                 end of [1]
    30  00                             end of structType
    31  00                           end of wireType
    32  07                       an item of 7 bytes
    33  ff 82                      a value of type 65, Point
    35  01 2c                        X 22
    37  01 42                        Y 33
    39  00                           end of Point
",
        fault: "",
    },
    Row {
        what: "a delta that leads to no field",
        stream: "POINT 07 ff 82 01 2c 02 42 00",
        which: Explained::Fault,
        text: "
    32  07                       an item of 7 bytes
    33  ff 82                      a value of type 65, Point
    35  01 2c                        X 22
    37  02                       <- refused here

FieldNumber at 37, in Point. Expected: 0, which ends the struct, 1 for Y.
",
        fault: "gob: refused 15 FieldNumber at 37 seen 38",
    },
    Row {
        what: "an item by one of its bytes",
        stream: "03 04 00 06 05 08 00 fe 31 40 03 02 00 01",
        which: Explained::At(9),
        text: "
     4  05                       an item of 5 bytes
     5  08                         a value of type 4, float64
     6  00                         the tag of a value that is no struct
     7  fe 31 40                     17.0
",
        fault: "",
    },
    Row {
        what: "an input that ends in an item",
        stream: "POINT 07 ff 82 01",
        which: Explained::Fault,
        text: "
    32  07                       an item of 7 bytes
    33  ff 82                      a value of type 65, Point
    35  01                           X
    36                           <- refused here

Ended at 36, in Point.X. Expected: an int.
",
        fault: "gob: refused 22 Ended at 36 seen 36",
    },
    Row {
        what: "a string that is longer than its item",
        stream: "0b 0c 00 f8 ff ff ff ff ff ff ff ff",
        which: Explained::All,
        text: "
     0  0b                       an item of 11 bytes
     1  0c                         a value of type 6, string
     2  00                         the tag of a value that is no struct
     3  f8 ff ff ff ff ff ff ff      18446744073709551615 bytes
    11  ff
    12                           <- refused here

Short at 12, in string. Expected: 18446744073709551615 bytes.
",
        fault: "gob: refused 5 Short at 12 seen 12",
    },
    Row {
        what: "bytes behind a value",
        stream: "04 04 00 06 00",
        which: Explained::All,
        text: "
     0  04                       an item of 4 bytes
     1  04                         a value of type 2, int
     2  00                         the tag of a value that is no struct
     3  06                           3
     4  00                       <- refused here

Extra at 4, in int. Expected: the end of the item.
",
        fault: "gob: refused 6 Extra at 4 seen 4",
    },
    Row {
        what: "a description of an id below its own",
        stream: "0a ff 81 05 01 02 ff 80 00 00 00",
        which: Explained::All,
        text: "
     0  0a                       an item of 10 bytes
     1  ff 81                      defines type 65
     3  05                           GobEncoderT
     4  01                             CommonType
     5  02 ff 80                         Id 64
     8  00                               end of CommonType
     9  00                             end of gobEncoderType
    10  00                           end of wireType

WrongId at 3, in wireType. The row Id of CommonType isn't the id that is defined.
",
        fault: "gob: refused 19 WrongId at 3 seen 11",
    },
    Row {
        what: "what is no stream",
        stream: "1f 8b 08 00",
        which: Explained::All,
        text: "
     0  1f                       an item of 31 bytes
     1  8b                       <- refused here

BadHead at 1. Expected: a type number.
",
        fault: "gob: refused 1 BadHead at 1 seen 2",
    },
    Row {
        what: "an interface that holds an int",
        stream: "0a 10 00 03 69 6e 74 04 02 00 0a",
        which: Explained::All,
        text: "
     0  0a                       an item of 10 bytes
     1  10                         a value of type 8, interface{}
     2  00                         the tag of a value that is no struct
     3  03 69 6e 74                  holds \"int\"
     7  04                             a value of type 2, int
     8  02                             a segment of 2 bytes
     9  00                             the tag of a value that is no struct
    10  0a                               5
",
        fault: "",
    },
    Row {
        what: "a type that is defined within a value, which is cut behind it",
        stream: "13 10 00 01 78 ff 81 02 01 01 01 4c 01 ff 82 00 01 04 00 00 06 ff 82 03 00 01 0a 04 ff 82 00 00",
        which: Explained::All,
        text: "
     0  13                       an item of 19 bytes
     1  10                         a value of type 8, interface{}
     2  00                         the tag of a value that is no struct
     3  01 78                        holds \"x\"
     5  ff 81                          defines type 65
     7  02                               SliceT
     8  01                                 CommonType
     9  01 01 4c                             Name \"L\"
    12  01 ff 82                             Id 65
    15  00                                   end of CommonType
    16  01 04                              Elem 2
    18  00                                 end of sliceType
    19  00                               end of wireType
    20  06                             a segment of 6 bytes
    21  ff 82                          a value of type 65, L
    23  03                             a segment of 3 bytes
    24  00                             the tag of a value that is no struct
    25  01                               1 element
    26  0a                                 [0] 5
    27  04                       an item of 4 bytes
    28  ff 82                      a value of type 65, L
    30  00                         the tag of a value that is no struct
    31  00                           0 elements
",
        fault: "",
    },
    Row {
        what: "a segment that is longer than the one around it",
        stream: "0a 10 00 03 69 6e 74 04 03 00 0a",
        which: Explained::Fault,
        text: "
     0  0a                       an item of 10 bytes
     1  10                         a value of type 8, interface{}
     2  00                         the tag of a value that is no struct
     3  03 69 6e 74                  holds \"int\"
     7  04                             a value of type 2, int
     8  03                       <- refused here

ItemTooLong at 8, in interface{}. Expected: the count of a segment.
",
        fault: "gob: refused 3 ItemTooLong at 8 seen 9",
    },
    Row {
        what: "a value of a type that is defined within the refused value",
        stream: "13 10 00 01 78 ff 81 02 01 01 01 4c 01 ff 82 00 01 04 00 00 06 ff 82 03 07 01 0a",
        which: Explained::Fault,
        text: "
     0  13                       an item of 19 bytes
     1  10                         a value of type 8, interface{}
     2  00                         the tag of a value that is no struct
     3  01 78                        holds \"x\"
     5  ff 81                          defines type 65
     7  02                               SliceT
     8  01                                 CommonType
     9  01 01 4c                             Name \"L\"
    12  01 ff 82                             Id 65
    15  00                                   end of CommonType
    16  01 04                              Elem 2
    18  00                                 end of sliceType
    19  00                               end of wireType
    20  06                             a segment of 6 bytes
    21  ff 82                          a value of type 65, L
    23  03                             a segment of 3 bytes
    24  07                       <- refused here

SingleTag at 24, in interface{}.(L). Expected: the tag, which is 0.
",
        fault: "gob: refused 12 SingleTag at 24 seen 25",
    },
];

// Whether the row's stream is explained as the row says. A vector that has no memory for what it is given is a writer
// that fails.
fn is_explained(alloc: Global, row: &Row) -> Result<bool, Memory> {
    let bytes = bytes_of(alloc, row.stream)?;
    let mut written = Vec::new(alloc);
    let mut input = Input::new(bytes.as_slice());
    let mut output = Output::new(&mut written);
    let limits = Limits::standard();
    let ended = run_explain(alloc, &mut input, &mut output, limits, row.which);
    let Some(due) = row.text.as_bytes().get(1..) else {
        return Ok(false);
    };
    let is_written = written.as_slice() == due;
    match ended {
        Ok(()) => Ok(is_written && row.fault.is_empty()),
        Err(ToolFault::Memory | ToolFault::Write) => Err(Memory),
        Err(other) => Ok(is_written && other.to_string(alloc)?.as_str() == row.fault),
    }
}

#[test]
fn streams_are_explained(rt: HostRuntime) -> Result<(), Fail> {
    for row in &ROWS {
        assert!(rt; is_explained(rt.alloc(), row) == Ok(true), "{}", row.what);
    }
    Ok(())
}

// What is due is written where there is room.
#[test]
fn explaining_wants_memory(rt: HostRuntime) {
    for row in &ROWS {
        assert!(rt; is_explained(rt.alloc(), row) != Ok(false), "{}", row.what);
    }
}
