//! Tidy forms of tapes.

ghost use Rattle.std.specs.Prelude.{[]};

use crate::tapes::is_spelled_tape;
use crate::views::are_parts;
use gob_num::Memory;
use gob_read::{BodyReader, Progress, Stop};
use gob_tape::{Tape, TapeBuilder, tidy_tape};
use gob_test_rows::{Body, bytes_of, part, reader};
use gob_types::{Table, TypeId};
use std::alloc::Global;

/// What, its type and its body, and of its tidy form the depth, the parts and the bytes.
pub(crate) const ROWS: &str = "
an int of 0 | 2 | 00 00 | 1 | Int - 0 0 - | 00
X 0, Y 33 | 65 | 01 00 01 42 00 | 2 | Fields - 1 0 - Int 1 66 0 - | 02 42 00
X 0, Y 0 | 65 | 01 00 01 00 00 | 1 | Fields - 0 0 - | 00
V 0, Next (V 0, Next (V 2)) | 66 | 01 00 01 01 00 01 01 04 00 00 00 | 4 | Fields - 1 0 - Fields 1 1 0 - Fields 1 1 0 \
    - Int 0 4 0 - | 02 02 01 04 00 00 00
V 1, Next (V 0) | 66 | 01 02 01 01 00 00 00 | 2 | Fields - 2 0 - Int 0 2 0 - Fields 1 0 0 - | 01 02 01 00 00
an int and an empty slice | 68 | 01 02 01 00 00 | 2 | Fields - 1 0 - Int 0 2 0 - | 01 02 00
a map of an empty text and 0 | 69 | 00 01 00 00 | 2 | Pairs - 1 0 - Str - 0 0 - Int - 0 0 - | 01 00 00
a field of each kind, each of them 0 | 74 | 01 00 01 00 01 00 01 00 01 00 01 00 01 00 00 01 00 01 00 01 00 01 00 01 \
    00 00 | 2 | Fields - 4 0 - Nil 7 0 0 - Pairs 9 0 0 - Opaque 10 0 0 - Fields 11 0 0 - | 08 00 02 00 01 00 01 00 00
an array of 0, 0 and an empty slice | 76 | 01 02 00 00 01 00 00 | 3 | Fields - 1 0 - Many 0 2 0 - Int - 0 0 - Int - 0 \
    0 - | 01 02 00 00 00
a slice of 0, 0 | 77 | 00 02 00 00 | 2 | Many - 2 0 - Int - 0 0 - Int - 0 0 - | 02 00 00
an array of nothing and an int of 0 | 79 | 01 00 01 00 00 | 2 | Fields - 1 0 - Many 0 0 0 - | 01 00 00
a map of ints and structs | 80 | 00 02 02 01 00 00 04 01 02 01 00 00 | 3 | Pairs - 2 0 - Int - 2 0 - Fields - 0 0 - \
    Int - 4 0 - Fields - 1 0 - Int 0 2 0 - | 02 02 00 04 01 02 00
a slice of structs | 81 | 00 02 01 00 00 01 00 01 06 00 | 3 | Many - 2 0 - Fields - 0 0 - Fields - 1 0 - Int 1 6 0 - \
    | 02 00 02 06 00
an empty text and a text | 82 | 01 00 01 02 68 69 00 | 2 | Fields - 1 0 - Str 1 2 0 hi | 02 02 68 69 00
0 and -0.0 as a complex number, and a float of 0 | 83 | 01 00 ff 80 01 00 00 | 2 | Fields - 1 0 - Complex 0 0 \
    9223372036854775808 - | 01 00 ff 80 00
";

// The tidy form of the body's tape; none where the body goes on behind its bytes.
fn tidied(alloc: Global, table: &Table, body: &Body) -> Result<Option<Tape>, Stop> {
    let mut reader: BodyReader<TapeBuilder> = reader(alloc, table, body)?;
    match reader.push(alloc, table, &body.bytes)? {
        Progress::Done { out, used: _ } => {
            Ok(Some(tidy_tape(alloc, table, TypeId(body.id), &out)?))
        }
        Progress::More => Ok(None),
    }
}

// Whether the tape has the row's depth, parts and bytes.
fn is_due(alloc: Global, body: &Body, row: &str, tape: &Tape) -> Result<bool, Memory> {
    let due = bytes_of(alloc, part(row, 5))?;
    Ok(
        body.due.as_slice() == [tape.depth()].as_slice()
            && are_parts(alloc, tape, part(row, 4))?
            && is_spelled_tape(alloc, tape, &due)?,
    )
}

/// Whether the tape of the row's body has the row's tidy form.
pub(crate) fn is_tidied(
    alloc: Global,
    table: &Table,
    body: &Body,
    row: &str,
) -> Result<bool, Memory> {
    match tidied(alloc, table, body) {
        Ok(Some(tape)) => is_due(alloc, body, row, &tape),
        Err(Stop::Memory) => Err(Memory),
        _ => Ok(false),
    }
}
