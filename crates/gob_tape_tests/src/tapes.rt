//! Tapes of bodies of each shape, and of slices in slices.

use crate::views::are_parts;
use gob_num::Memory;
use gob_tape::Tape;
use gob_test_rows::{Body, is_spelled};
use gob_types::{Table, TypeId};
use std::alloc::Global;

/// What, its type, the body, its depth and its parts.
pub(crate) const ROWS: &str = "
an int | 2 | 00 06 | 1 | Int - 6 0 -
a float | 4 | 00 fe 31 40 | 1 | Float - 4625478292286210048 0 -
no bytes | 5 | 00 00 | 1 | Bytes - 0 0 -
a text | 6 | 00 05 68 65 6c 6c 6f | 1 | Str - 5 0 hello
a complex number | 7 | 00 fe f0 3f 40 | 1 | Complex - 4607182418800017408 4611686018427387904 -
nil | 8 | 00 00 | 1 | Nil - 0 0 -
an opaque value | 73 | 00 04 61 62 63 64 | 1 | Opaque - 4 0 abcd
X 22, Y 33 | 65 | 01 2c 01 42 00 | 2 | Fields - 2 0 - Int 0 44 0 - Int 1 66 0 -
Y 33 | 65 | 02 42 00 | 2 | Fields - 1 0 - Int 1 66 0 -
a struct with no field | 65 | 00 | 1 | Fields - 0 0 -
V 1, Next (V 2) | 66 | 01 02 01 01 04 00 00 | 3 | Fields - 2 0 - Int 0 2 0 - Fields 1 1 0 - Int 0 4 0 -
an empty slice of itself | 67 | 00 00 | 1 | Many - 0 0 -
two slices in a slice | 67 | 00 02 00 01 00 | 3 | Many - 2 0 - Many - 0 0 - Many - 1 0 - Many - 0 0 -
an int and an empty slice | 68 | 01 02 01 00 00 | 2 | Fields - 2 0 - Int 0 2 0 - Many 1 0 0 -
a map with a key twice | 69 | 00 02 01 61 02 01 61 04 | 2 | Pairs - 2 0 - Str - 1 0 a Int - 2 0 - Str - 1 0 a Int - 4 \
    0 -
maps in a map | 70 | 00 02 01 61 00 01 62 01 01 63 06 | 3 | Pairs - 2 0 - Str - 1 0 a Pairs - 0 0 - Str - 1 0 b Pairs \
    - 1 0 - Str - 1 0 c Int - 6 0 -
structs with no field | 72 | 00 02 00 00 | 2 | Many - 2 0 - Fields - 0 0 - Fields - 0 0 -
a field of each kind | 74 | 01 01 01 06 01 07 01 fe 31 40 01 01 41 01 02 68 69 01 fe f0 3f 40 01 00 01 01 00 01 01 01 \
    61 02 01 01 42 01 02 01 00 00 | 3 | Fields - 12 0 - Bool 0 1 0 - Int 1 6 0 - Uint 2 7 0 - Float 3 \
    4625478292286210048 0 - Bytes 4 1 0 A Str 5 2 0 hi Complex 6 4607182418800017408 4611686018427387904 - Nil 7 0 0 \
    - Many 8 1 0 - Pairs 9 1 0 - Opaque 10 1 0 B Fields 11 1 0 - Many - 0 0 - Str - 1 0 a Int - 2 0 - Int 1 1 0 -
";

/// Slices in slices, as deep as tapes are made, and one deeper: the body, and its depth or the refusal. The tag is one
/// byte, and each slice but the last begins with one byte more.
pub(crate) const DEEP: &str = "
2000 deep | 67 2001 18446744073709551615 | 00 01*1999 00 | 2000
65536 deep | 67 65537 18446744073709551615 | 00 01*65535 00 | 65536
65537 deep | 67 65538 18446744073709551615 | 00 01*65536 00 | 17 65537 65537
";

/// Whether these bytes are appended. Where memory lacks nothing is.
pub(crate) fn is_spelled_tape(alloc: Global, tape: &Tape, due: &[u8]) -> Result<bool, Memory> {
    let mut out = vec![in alloc; 7u8]?;
    match tape.spell_tape(alloc, &mut out) {
        Ok(()) => Ok(out.split_first() == Some((&7, due))),
        Err(_) if out.len() == 1 => Err(Memory),
        Err(_) => Ok(false),
    }
}

/// Whether the tape is as deep as is due, and is spelled as the body.
pub(crate) fn is_deep(alloc: Global, body: &Body, tape: &Tape) -> Result<bool, Memory> {
    Ok(
        body.due.as_slice() == [tape.depth()].as_slice()
            && is_spelled_tape(alloc, tape, body.untagged())?,
    )
}

// Whether the tape's value has the body's spelling.
fn is_value(alloc: Global, table: &Table, body: &Body, tape: &Tape) -> Result<bool, Memory> {
    if tape.depth() > 1000 {
        return Ok(false);
    }
    let value = tape.to_value(alloc)?;
    is_spelled(alloc, table, TypeId(body.id), &value, 1000, body.untagged())
}

/// Whether the tape has these parts, and the body's depth, bytes and value.
pub(crate) fn is_right(
    alloc: Global,
    table: &Table,
    body: &Body,
    parts: &str,
    tape: &Tape,
) -> Result<bool, Memory> {
    Ok(
        is_deep(alloc, body, tape)?
            && are_parts(alloc, tape, parts)?
            && is_value(alloc, table, body, tape)?,
    )
}
