//! Bodies of each shape, whole and in pieces, bodies that are refused, and slices in slices.

use gob_num::Memory;
use gob_read::{CheckBuilder, Counts, SkipBuilder, TreeBuilder};
use gob_test_rows::{Body, is_refusal, is_spelled, read};
use gob_types::{Table, TypeId};
use std::alloc::Global;

/// What, its type, the body, and its parts and raw bytes.
pub(crate) const ACCEPTED: &str = "
true | 1 | 00 01 | 1 0
3 | 2 | 00 06 | 1 0
-129 | 2 | 00 fe 01 01 | 1 0
the greatest uint | 3 | 00 f8 ff ff ff ff ff ff ff ff | 1 0
17.0 | 4 | 00 fe 31 40 | 1 0
no bytes | 5 | 00 00 | 1 0
bytes | 5 | 00 03 00 ff 80 | 1 3
a text | 6 | 00 05 68 65 6c 6c 6f | 1 5
17.0 and 0.0 | 7 | 00 fe 31 40 00 | 1 0
1.0 and 2.0 | 7 | 00 fe f0 3f 40 | 1 0
nil | 8 | 00 00 | 1 0
X 22, Y 33 | 65 | 01 2c 01 42 00 | 3 0
Y 33 | 65 | 02 42 00 | 2 0
a struct with no field | 65 | 00 | 1 0
V 1, Next (V 2, Next (no field)) | 66 | 01 02 01 01 04 01 00 00 00 | 5 0
Next (Next (Next (no field))) | 66 | 02 02 02 00 00 00 00 | 4 0
V 1, Next (V 2, Next (V 3)) | 66 | 01 02 01 01 04 01 01 06 00 00 00 | 6 0
an array of 2 ints | 67 | 00 02 02 04 | 3 0
an empty slice of itself | 68 | 00 00 | 1 0
two slices in a slice | 68 | 00 02 00 01 00 | 4 0
slices in slices, ten deep | 68 | 00 01 01 01 01 01 01 01 01 02 00 00 | 11 0
an empty map | 69 | 00 00 | 1 0
a map with a key twice | 69 | 00 02 01 61 02 01 61 04 | 5 2
keys of 5 bytes and of 1 | 69 | 00 02 05 68 65 6c 6c 6f 02 01 61 04 | 5 6
an opaque value | 70 | 00 04 01 02 03 04 | 1 4
a map from slices to structs | 71 | 00 02 01 00 01 02 00 00 00 | 7 0
a map from an empty slice to a struct | 71 | 00 01 00 01 02 01 04 00 | 5 0
a field of each kind | 73 | 01 01 01 05 01 07 01 fe 31 40 01 02 67 6f 01 00 01 fe 31 40 00 01 00 01 02 00 09 01 02 01 \
    61 02 01 61 04 01 01 78 01 03 00 00 00 | 20 5
";

/// What, its type, announced length and greatest depth, the bytes that come, and the refusal: its number, place and
/// seen.
pub(crate) const REFUSED: &str = "
no body | 2 0 1000 |  | 5 0 0
a tag alone | 2 1 1000 | 00 | 5 1 1
a number cut off | 2 3 1000 | 00 fe 01 | 5 3 3
a tag of 2 | 2 2 1000 | 04 06 | 12 0 1
a tag of 128 | 2 3 1000 | ff 80 06 | 12 0 2
a bad head as the tag | 2 2 1000 | 80 06 | 1 0 1
a bad head | 2 2 1000 | 00 80 | 1 1 2
127 in two bytes | 2 3 1000 | 00 ff 7f | 2 1 3
a first byte of 0 | 2 3 1000 | 00 fe 00 | 2 1 3
bytes behind a value | 2 3 1000 | 00 06 00 | 6 2 2
announced behind a value | 2 3 1000 | 00 06 | 6 2 2
a bool of 2 | 1 2 1000 | 00 02 | 13 1 2
a bool of 128 | 1 3 1000 | 00 ff 80 | 13 1 3
a bool cut off | 1 2 1000 | 00 ff | 5 2 2
a value of an interface | 8 2 1000 | 00 01 | 16 1 2
an array of 2 with 3 | 67 4 1000 | 00 03 02 04 | 14 1 2
no such field | 65 3 1000 | 03 02 00 | 15 0 1
no such field behind another | 65 5 1000 | 01 2c 02 42 00 | 15 2 3
a delta beyond all fields | 65 12 1000 | 01 2c f8 ff ff ff ff ff ff ff ff 00 | 15 2 11
a struct cut off | 65 4 1000 | 01 2c 01 42 | 5 4 4
a struct at no depth for it | 65 2 0 | 01 2c | 17 0 0
an int at no depth for it | 2 2 0 | 00 06 | 17 1 1
a slice, too deep | 68 4 2 | 00 01 01 00 | 17 3 3
a slice, too deep, where the body ends | 68 3 2 | 00 01 01 | 17 3 3
a field, too deep | 65 5 1 | 01 2c 01 42 00 | 17 1 1
a key, too deep | 69 5 1 | 00 01 01 61 02 | 17 2 2
a slice in a key, too deep | 71 9 2 | 00 01 00 01 02 01 04 00 | 17 4 4
Next in Next, too deep | 66 6 2 | 02 02 02 00 00 00 | 17 2 2
a map of as many as may be | 69 11 1000 | 00 f8 ff ff ff ff ff ff ff ff 01 | 5 11 11
a text of as many as may be | 6 10 1000 | 00 f8 ff ff ff ff ff ff ff ff | 5 10 10
a text cut off | 6 7 1000 | 00 06 68 65 6c 6c 6f | 5 7 7
bytes cut off | 5 6 1000 | 00 05 68 65 6c 6c | 5 6 6
";

/// Slices in slices, as deep as a builder of counts takes them, and one deeper: the body, and its parts and raw bytes,
/// or the refusal. The tag is one byte, and each slice but the last begins with one byte more.
pub(crate) const COUNTED: &str = "
2000 deep, limit 65536 | 68 2001 65536 | 00 01*1999 00 | 2000 0
65536 deep, limit 65536 | 68 65537 65536 | 00 01*65535 00 | 65536 0
65536 deep, limit 18446744073709551615 | 68 65537 18446744073709551615 | 00 01*65535 00 | 65536 0
65537 deep, limit 65536 | 68 65538 65536 | 00 01*65536 00 | 17 65537 65537
65537 deep, limit 18446744073709551615 | 68 65538 18446744073709551615 | 00 01*65536 00 | 17 65537 65537
65536 deep, limit 65535 | 68 65537 65535 | 00 01*65535 00 | 17 65536 65536
2000 deep, limit 1000 | 68 2001 1000 | 00 01*1999 00 | 17 1001 1001
2000 deep, limit 1 | 68 2001 1 | 00 01*1999 00 | 17 2 2
";

/// Those as deep as a builder of trees takes them, and one deeper.
pub(crate) const BUILT: &str = "
1000 deep, limit 1000 | 68 1001 1000 | 00 01*999 00 | 1000 0
1000 deep, limit 65536 | 68 1001 65536 | 00 01*999 00 | 1000 0
1001 deep, limit 65536 | 68 1002 65536 | 00 01*1000 00 | 17 1001 1001
65536 deep, limit 18446744073709551615 | 68 65537 18446744073709551615 | 00 01*65535 00 | 17 1001 1001
1000 deep, limit 999 | 68 1001 999 | 00 01*999 00 | 17 1000 1000
";

// The lengths of the pieces in which each body is read.
const PIECES: [usize; 3] = [1, 3, usize::MAX];

/// Whether the parts and raw bytes that are due are counted, or the refusal comes.
pub(crate) fn is_counted(
    alloc: Global,
    table: &Table,
    body: &Body,
    piece: usize,
) -> Result<bool, Memory> {
    match read::<CheckBuilder>(alloc, table, body, piece) {
        Ok(Some(Counts { nodes, raw })) => Ok(body.due.as_slice() == [nodes, raw].as_slice()),
        Ok(None) => Ok(false),
        Err(stop) => is_refusal(stop, &body.due),
    }
}

// Whether it is read with nothing kept, or the refusal comes.
fn is_skipped(alloc: Global, table: &Table, body: &Body, piece: usize) -> Result<bool, Memory> {
    match read::<SkipBuilder>(alloc, table, body, piece) {
        Ok(out) => Ok(out.is_some() && body.due.len() == 2),
        Err(stop) => is_refusal(stop, &body.due),
    }
}

/// Whether a value is built whose spelling is the body's, behind its tag, or the refusal comes.
pub(crate) fn is_built(
    alloc: Global,
    table: &Table,
    body: &Body,
    piece: usize,
) -> Result<bool, Memory> {
    let id = TypeId(body.id);
    match read::<TreeBuilder>(alloc, table, body, piece) {
        Ok(Some(value)) if body.due.len() == 2 => {
            is_spelled(alloc, table, id, &value, 1000, body.untagged())
        }
        Ok(_) => Ok(false),
        Err(stop) => is_refusal(stop, &body.due),
    }
}

/// Whether each builder reads the body, whole and in pieces, or is refused it so.
pub(crate) fn is_read(alloc: Global, table: &Table, body: &Body) -> Result<bool, Memory> {
    for piece in PIECES {
        if !is_counted(alloc, table, body, piece)?
            || !is_built(alloc, table, body, piece)?
            || !is_skipped(alloc, table, body, piece)?
        {
            return Ok(false);
        }
    }
    Ok(true)
}
