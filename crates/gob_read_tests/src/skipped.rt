//! Lists and maps of which parts stand whole in a piece. A reader that goes over these answers as one that counts them.

use gob_num::Memory;
use gob_read::{BodyReader, Builder, CheckBuilder, Progress, SkipBuilder, Stop};
use gob_test_rows::{Body, is_refusal, reader};
use gob_types::Table;
use std::alloc::Global;

/// What, its type, announced length and greatest depth, the bytes that come, and the refusal, if there is one: its
/// number, place and seen.
pub(crate) const ROWS: &str = "
an empty slice of structs | 74 | 00 00
three structs | 74 | 00 03 01 2c 01 42 00 02 42 00 01 02 01 04 00
structs, some with no field | 74 | 00 05 00 00 01 fe 01 00 00 00 00
a third struct with no such field | 74 16 1000 | 00 04 01 2c 01 42 00 02 42 00 01 02 03 02 00 00 | 15 12 13
a third struct with a bad number | 74 16 1000 | 00 04 01 2c 01 42 00 02 42 00 01 ff 7f 02 00 00 | 2 11 13
structs as deep as may be | 74 10 3 | 00 02 01 2c 01 42 00 02 42 00
fields of structs, too deep | 74 10 2 | 00 02 01 2c 01 42 00 02 42 00 | 17 3 3
a field of the third struct, too deep | 74 7 2 | 00 03 00 00 02 42 00 | 17 5 5
two structs, of which one comes | 74 7 1000 | 00 02 01 2c 01 42 00 | 5 7 7
a struct cut off | 74 6 1000 | 00 02 01 2c 01 42 | 5 6 6
bytes behind the slice | 74 8 1000 | 00 01 01 2c 01 42 00 00 | 6 7 7
a struct of X and one of Y | 74 8 1000 | 00 02 01 2c 00 02 42 00
uints | 72 | 00 04 01 02 fe 01 00 04
uints with a bad number | 72 7 1000 | 00 04 01 02 ff 7f 04 | 2 4 6
uints, too deep | 72 4 1 | 00 02 01 02 | 17 2 2
ints of an array, too deep | 67 4 1 | 00 02 01 02 | 17 2 2
an array of 2 ints | 67 | 00 02 01 02
slices in slices | 68 | 00 03 00 02 00 01 00 01 00
slices in slices, too deep | 68 9 2 | 00 03 00 02 00 01 00 01 00 | 17 4 4
a map from text to int | 69 | 00 03 01 61 02 01 62 04 01 63 06
a map with an empty key | 69 | 00 03 00 02 02 62 62 04 01 63 06
a map, too deep | 69 11 1 | 00 03 01 61 02 01 62 04 01 63 06 | 17 2 2
a map with a bad number | 69 11 1000 | 00 03 01 61 02 01 62 80 01 63 06 | 1 7 8
a map from slices to structs | 71 | 00 03 01 00 01 02 00 00 00 02 00 00 02 42 00
keys as deep as may be | 71 9 3 | 00 02 01 00 01 02 00 00 00
a slice in a key, too deep | 71 9 2 | 00 02 01 00 01 02 00 00 00 | 17 3 3
an element with no such field | 71 9 1000 | 00 02 00 03 02 00 00 00 | 15 3 4
";

// Whether the body, in two pieces of which the second begins at this place, is whole with them.
fn read_cut<B: Builder>(
    alloc: Global,
    table: &Table,
    body: &Body,
    at: usize,
) -> Result<bool, Stop> {
    let mut reader: BodyReader<B> = reader(alloc, table, body)?;
    let bytes = body.bytes.as_slice();
    let (first, second) = bytes.split_at(at.min(bytes.len()));
    match reader.push(alloc, table, first)? {
        Progress::More => {}
        Progress::Done { out: _, used: _ } => return Ok(second.is_empty()),
    }
    match reader.push(alloc, table, second)? {
        Progress::More => Ok(false),
        Progress::Done { out: _, used } => Ok(used == second.len()),
    }
}

// Whether the body, cut there, is answered as is due.
fn is_answered<B: Builder>(
    alloc: Global,
    table: &Table,
    body: &Body,
    at: usize,
) -> Result<bool, Memory> {
    match read_cut::<B>(alloc, table, body, at) {
        Ok(is_whole) => Ok(is_whole && body.due.is_empty()),
        Err(stop) => is_refusal(stop, &body.due),
    }
}

/// Whether both builders answer so, wherever the body is cut.
pub(crate) fn is_skipped(alloc: Global, table: &Table, body: &Body) -> Result<bool, Memory> {
    for at in 0..=body.bytes.len() {
        if !is_answered::<SkipBuilder>(alloc, table, body, at)?
            || !is_answered::<CheckBuilder>(alloc, table, body, at)?
        {
            return Ok(false);
        }
    }
    Ok(true)
}
