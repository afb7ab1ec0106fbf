//! The tidy forms of items: what Go wrote is tidy, and rows that were worked out by hand.

use crate::putting::put_all;
use gob_go::{GoItem, GoSession};
use gob_go_writer::{PutFault, tidy_item};
use gob_num::Memory;
use gob_stream::Limits;
use gob_test_rows::{bytes_of, part};
use gob_types::Table;
use std::alloc::Global;

// What, a stream, and the stream of its items in their tidy form. Type 65 is Outer { N int, I interface, M int } where
// it isn't a list or a map, or what encodes itself; type 66 is Reg { A int }, or Outer, or a slice of it.
const ROWS: &str = "
a zero before an interface and one behind it | 25 ff 81 03 01 01 05 4f 75 74 65 72 01 ff 82 00 01 03 01 01 4e 01 04 00
01 01 49 01 10 00 01 01 4d 01 04 00 00 00 10 ff 82 01 00 01 03 69 6e 74 04 02 00 06 01 00 00 | 25 ff 81 03 01 01 05 4f
75 74 65 72 01 ff 82 00 01 03 01 01 4e 01 04 00 01 01 49 01 10 00 01 01 4d 01 04 00 00 00 0c ff 82 02 03 69 6e 74 04
02 00 06 00

an int of 0 held | 0a 10 00 03 69 6e 74 04 02 00 00 | 0a 10 00 03 69 6e 74 04 02 00 00

a zero in what an element holds, behind nil | 0c ff 81 02 01 02 ff 82 00 01 10 00 00 17 ff 83 03 01 01 03 52 65 67 01
ff 84 00 01 01 01 01 41 01 04 00 00 00 0d ff 82 00 02 00 01 61 ff 84 03 01 00 00 | 0c ff 81 02 01 02 ff 82 00 01 10 00
00 17 ff 83 03 01 01 03 52 65 67 01 ff 84 00 01 01 01 01 41 01 04 00 00 00 0b ff 82 00 02 00 01 61 ff 84 01 00

a zero in what an entry of a map holds, behind nil | 0e ff 81 04 01 02 ff 82 00 01 0c 01 10 00 00 17 ff 83 03 01 01 03
52 65 67 01 ff 84 00 01 01 01 01 41 01 04 00 00 00 11 ff 82 00 02 01 61 00 01 62 01 61 ff 84 03 01 00 00 | 0e ff 81 04
01 02 ff 82 00 01 0c 01 10 00 00 17 ff 83 03 01 01 03 52 65 67 01 ff 84 00 01 01 01 01 41 01 04 00 00 00 0f ff 82 00
02 01 61 00 01 62 01 61 ff 84 01 00

zeros at two levels, where an element holds a struct that holds a struct | 0c ff 81 02 01 02 ff 82 00 01 10 00 00 25 ff
83 03 01 01 05 4f 75 74 65 72 01 ff 84 00 01 03 01 01 4e 01 04 00 01 01 49 01 10 00 01 01 4d 01 04 00 00 00 1a ff 82
00 02 01 61 ff 84 10 01 00 01 01 62 ff 84 05 01 00 02 04 00 01 04 00 00 | 0c ff 81 02 01 02 ff 82 00 01 10 00 00 25 ff
83 03 01 01 05 4f 75 74 65 72 01 ff 84 00 01 03 01 01 4e 01 04 00 01 01 49 01 10 00 01 01 4d 01 04 00 00 00 16 ff 82
00 02 01 61 ff 84 0c 02 01 62 ff 84 03 03 04 00 01 04 00 00

a zero in each of two segments | 25 ff 81 03 01 01 05 4f 75 74 65 72 01 ff 82 00 01 03 01 01 4e 01 04 00 01 01 49 01 10
00 01 01 4d 01 04 00 00 00 1e ff 82 01 00 01 01 61 ff 83 03 01 01 03 52 65 67 01 ff 84 00 01 01 01 01 41 01 04 00 00 00
07 ff 84 03 01 00 00 00 | 25 ff 81 03 01 01 05 4f 75 74 65 72 01 ff 82 00 01 03 01 01 4e 01 04 00 01 01 49 01 10 00 01
01 4d 01 04 00 00 00 1c ff 82 02 01 61 ff 83 03 01 01 03 52 65 67 01 ff 84 00 01 01 01 01 41 01 04 00 00 00 05 ff 84 01
00 00

zeros in two elements whose interfaces hold ints | 25 ff 81 03 01 01 05 4f 75 74 65 72 01 ff 82 00 01 03 01 01 4e 01 04
00 01 01 49 01 10 00 01 01 4d 01 04 00 00 00 0d ff 83 02 01 02 ff 84 00 01 ff 82 00 00 1a ff 84 00 02 01 00 01 01 61 04
02 00 00 00 01 00 01 01 62 04 02 00 04 01 06 00 | 25 ff 81 03 01 01 05 4f 75 74 65 72 01 ff 82 00 01 03 01 01 4e 01 04
00 01 01 49 01 10 00 01 01 4d 01 04 00 00 00 0d ff 83 02 01 02 ff 84 00 01 ff 82 00 00 16 ff 84 00 02 02 01 61 04 02 00
00 00 02 01 62 04 02 00 04 01 06 00

an empty name in a description | 0e ff 81 02 01 01 00 01 ff 82 00 01 10 00 00 04 ff 82 00 00 | 0c ff 81 02 01 02 ff 82
00 01 10 00 00 04 ff 82 00 00

an empty name in the description of what an interface holds, which says a higher id | 10 10 00 01 61 ff 81 05 01 01 00
01 ff 84 00 00 00 06 ff 82 03 00 01 78 | 0e 10 00 01 61 ff 81 05 01 02 ff 84 00 00 00 06 ff 82 03 00 01 78
";

/// The rows that were worked out by hand.
pub(crate) fn by_hand() -> &'static str {
    ROWS
}

// Gives each of the items its tidy form.
fn tidy_all(alloc: Global, table: &Table, items: &mut [GoItem]) -> Result<(), Memory> {
    for item in items {
        tidy_item(alloc, table, item)?;
    }
    Ok(())
}

// The items of a stream, tidied and written.
fn tidied(alloc: Global, bytes: &[u8]) -> Result<Vec<u8>, PutFault> {
    let mut session = GoSession::new(alloc, Limits::standard())?;
    let mut items = Vec::new(alloc);
    let _ = session.feed(alloc, bytes, &mut items);
    tidy_all(alloc, session.table(), items.as_mut_slice())?;
    put_all(alloc, &items, Limits::standard())
}

// Whether the tidy form of these bytes are those.
fn becomes(alloc: Global, bytes: &[u8], due: &[u8]) -> Result<bool, PutFault> {
    Ok(tidied(alloc, bytes)?.as_slice() == due)
}

/// Whether the stream of a row is tidy.
pub(crate) fn is_tidy(alloc: Global, row: &str) -> Result<bool, PutFault> {
    let bytes = bytes_of(alloc, part(row, 1))?;
    becomes(alloc, &bytes, &bytes)
}

/// Whether the tidy form of the stream of a row by hand is the stream that is due.
pub(crate) fn is_tidied(alloc: Global, row: &str) -> Result<bool, PutFault> {
    let bytes = bytes_of(alloc, part(row, 1))?;
    let due = bytes_of(alloc, part(row, 2))?;
    becomes(alloc, &bytes, &due)
}
