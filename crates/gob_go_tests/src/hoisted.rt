//! Items that are hoisted: by hand, and those of Go's streams.

use crate::putting::{items_of, put_all};
use gob_go::{Filled, GoItem};
use gob_go_writer::{PutFault, hoist_item};
use gob_num::Memory;
use gob_stream::Limits;
use gob_test_rows::{bytes_of, part};
use std::alloc::Global;

// What, a stream, and the stream of its items as they are hoisted, worked out by hand. An empty line stands between two
// rows.
const HOISTED: &str = "
a type defined in front of what is held | 15 10 00 08 2a 62 69 67 2e 49 6e 74 ff 81 05 01 02 ff 84 00 00 00
07 ff 82 04 00 02 02 05 | 0a ff 81 05 01 02 ff 84 00 00 00 12 10 00 08 2a 62 69 67 2e 49 6e 74 ff 82 04 00 02 02 05

types defined in what is held, too | 25 ff 81 03 01 01 05 4f 75 74 65 72 01 ff 82 00 01 03 01 01 4e 01 04 00 01 01
49 01 10 00 01 01 4d 01 04 00 00 00 33 ff 82 01 02 01 09 6d 61 69 6e 2e 57 72 61 70 ff 83 03 01 01 04 57 72 61 70 01
ff 84 00 01 03 01 01 4e 01 04 00 01 01 49 01 10 00 01 01 53 01 0c 00 00 00 34 ff 84 23 01 04 01 08 6d 61 69 6e 2e 52
65 67 ff 85 03 01 01 03 52 65 67 01 ff 86 00 01 01 01 01 41 01 04 00 00 00 0a ff 86 03 01 06 00 01 01 73 00 01 08
00 | 25 ff 81 03 01 01 05 4f 75 74 65 72 01 ff 82 00 01 03 01 01 4e 01 04 00 01 01 49 01 10 00 01 01 4d 01 04 00 00
00 24 ff 83 03 01 01 04 57 72 61 70 01 ff 84 00 01 03 01 01 4e 01 04 00 01 01 49 01 10 00 01 01 53 01 0c 00 00 00 17
ff 85 03 01 01 03 52 65 67 01 ff 86 00 01 01 01 01 41 01 04 00 00 00 2b ff 82 01 02 01 09 6d 61 69 6e 2e 57 72 61 70
ff 84 16 01 04 01 08 6d 61 69 6e 2e 52 65 67 ff 86 03 01 06 00 01 01 73 00 01 08 00

a definition that nothing there needs | 12 10 00 03 69 6e 74 ff 81 02 01 02 ff 82 00 01 04 00 00 04 04 02 00 0a
05 ff 82 00 01 06 | 0c ff 81 02 01 02 ff 82 00 01 04 00 00 0a 10 00 03 69 6e 74 04 02 00 0a 05 ff 82 00 01 06

two fillings | 0c ff 81 02 01 02 ff 82 00 01 10 00 00 10 ff 82 00 02 01 61 04 02 00 02 01 61 04 02 00
02 | 0c ff 81 02 01 02 ff 82 00 01 10 00 00 10 ff 82 00 02 01 61 04 02 00 02 01 61 04 02 00 02
";

/// The rows that were worked out by hand.
pub(crate) fn by_hand() -> &'static str {
    HOISTED
}

// The items of a stream, hoisted.
fn hoisted(alloc: Global, bytes: &[u8]) -> Result<Vec<GoItem>, Memory> {
    let mut out = Vec::new(alloc);
    for item in items_of(alloc, bytes, Limits::standard())? {
        hoist_item(alloc, item, &mut out)?;
    }
    Ok(out)
}

/// Whether the hoisted items of a row by hand have the bytes that are due.
pub(crate) fn is_hoisted(alloc: Global, row: &str) -> Result<bool, PutFault> {
    let bytes = bytes_of(alloc, part(row, 1))?;
    let due = bytes_of(alloc, part(row, 2))?;
    let again = hoisted_bytes(alloc, &bytes)?;
    Ok(again.as_slice() == due.as_slice())
}

// The bytes of the hoisted items of a stream.
fn hoisted_bytes(alloc: Global, bytes: &[u8]) -> Result<Vec<u8>, PutFault> {
    let items = hoisted(alloc, bytes)?;
    put_all(alloc, &items, Limits::standard())
}

// Whether a definition stands in the value.
fn defines(value: &Filled) -> bool {
    for filling in &value.fillings {
        if !filling.definitions.is_empty() || defines(&filling.value) {
            return true;
        }
    }
    false
}

// Whether one stands in a value of the items.
fn any_defines(items: &[GoItem]) -> bool {
    for item in items {
        if let GoItem::Put { value, .. } = item {
            if defines(value) {
                return true;
            }
        }
    }
    false
}

/// Whether the hoisted items of a row are read back, as many, and no definition stands in their values.
pub(crate) fn stays_hoisted(alloc: Global, row: &str) -> Result<bool, PutFault> {
    let bytes = bytes_of(alloc, part(row, 1))?;
    let items = hoisted(alloc, &bytes)?;
    let hoisted = put_all(alloc, &items, Limits::standard())?;
    let again = items_of(alloc, &hoisted, Limits::standard())?;
    Ok(again.len() == items.len() && !any_defines(&again))
}
