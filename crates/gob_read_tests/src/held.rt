//! How much is held of a body under way.

ghost use Rattle.std.specs.Prelude.{OnOk};
ghost use Rattle.gob_types.specs.Defined.{types};
ghost use Rattle.gob_read.specs.Calls.UnderWay.{FitsTable};

use gob_num::Memory;
use gob_read::{BodyReader, Builder, CheckBuilder, SkipBuilder, Stop, TreeBuilder};
use gob_test_rows::{Body, number, reader};
use gob_types::Table;
use std::alloc::Global;

/// What, its type, the body, and what is held after each of its bytes by a builder of trees and by one that counts:
/// each part from its first byte on, the tag being in none, and by trees each raw byte. With the last byte the reader
/// ends: it has the value, or refuses the body.
pub(crate) const ROWS: &str = "
a complex number | 7 | 00 fe 31 40 fe f0 3f | 0 1 1 1 1 1 0 | 0 1 1 1 1 1 0
a text | 6 | 00 05 68 65 6c 6c 6f | 0 1 2 3 4 5 0 | 0 1 1 1 1 1 0
a text of as many as may be | 6 10 | 00 f8 ff ff ff ff ff ff ff ff | 0 1 1 1 1 1 1 1 1 0 | 0 1 1 1 1 1 1 1 1 0
V 1, Next (V 2, Next (no field)) | 66 | 01 02 01 01 04 01 00 00 00 | 1 2 2 3 4 4 5 5 0 | 1 2 2 3 4 4 5 5 0
slices in slices | 68 | 00 01 01 01 01 01 01 02 00 00 | 0 1 2 3 4 5 6 7 8 0 | 0 1 2 3 4 5 6 7 8 0
a map with a key twice | 69 | 00 02 01 61 02 01 61 04 | 0 1 2 3 4 5 6 0 | 0 1 2 2 3 4 4 0
a field of each kind | 73 | 01 01 01 05 01 07 01 fe 31 40 01 02 67 6f 01 00 01 fe 31 40 00 01 00 01 02 00 09 01 02 01 \
    61 02 01 61 04 01 01 78 01 03 00 00 00 | 1 2 2 3 3 4 4 5 5 5 5 6 7 8 8 9 9 10 10 10 10 10 11 11 12 13 14 14 15 16 \
    17 18 19 20 21 21 22 23 23 24 25 25 0 | 1 2 2 3 3 4 4 5 5 5 5 6 6 6 6 7 7 8 8 8 8 8 9 9 10 11 12 12 13 14 14 15 \
    16 16 17 17 18 18 18 19 20 20 0
";

fn held_after_each<B: Builder>(
    alloc: Global,
    table: &Table,
    reader: &mut BodyReader<B>,
    bytes: &[u8],
) -> Result<Vec<u64>, Memory>
    requires { FitsTable B.building (types table.now) reader.old }
    ensures { OnOk result (FitsTable B.building (types table.now) reader.new) }
{
    let mut held = Vec::new(alloc);
    'bytes: for byte in bytes {
        let _progress = reader.push(alloc, table, &[*byte]);
        held.push(reader.held())?;
    }
    Ok(held)
}

// Whether these are the numbers of the text, or zeros where there is no text.
fn are_numbers(numbers: &[u64], text: &str) -> bool {
    let mut words = text.split_whitespace();
    for found in numbers {
        let word = words.next().unwrap_or("");
        let due = if text.is_empty() { 0 } else { number(word, 0) };
        if *found != due {
            return false;
        }
    }
    words.next().is_none()
}

// Whether the text says what is held after each byte, and the reader has ended then.
fn is_held<B: Builder>(
    alloc: Global,
    table: &Table,
    body: &Body,
    text: &str,
) -> Result<bool, Stop> {
    let mut reader: BodyReader<B> = reader(alloc, table, body)?;
    let held = held_after_each(alloc, table, &mut reader, &body.bytes)?;
    let ended = reader.push(alloc, table, b"\x00").err() == Some(Stop::Failed);
    Ok(ended && are_numbers(&held, text))
}

// Whether the texts say what is held by builders of trees and of counts, and one that keeps nothing holds nothing.
fn are_held(
    alloc: Global,
    table: &Table,
    body: &Body,
    by_trees: &str,
    by_counts: &str,
) -> Result<bool, Stop> {
    Ok(
        is_held::<TreeBuilder>(alloc, table, body, by_trees)?
            && is_held::<CheckBuilder>(alloc, table, body, by_counts)?
            && is_held::<SkipBuilder>(alloc, table, body, "")?,
    )
}

/// Whether that is so, where there is memory for it.
pub(crate) fn is_right(
    alloc: Global,
    table: &Table,
    body: &Body,
    by_trees: &str,
    by_counts: &str,
) -> Result<bool, Memory> {
    match are_held(alloc, table, body, by_trees, by_counts) {
        Ok(are_held) => Ok(are_held),
        Err(Stop::Memory) => Err(Memory),
        Err(_) => Ok(false),
    }
}
