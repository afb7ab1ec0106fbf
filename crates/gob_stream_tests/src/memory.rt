//! Reading and writing where memory may be refused: the right answer, or want of memory and nothing else.

use crate::devices::Small;
use crate::reading::fed_in_two;
use gob_num::Memory;
use gob_stream::{Fault, Input, Item, Limits, Output, WriteFault, read_stream, write_stream};
use gob_test_rows::numbers;
use gob_value::Value;
use std::alloc::Global;

/// What, a stream, and where its items end.
pub(crate) const STREAMS: &str = "
an int | 03 04 00 06 | 4
a float | 05 08 00 fe 31 40 | 6
a complex number | 06 0e 00 fe 31 40 00 | 7
a text | 04 0c 00 01 ff | 5
bytes | 05 0a 00 02 00 ff | 6
a struct of two ints | POINT 07 ff 82 01 2c 01 42 00 | 32 40
two of them and an int | POINT 07 ff 82 01 2c 01 42 00 07 ff 82 01 2c 01 42 00 03 04 00 06 | 32 40 48 52
a struct that names itself | NODE 09 ff 82 01 02 01 01 04 00 00 | 35 45
a map from string to int | MAP 0a ff 82 00 02 01 61 02 01 61 04 | 15 26
a slice defined behind its struct | OUTER 0c ff 83 02 01 02 ff 84 00 01 04 00 00 07 ff 82 01 02 02 04 00 | 23 36 44
an opaque value | TIME 06 ff 82 00 02 0a 0b | 17 24
";

// Whether all of the items are there; or, for want of memory, those of the bytes that were taken, all but the last at
// most.
fn is_right(answer: Result<(), Fault>, items: usize, ends: &[u64], taken: u64) -> bool {
    let whole = ends.iter().filter(|end| **end <= taken).count();
    match answer {
        Ok(()) => items == ends.len(),
        Err(fault) => fault == Fault::Memory && items <= whole && whole <= items + 1,
    }
}

// Whether the items are written as these bytes, or a prefix of the items for want of memory.
fn are_written(alloc: Global, items: &[Item<Value>], bytes: &[u8]) -> bool {
    let mut small = Small::new();
    let answer = write_stream(
        alloc,
        &mut Output::new(&mut small),
        items,
        Limits::standard(),
    );
    let prefix = small.taken();
    match answer {
        Ok(()) => prefix == bytes,
        Err(stop) => stop.fault == WriteFault::Memory && bytes.starts_with(prefix),
    }
}

// Whether reading gives the items, or those before want of memory; and all of them are written again, or a prefix.
fn are_read(alloc: Global, bytes: &[u8], ends: &[u64]) -> bool {
    let mut input = Input::new(bytes);
    let mut items = Vec::new(alloc);
    let answer = read_stream(alloc, &mut input, Limits::standard(), &mut items);
    is_right(answer, items.len(), ends, input.taken())
        && (answer.is_err() || are_written(alloc, &items, bytes))
}

// Whether a session that is fed the bytes in two pieces gives so many items, or no more than they are before want of
// memory.
fn are_fed(alloc: Global, bytes: &[u8], ends: usize) -> bool {
    let (answer, items) = fed_in_two(alloc, bytes, bytes.len() / 2);
    items == ends || answer == Err(Fault::Memory) && items <= ends
}

/// Whether the items that end there are read of the bytes and written again, and a session gives them.
pub(crate) fn is_had(alloc: Global, bytes: &[u8], ends: &str) -> Result<bool, Memory> {
    let ends = numbers(alloc, ends)?;
    Ok(are_read(alloc, bytes, &ends) && are_fed(alloc, bytes, ends.len()))
}
