//! The documented values of basic types and one of a struct, and their bytes.

use crate::devices::{Device, Small, Wrong};
use gob_num::Memory;
use gob_stream::{Limits, Output, StreamWriter, WriteFault};
use gob_test_rows::Row;
use gob_types::{Table, TypeId};
use gob_value::{Value, spell};
use std::alloc::Global;
use std::io::Write;

/// What, the type of the value, the value, and the bytes of its stream.
pub(crate) const VALUES: &str = "
true | 1 | true | 03 02 00 01
3 | 2 | 3 | 03 04 00 06
the least int | 2 | -9223372036854775808 | 0b 04 00 f8 ff ff ff ff ff ff ff ff
7, a uint | 3 | uint:7 | 03 06 00 07
17.0 | 4 | float:4031000000000000 | 05 08 00 fe 31 40
bytes | 5 | bytes:00,ff | 05 0a 00 02 00 ff
text that is no UTF-8 | 6 | str:ff | 04 0c 00 01 ff
17.0 and 0.0 | 7 | complex:4031000000000000,0 | 06 0e 00 fe 31 40 00
a CommonType, Name Point, Id 65 | 18 | 'Point 65 fields:0,1 | 0c 24 01 05 50 6f 69 6e 74 01 ff 82 00
";

/// Two of them, of which one has a tag: each allocation of their writing by the spelling is refused.
pub(crate) const SPELLED: &str = "
17.0 and 0.0 | 7 | complex:4031000000000000,0 | 06 0e 00 fe 31 40 00
a CommonType, Name Point, Id 65 | 18 | 'Point 65 fields:0,1 | 0c 24 01 05 50 6f 69 6e 74 01 ff 82 00
";

// Writes a stream of one value.
fn put_one(alloc: Global, small: &mut Small, id: u64, value: &Value) -> Result<(), WriteFault> {
    let mut output = Output::new(small);
    let mut writer = StreamWriter::new(alloc, Limits::standard())?;
    writer.put(alloc, &mut output, TypeId(id), value)
}

// Writes a stream of one value by its spelling.
fn put_spelled<W: Write>(
    alloc: Global,
    output: &mut Output<W>,
    id: u64,
    value: &Value,
) -> Result<(), WriteFault> {
    let table = Table::new(alloc, 0)?;
    let mut spelling = Vec::new(alloc);
    spell(alloc, &table, TypeId(id), value, 1000, &mut spelling)?;
    let mut writer = StreamWriter::new(alloc, Limits::standard())?;
    writer.put_spelled(alloc, output, TypeId(id), &spelling)
}

// Whether these bytes were written, or none for want of memory.
fn is_right(answer: Result<(), WriteFault>, small: &Small, bytes: &[u8]) -> Result<bool, Memory> {
    match answer {
        Ok(()) => Ok(small.taken() == bytes),
        Err(WriteFault::Memory) if small.taken().is_empty() => Err(Memory),
        Err(_) => Ok(false),
    }
}

/// Whether the row's value is written as its bytes. Nothing is written for want of memory.
pub(crate) fn is_written(alloc: Global, row: &Row) -> Result<bool, Memory> {
    let mut small = Small::new();
    let answer = put_one(alloc, &mut small, row.number(0), &row.value);
    is_right(answer, &small, &row.bytes)
}

/// Whether it is so by its spelling.
pub(crate) fn is_written_spelled(alloc: Global, row: &Row) -> Result<bool, Memory> {
    let mut small = Small::new();
    let answer = put_spelled(
        alloc,
        &mut Output::new(&mut small),
        row.number(0),
        &row.value,
    );
    is_right(answer, &small, &row.bytes)
}

// Whether the writing of the row's value by its spelling, a byte at a time, ends with the write behind so many of its
// bytes, which goes wrong so and is counted. None goes wrong behind all of them.
fn is_cut(alloc: Global, row: &Row, out: usize, wrong: Wrong) -> bool {
    let mut device = Device::slow(alloc, (out as u64).saturating_add(1), wrong);
    let mut output = Output::new(&mut device);
    let answer = put_spelled(alloc, &mut output, row.number(0), &row.value);
    let failures = output.failures();
    let is_told = if out < row.bytes.len() {
        answer == Err(WriteFault::Write) && failures == 1
    } else {
        answer.is_ok() && failures == 0
    };
    is_told && row.bytes.get(..out) == Some(device.taken.as_slice())
}

/// Whether it ends so behind each number of bytes, of all of them too.
pub(crate) fn is_cut_anywhere(alloc: Global, row: &Row, wrong: Wrong) -> bool {
    for out in 0..=row.bytes.len() {
        if !is_cut(alloc, row, out, wrong) {
            return false;
        }
    }
    true
}
