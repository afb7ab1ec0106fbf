//! Readers over inputs that give little at a time, and what comes of them.

use crate::rows::limits_of;
use crate::sessions::{is_outcome, is_within};
use gob_go::GoReader;
use gob_go_writer::PutFault;
use gob_num::Memory;
use gob_stream::{Fault, Input, Limits};
use gob_test_rows::{bytes_of, number, part};
use std::alloc::Global;
use std::io;
use std::io::Read;
use std::test::*;

// An input that gives no more than so many bytes a call.
#[derive(Drop)]
struct Pieces<'a> {
    bytes: &'a [u8],
    most: usize,
}

impl<'a> Pieces<'a> {
    // Before its first call.
    fn new(bytes: &'a [u8], most: usize) -> Pieces<'a> {
        Pieces { bytes, most }
    }
}

impl<'a> Read for Pieces<'a> {
    fn read(&mut self, buf: &mut [u8]) -> io::Result<usize> {
        let few = self.most.min(buf.len());
        self.bytes.read(&mut buf[..few])
    }
}

/// How many items came.
#[derive(Clone, Copy)]
pub(crate) struct Counted {
    /// How many items.
    pub(crate) items: u64,
    /// How many of them were passed as they stood there.
    pub(crate) passed: u64,
    /// What is answered up to the end of the input.
    pub(crate) answer: Result<(), Fault>,
}

/// Reads the bytes with a new reader, over an input that gives no more than so many a call.
pub(crate) fn count(
    alloc: Global,
    bytes: &[u8],
    limits: Limits,
    most: usize,
) -> Result<Counted, Memory> {
    let mut reader = GoReader::new(alloc, limits)?;
    let mut input = Input::new(Pieces::new(bytes, most));
    let mut counted = Counted {
        items: 0,
        passed: 0,
        answer: Ok(()),
    };
    counted.answer = count_all(alloc, &mut reader, &mut input, bytes.len(), &mut counted);
    Ok(counted)
}

// Counts what comes up to the end of the input, which has so many bytes.
fn count_all<R: Read>(
    alloc: Global,
    reader: &mut GoReader,
    input: &mut Input<R>,
    bytes: usize,
    counted: &mut Counted,
) -> Result<(), Fault> {
    for _ in 0..=bytes {
        if !count_next(alloc, reader, input, counted)? {
            return Ok(());
        }
    }
    Ok(())
}

// Counts what waits in front, once an item or a piece does. False at the end of the input.
fn count_next<R: Read>(
    alloc: Global,
    reader: &mut GoReader,
    input: &mut Input<R>,
    counted: &mut Counted,
) -> Result<bool, Fault> {
    if !reader.fill(input)? {
        return Ok(false);
    }
    let passed = reader.pass_values();
    counted.items = counted.items.saturating_add(passed.items);
    counted.passed = counted.passed.saturating_add(passed.items);
    if passed.items == 0 && reader.waiting() > 0 {
        let step = reader.step(alloc)?;
        let items = if step.item.is_some() { 1 } else { 0 };
        counted.items = counted.items.saturating_add(items);
    }
    Ok(true)
}

/// Whether a reader over pieces of this length gives what a row says.
pub(crate) fn is_read(alloc: Global, row: &str, length: usize) -> Result<bool, PutFault> {
    let bytes = bytes_of(alloc, part(row, 1))?;
    let counted = count(alloc, &bytes, limits_of(row), length)?;
    let items = counted.items as usize;
    Ok(is_outcome(alloc, part(row, 2), items, counted.answer))
}

/// Whether a reader over pieces of seven bytes gives the items of the row, or no more than they are before want of
/// memory.
pub(crate) fn is_read_within(alloc: Global, row: &str) -> Result<bool, PutFault> {
    let bytes = bytes_of(alloc, part(row, 1))?;
    let counted = count(alloc, &bytes, Limits::standard(), 7)?;
    Ok(is_within(counted.answer, counted.items, number(part(row, 2), 0)))
}

// What Go wrote of Pair{1, "x"}, Box{Pair{2, "y"}}, Box{Box{Pair{3, "z"}}}, Box{nil}, []any{7, Pair{1, "q"}, nil,
// Box{1.5}}, map[string]any{"k": Pair{1, "q"}}, Box{[]int{1}} and once more that, where the first one of []int has the
// definition of its type in it. Before each of the first of their types stands its definition.
const HELD: &str =
    "1e ff 81 03 01 01 04 50 61 69 72 01 ff 82 00 01 02 01 01 41 01 04 00 01 01 42 01 0c 00 00 00
08 ff 82 01 02 01 01 78 00 17 ff 83 03 01 01 03 42 6f 78 01 ff 84 00 01 01 01 01 56 01 10 00 00 00
17 ff 84 01 09 6d 61 69 6e 2e 50 61 69 72 ff 82 06 01 04 01 01 79 00 00
25 ff 84 01 08 6d 61 69 6e 2e 42 6f 78 ff 84 15 01 09 6d 61 69 6e 2e 50 61 69 72 ff 82 06 01 06 01 01 7a 00 00 00
03 ff 84 00 0c ff 85 02 01 02 ff 86 00 01 10 00 00
3c ff 86 00 04 03 69 6e 74 04 02 00 0e 09 6d 61 69 6e 2e 50 61 69 72 ff 82 06 01 02 01 01 71 00 00
08 6d 61 69 6e 2e 42 6f 78 ff 84 10 01 07 66 6c 6f 61 74 36 34 08 04 00 fe f8 3f 00
0e ff 87 04 01 02 ff 88 00 01 0c 01 10 00 00
19 ff 88 00 01 01 6b 09 6d 61 69 6e 2e 50 61 69 72 ff 82 06 01 02 01 01 71 00
15 ff 84 01 05 5b 5d 69 6e 74 ff 89 02 01 02 ff 8a 00 01 04 00 00 07 ff 8a 03 00 01 02 00
10 ff 84 01 05 5b 5d 69 6e 74 ff 8a 03 00 01 02 00";

// Whether all twelve items are read, and of the eight values the seven are passed that define nothing.
fn are_passed(alloc: Global) -> Result<bool, Memory> {
    let bytes = bytes_of(alloc, HELD)?;
    let counted = count(alloc, &bytes, Limits::standard(), 65536)?;
    Ok(counted.answer.is_ok() && counted.items == 12 && counted.passed == 7)
}

// Whether the third value, the deepest with 6, is passed where so much is allowed, and refused where less is: then two
// are passed.
fn are_passed_within(alloc: Global) -> Result<bool, Memory> {
    let bytes = bytes_of(alloc, HELD)?;
    let six = count(alloc, &bytes, Limits::standard().up_to(6), 65536)?;
    let five = count(alloc, &bytes, Limits::standard().up_to(5), 65536)?;
    let is_too_deep = matches!(five.answer, Err(Fault::Refused(_)));
    Ok(six.answer.is_ok() && six.passed == 7 && is_too_deep && five.passed == 2)
}

#[test]
fn values_that_define_nothing_are_passed(rt: HostRuntime) {
    assert!(rt; are_passed(rt.alloc()) == Ok(true), "seven of eight values");
    assert!(rt;
        are_passed_within(rt.alloc()) == Ok(true),
        "up to the greatest depth"
    );
}
