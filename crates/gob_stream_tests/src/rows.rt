//! The rows of docs/FORMAT.md on reading, and more, in that page's notation: what, a stream, what it gives, which is
//! how many items it begins with and what is refused behind these, and the limits: for an item, for the depth, for
//! types and for the stream.

use gob_stream::{Fault, Limits, Refusal};
use gob_test_rows::{number, part};
use std::alloc::Global;

/// The rows. Those without limits are read under the standard ones.
pub(crate) const ROWS: &str = "
nothing |  | 0 items
an int | 03 04 00 06 | 1 items
a struct and a value | POINT 07 ff 82 01 2c 01 42 00 | 2 items
two values | POINT 07 ff 82 01 2c 01 42 00 07 ff 82 01 2c 01 42 00 | 3 items
a struct that names itself | NODE 09 ff 82 01 02 01 01 04 00 00 | 2 items
a map with a key twice | MAP 0a ff 82 00 02 01 61 02 01 61 04 | 2 items
the least int | 0b 04 00 f8 ff ff ff ff ff ff ff ff | 1 items
a digit too many | 04 04 00 ff 7f | 0 items, refused 2 NotMinimal at 3 seen 5
the same before the end | 09 04 00 ff 7f | 0 items, refused 2 NotMinimal at 3 seen 5
bytes behind a value | 04 04 00 06 00 | 0 items, refused 6 Extra at 4 seen 4
announced behind a value | 04 04 00 06 | 0 items, refused 6 Extra at 4 seen 4
an empty body | 00 | 0 items, refused 5 Short at 1 seen 1
a value cut off | 03 04 00 ff | 0 items, refused 5 Short at 4 seen 4
a long string announced | 0b 0c 00 f8 ff ff ff ff ff ff ff ff | 0 items, refused 5 Short at 12 seen 12
no such type | 03 ff 82 00 | 0 items, refused 10 UndefinedType(65) at 1 seen 3
no such type, nothing behind | 02 ff 82 | 0 items, refused 10 UndefinedType(65) at 1 seen 3
a field of no type | OUTER 07 ff 82 01 02 02 04 00 | 1 items, refused 10 UndefinedType(66) at 24 seen 26
types in any order | OUTER 0c ff 83 02 01 02 ff 84 00 01 04 00 00 07 ff 82 01 02 02 04 00 | 3 items
defined twice | POINT POINT | 1 items, refused 8 DefinedTwice(65) at 33 seen 35
no such field | POINT 07 ff 82 01 2c 02 42 00 | 1 items, refused 15 FieldNumber at 37 seen 38
an array of itself | LOOP 05 ff 82 00 01 01 | 1 items, refused 11 Bottomless(65) at 17 seen 19
an opaque type | TIME 06 ff 82 00 02 0a 0b | 2 items
a type marshalled as binary | 10 ff 81 06 01 01 04 54 69 6d 65 01 ff 82 00 00 00 06 ff 82 00 02 0a 0b | 2 items
one marshalled as text | 10 ff 81 07 01 01 04 54 69 6d 65 01 ff 82 00 00 00 06 ff 82 00 02 0a 0b | 2 items
a kind not there | 10 ff 81 08 01 01 04 54 69 6d 65 01 ff 82 00 00 00 | 0 items, refused 15 FieldNumber at 3 seen 4
two kinds | 11 ff 81 05 01 02 ff 82 00 00 01 01 02 ff 82 00 00 00 | 0 items, refused 18 KindCount at 3 seen 18
the least own id | 0b 7f 02 01 02 ff 80 00 01 04 00 00 | 1 items
a reserved id | 02 7d 00 | 0 items, refused 7 ReservedType(63) at 1 seen 2
a bool of 2 | 03 02 00 02 | 0 items, refused 13 Bool at 3 seen 4
a bool of 128 | 04 02 00 ff 80 | 0 items, refused 13 Bool at 3 seen 5
a tag of 1 | 03 04 01 06 | 0 items, refused 12 SingleTag at 2 seen 3
a value item cut off | POINT 07 ff 82 01 | 1 items, refused 22 Ended at 36 seen 36
a float | 05 08 00 fe 31 40 | 1 items
a complex number | 06 0e 00 fe 31 40 00 | 1 items
text that is no UTF-8 | 04 0c 00 01 ff | 1 items
bytes | 05 0a 00 02 00 ff | 1 items
a zero that is present | POINT 07 ff 82 01 00 01 42 00 | 2 items
nil | 03 10 00 00 | 1 items
an interface | 06 10 00 03 69 6e 74 | 0 items, refused 16 InterfaceValue at 3 seen 4
a bad head | f7 | 0 items, refused 1 BadHead at 0 seen 1
a bad head in a body | 02 80 00 | 0 items, refused 1 BadHead at 1 seen 2
an item too long | fc 04 00 00 01 | 0 items, refused 3 ItemTooLong at 0 seen 5
no kind | 03 ff 81 00 | 0 items, refused 18 KindCount at 3 seen 4
more behind a description | 04 ff 81 00 00 | 0 items, refused 6 Extra at 4 seen 4
another id | 0c ff 81 02 01 02 ff 84 00 01 04 00 00 | 0 items, refused 19 WrongId at 3 seen 13
a reference to nothing | 0a ff 81 02 01 02 ff 82 00 00 00 | 0 items, refused 20 BadReference at 3 seen 11
a length below 0 | 0e ff 81 01 01 02 ff 82 00 01 04 01 01 00 00 | 0 items, refused 21 BadLength at 3 seen 15
an array of 2 with 1 | ARRAY 05 ff 82 00 01 06 | 1 items, refused 14 ArrayCount at 19 seen 20
an array of 2 | ARRAY 06 ff 82 00 02 02 04 | 2 items
a struct of nothing | 0d ff 81 03 01 01 01 45 01 ff 82 00 00 00 03 ff 82 00 | 2 items
type 0 | 02 00 00 | 0 items, refused 10 UndefinedType(0) at 1 seen 2
type 24 | 02 30 00 | 0 items, refused 10 UndefinedType(24) at 1 seen 2
a long list announced | LIST 0c ff 82 00 f8 ff ff ff ff ff ff ff ff | 1 items, refused 5 Short at 27 seen 27
a type number cut off | 01 ff | 0 items, refused 5 Short at 2 seen 2
depth 5 | LIST 08 ff 82 00 01 01 01 01 00 | 2 items | 100 5 10 100
depth 6 | LIST 09 ff 82 00 01 01 01 01 01 00 | 1 items, refused 17 TooDeep at 23 seen 23 | 100 5 10 100
depth 6, shown early | LIST 08 ff 82 00 01 01 01 01 01 | 1 items, refused 17 TooDeep at 23 seen 23 | 100 5 10 100
an int of 4 bytes in 3 | 03 04 00 06 | 0 items, refused 4 StreamTooLong at 0 seen 1 | 18446744073709551615 1000 0 3
second of two | 03 04 00 06 03 02 00 01 | 1 items, refused 4 StreamTooLong at 4 seen 5 | 18446744073709551615 1000 0 7
huge count | f8 ff ff ff ff ff ff ff ff | 0 items, refused 4 StreamTooLong at 0 seen 9 | 18446744073709551615 1000 0 7
two items as long as the limit | 03 04 00 06 03 02 00 01 | 2 items | 18446744073709551615 1000 0 8
a definition too many | 04 ff 81 00 00 | 0 items, refused 9 TooManyTypes at 1 seen 3 | 18446744073709551615 1000 0 9
";

/// Items that are longer than what is read at a time.
pub(crate) const LONG: &str = "
a text of 10000 bytes | fe 27 15 0c 00 fe 27 10 61*10000 | 1 items
";

/// A stream whose items are given wherever it is cut in two.
pub(crate) const IN_TWO: &str = "
a definition and two values | POINT 07 ff 82 01 2c 01 42 00 03 04 00 06 | 3 items
";

/// Slices in slices, under limits that allow it.
pub(crate) const COUNTED: &str = "
2000 deep | LIST fe 07 d3 ff 82 00 01*1999 00 | 2 items | 18446744073709551615 65536 1 9223372036854775807
2000 deep, as deep as may be | LIST fe 07 d3 ff 82 00 01*1999 00 | 2 items | \
    18446744073709551615 2000 1 9223372036854775807
2000 deep, limit 1000 | LIST fe 07 d3 ff 82 00 01*1999 00 | 1 items, refused 17 TooDeep at 1020 seen 1020 | \
    18446744073709551615 1000 1 9223372036854775807
65536 deep | LIST fd 01 00 03 ff 82 00 01*65535 00 | 2 items | 18446744073709551615 65536 1 9223372036854775807
65537 deep | LIST fd 01 00 04 ff 82 00 01*65536 00 | 1 items, refused 17 TooDeep at 65557 seen 65557 | \
    18446744073709551615 65536 1 9223372036854775807
";

/// Such slices that are built as trees, under limits that allow more than trees are made of.
pub(crate) const BUILT: &str = "
1000 deep | LIST fe 03 eb ff 82 00 01*999 00 | 2 items | 18446744073709551615 65536 1 9223372036854775807
2000 deep | LIST fe 07 d3 ff 82 00 01*1999 00 | 1 items, refused 17 TooDeep at 1020 seen 1020 | \
    18446744073709551615 65536 1 9223372036854775807
65537 deep | LIST fd 01 00 04 ff 82 00 01*65536 00 | 1 items, refused 17 TooDeep at 1021 seen 1021 | \
    18446744073709551615 65536 1 9223372036854775807
";

/// The limits of a row; none where there can be no such limits.
pub(crate) fn limits_of(row: &str) -> Option<Limits> {
    let limits = part(row, 3);
    if limits.is_empty() {
        return Some(Limits::standard());
    }
    Limits::deep(
        number(limits, 0),
        number(limits, 1),
        number(limits, 2),
        number(limits, 3),
    )
}

fn is_printed(alloc: Global, refusal: Refusal, text: &str) -> bool {
    match refusal.to_string(alloc) {
        Ok(printed) => printed.as_str() == text,
        Err(_) => false,
    }
}

/// Whether these are so many items as the text says, and what it says is refused behind them.
pub(crate) fn is_outcome(
    alloc: Global,
    text: &str,
    items: usize,
    answer: Result<(), Fault>,
) -> bool {
    let refused = text.split(" items, ").nth(1).unwrap_or("");
    let is_stopped = match answer {
        Ok(()) => refused.is_empty(),
        Err(Fault::Refused(refusal)) => is_printed(alloc, refusal, refused),
        Err(_) => false,
    };
    is_stopped && number(text, 0) == items as u64
}
