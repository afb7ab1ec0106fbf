//! Which bytes are whole values, which of these are their own tidy forms, and how many elements and entries stand whole
//! at the front of bytes.
use gob_test_rows::Row;
use gob_types::{Table, TypeId};
use gob_value::{WholeParts, is_tidy_whole, is_whole, whole_elements, whole_entries};

/// A struct of two ints, a slice of ints, one of such slices, an array of 2 ints, a map from uints to ints, an opaque
/// type, and a struct with a field of each type.
pub(crate) const TYPES: &str =
    "65 struct A 2 B 2; 66 slice 2; 67 slice 66; 68 array 2 2; 69 map 3 2; 70 opaque;
71 struct A 1 B 2 C 3 D 4 E 5 F 6 G 7 H 66 I 68 J 69 K 65 L 8 M 70";

/// What, its type and the greatest depth, the bytes, and what these are: a tidy value, an untidy one, or none.
pub(crate) const WHOLE: &str = "
an int | 2 1 |  | 00 00 | tidy
an empty slice | 66 2 |  | 00 00 | tidy
a slice of an empty slice | 67 3 |  | 00 01 00 | tidy
a map from 0 to 0 | 69 2 |  | 00 01 00 00 | tidy
no field | 65 2 |  | 00 | tidy
Y 33 | 65 2 |  | 02 42 00 | tidy
Y 33 at no depth for it | 65 1 |  | 02 42 00 | none
Y 33, cut | 65 2 |  | 02 42 | none
Y 33, with more behind | 65 2 |  | 02 42 00 00 | none
X 0 | 65 2 |  | 01 00 00 | untidy
X 33, Y 0 | 65 2 |  | 01 42 01 00 00 | untidy
true | 71 2 |  | 01 01 00 | tidy
false | 71 2 |  | 01 00 00 | untidy
a uint of 0 | 71 2 |  | 03 00 00 | untidy
a float of 0 | 71 2 |  | 04 00 00 | untidy
a byte | 71 2 |  | 05 01 00 00 | tidy
no byte | 71 2 |  | 05 00 00 | untidy
no text | 71 2 |  | 06 00 00 | untidy
0 + 1i | 71 2 |  | 07 00 fe f0 3f 00 | tidy
1 + 0i | 71 2 |  | 07 fe f0 3f 00 00 | tidy
0 + 0i | 71 2 |  | 07 00 00 00 | untidy
a slice of 0 | 71 3 |  | 08 01 00 00 | tidy
an empty slice in a struct | 71 3 |  | 08 00 00 | untidy
an array of 0, 0 | 71 3 |  | 09 02 00 00 00 | tidy
an empty map | 71 3 |  | 0a 00 00 | tidy
a struct with no field | 71 3 |  | 0b 00 00 | tidy
a struct with X 1 | 71 3 |  | 0b 01 02 00 00 | tidy
a struct with X 0 | 71 3 |  | 0b 01 00 00 00 | untidy
nil | 71 2 |  | 0c 00 00 | tidy
no opaque byte | 71 2 |  | 0d 00 00 | tidy
";

/// What, the type of the elements, how many there may be, the greatest depth, how many elements stand there with how
/// many bytes, and the bytes.
pub(crate) const ELEMENTS: &str = "
nothing | 2 9 1 0 0
ints | 2 9 1 3 3 |  | 02 04 06
ints, of which two may be | 2 2 1 2 2 |  | 02 04 06
ints, of which none may be | 2 0 1 0 0 |  | 02 04 06
ints at no depth for them | 2 9 0 0 0 |  | 02 04 06
a number that is cut | 3 9 1 1 1 |  | 02 fe 01
a number of too many bytes | 4 9 1 1 1 |  | 02 ff 7f 02
bools, of which the last is none | 1 9 1 2 2 |  | 00 01 02
texts | 6 9 1 2 5 |  | 01 61 02 62 63 03 64
structs, of which one is cut | 65 9 2 2 8 |  | 01 2c 01 42 00 02 42 00 01 2c
a struct that is too deep | 65 9 1 1 1 |  | 00 01 2c 01 42 00
structs with no field | 65 9 1 2 2 |  | 00 00
structs at no depth for them | 65 9 0 0 0 |  | 00 00
slices | 66 9 2 3 6 |  | 02 02 04 00 01 06 03 02
a slice that is too deep | 66 9 1 1 1 |  | 00 01 06
no type | 99 9 9 0 0 |  | 00
";

/// What, the types of the keys and of the elements, how many entries there may be, the greatest depth, how many entries
/// stand there with how many bytes, and the bytes.
pub(crate) const ENTRIES: &str = "
nothing | 3 2 9 1 0 0
uints and ints | 3 2 9 1 2 4 |  | 01 02 03 04 05
uints and ints, of which one may be | 3 2 1 1 1 2 |  | 01 02 03 04 05
uints and ints at no depth for them | 3 2 9 0 0 0 |  | 01 02 03 04 05
texts and structs, of which one is cut | 6 65 9 2 1 5 |  | 01 61 02 42 00 01 62
texts and structs, of which one is too deep | 6 65 9 1 1 3 |  | 01 61 00 01 62 02 42 00
a key that is no bool | 1 2 9 1 1 2 |  | 01 02 02 02
an element that is no bool | 2 1 9 1 1 2 |  | 02 01 02 02
no type | 99 2 9 9 0 0 |  | 01 02
";

/// Whether the row's bytes are what it says.
pub(crate) fn is_found(table: &Table, row: &Row, due: &str) -> bool {
    let id = TypeId(row.number(0));
    let depth = row.number(1);
    let found = match (
        is_whole(table, id, &row.bytes, depth),
        is_tidy_whole(table, id, &row.bytes, depth),
    ) {
        (true, true) => "tidy",
        (true, false) => "untidy",
        _ => "none",
    };
    found == due
}

// Whether so many parts stand there with so many bytes.
fn are_found(found: WholeParts, count: u64, end: u64) -> bool {
    found.count == count && found.end as u64 == end
}

/// Whether the row's elements stand whole at the front of its bytes.
pub(crate) fn are_elements(table: &Table, row: &Row) -> bool {
    let elem = TypeId(row.number(0));
    let found = whole_elements(table, elem, row.number(1), &row.bytes, row.number(2));
    are_found(found, row.number(3), row.number(4))
}

/// Whether the row's entries stand whole at the front of its bytes.
pub(crate) fn are_entries(table: &Table, row: &Row) -> bool {
    let key = TypeId(row.number(0));
    let elem = TypeId(row.number(1));
    let found = whole_entries(table, key, elem, row.number(2), &row.bytes, row.number(3));
    are_found(found, row.number(4), row.number(5))
}
