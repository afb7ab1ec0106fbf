//! What the tidy forms of values are, in bytes.

use gob_num::Memory;
use gob_test_rows::{Judge, List, Row, bytes_of, part, wrong_row, wrong_row_wanting};
use gob_tidy::tidy_whole;
use gob_types::{Table, TypeId};
use std::alloc::Global;

// A struct of two ints, a slice of ints, an array of two, a map from uints to ints, an opaque type, a struct with a
// field of each type, a slice of the first structs, an array of two, a map from such structs to slices of them, and a
// slice of itself.
const TYPES: &str = "65 struct A 2 B 2; 66 slice 2; 67 array 2 2; 68 map 3 2; 69 opaque;
70 struct A 1 B 2 C 3 D 4 E 5 F 6 G 7 H 66 I 67 J 68 K 65 L 8 M 69;
71 slice 65; 72 array 2 65; 73 map 65 71; 74 slice 74";

// What, its type and the greatest depth, the bytes, and those of its tidy form: none where they are no such value, or
// one that is deeper than 1000.
const ROWS: &str = "
an int of 0 | 2 1 |  | 00 00 | 00 00
an int without a tag | 2 1 |  | 06 | none
an int at no depth for it | 2 0 |  | 00 06 | none
no field | 65 1 |  | 00 | 00
a field at no depth for it | 65 1 |  | 01 42 00 | none
a field that is dropped at no depth for it | 65 1 |  | 01 00 00 | none
X 0, Y 33 | 65 2 |  | 01 00 01 42 00 | 02 42 00
X 33, Y 0 | 65 2 |  | 01 42 01 00 00 | 01 42 00
X 0, Y 0 | 65 2 |  | 01 00 01 00 00 | 00
X 22, Y 33 | 65 2 |  | 01 2c 01 42 00 | 01 2c 01 42 00
a third field of two | 65 2 |  | 03 42 00 | none
cut in a field | 65 2 |  | 01 00 01 | none
cut before the end of a struct | 65 2 |  | 01 00 01 42 | none
with more behind | 65 2 |  | 01 00 01 42 00 00 | none
false | 70 2 |  | 01 00 00 | 00
true | 70 2 |  | 01 01 00 | 01 01 00
no truth value | 70 2 |  | 01 02 00 | none
a uint of 0 | 70 2 |  | 03 00 00 | 00
a float of 0 | 70 2 |  | 04 00 00 | 00
no bytes | 70 2 |  | 05 00 00 | 00
a byte 0 | 70 2 |  | 05 01 00 00 | 05 01 00 00
more bytes than there are | 70 2 |  | 05 03 00 00 | none
an empty text | 70 2 |  | 06 00 00 | 00
0 + 0i | 70 2 |  | 07 00 00 00 | 00
0 + 1i | 70 2 |  | 07 00 fe f0 3f 00 | 07 00 fe f0 3f 00
1 + 0i | 70 2 |  | 07 fe f0 3f 00 00 | 07 fe f0 3f 00 00
half of a complex number | 70 2 |  | 07 00 | none
an empty slice in a struct | 70 3 |  | 08 00 00 | 00
a slice of 0 in a struct | 70 3 |  | 08 01 00 00 | 08 01 00 00
an array of 0, 0 | 70 3 |  | 09 02 00 00 00 | 09 02 00 00 00
an empty map | 70 3 |  | 0a 00 00 | 0a 00 00
a struct of X 0 | 70 3 |  | 0b 01 00 00 00 | 0b 00 00
nil | 70 2 |  | 0c 00 00 | 0c 00 00
an interface that isn't nil | 70 2 |  | 0c 01 00 | none
no opaque byte | 70 2 |  | 0d 00 00 | 0d 00 00
zeros of all types | 70 3 |  | 01 00 01 00 01 00 01 00 01 00 01 00 01 00 00 01 00 01 02 00 00 01 00 01 00 01 00 01 00 \
    00 | 09 02 00 00 01 00 01 00 01 00 01 00 00
an empty slice | 66 2 |  | 00 00 | 00 00
a slice of 0 | 66 2 |  | 00 01 00 | 00 01 00
fewer elements than were counted | 66 2 |  | 00 03 00 00 | none
an array | 67 2 |  | 00 02 00 04 | 00 02 00 04
an array of another length | 67 2 |  | 00 01 00 | none
a map from 0 to 0 | 68 2 |  | 00 01 00 00 | 00 01 00 00
a map without an element | 68 2 |  | 00 01 00 | none
an opaque value | 69 1 |  | 00 02 67 6f | 00 02 67 6f
a slice of structs | 71 3 |  | 00 03 01 00 01 42 00 00 01 00 00 | 00 03 02 42 00 00 00
an array of structs | 72 3 |  | 00 02 01 42 01 00 00 01 00 00 | 00 02 01 42 00 00
an array of a struct | 72 3 |  | 00 01 01 42 00 | none
a map of structs | 73 4 |  | 00 01 01 00 01 42 00 02 01 00 00 00 | 00 01 02 42 00 02 00 00
a map of structs at no depth for them | 73 3 |  | 00 01 01 00 01 42 00 02 01 00 00 00 | none
slices in slices | 74 3 |  | 00 02 01 00 00 | 00 02 01 00 00
slices in slices at no depth for them | 74 2 |  | 00 02 01 00 00 | none
a type that isn't defined | 75 3 |  | 00 00 | none
1000 slices in slices | 74 18446744073709551615 |  | 00 01*999 00 | 00 01*999 00
1001 slices in slices | 74 18446744073709551615 |  | 00 01*1000 00 | none
";

// A row whose allocations are refused.
const SHORT: &str = "
a map of structs | 73 4 |  | 00 01 01 00 01 42 00 02 01 00 00 00 | 00 01 02 42 00 02 00 00
";

// Whether the tidy form of the row's bytes is as it says. The vector holds something before.
fn is_tidied(alloc: Global, table: &Table, row: &Row, due: &str) -> Result<bool, Memory> {
    let id = TypeId(row.number(0));
    let wanted = bytes_of(alloc, due)?;
    let mut tidied = vec![in alloc; 7u8]?;
    let is_value = tidy_whole(alloc, table, id, &row.bytes, row.number(1), &mut tidied)?;
    Ok(if is_value {
        tidied == wanted
    } else {
        due == "none"
    })
}

// Judges tidy forms.
struct TidyForm;

impl Judge for TidyForm {
    fn is_right(&self, alloc: Global, table: &Table, text: &str) -> Result<bool, Memory> {
        is_tidied(alloc, table, &Row::read(alloc, text)?, part(text, 4))
    }
}

static LISTS: [List<TidyForm>; 1] = [List(TidyForm, TYPES, ROWS)];

static WANTING: [List<TidyForm>; 1] = [List(TidyForm, TYPES, SHORT)];

// The lists, named in one function, since a table costs the proof of each that names it.
fn lists() -> &'static [List<TidyForm>; 1] {
    &LISTS
}

#[test]
fn values_are_tidied(rt: HostRuntime) {
    let row = wrong_row(rt.alloc(), lists());
    assert!(rt; row.is_empty(), "{row}");
}

// tools/refuse-memory runs this with each allocation refused in turn.
#[test]
fn want_of_memory_gives_no_other_form(rt: HostRuntime) {
    let row = wrong_row_wanting(rt.alloc(), &WANTING);
    assert!(rt; row.is_empty(), "{row}");
}
