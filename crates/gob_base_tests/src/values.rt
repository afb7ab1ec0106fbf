//! The examples of docs/FORMAT.md: values of each shape with their bytes, their tidy forms, and values that are
//! refused.
ghost use Rattle.std.specs.Prelude.{◌≤◌};

use gob_num::Memory;
use gob_test_rows::{Row, is_spelled, part, value_of};
use gob_types::{Table, TypeId};
use gob_value::{Misfit, SpellFault, Value, fits, spell, tidy};
use std::alloc::Global;

/// A struct of two ints, one of an int and another such struct, an array of 2 ints, a slice of itself, a map from uints
/// to ints, an opaque type, a slice of ints, one of the first structs, a map from these to slices of them, and a struct
/// with a field of each type.
pub(crate) const TYPES: &str =
    "65 struct A 2 B 2; 66 struct A 2 B 66; 67 array 2 2; 68 slice 68; 69 map 3 2; 70 opaque;
71 slice 2; 72 slice 65; 73 map 65 72; 74 struct A 1 B 2 C 3 D 4 E 7 F 5 G 6 H 71 I 67 J 69 K 65 L 8 M 70";

/// What, its type and its depth, the value, and its bytes.
pub(crate) const SPELLED: &str = "
3 | 2 1 | 3 | 06
-1 | 2 1 | -1 | 01
64 | 2 1 | 64 | ff 80
-129 | 2 1 | -129 | fe 01 01
true | 1 1 | true | 01
256, a uint | 3 1 | uint:256 | fe 01 00
17.0 | 4 1 | float:4031000000000000 | fe 31 40
17.0 and 0.0 | 7 1 | complex:4031000000000000,0 | fe 31 40 00
nil | 8 1 | nil | 00
a text | 6 1 | 'g | 01 67
X 22, Y 33 | 65 2 | 22 33 fields:0,1 | 01 2c 01 42 00
Y 33 | 65 2 | 33 fields:1 | 02 42 00
X 0 | 65 2 | 0 fields:0 | 01 00 00
V 1, Next (V 2) | 66 3 | 1 2 fields:0 fields:0,1 | 01 02 01 01 04 00 00
an array of 2 ints | 67 2 | 1 2 many:2 | 02 02 04
a map with a key twice | 69 2 | uint:9 1 uint:9 2 pairs:2 | 02 09 02 09 04
an opaque value | 70 1 | ~x | 01 78
a slice of itself | 68 3 | many:0 many:1 many:1 | 01 01 00
1000 lists in lists | 68 1000 | many:0 many:1*999 | 01*999 00
";

/// What, its type and the greatest depth, the value, and why it is refused.
pub(crate) const REFUSED: &str = "
an int as a uint | 3 1 | 1 |  | DoesNotFit
no such type | 9 1 | 1 |  | DoesNotFit
an int at no depth for it | 2 0 | 1 |  | TooDeep
Y before X | 65 2 | 33 22 fields:1,0 |  | DoesNotFit
a third field of two | 65 2 | 33 fields:2 |  | DoesNotFit
an array of 2 ints with 3 | 67 2 | 1 2 3 many:3 |  | DoesNotFit
a slice of itself, too deep | 68 2 | many:0 many:1 many:1 |  | TooDeep
an int in a slice of itself | 68 4 | 1 many:0 many:1 many:1 many:2 |  | DoesNotFit
too deep behind a part that doesn't fit | 68 3 | 1 many:0 many:1 many:1 many:2 |  | TooDeep
1000 lists in lists, one below the limit | 68 999 | many:0 many:1*999 |  | TooDeep
2000 lists in lists | 68 1000 | many:0 many:1*1999 |  | TooDeep
";

/// What, its type, the value, and the bytes of its tidy form. First structs with one field, of each type.
pub(crate) const TIDY: &str = "
false | 74 | false fields:0 | 00
true | 74 | true fields:0 | 01 01 00
an int of 0 | 74 | 0 fields:1 | 00
-1 | 74 | -1 fields:1 | 02 01 00
a uint of 0 | 74 | uint:0 fields:2 | 00
0.0 | 74 | float:0 fields:3 | 00
-0.0 | 74 | float:8000000000000000 fields:3 | 04 ff 80 00
0.0 and 0.0 | 74 | complex:0,0 fields:4 | 00
0.0 and 17.0 | 74 | complex:0,4031000000000000 fields:4 | 05 00 fe 31 40 00
17.0 and 0.0 | 74 | complex:4031000000000000,0 fields:4 | 05 fe 31 40 00 00
no bytes | 74 | bytes: fields:5 | 00
an empty text | 74 | ' fields:6 | 00
an empty slice | 74 | many:0 fields:7 | 00
an empty map | 74 | pairs:0 fields:9 | 0a 00 00
a struct with no field | 74 | fields: fields:10 | 0b 00 00
nil | 74 | nil fields:11 | 0c 00 00
an opaque value of no bytes | 74 | ~ fields:12 | 0d 00 00
X 0, Y 33 | 65 | 0 33 fields:0,1 | 02 42 00
a slice of 0 | 71 | 0 many:1 | 01 00
an array of 0, 0 | 74 | 0 0 many:2 fields:8 | 09 02 00 00 00
a struct of X 0, Y 0 | 74 | 0 0 fields:0,1 fields:10 | 0b 00 00
structs in a map | 73 | 0 33 fields:0,1 0 0 fields:0,1 many:1 pairs:1 | 01 02 42 00 01 00
a description with an empty Name | 16 | ' 65 fields:0,1 2 fields:0,1 fields:1 | 02 01 02 ff 82 00 01 04 00 00
1000 lists in lists | 68 | many:0 many:1*999 | 01*999 00
";

// The depth of a row.
fn depth_of(row: &Row) -> u64
    ensures { result ≤ 1000 }
{
    row.number(1).min(1000)
}

/// Whether the row's value fits at this depth and is spelled so.
pub(crate) fn is_row_spelled(alloc: Global, table: &Table, row: &Row) -> Result<bool, Memory> {
    let id = TypeId(row.number(0));
    let depth = depth_of(row);
    Ok(
        fits(table, id, &row.value, depth) == Ok(())
            && is_spelled(alloc, table, id, &row.value, depth, &row.bytes)?,
    )
}

/// Whether the row's value is refused for the reason of this name.
pub(crate) fn is_row_refused(alloc: Global, table: &Table, row: &Row, name: &str) -> bool {
    let misfit = match name {
        "TooDeep" => Misfit::TooDeep,
        _ => Misfit::DoesNotFit,
    };
    let id = TypeId(row.number(0));
    let depth = depth_of(row);
    let mut out = Vec::new(alloc);
    fits(table, id, &row.value, depth) == Err(misfit)
        && spell(alloc, table, id, &row.value, depth, &mut out) == Err(SpellFault::from(misfit))
}

/// The tidy form of the value, where it is one of the type.
pub(crate) fn tidied(
    alloc: Global,
    table: &Table,
    id: TypeId,
    value: Value,
) -> Result<Option<Value>, Memory> {
    match fits(table, id, &value, 1000) {
        Ok(()) => Ok(Some(tidy(alloc, table, id, value)?)),
        Err(_) => Ok(None),
    }
}

/// Whether the row's value fits, and its tidy form is spelled so.
pub(crate) fn is_row_tidied(
    alloc: Global,
    table: &Table,
    row: &Row,
    text: &str,
) -> Result<bool, Memory> {
    let id = TypeId(row.number(0));
    match tidied(alloc, table, id, value_of(alloc, part(text, 2))?)? {
        Some(tidied) => is_spelled(alloc, table, id, &tidied, 1000, &row.bytes),
        None => Ok(false),
    }
}
