//! Which types match, and where others clash.
use gob_match::{ClashReason, MatchFault, TypeStep, match_types};
use gob_num::Memory;
use gob_types::{Table, TypeId};
use std::alloc::Global;

/// What is matched, the stream's type, the wanted type, and the number and the steps of the clash, written as in
/// docs/FORMAT.md (none at the top), or nothing where they match. Where several clashes have the fewest steps, each is
/// listed.
pub(crate) const ROWS: &str = "
a basic type and itself | 2 | 2
int and uint | 2 | 3 | 33
int and float | 2 | 4 | 33
[]byte and string | 5 | 6 | 33
two opaque types | 65 opaque | 66 opaque
two that marshal themselves as text | 65 text | 66 text
text and binary | 65 text | 65 binary | 33
binary and a type's own way | 65 binary | 65 opaque | 33
an opaque type and int | 65 opaque | 2 | 33
structs with B in both | 65 struct A 2 B 2 | 65 struct B 2 C 2
fields in another order, under another id | 65 struct A 2 B 2 | 70 struct B 2 A 2
B int and B uint | 65 struct A 2 B 2 | 65 struct A 2 B 3 | 33 .B
a name that isn't UTF-8 | 65 struct 0xff 2 | 65 struct 0xff 3 | 33 .0xff
no name in both | 65 struct A 2 B 2 | 65 struct C 2 D 2 | 32
names are compared whole | 65 struct Name 6 | 65 struct Names 6 name 6 | 32
two structs without fields | 65 struct | 65 struct
a struct without fields is wanted | 65 struct A 2 | 65 struct | 32
a struct without fields is sent | 65 struct | 65 struct A 2 | 32
a name twice in both | 65 struct X 2 X 2 | 65 struct X 2 X 2 | 31
a name twice in the stream's type, and none in both | 65 struct X 2 X 2 | 65 struct A 2 | 31
a name twice in the wanted type | 65 struct X 2 | 65 struct X 2 X 2 | 31
arrays of 2 and 2 | 65 array 2 2 | 65 array 2 2
arrays of 2 and 3 | 65 array 2 2 | 65 array 3 2 | 34
an array and a slice | 65 array 2 2 | 65 slice 2 | 33
maps to int and to uint | 65 map 6 2 | 65 map 6 3 | 33 []
maps from string and from int | 65 map 6 2 | 65 map 2 2 | 33 {}
maps that differ in key and element | 65 map 6 2 | 65 map 2 6 | 33 {} or 33 []
a slice of itself and another | 65 slice 65 | 70 slice 70
a slice of itself and a slice of slices of itself | 65 slice 65 | 65 slice 66; 66 slice 65
a slice of itself and a slice of ints | 65 slice 65 | 65 slice 2 | 33 []
a node, and two types that name each other | 65 struct V 2 Next 65 | 65 struct Next 66; 66 struct V 3 Next 65 | \
    33 .Next .V
one step is fewer than three, in whichever order | 65 struct A 66 B 2; 66 struct X 67; 67 struct Y 2 | \
    65 struct A 66 B 3; 66 struct X 67; 67 struct Y 3 | 33 .B
two steps are fewer than three, in whichever order | 65 struct A 66 B 68; 66 slice 67; 67 map 6 2; 68 slice 2 | \
    65 struct A 66 B 68; 66 slice 67; 67 map 6 3; 68 slice 3 | 33 .B []
one wanted type for two types of the stream | 65 struct A 66 B 67; 66 struct V 2; 67 struct V 3 | \
    65 struct A 66 B 66; 66 struct V 2 | 33 .B .V
two wanted types for one type of the stream | 65 struct A 66 B 66; 66 struct V 2 | \
    65 struct A 66 B 67; 66 struct V 2; 67 struct V 3 | 33 .B .V
what isn't in both may differ | 65 struct A 2 P 66; 66 map 6 2 | 65 struct Q 66 A 2; 66 array 2 2
inner structs without a name in both | 65 struct A 2 P 66; 66 struct V 2 | 65 struct A 2 P 66; 66 struct W 2 | 32 .P
";

// Whether the step is written so. A name that isn't UTF-8 is written `.0xff`.
fn is_step(step: &TypeStep, word: &str) -> bool {
    match step {
        TypeStep::Element => word == "[]",
        TypeStep::Key => word == "{}",
        TypeStep::Named(name) => {
            word.strip_prefix(".") == Some(std::str::from_utf8(name.as_bytes()).unwrap_or("0xff"))
        }
    }
}

// Whether this is the number of the reason, and the steps behind it are those of the path.
fn is_clash(clash: &str, reason: ClashReason, path: &[TypeStep]) -> bool {
    let mut words = clash.split_whitespace();
    let number = words.next().unwrap_or("");
    for step in path {
        if !is_step(step, words.next().unwrap_or("")) {
            return false;
        }
    }
    words.next().is_none() && number.parse() == Ok(reason.number())
}

// Whether one of the clashes is this one.
fn is_among(clashes: &str, reason: ClashReason, path: &[TypeStep]) -> bool {
    for clash in clashes.split(" or ") {
        if is_clash(clash, reason, path) {
            return true;
        }
    }
    false
}

/// Whether the types of these tables match, where no clash is due, or else clash so.
pub(crate) fn is_judged(
    alloc: Global,
    stream: &Table,
    id: TypeId,
    wanted: &Table,
    wanted_id: TypeId,
    clashes: &str,
) -> Result<bool, Memory> {
    let Ok(()) = stream.ready(alloc, id) else {
        return Ok(false);
    };
    let Ok(()) = wanted.ready(alloc, wanted_id) else {
        return Ok(false);
    };
    match match_types(alloc, stream, id, wanted, wanted_id) {
        Ok(_) => Ok(clashes.is_empty()),
        Err(MatchFault::Memory) => Err(Memory),
        Err(MatchFault::Clash { path, reason }) => Ok(is_among(clashes, reason, &path)),
    }
}
