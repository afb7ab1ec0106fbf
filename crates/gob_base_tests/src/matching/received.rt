//! What is received of values.
use gob_match::{MatchFault, match_types, receive};
use gob_num::Memory;
use gob_types::{Table, TypeId};
use gob_value::{Value, fits};
use std::alloc::Global;

/// What is received, the stream's type, the wanted type, the value, and the bytes that spell what is received of it.
pub(crate) const ROWS: &str = "
an int | 2 | 2 | -1 | 01
a string | 6 | 6 | 'go | 02 67 6f
nil | 8 | 8 | nil | 00
an opaque value | 65 opaque | 65 opaque | ~go | 02 67 6f
B of A and B | 65 struct A 2 B 2 | 65 struct B 2 C 2 | 1 2 fields:0,1 | 01 04 00
in the wanted order | 65 struct A 2 B 2 | 65 struct B 2 A 2 | 1 2 fields:0,1 | 01 04 01 02 00
an absent field stays absent | 65 struct A 2 B 2 | 65 struct B 2 A 2 | 1 fields:0 | 02 02 00
a field that is 0 stays present | 65 struct A 2 B 2 | 65 struct A 2 B 2 | 0 fields:1 | 02 00 00
no wanted field is present | 65 struct A 2 B 2 | 65 struct B 2 C 2 | 1 fields:0 | 00
a field before and one behind those that are present | 65 struct A 2 B 2 C 2 D 2 E 2 | 65 struct X 2 E 2 A 2 | \
    1 2 4 fields:1,2,4 | 02 08 00
a slice of structs | 66 slice 65; 65 struct A 2 B 2 | 65 slice 66; 66 struct B 2 | \
    1 2 fields:0,1 1 fields:0 3 fields:1 many:3 | 03 01 04 00 00 01 06 00
an empty slice | 65 slice 65 | 65 slice 65 | many:0 | 00
an array | 65 array 2 2 | 65 array 2 2 | 1 2 many:2 | 02 02 04
a map, with a key twice | 66 map 6 65; 65 struct A 2 B 2 | 66 map 6 65; 65 struct B 2 | \
    'a 1 2 fields:0,1 'a 3 fields:1 pairs:2 | 02 01 61 01 04 00 01 61 01 06 00
keys that are structs | 66 map 65 2; 65 struct A 2 B 2 | 66 map 65 2; 65 struct B 2 A 2 | 1 fields:0 5 pairs:1 | \
    01 02 02 00 0a
a node in a node | 65 struct V 2 Next 65 | 65 struct Next 65 V 2 | 1 2 fields:0 fields:0,1 | 01 02 04 00 01 02 00
";

/// What is received of a value; none where it doesn't fit its type, or the types don't match.
pub(crate) fn received(
    alloc: Global,
    stream: &Table,
    id: TypeId,
    wanted: &Table,
    wanted_id: TypeId,
    value: &Value,
) -> Result<Option<Value>, Memory> {
    let Ok(()) = stream.ready(alloc, id) else {
        return Ok(None);
    };
    let Ok(()) = wanted.ready(alloc, wanted_id) else {
        return Ok(None);
    };
    let Ok(()) = fits(stream, id, value, 1000) else {
        return Ok(None);
    };
    match match_types(alloc, stream, id, wanted, wanted_id) {
        Ok(matched) => Ok(Some(receive(alloc, &matched, value)?)),
        Err(MatchFault::Memory) => Err(Memory),
        Err(MatchFault::Clash { .. }) => Ok(None),
    }
}
