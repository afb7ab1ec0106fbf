//! The examples of docs/FORMAT.md, Descriptions: shapes with the bytes of their descriptions, and values of type 16
//! that give no shape.
use crate::values::tidied;
use gob_num::Memory;
use gob_test_rows::{Row, is_spelled};
use gob_types::{Shape, Table, TypeId};
use gob_value::{ShapeFault, Value, describe, fits, shape_from};
use std::alloc::Global;

// The type that is being defined.
const ID: TypeId = TypeId(65);

// The type of descriptions.
const WIRE_TYPE: TypeId = TypeId(16);

/// What gives a shape, the value of type 16, and the bytes of the shape's description.
pub(crate) const SHAPES: &str = "
an array of 2 ints |  | 65 fields:1 2 2 fields:0,1,2 fields:0 | 01 01 02 ff 82 00 01 04 01 04 00 00
an array of 0 ints |  | 65 fields:1 2 0 fields:0,1,2 fields:0 | 01 01 02 ff 82 00 01 04 00 00
an array of ints without a Len |  | 65 fields:1 2 fields:0,1 fields:0 | 01 01 02 ff 82 00 01 04 00 00
a slice of type 9 |  | 65 fields:1 9 fields:0,1 fields:1 | 02 01 02 ff 82 00 01 12 00 00
a map from string to int |  | 65 fields:1 6 2 fields:0,1,2 fields:3 | 04 01 02 ff 82 00 01 0c 01 04 00 00
opaque, as gob |  | 65 fields:1 fields:0 fields:4 | 05 01 02 ff 82 00 00 00
opaque, as binary |  | 65 fields:1 fields:0 fields:5 | 06 01 02 ff 82 00 00 00
opaque, as text |  | 65 fields:1 fields:0 fields:6 | 07 01 02 ff 82 00 00 00
a struct P of ints X and Y |  | 'P 65 fields:0,1 'X 2 fields:0,1 'Y 2 fields:0,1 many:2 fields:0,1 fields:2 | \
    03 01 01 01 50 01 ff 82 00 01 02 01 01 58 01 04 00 01 01 59 01 04 00 00 00
";

/// A row of those where memory may be refused.
pub(crate) const SHAPE: &str = "
a struct P of an int X |  | 'P 65 fields:0,1 'X 2 fields:0,1 many:1 fields:0,1 fields:2 | \
    03 01 01 01 50 01 ff 82 00 01 01 01 01 58 01 04 00 00 00
";

/// What gives none, the value of type 16, and why.
pub(crate) const FAULTS: &str = "
another Id |  | 66 fields:1 2 fields:0,1 fields:1 |  | WrongId
an Id below 0 |  | -66 fields:1 2 fields:0,1 fields:1 |  | WrongId
no Id |  | fields: fields:0 fields:2 |  | WrongId
another Id, and an Elem of 0 |  | 66 fields:1 0 fields:0,1 fields:1 |  | WrongId
no Elem |  | 65 fields:1 fields:0 fields:1 |  | BadReference
an Elem of 0 |  | 65 fields:1 0 fields:0,1 fields:1 |  | BadReference
an Elem of 24 |  | 65 fields:1 24 fields:0,1 fields:1 |  | BadReference
an Elem beyond the greatest id |  | 65 fields:1 2147483648 fields:0,1 fields:1 |  | BadReference
an Elem below 0 |  | 65 fields:1 -1 fields:0,1 fields:1 |  | BadReference
a Key and no Elem |  | 65 fields:1 2 fields:0,1 fields:3 |  | BadReference
an Elem and no Key |  | 65 fields:1 2 fields:0,2 fields:3 |  | BadReference
no Elem, and a Len below 0 |  | 65 fields:1 -1 fields:0,2 fields:0 |  | BadReference
a Len below 0 |  | 65 fields:1 2 -1 fields:0,1,2 fields:0 |  | BadLength
a Len below 0 of the greatest id |  | 65 fields:1 2147483647 -1 fields:0,1,2 fields:0 |  | BadLength
no field of wireType |  | fields: |  | KindCount
two fields of wireType |  | fields: fields: fields:0,1 |  | KindCount
no CommonType |  | fields: fields:1 |  | WrongId
a field of a struct without an Id |  | 65 fields:1 'X fields:0 many:1 fields:0,1 fields:2 |  | BadReference
";

// The shape that the value gives. A value of another type is answered as `KindCount`.
fn judged(alloc: Global, value: &Value) -> Result<Shape, ShapeFault> {
    let table = Table::new(alloc, 0)?;
    match fits(&table, WIRE_TYPE, value, 5) {
        Ok(()) => shape_from(alloc, ID, value),
        Err(_) => Err(ShapeFault::KindCount),
    }
}

// The shape's description, where a description can give the shape.
fn described(alloc: Global, shape: &Shape) -> Result<Option<Value>, Memory> {
    if !shape.definable() {
        return Ok(None);
    }
    Ok(Some(describe(alloc, ID, shape)?))
}

// The description of the shape that the value gives.
fn redescribed(alloc: Global, value: &Value) -> Result<Option<Value>, Memory> {
    match judged(alloc, value) {
        Ok(shape) => described(alloc, &shape),
        Err(ShapeFault::Memory) => Err(Memory),
        Err(_) => Ok(None),
    }
}

// Whether the description of the shape that the value gives has a tidy form with these bytes.
fn is_tidied(alloc: Global, table: &Table, value: &Value, due: &[u8]) -> Result<bool, Memory> {
    let Some(described) = redescribed(alloc, value)? else {
        return Ok(false);
    };
    match tidied(alloc, table, WIRE_TYPE, described)? {
        Some(tidied) => is_spelled(alloc, table, WIRE_TYPE, &tidied, 1000, due),
        None => Ok(false),
    }
}

/// Whether the row's value gives a shape whose description has these bytes, and that description such a shape again.
pub(crate) fn is_described(alloc: Global, table: &Table, row: &Row) -> Result<bool, Memory> {
    match redescribed(alloc, &row.value)? {
        Some(value) => Ok(
            is_spelled(alloc, table, WIRE_TYPE, &value, 1000, &row.bytes)?
                && is_tidied(alloc, table, &value, &row.bytes)?,
        ),
        None => Ok(false),
    }
}

/// Whether the row's value is refused by the fault of this name.
pub(crate) fn is_faulty(alloc: Global, row: &Row, fault: &str) -> bool {
    match judged(alloc, &row.value) {
        Err(ShapeFault::KindCount) => fault == "KindCount",
        Err(ShapeFault::WrongId) => fault == "WrongId",
        Err(ShapeFault::BadReference) => fault == "BadReference",
        Err(ShapeFault::BadLength) => fault == "BadLength",
        _ => false,
    }
}
