//! Reading a stream, and a field of its values.

use gob_all::{
    Fault, Input, Item, Limits, Shapes, StreamReader, Table, TreeBuilder, TypeId, Value, as_int,
    field, field_number,
};
use std::alloc::Global;
use std::io::Read;

/// The sum of the ints in the fields of this name. It wraps around, as sums of Go's `int64` do.
pub fn sum_of_field<R: Read>(
    alloc: Global,
    input: &mut Input<R>,
    name: &[u8],
) -> Result<i64, Fault> {
    let mut stream = StreamReader::<TreeBuilder>::new(alloc, Limits::standard())?;
    let mut sum = 0i64;
    for _ in 0..u64::MAX {
        if !stream.more(input)? {
            return Ok(sum);
        }
        let step = stream.step(alloc)?;
        if let Some(Item::Put { id, value }) = &step.item {
            sum = sum.wrapping_add(int_of_field(stream.table(), *id, value, name).unwrap_or(0));
        }
        drop(step);
    }
    Ok(sum)
}

/// The int in the field of this name. None where it is absent, as a zero is in what Go writes.
fn int_of_field(types: &Table, id: TypeId, value: &Value, name: &[u8]) -> Option<i64> {
    let number = field_number(types.shape_of(id)?, name)?;
    as_int(field(value, number)?)
}
