//! Writing a stream.

use gob_all::{
    Field, Fields, Kind, Limits, Memory, Name, Output, Reason, Shape, StreamWriter, TypeId, Value,
    WriteFault, describe,
};
use std::alloc::Global;
use std::io::Write;

/// Writes the type `Point { X int, Y int }` and a value of it for each of these pairs.
pub fn write_points<W: Write>(
    alloc: Global,
    output: &mut Output<W>,
    points: &[(i64, i64)],
) -> Result<(), WriteFault> {
    let id = TypeId(65);
    let mut stream = StreamWriter::new(alloc, Limits::standard())?;
    let shape = point_shape(alloc)?;
    // `describe` asks for a shape that a description can give
    if !shape.definable() {
        return Err(WriteFault::Refused(Reason::BadReference));
    }
    let described = describe(alloc, id, &shape)?;
    stream.define(alloc, output, id, &described)?;
    for (x, y) in points {
        stream.put(alloc, output, id, &point(alloc, *x, *y)?)?;
    }
    output.flush_written()
}

/// A Point.
fn point(alloc: Global, x: i64, y: i64) -> Result<Value, Memory> {
    let fields = vec![in alloc; (0, Value::Int(x)), (1, Value::Int(y))]?;
    Ok(Value::Fields(fields))
}

/// The shape of a Point.
fn point_shape(alloc: Global) -> Result<Shape, Memory> {
    let fields = vec![in alloc; int_field(alloc, b"X")?, int_field(alloc, b"Y")?]?;
    Ok(Shape {
        name: name(alloc, b"Point")?,
        kind: Kind::Struct {
            fields: Fields::new(fields),
        },
    })
}

/// A field of type int, which has the id 2 in each stream.
pub fn int_field(alloc: Global, bytes: &[u8]) -> Result<Field, Memory> {
    Ok(Field {
        name: name(alloc, bytes)?,
        id: TypeId(2),
    })
}

/// A name.
pub fn name(alloc: Global, bytes: &[u8]) -> Result<Name, Memory> {
    let mut copy = Vec::new(alloc);
    copy.extend_from_slice(bytes)?;
    Ok(Name::new(copy))
}
