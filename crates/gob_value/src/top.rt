//! Which values stand at the top of a body without a tag.

ghost use Rattle.std.specs.Prelude.{◌↔◌, IsTrue};
ghost use Rattle.gob_value.specs.Top.{HasStructs};

use gob_types::{Kind, Shapes, TypeId};

/// Whether the values of the type are structs, which stand in a body without a tag.
pub fn has_structs<S: Shapes>(shapes: &S, id: TypeId) -> bool
    ensures { IsTrue result ↔ HasStructs (S.table shapes.now) id }
{
    match shapes.shape_of(id) {
        Some(shape) => matches!(shape.kind, Kind::Struct { .. }),
        None => false,
    }
}
