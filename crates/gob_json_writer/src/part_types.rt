//! The types of a value's parts, by the shape of its type. A type that the table doesn't tell counts as 0.

ghost use Rattle.std.specs.Prelude.{◌≡◌, slice_get};
ghost use Rattle.std.specs.Option.{option_copied};
ghost use Rattle.gob_types.specs.Table.{shape_of};
ghost use Rattle.gob_json.specs.Json.{element_type, key_type, struct_fields, field_name, field_type};

use gob_types::{Field, Shapes, TypeId};

// The number of no type.
const NO_TYPE: TypeId = TypeId(0);

/// The type of the elements of a slice, an array or a map.
pub fn element_of<S: Shapes>(table: &S, id: TypeId) -> TypeId
    ensures { result ≡ element_type (shape_of (S.table table.now) id) }
{
    table
        .shape_of(id)
        .and_then(|shape| shape.kind.elem())
        .unwrap_or(NO_TYPE)
}

/// The type of the keys of a map.
pub fn key_of<S: Shapes>(table: &S, id: TypeId) -> TypeId
    ensures { result ≡ key_type (shape_of (S.table table.now) id) }
{
    table
        .shape_of(id)
        .and_then(|shape| shape.kind.key())
        .unwrap_or(NO_TYPE)
}

/// The fields of a struct.
pub fn fields_of<S: Shapes>(table: &S, id: TypeId) -> &[Field]
    ensures { result.now ≡ struct_fields (shape_of (S.table table.now) id) }
{
    match table.shape_of(id).and_then(|shape| shape.kind.fields()) {
        Some(fields) => fields.as_slice(),
        None => &[],
    }
}

/// The name of the field of this number.
pub fn name_at(fields: &[Field], number: u64) -> &[u8]
    ensures { result.now ≡ field_name (slice_get fields.now number) }
{
    match fields.get(number as usize) {
        Some(field) => field.name.as_bytes(),
        None => &[],
    }
}

/// The type of the field of this number.
pub fn type_at(fields: &[Field], number: u64) -> TypeId
    ensures { result ≡ field_type (slice_get fields.now number) }
{
    match fields.get(number as usize) {
        Some(field) => field.id,
        None => NO_TYPE,
    }
}
