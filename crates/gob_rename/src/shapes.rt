//! Shapes in which fields are renamed.

ghost use Rattle.std.specs.Prelude.{◌≡◌, IfOk, map};
ghost use Rattle.gob_types.specs.declared.kind.Kind.TheVariants as shaped;
ghost use Rattle.gob_rename.specs.Renaming.{renamed_field, renamed_kind, renamed_shape};

use crate::rename::{Rename, name_behind};
use gob_num::Memory;
use gob_types::{Field, Fields, Kind, Name, Shape};
use std::alloc::Global;

/// The shape with its fields renamed.
pub(crate) fn renamed_shape(
    alloc: Global,
    renames: &[Rename<'_>],
    shape: &Shape,
) -> Result<Shape, Memory>
    ensures { IfOk result (λ made. made ≡ renamed_shape renames.now shape.now) }
{
    let kind = renamed_kind(alloc, renames, shape.name.as_bytes(), &shape.kind)?;
    Ok(Shape {
        name: named(alloc, shape.name.as_bytes())?,
        kind,
    })
}

/// The kind of types of this name, with its fields renamed.
fn renamed_kind(
    alloc: Global,
    renames: &[Rename<'_>],
    struct_name: &[u8],
    kind: &Kind,
) -> Result<Kind, Memory>
    ensures { IfOk result (λ made. made ≡ renamed_kind renames.now struct_name.now kind.now) }
{
    match kind {
        Kind::Basic(basic) => Ok(Kind::Basic(*basic)),
        Kind::Array { elem, len } => Ok(Kind::Array {
            elem: *elem,
            len: *len,
        }),
        Kind::Slice { elem } => Ok(Kind::Slice { elem: *elem }),
        Kind::Struct { fields } => Ok(Kind::Struct {
            fields: renamed_fields(alloc, renames, struct_name, fields.as_slice())?,
        }),
        Kind::Map { key, elem } => Ok(Kind::Map {
            key: *key,
            elem: *elem,
        }),
        Kind::Opaque(marshal) => Ok(Kind::Opaque(*marshal)),
    }
}

/// The fields of structs of this name, renamed.
fn renamed_fields(
    alloc: Global,
    renames: &[Rename<'_>],
    struct_name: &[u8],
    fields: &[Field],
) -> Result<Fields, Memory>
    ensures { IfOk result (λ made. made ≡ map (λ field. renamed_field renames.now struct_name.now field) fields.now) }
{
    let mut items = Vec::new(alloc);
    for field in fields {
        let name = name_behind(renames, struct_name, field.name.as_bytes());
        items.push(Field {
            name: named(alloc, name)?,
            id: field.id,
        })?;
    }
    Ok(Fields::new(items))
}

/// The name of these bytes.
fn named(alloc: Global, bytes: &[u8]) -> Result<Name, Memory>
    ensures { IfOk result (λ name. name ≡ bytes.now) }
{
    Ok(Name::new(bytes.to_vec(alloc)?))
}
