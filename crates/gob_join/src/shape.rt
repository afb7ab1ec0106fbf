//! Shapes whose types are named by other ids.

ghost use Rattle.std.specs.Prelude.{IfOk, IsTrue};
ghost use Rattle.gob_join.specs.Renaming.{IsRenamedKind, IsRenamedShape, among};

use crate::fault::TakeFault;
use crate::fields::{are_renamed, renamed_fields};
use crate::renaming::{NewIds, Renaming, stands_for};
use crate::value::new_id;
use gob_types::{Kind, Name, Shape};
use std::alloc::Global;

/// Whether the other shape is this one, where the types that it names are those that stand for the others.
pub(crate) fn is_renamed<N: NewIds>(shape: &Shape, other: &Shape, ids: &N) -> bool
    ensures { IsTrue result → IsRenamedShape (N.ids ids.now) shape.now other.now }
{
    shape.name.as_bytes() == other.name.as_bytes() && is_renamed_kind(&shape.kind, &other.kind, ids)
}

// Whether the other kind is.
fn is_renamed_kind<N: NewIds>(kind: &Kind, other: &Kind, ids: &N) -> bool
    ensures { IsTrue result → IsRenamedKind (N.ids ids.now) kind.now other.now }
{
    match (kind, other) {
        (Kind::Basic(basic), Kind::Basic(new)) => basic == new,
        (
            Kind::Array { elem, len },
            Kind::Array {
                elem: new,
                len: count,
            },
        ) => { len == count && stands_for(ids, *elem, *new) }
        (Kind::Slice { elem }, Kind::Slice { elem: new }) => stands_for(ids, *elem, *new),
        (Kind::Struct { fields }, Kind::Struct { fields: new }) => {
            are_renamed(fields.as_slice(), new.as_slice(), ids)
        }
        (
            Kind::Map { key, elem },
            Kind::Map {
                key: new_key,
                elem: new,
            },
        ) => { stands_for(ids, *key, *new_key) && stands_for(ids, *elem, *new) }
        (Kind::Opaque(marshal), Kind::Opaque(new)) => marshal == new,
        _ => false,
    }
}

/// The shape, where the types that it names are those that stand for the others. Refused where none stands for one.
pub(crate) fn renamed_shape(
    alloc: Global,
    shape: &Shape,
    ids: &Renaming,
) -> Result<Shape, TakeFault>
    ensures { IfOk result (λ new. IsRenamedShape (among ids.now) shape.now new) }
{
    let name = Name::new(shape.name.as_bytes().to_vec(alloc)?);
    let kind = renamed_kind(alloc, &shape.kind, ids)?;
    Ok(Shape { name, kind })
}

// So the kind.
fn renamed_kind(alloc: Global, kind: &Kind, ids: &Renaming) -> Result<Kind, TakeFault>
    ensures { IfOk result (λ new. IsRenamedKind (among ids.now) kind.now new) }
{
    match kind {
        Kind::Basic(basic) => Ok(Kind::Basic(*basic)),
        Kind::Array { elem, len } => {
            let elem = new_id(ids, *elem)?;
            Ok(Kind::Array { elem, len: *len })
        }
        Kind::Slice { elem } => {
            let elem = new_id(ids, *elem)?;
            Ok(Kind::Slice { elem })
        }
        Kind::Struct { fields } => {
            let fields = renamed_fields(alloc, fields.as_slice(), ids)?;
            Ok(Kind::Struct { fields })
        }
        Kind::Map { key, elem } => {
            let key = new_id(ids, *key)?;
            let elem = new_id(ids, *elem)?;
            Ok(Kind::Map { key, elem })
        }
        Kind::Opaque(marshal) => Ok(Kind::Opaque(*marshal)),
    }
}
