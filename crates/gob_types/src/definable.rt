//! Which shapes a description can give.
ghost use Rattle.gob_types.specs.declared.id.TypeId.{TypeId};
ghost use Rattle.gob_types.specs.declared.kind.Field.{Field};
ghost use Rattle.gob_types.specs.Definable.{IsDefinable, IsReference, HasLength};
ghost use Rattle.gob_types.specs.Ready.{Names, HasFieldOf};
ghost use Rattle.std.specs.Prelude.{◌↔◌, IsTrue};

use crate::kind::{Field, Kind, Shape};

// The greatest length of an array that a description can give: it is spelled as a signed number.
const GREATEST_LENGTH: u64 = 9223372036854775807;

impl Shape {
    /// Whether a description can give this shape: it isn't basic, an array's length is at most
    /// 9223372036854775807, and each type that it names is one that a description may refer to, which is 1 to
    /// 2147483647 and not 24.
    pub fn definable(&self) -> bool
        ensures { IsTrue result ↔ IsDefinable self.now }
    {
        has_length(&self.kind) && names_references(&self.kind)
    }
}

// Whether this isn't basic, and its length, if it has one, is one that a description can give.
fn has_length(kind: &Kind) -> bool
    ensures { IsTrue result ↔ HasLength kind.now }
{
    match kind {
        Kind::Basic(_) => false,
        Kind::Array { len, .. } => *len <= GREATEST_LENGTH,
        Kind::Slice { .. } | Kind::Struct { .. } | Kind::Map { .. } | Kind::Opaque(_) => true,
    }
}

// Whether a description may refer to each type that this names.
fn names_references(kind: &Kind) -> bool
    ensures { IsTrue result ↔ ((u : TypeId) → Names kind.now u → IsReference u) }
{
    match kind {
        Kind::Array { elem, .. } => elem.is_reference(),
        Kind::Slice { elem } => elem.is_reference(),
        Kind::Struct { fields } => are_references(fields.as_slice()),
        Kind::Map { key, elem } => key.is_reference() && elem.is_reference(),
        Kind::Basic(_) | Kind::Opaque(_) => true,
    }
}

// Whether a description may refer to the type of each of these fields.
fn are_references(fields: &[Field]) -> bool
    ensures { IsTrue result ↔ ((u : TypeId) → HasFieldOf fields.now u → IsReference u) }
{
    for field in fields {
        if !field.id.is_reference() {
            return false;
        }
    }
    true
}
