//! Types that are told apart by their shapes alone.

ghost use Rattle.std.specs.Prelude.{◌≡◌, IfSome};
ghost use Rattle.gob_go_types.specs.Machine.{kind_made};

use gob_types::{Kind, Marshal, TypeId};

/// The kind of a type without fields.
#[derive(Clone, Copy, PartialEq, Eq, Hash)]
pub(crate) enum MadeKind {
    /// Values that encode themselves by GobEncode.
    Gob,
    /// By MarshalBinary.
    Binary,
    /// By MarshalText.
    Text,
    /// An array of this type, of so many elements.
    Array(TypeId, u64),
    /// A slice of this type.
    Slice(TypeId),
    /// A map of these types.
    Map(TypeId, TypeId),
}

/// A type that is the same wherever its name and its kind are.
#[derive(Clone, Copy, PartialEq, Eq, Hash)]
pub(crate) struct Made<'a> {
    /// Its name, which may be empty.
    pub name: &'a [u8],
    /// Its kind.
    pub kind: MadeKind,
}

/// What tells the kind apart, if that is one without fields.
pub(crate) fn made_kind(kind: &Kind) -> Option<MadeKind>
    ensures { IfSome result (λ made. kind_made made ≡ kind.now) }
{
    match kind {
        Kind::Opaque(Marshal::Gob) => Some(MadeKind::Gob),
        Kind::Opaque(Marshal::Binary) => Some(MadeKind::Binary),
        Kind::Opaque(Marshal::Text) => Some(MadeKind::Text),
        Kind::Array { elem, len } => Some(MadeKind::Array(*elem, *len)),
        Kind::Slice { elem } => Some(MadeKind::Slice(*elem)),
        Kind::Map { key, elem } => Some(MadeKind::Map(*key, *elem)),
        Kind::Basic(_) | Kind::Struct { .. } => None,
    }
}
