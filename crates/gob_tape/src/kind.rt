//! The kinds of values.

ghost use Rattle.std.specs.Prelude.{◌≡◌, []};
ghost use Rattle.gob_read.specs.Machine.Built.{opened_part, closed};
ghost use Rattle.gob_read.specs.Leaf.{number_tree, raw_tree};
ghost use Rattle.gob_tape.specs.Seeing.{kind_of};

use gob_read::{GroupKind, RawKind};
use gob_types::Basic;

/// The kind of a value, by the name that [`Value`](gob_value::Value) has for it.
#[derive(Clone, Copy, Debug, PartialEq, Eq)]
pub enum ValueKind {
    /// A truth value.
    Bool,
    /// A signed number.
    Int,
    /// An unsigned number.
    Uint,
    /// A floating-point number.
    Float,
    /// A complex number.
    Complex,
    /// A byte string.
    Bytes,
    /// Text.
    Str,
    /// The nil value of an interface.
    Nil,
    /// A slice or an array.
    Many,
    /// A map.
    Pairs,
    /// A struct.
    Fields,
    /// A value that only the Go type that wrote it explains.
    Opaque,
}

/// The kind of a part that is told by its numbers.
pub(crate) fn number_kind(kind: Basic) -> ValueKind
    ensures { result ≡ kind_of (number_tree kind 0 0) }
{
    match kind {
        Basic::Bool => ValueKind::Bool,
        Basic::Int => ValueKind::Int,
        Basic::Uint => ValueKind::Uint,
        Basic::Float => ValueKind::Float,
        Basic::Complex => ValueKind::Complex,
        Basic::Bytes | Basic::Str | Basic::Interface => ValueKind::Nil,
    }
}

/// The kind of a part of raw bytes.
pub(crate) fn raw_kind(kind: RawKind) -> ValueKind
    ensures { result ≡ kind_of (raw_tree kind []) }
{
    match kind {
        RawKind::Bytes => ValueKind::Bytes,
        RawKind::Str => ValueKind::Str,
        RawKind::Opaque => ValueKind::Opaque,
    }
}

/// The kind of a part that has parts.
pub(crate) fn group_kind(kind: GroupKind) -> ValueKind
    ensures { result ≡ kind_of (closed (opened_part kind)) }
{
    match kind {
        GroupKind::Many => ValueKind::Many,
        GroupKind::Pairs => ValueKind::Pairs,
        GroupKind::Fields => ValueKind::Fields,
    }
}
