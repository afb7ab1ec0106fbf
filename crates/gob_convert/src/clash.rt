//! A value whose type clashes with the wanted one.

ghost use Rattle.std.specs.Prelude.{◌≡◌};
ghost use Rattle.gob_convert.specs.ClashText.{words_of_basic, words_of_opaque};

use gob_match::{ClashReason, PathText, TypeStep};
use gob_types::{Basic, Kind, Marshal};
use std::fmt;

/// What the values of a type are, without the types of their parts. Display writes it with its article, as `an int`.
#[derive(Clone, Copy, Debug, PartialEq, Eq)]
pub enum ValueKind {
    /// A basic value.
    Basic(Basic),
    /// So many elements.
    Array(u64),
    /// Any number of elements.
    Slice,
    /// Fields.
    Struct,
    /// Pairs of a key and an element.
    Map,
    /// Bytes that only the Go type that wrote them explains.
    Opaque(Marshal),
}

impl ValueKind {
    ghost use Rattle.gob_convert.specs.Kinds.{value_kind};

    // The kind of values of such a type.
    pub(crate) fn of(kind: &Kind) -> ValueKind
        ensures { result ≡ value_kind kind.now }
    {
        match kind {
            Kind::Basic(basic) => ValueKind::Basic(*basic),
            Kind::Array { len, .. } => ValueKind::Array(*len),
            Kind::Slice { .. } => ValueKind::Slice,
            Kind::Struct { .. } => ValueKind::Struct,
            Kind::Map { .. } => ValueKind::Map,
            Kind::Opaque(marshal) => ValueKind::Opaque(*marshal),
        }
    }
}

impl fmt::Display for ValueKind {
    ghost use Rattle.std.specs.Prelude.{Some};
    ghost use Rattle.gob_convert.specs.ClashText.{kind_text};

    ghost output = { λ kind. Some (kind_text kind) };

    fn fmt<W: fmt::Write>(&self, f: &mut fmt::Formatter<W>) -> fmt::Result {
        match self {
            ValueKind::Basic(basic) => f.write_str(basic_words(*basic)),
            ValueKind::Array(len) => write!(f, "an array of {len}"),
            ValueKind::Slice => f.write_str("a slice"),
            ValueKind::Struct => f.write_str("a struct"),
            ValueKind::Map => f.write_str("a map"),
            ValueKind::Opaque(marshal) => f.write_str(opaque_words(*marshal)),
        }
    }
}

// A basic value in words.
fn basic_words(basic: Basic) -> &'static str
    ensures { result.now ≡ words_of_basic basic }
{
    match basic {
        Basic::Bool => "a bool",
        Basic::Int => "an int",
        Basic::Uint => "a uint",
        Basic::Float => "a float",
        Basic::Bytes => "a byte slice",
        Basic::Str => "a string",
        Basic::Complex => "a complex",
        Basic::Interface => "an interface",
    }
}

// An opaque value in words.
fn opaque_words(marshal: Marshal) -> &'static str
    ensures { result.now ≡ words_of_opaque marshal }
{
    match marshal {
        Marshal::Gob => "an opaque value of GobEncode",
        Marshal::Binary => "an opaque value of MarshalBinary",
        Marshal::Text => "an opaque value of MarshalText",
    }
}

/// A value whose type clashes with the wanted one. Display writes where and why: `clash 33 DifferentKind at .B: value 3
/// has a string there, and an int is wanted`.
pub struct Clash {
    /// The fewest steps from the two types to a pair of types whose shapes don't match.
    pub path: Vec<TypeStep>,
    /// Why they don't.
    pub reason: ClashReason,
    /// The value's number among the values of the stream, counted from 1.
    pub value: u64,
    /// What the value has where the path leads.
    pub stream: ValueKind,
    /// What is wanted there.
    pub wanted: ValueKind,
}

// Not derived, so that a drop is one call in the proofs of what owns one.
impl Drop for Clash {
    fn drop(self) {
        let Clash {
            path: _,
            reason: _,
            value: _,
            stream: _,
            wanted: _,
        } = self;
    }
}

impl fmt::Display for Clash {
    ghost use Rattle.std.specs.Prelude.{Some};
    ghost use Rattle.gob_convert.specs.ClashText.{told_clash};

    ghost output = { λ clash. Some (told_clash clash) };

    fn fmt<W: fmt::Write>(&self, f: &mut fmt::Formatter<W>) -> fmt::Result {
        let number = self.reason.number();
        let reason = self.reason;
        let path = PathText(&self.path);
        let value = self.value;
        write!(f, "clash {number} {reason} at {path}: ")?;
        match reason {
            ClashReason::RepeatedName | ClashReason::NoCommonField => write!(f, "in value {value}"),
            ClashReason::DifferentKind | ClashReason::DifferentLength => {
                let stream = self.stream;
                let wanted = self.wanted;
                write!(
                    f,
                    "value {value} has {stream} there, and {wanted} is wanted"
                )
            }
        }
    }
}
