//! Type ids.

ghost use Rattle.std.specs.Prelude.{◌≡◌, ◌↔◌, IsTrue};

use crate::basic::Basic;
use std::fmt;

/// The number of a type in a stream. The ids 1 to 8 and 16 to 24 are those of the base table, and a stream
/// defines its own from 64 to 2147483647.
#[derive(Clone, Copy, Debug, PartialEq, Eq, Hash)]
pub struct TypeId(pub u64);

impl TypeId {
    ghost use Rattle.gob_types.specs.Base.{base_table};
    ghost use Rattle.gob_types.specs.Definable.{IsOwnId, IsReference};
    ghost use Rattle.gob_types.specs.Table.{basic_of};

    /// The basic type of this id, where it is one's: the same in each stream.
    #[inline]
    pub(crate) fn basic(self) -> Option<Basic>
        ensures { result ≡ basic_of base_table self }
    {
        match self.0 {
            1 => Some(Basic::Bool),
            2 => Some(Basic::Int),
            3 => Some(Basic::Uint),
            4 => Some(Basic::Float),
            5 => Some(Basic::Bytes),
            6 => Some(Basic::Str),
            7 => Some(Basic::Complex),
            8 => Some(Basic::Interface),
            _ => None,
        }
    }

    /// The type of descriptions.
    pub const WIRE_TYPE: TypeId = TypeId(16);

    /// The type of the descriptions of opaque types. Its number is this project's own, and no stream may name it.
    pub const GOB_ENCODER_TYPE: TypeId = TypeId(24);

    /// The greatest id of a type.
    pub const GREATEST: TypeId = TypeId(2147483647);

    /// Whether a definition may give this id.
    pub(crate) fn is_own(&self) -> bool
        ensures { IsTrue result ↔ IsOwnId self.now }
    {
        64 <= self.0 && self.0 <= Self::GREATEST.0
    }

    /// Whether a description may refer to this id.
    pub fn is_reference(&self) -> bool
        ensures { IsTrue result ↔ IsReference self.now }
    {
        1 <= self.0 && self.0 <= Self::GREATEST.0 && self.0 != Self::GOB_ENCODER_TYPE.0
    }
}

impl fmt::Display for TypeId {
    ghost use Rattle.std.specs.Prelude.{Some};
    ghost use Rattle.std.specs.Fmt.{decimal};

    ghost output = { λ id. Some (decimal id.0) };

    fn fmt<W: fmt::Write>(&self, f: &mut fmt::Formatter<W>) -> fmt::Result {
        let number = self.0;
        write!(f, "{number}")
    }
}
