//! Why a value is not taken.

use gob_num::Memory;
use gob_types::{Denial, Reason};

/// Why a value isn't one of a type.
#[derive(Clone, Copy, Debug, PartialEq, Eq)]
pub enum Misfit {
    /// The value is deeper than allowed. Whether it would fit isn't asked then.
    TooDeep,
    /// The value isn't one of the type.
    DoesNotFit,
}

/// Why a value is not spelled. The bytes that were to grow are as before.
#[derive(Clone, Copy, Debug, PartialEq, Eq)]
pub enum SpellFault {
    /// The value is deeper than allowed. Whether it would fit isn't asked then.
    TooDeep,
    /// The value isn't one of the type.
    DoesNotFit,
    /// The allocator refused to let the bytes grow. The value fits.
    Memory,
}

impl From<Misfit> for SpellFault {
    ghost use Rattle.std.specs.Prelude.{◌≡◌};
    ghost use Rattle.gob_value.specs.Faults.{spell_fault};

    ghost from_gives = { λ misfit fault. fault ≡ spell_fault misfit };

    fn from(misfit: Misfit) -> SpellFault {
        match misfit {
            Misfit::TooDeep => SpellFault::TooDeep,
            Misfit::DoesNotFit => SpellFault::DoesNotFit,
        }
    }
}

impl From<SpellFault> for Denial {
    ghost use Rattle.std.specs.Prelude.{◌≡◌};
    ghost use Rattle.gob_value.specs.Faults.{value_denial};

    ghost from_gives = { λ fault denial. denial ≡ value_denial fault };

    fn from(fault: SpellFault) -> Denial {
        match fault {
            SpellFault::TooDeep => Denial::Refused(Reason::TooDeep),
            SpellFault::DoesNotFit => Denial::Refused(Reason::DoesNotFit),
            SpellFault::Memory => Denial::Memory,
        }
    }
}

/// Why a value of type 16 gives no shape: the first of these that holds.
/// (Go's encoding/gob documentation, Encoding Details, on wireType; docs/FORMAT.md, Descriptions.)
#[derive(Clone, Copy, Debug, PartialEq, Eq)]
pub enum ShapeFault {
    /// Not exactly one field of wireType is present.
    KindCount,
    /// The Id isn't the id that is being defined.
    WrongId,
    /// An Elem, a Key or the Id of a field is no type id from 1 to 2147483647, or is 24.
    BadReference,
    /// The Len of an array is below 0.
    BadLength,
    /// The allocator refused memory. The value describes a shape.
    Memory,
}

impl From<Memory> for ShapeFault {
    ghost use Rattle.std.specs.Prelude.{◌≡◌};
    ghost use Rattle.gob_value.specs.declared.fault.ShapeFault.TheVariants as fault;

    ghost from_gives = { λ _ given. given ≡ fault.Memory };

    fn from(_: Memory) -> ShapeFault {
        ShapeFault::Memory
    }
}

impl From<ShapeFault> for Denial {
    ghost use Rattle.std.specs.Prelude.{◌≡◌};
    ghost use Rattle.gob_value.specs.ShapeFaults.{description_denial};

    ghost from_gives = { λ fault denial. denial ≡ description_denial fault };

    fn from(fault: ShapeFault) -> Denial {
        match fault {
            ShapeFault::KindCount => Denial::Refused(Reason::KindCount),
            ShapeFault::WrongId => Denial::Refused(Reason::WrongId),
            ShapeFault::BadReference => Denial::Refused(Reason::BadReference),
            ShapeFault::BadLength => Denial::Refused(Reason::BadLength),
            ShapeFault::Memory => Denial::Memory,
        }
    }
}
