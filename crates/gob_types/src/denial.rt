//! Why something isn't read, or isn't written, wherever it stands.

ghost use Rattle.std.specs.Prelude.{◌≡◌};
ghost use Rattle.gob_types.specs.declared.denial.Denial.{Denial};
ghost use Rattle.gob_types.specs.Denial.{type_denial};

use crate::readiness::NotReady;
use crate::reason::Reason;
use gob_num::Memory;
use std::alloc::AllocError;

/// Why something isn't read, or isn't written, wherever it stands. What knows the place makes a fault of its own of it.
#[derive(Clone, Copy, Debug, PartialEq, Eq)]
pub enum Denial {
    /// It is refused.
    Refused(Reason),
    /// The allocator refused to let something grow.
    Memory,
}

impl From<Reason> for Denial {
    ghost from_gives = { λ reason denial. denial ≡ Denial.Refused reason };

    fn from(reason: Reason) -> Denial {
        Denial::Refused(reason)
    }
}

impl From<Memory> for Denial {
    ghost from_gives = { λ _ denial. denial ≡ Denial.Memory };

    fn from(_: Memory) -> Denial {
        Denial::Memory
    }
}

impl From<AllocError> for Denial {
    ghost from_gives = { λ _ denial. denial ≡ Denial.Memory };

    fn from(_: AllocError) -> Denial {
        Denial::Memory
    }
}

impl From<NotReady> for Denial {
    ghost from_gives = { λ fault denial. denial ≡ type_denial fault };

    fn from(fault: NotReady) -> Denial {
        match fault {
            NotReady::UndefinedType(id) => Denial::Refused(Reason::UndefinedType(id)),
            NotReady::Bottomless(id) => Denial::Refused(Reason::Bottomless(id)),
            NotReady::Memory => Denial::Memory,
        }
    }
}
