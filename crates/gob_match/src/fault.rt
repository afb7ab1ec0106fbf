//! Why no match is given.

use crate::reason::ClashReason;
use crate::step::TypeStep;
use gob_num::Memory;
use std::alloc::AllocFailed;

/// Why two types aren't matched.
#[derive(Drop)]
pub enum MatchFault {
    /// The steps lead to a pair of types whose shapes don't match, and no fewer steps lead to one.
    Clash {
        /// The steps from the two types to that pair.
        path: Vec<TypeStep>,
        /// Why its shapes don't match.
        reason: ClashReason,
    },
    /// The allocator refused to let something grow, and nothing is known of the types.
    Memory,
}

impl From<Memory> for MatchFault {
    ghost use Rattle.std.specs.Prelude.{◌≡◌};
    ghost use Rattle.gob_match.specs.declared.fault.MatchFault.TheVariants as fault;

    ghost from_gives = { λ _ given. given ≡ fault.Memory };

    fn from(_: Memory) -> MatchFault {
        MatchFault::Memory
    }
}

impl<T: Drop> From<AllocFailed<T>> for MatchFault {
    ghost use Rattle.std.specs.Prelude.{◌≡◌};
    ghost use Rattle.gob_match.specs.declared.fault.MatchFault.TheVariants as fault;

    ghost from_gives = { λ _ given. given ≡ fault.Memory };

    fn from(_: AllocFailed<T>) -> MatchFault {
        MatchFault::Memory
    }
}

/// Why a pair of types has no conversion.
#[derive(Clone, Copy)]
pub(crate) enum PairFault {
    /// Its shapes don't match.
    Clash(ClashReason),
    /// The allocator refused to let something grow.
    Memory,
}

impl From<Memory> for PairFault {
    ghost use Rattle.std.specs.Prelude.{◌≡◌};
    ghost use Rattle.gob_match.specs.declared.fault.PairFault.TheVariants as pair_fault;

    ghost from_gives = { λ _ given. given ≡ pair_fault.Memory };

    fn from(_: Memory) -> PairFault {
        PairFault::Memory
    }
}

impl From<ClashReason> for PairFault {
    ghost use Rattle.std.specs.Prelude.{◌≡◌};
    ghost use Rattle.gob_match.specs.declared.fault.PairFault.TheVariants as pair_fault;

    ghost from_gives = { λ reason given. given ≡ pair_fault.Clash reason };

    fn from(reason: ClashReason) -> PairFault {
        PairFault::Clash(reason)
    }
}
