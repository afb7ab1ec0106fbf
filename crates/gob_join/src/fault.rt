//! What stops an item from being taken in.

use gob_go_writer::PutFault;
use gob_num::Memory;
use gob_types::Reason;
use std::alloc::{AllocError, AllocFailed};

/// Why an item isn't taken in. What was written before stays a stream, and the writer writes no more.
#[derive(Clone, Copy, Debug, PartialEq, Eq)]
pub enum TakeFault {
    /// The joined stream takes no more: with this item it would be refused, for the reason, as where it has as many
    /// types as a stream may have.
    Full(Reason),
    /// No memory was had.
    Memory,
    /// The writer met a fault before.
    Failed,
}

impl From<PutFault> for TakeFault {
    ghost use Rattle.std.specs.Prelude.{◌≡◌};
    ghost use Rattle.gob_join.specs.Faults.{putting_fault};

    ghost from_gives = { λ given fault. fault ≡ putting_fault given };

    fn from(fault: PutFault) -> TakeFault {
        match fault {
            PutFault::Refused(reason) => TakeFault::Full(reason),
            PutFault::Memory => TakeFault::Memory,
            PutFault::Failed => TakeFault::Failed,
        }
    }
}

impl From<Memory> for TakeFault {
    ghost use Rattle.std.specs.Prelude.{◌≡◌};
    ghost use Rattle.gob_join.specs.declared.fault.TakeFault.TheVariants as fault;

    ghost from_gives = { λ _ given. given ≡ fault.Memory };

    fn from(_: Memory) -> TakeFault {
        TakeFault::Memory
    }
}

impl From<AllocError> for TakeFault {
    ghost use Rattle.std.specs.Prelude.{◌≡◌};
    ghost use Rattle.gob_join.specs.declared.fault.TakeFault.TheVariants as fault;

    ghost from_gives = { λ _ given. given ≡ fault.Memory };

    fn from(_: AllocError) -> TakeFault {
        TakeFault::Memory
    }
}

impl<T: Drop> From<AllocFailed<T>> for TakeFault {
    ghost use Rattle.std.specs.Prelude.{◌≡◌};
    ghost use Rattle.gob_join.specs.declared.fault.TakeFault.TheVariants as fault;

    ghost from_gives = { λ _ given. given ≡ fault.Memory };

    fn from(_: AllocFailed<T>) -> TakeFault {
        TakeFault::Memory
    }
}
