//! What stops a stream from being taken in.

use crate::fault::TakeFault;
use gob_num::Memory;
use gob_stream::{Fault, Refusal, WriteFault};
use gob_types::Reason;

/// Why a stream isn't taken in to its end. What was written before stays a stream, but for a failed write.
#[derive(Clone, Copy, Debug, PartialEq, Eq)]
pub enum JoinFault {
    /// It is no stream. The values in front of the refused item were taken in.
    Refused(Refusal),
    /// The joined stream takes no more: with the next item it would be refused, for the reason, as where it has as many
    /// types as a stream may have.
    Full(Reason),
    /// A read failed.
    Read,
    /// A write failed, and a prefix of what was to be written is out.
    Write,
    /// No memory was had.
    Memory,
    /// The writer met a fault before.
    Failed,
}

impl From<Fault> for JoinFault {
    ghost use Rattle.std.specs.Prelude.{◌≡◌};
    ghost use Rattle.gob_join.specs.Faults.{reading_fault};

    ghost from_gives = { λ given fault. fault ≡ reading_fault given };

    fn from(fault: Fault) -> JoinFault {
        match fault {
            Fault::Refused(refusal) => JoinFault::Refused(refusal),
            Fault::Read => JoinFault::Read,
            Fault::Memory => JoinFault::Memory,
            Fault::Failed => JoinFault::Failed,
        }
    }
}

impl From<TakeFault> for JoinFault {
    ghost use Rattle.std.specs.Prelude.{◌≡◌};
    ghost use Rattle.gob_join.specs.Faults.{taking_fault};

    ghost from_gives = { λ given fault. fault ≡ taking_fault given };

    fn from(fault: TakeFault) -> JoinFault {
        match fault {
            TakeFault::Full(reason) => JoinFault::Full(reason),
            TakeFault::Memory => JoinFault::Memory,
            TakeFault::Failed => JoinFault::Failed,
        }
    }
}

impl From<WriteFault> for JoinFault {
    ghost use Rattle.std.specs.Prelude.{◌≡◌};
    ghost use Rattle.gob_join.specs.declared.join_fault.JoinFault.TheVariants as fault;

    ghost from_gives = { λ _ given. given ≡ fault.Write };

    // Sending bytes fails in a write alone.
    fn from(_: WriteFault) -> JoinFault {
        JoinFault::Write
    }
}

impl From<Memory> for JoinFault {
    ghost use Rattle.std.specs.Prelude.{◌≡◌};
    ghost use Rattle.gob_join.specs.declared.join_fault.JoinFault.TheVariants as fault;

    ghost from_gives = { λ _ given. given ≡ fault.Memory };

    fn from(_: Memory) -> JoinFault {
        JoinFault::Memory
    }
}
