//! Why an item isn't put.

use gob_num::Memory;
use gob_stream::Fault;
use gob_types::{Denial, Reason};
use std::alloc::AllocError;

/// What stops a [`GoWriter`](crate::GoWriter). Nothing of the item was appended. What was appended before stays a
/// stream, and the writer writes no more: there is no way to take back the types of an item that is refused midway.
#[derive(Clone, Copy, Debug, PartialEq, Eq)]
pub enum PutFault {
    /// The item doesn't continue the stream. The reason is that for which a reader of the stream refuses the item's
    /// spelling behind it. It is `DoesNotFit` where the item has no spelling, since a place is no byte of the skeleton
    /// behind the last filling, an id has no type number, or a description is no value of type 16; and where its bytes
    /// are read to their end, as something else.
    Refused(Reason),
    /// No memory was had.
    Memory,
    /// The writer met a fault before.
    Failed,
}

impl From<Denial> for PutFault {
    ghost use Rattle.std.specs.Prelude.{◌≡◌};
    ghost use Rattle.gob_go_writer.specs.Machine.PutFaults.{fault_of_denial};

    ghost from_gives = { λ denial fault. fault ≡ fault_of_denial denial };

    fn from(denial: Denial) -> PutFault {
        match denial {
            Denial::Refused(reason) => PutFault::Refused(reason),
            Denial::Memory => PutFault::Memory,
        }
    }
}

impl From<Fault> for PutFault {
    ghost use Rattle.std.specs.Prelude.{◌≡◌};
    ghost use Rattle.gob_go_writer.specs.Machine.PutFaults.{fault_of_session};

    ghost from_gives = { λ session fault. fault ≡ fault_of_session session };

    fn from(fault: Fault) -> PutFault {
        match fault {
            Fault::Refused(refusal) => PutFault::Refused(refusal.reason),
            Fault::Memory => PutFault::Memory,
            Fault::Read | Fault::Failed => PutFault::Failed,
        }
    }
}

impl From<Memory> for PutFault {
    ghost use Rattle.std.specs.Prelude.{◌≡◌};
    ghost use Rattle.gob_go_writer.specs.declared.put_fault.PutFault.TheVariants as fault;

    ghost from_gives = { λ _ given. given ≡ fault.Memory };

    fn from(_: Memory) -> PutFault {
        PutFault::Memory
    }
}

impl From<AllocError> for PutFault {
    ghost use Rattle.std.specs.Prelude.{◌≡◌};
    ghost use Rattle.gob_go_writer.specs.declared.put_fault.PutFault.TheVariants as fault;

    ghost from_gives = { λ _ given. given ≡ fault.Memory };

    fn from(_: AllocError) -> PutFault {
        PutFault::Memory
    }
}
