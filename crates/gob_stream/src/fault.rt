//! What stops a reader or a writer.

use gob_num::Memory;
use gob_types::Reason;
use std::alloc::AllocError;
use std::fmt;

/// Where and why bytes are no stream. Offsets are those of the stream, in bytes from 0.
#[derive(Clone, Copy, Debug, PartialEq, Eq)]
pub struct Refusal {
    /// The offset of the first refused byte.
    pub place: u64,
    /// How many bytes of the stream show the refusal.
    pub seen: u64,
    /// Why it is refused.
    pub reason: Reason,
}

impl fmt::Display for Refusal {
    ghost use Rattle.std.specs.Prelude.{Some};
    ghost use Rattle.gob_stream.specs.RefusalText.{refusal_text};

    ghost output = { λ refusal. Some (refusal_text refusal) };

    fn fmt<W: fmt::Write>(&self, f: &mut fmt::Formatter<W>) -> fmt::Result {
        let number = self.reason.number();
        let reason = self.reason;
        let place = self.place;
        let seen = self.seen;
        write!(f, "refused {number} {reason} at {place} seen {seen}")
    }
}

/// What stops a reader. The items that it gave before are those that the bytes before the fault spell.
#[derive(Clone, Copy, Debug, PartialEq, Eq)]
pub enum Fault {
    /// The bytes are no stream.
    Refused(Refusal),
    /// A read failed. The input counted it.
    Read,
    /// No memory was had.
    Memory,
    /// The reader met a fault before, and reads no more.
    Failed,
}

/// What stops a writer.
#[derive(Clone, Copy, Debug, PartialEq, Eq)]
pub enum WriteFault {
    /// The item doesn't continue the stream. Nothing of it went out, and the writer is as before.
    Refused(Reason),
    /// A write failed, and the output counted it. A prefix of the item may have gone out, and the writer writes no
    /// more.
    Write,
    /// No memory was had. Nothing of the item went out, and the writer is as before.
    Memory,
    /// A write failed before, and the writer writes no more.
    Failed,
}

/// What stopped the writing of a list of items.
#[derive(Clone, Copy, Debug, PartialEq, Eq)]
pub struct WriteStop {
    /// The place in the list of the item at which it stopped, from 0. The items before it went out whole.
    pub item: u64,
    /// What stopped it.
    pub fault: WriteFault,
}

impl From<Memory> for Fault {
    ghost use Rattle.std.specs.Prelude.{◌≡◌};
    ghost use Rattle.gob_stream.specs.declared.fault.Fault.TheVariants.{Memory};

    ghost from_gives = { λ _ fault. fault ≡ Memory };

    fn from(_: Memory) -> Fault {
        Fault::Memory
    }
}

impl From<Refusal> for Fault {
    ghost use Rattle.std.specs.Prelude.{◌≡◌};
    ghost use Rattle.gob_stream.specs.declared.fault.Fault.TheVariants.{Refused};

    ghost from_gives = { λ refusal fault. fault ≡ Refused refusal };

    fn from(refusal: Refusal) -> Fault {
        Fault::Refused(refusal)
    }
}

impl From<Memory> for WriteFault {
    ghost use Rattle.std.specs.Prelude.{◌≡◌};
    ghost use Rattle.gob_stream.specs.declared.fault.WriteFault.TheVariants.{Memory};

    ghost from_gives = { λ _ fault. fault ≡ Memory };

    fn from(_: Memory) -> WriteFault {
        WriteFault::Memory
    }
}

impl From<AllocError> for WriteFault {
    ghost use Rattle.std.specs.Prelude.{◌≡◌};
    ghost use Rattle.gob_stream.specs.declared.fault.WriteFault.TheVariants.{Memory};

    ghost from_gives = { λ _ fault. fault ≡ Memory };

    fn from(_: AllocError) -> WriteFault {
        WriteFault::Memory
    }
}
