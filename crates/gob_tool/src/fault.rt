//! What stops a run of the program.

ghost use Rattle.std.specs.Prelude.{◌≡◌};
ghost use Rattle.gob_tool.specs.Fault.{fault_status, wanted_fault};

use gob_match::{ClashReason, MatchFault, PathText, TypeStep};
use gob_num::Memory;
use gob_stream::{Fault, Refusal, WriteFault};
use std::fmt;

/// What stops a run. Display writes the line that the program prints, without the line feed.
#[derive(Drop)]
pub enum ToolFault {
    /// The input is no stream.
    Refused(Refusal),
    /// The stream that has the wanted type is none.
    Wanted(Refusal),
    /// The stream that should have the wanted type has no value.
    NoWantedType,
    /// The type of a value doesn't match the wanted type.
    Clash {
        /// The fewest steps from the two types to a pair of types whose shapes don't match.
        path: Vec<TypeStep>,
        /// Why they don't.
        reason: ClashReason,
    },
    /// A value has a field that isn't wanted, where all are to be.
    LeftOut {
        /// The steps to the field.
        path: Vec<TypeStep>,
        /// The value's number among the values of the stream, counted from 1.
        value: u64,
    },
    /// A read failed, or the input could not be opened.
    Read,
    /// A write or the flush at the end failed.
    Write,
    /// No memory was had.
    Memory,
}

impl fmt::Display for ToolFault {
    ghost use Rattle.std.specs.Prelude.{Some};
    ghost use Rattle.gob_tool.specs.Fault.{fault_line};

    ghost output = { λ fault. Some (fault_line fault) };

    fn fmt<W: fmt::Write>(&self, f: &mut fmt::Formatter<W>) -> fmt::Result {
        match self {
            ToolFault::Refused(refusal) => write!(f, "gob: {refusal}"),
            ToolFault::Wanted(refusal) => write!(f, "gob: wanted: {refusal}"),
            ToolFault::NoWantedType => write!(f, "gob: refused 35 NoWantedType"),
            ToolFault::Clash { path, reason } => {
                let number = reason.number();
                let path = PathText(path);
                write!(f, "gob: clash {number} {reason} at {path}")
            }
            ToolFault::LeftOut { path, value } => {
                let path = PathText(path);
                write!(f, "gob: value {value} has {path}, which isn't wanted")
            }
            ToolFault::Read => write!(f, "gob: read fault"),
            ToolFault::Write => write!(f, "gob: write fault"),
            ToolFault::Memory => write!(f, "gob: out of memory"),
        }
    }
}

impl From<Memory> for ToolFault {
    ghost use Rattle.std.specs.Prelude.{◌≡◌};
    ghost use Rattle.gob_tool.specs.declared.fault.ToolFault.TheVariants.{Memory};

    ghost from_gives = { λ _ fault. fault ≡ Memory };

    fn from(_: Memory) -> ToolFault {
        ToolFault::Memory
    }
}

impl From<Fault> for ToolFault {
    ghost use Rattle.std.specs.Prelude.{◌≡◌};
    ghost use Rattle.gob_tool.specs.Fault.{reading_fault};

    ghost from_gives = { λ given fault. fault ≡ reading_fault given };

    // A reader answers `Failed` behind a fault alone, where a run has ended.
    fn from(fault: Fault) -> ToolFault {
        match fault {
            Fault::Refused(refusal) => ToolFault::Refused(refusal),
            Fault::Read => ToolFault::Read,
            Fault::Memory | Fault::Failed => ToolFault::Memory,
        }
    }
}

impl From<WriteFault> for ToolFault {
    ghost use Rattle.std.specs.Prelude.{◌≡◌};
    ghost use Rattle.gob_tool.specs.Fault.{writing_fault};

    ghost from_gives = { λ given fault. fault ≡ writing_fault given };

    // What is written is refused by no limit, and a writer answers `Failed` behind a failed write alone.
    fn from(fault: WriteFault) -> ToolFault {
        match fault {
            WriteFault::Memory => ToolFault::Memory,
            WriteFault::Refused(_) | WriteFault::Write | WriteFault::Failed => ToolFault::Write,
        }
    }
}

impl From<MatchFault> for ToolFault {
    ghost use Rattle.std.specs.Prelude.{◌≡◌};
    ghost use Rattle.gob_tool.specs.Fault.{matching_fault};

    ghost from_gives = { λ given fault. fault ≡ matching_fault given };

    fn from(fault: MatchFault) -> ToolFault {
        match fault {
            MatchFault::Clash { path, reason } => ToolFault::Clash { path, reason },
            MatchFault::Memory => ToolFault::Memory,
        }
    }
}

/// The fault of a run whose reader of the wanted stream met this one first.
pub(crate) fn wanted_fault(fault: Fault) -> ToolFault
    ensures { result ≡ wanted_fault fault }
{
    match fault {
        Fault::Refused(refusal) => ToolFault::Wanted(refusal),
        Fault::Read => ToolFault::Read,
        Fault::Memory | Fault::Failed => ToolFault::Memory,
    }
}

/// The exit status of the program after this fault: 1 for an input that is refused, clashes, or has a field that isn't
/// wanted, 2 for the others.
pub fn status(fault: &ToolFault) -> u8
    ensures { result ≡ fault_status fault.now }
{
    match fault {
        ToolFault::Refused(_)
        | ToolFault::Wanted(_)
        | ToolFault::NoWantedType
        | ToolFault::Clash { .. }
        | ToolFault::LeftOut { .. } => 1,
        ToolFault::Read | ToolFault::Write | ToolFault::Memory => 2,
    }
}
