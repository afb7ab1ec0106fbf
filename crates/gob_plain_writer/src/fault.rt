//! What stops a writer.

ghost use Rattle.std.specs.Prelude.{◌≡◌};
ghost use Rattle.gob_plain_writer.specs.Faults.{IsWrong};

use gob_lines::{Due, LineFault, Wrong, path_text};
use gob_num::Memory;
use gob_stream::WriteFault;
use gob_types::Reason;
use gob_write::{SourceTypesFault, TypesFault};
use std::alloc::Global;
use std::fmt;

/// Why there is no writer. Display writes the line that `gob make` prints, without the line feed. A name of the source
/// that stands there may have characters that a terminal obeys, which `gob make` escapes.
#[derive(Clone, Copy)]
pub enum OpenFault<'a> {
    /// The Go source gives no types.
    Source(SourceTypesFault<'a>),
    /// The stream gives none, as it is none itself, or has no value, or no type of the wanted name.
    Types(TypesFault),
    /// A definition continues no stream.
    Refused(Reason),
    /// No memory was had.
    Memory,
}

impl fmt::Display for OpenFault<'_> {
    fn fmt<W: fmt::Write>(&self, f: &mut fmt::Formatter<W>) -> fmt::Result {
        match self {
            OpenFault::Source(fault) => write!(f, "{fault}"),
            OpenFault::Types(fault) => write!(f, "{fault}"),
            OpenFault::Refused(reason) => {
                let number = reason.number();
                write!(f, "gob: types: refused {number} {reason}")
            }
            OpenFault::Memory => f.write_str("gob: out of memory"),
        }
    }
}

impl<'a> From<Memory> for OpenFault<'a> {
    ghost use Rattle.std.specs.Prelude.{◌≡◌};
    ghost use Rattle.gob_plain_writer.specs.declared.fault.OpenFault.TheVariants.{Memory};

    ghost from_gives = { λ _ fault. fault ≡ Memory };

    fn from(_: Memory) -> OpenFault<'a> {
        OpenFault::Memory
    }
}

impl<'a> From<SourceTypesFault<'a>> for OpenFault<'a> {
    ghost use Rattle.std.specs.Prelude.{◌≡◌};
    ghost use Rattle.gob_plain_writer.specs.Faults.{of_source_fault};

    ghost from_gives = { λ given fault. fault ≡ of_source_fault given };

    fn from(fault: SourceTypesFault<'a>) -> OpenFault<'a> {
        match fault {
            SourceTypesFault::Memory => OpenFault::Memory,
            other => OpenFault::Source(other),
        }
    }
}

impl<'a> From<TypesFault> for OpenFault<'a> {
    ghost use Rattle.std.specs.Prelude.{◌≡◌};
    ghost use Rattle.gob_plain_writer.specs.Faults.{of_types_fault};

    ghost from_gives = { λ given fault. fault ≡ of_types_fault given };

    // Bytes in memory are read without a fault of their own.
    fn from(fault: TypesFault) -> OpenFault<'a> {
        match fault {
            TypesFault::Memory | TypesFault::Read => OpenFault::Memory,
            other => OpenFault::Types(other),
        }
    }
}

impl<'a> From<WriteFault> for OpenFault<'a> {
    ghost use Rattle.std.specs.Prelude.{◌≡◌};
    ghost use Rattle.gob_plain_writer.specs.Faults.{opening_fault};

    ghost from_gives = { λ given fault. fault ≡ opening_fault given };

    // A write into memory fails for want of it.
    fn from(fault: WriteFault) -> OpenFault<'a> {
        match fault {
            WriteFault::Refused(reason) => OpenFault::Refused(reason),
            WriteFault::Write | WriteFault::Memory | WriteFault::Failed => OpenFault::Memory,
        }
    }
}

/// Why a text's value isn't written. Display writes the line that `gob make` prints, but for the number of the line,
/// without a line feed and with no character that a terminal obeys.
#[derive(Drop)]
pub enum PutFault {
    /// The text says no value of the wanted type. The writer is as before.
    Wrong {
        /// The byte of the text at which something else is due, from 1.
        column: u64,
        /// The path to there in the value, empty at the value itself and outside of it.
        path: String,
        /// What is due there.
        due: Due,
    },
    /// The value doesn't continue the stream. The writer is as before.
    Refused(Reason),
    /// No memory was had. Nothing of the value is written. The writer is as before, or writes no more: then it answers
    /// `Failed` from here on.
    Memory,
    /// There was no memory before for what was to be written, and the writer writes no more.
    Failed,
}

impl PutFault {
    /// That of a text of which reading it answered this.
    pub(crate) fn of_text(alloc: Global, fault: LineFault) -> PutFault
        ensures { IsWrong result }
    {
        match fault {
            LineFault::Wrong(wrong) => PutFault::wrong(alloc, wrong),
            LineFault::Memory => PutFault::Memory,
        }
    }

    // That of a text with which this is wrong.
    fn wrong(alloc: Global, wrong: Wrong) -> PutFault
        ensures { IsWrong result }
    {
        let Wrong { at, due, path } = wrong;
        let column = (at as u64).saturating_add(1);
        match path_text(alloc, &path) {
            Ok(path) => PutFault::Wrong { column, path, due },
            Err(Memory) => PutFault::Memory,
        }
    }
}

impl fmt::Display for PutFault {
    fn fmt<W: fmt::Write>(&self, f: &mut fmt::Formatter<W>) -> fmt::Result {
        match self {
            PutFault::Wrong { column, path, due } => {
                write!(f, "gob: column {column}")?;
                if !path.is_empty() {
                    write!(f, ", at {path}")?;
                }
                write!(f, ": {due} is due")
            }
            PutFault::Refused(reason) => {
                let number = reason.number();
                write!(f, "gob: refused {number} {reason}")
            }
            PutFault::Memory => f.write_str("gob: out of memory"),
            PutFault::Failed => f.write_str("gob: out of memory before"),
        }
    }
}

impl From<WriteFault> for PutFault {
    ghost use Rattle.std.specs.Prelude.{◌≡◌};
    ghost use Rattle.gob_plain_writer.specs.Faults.{putting_fault};

    ghost from_gives = { λ given fault. fault ≡ putting_fault given };

    // A write into memory fails for want of it.
    fn from(fault: WriteFault) -> PutFault {
        match fault {
            WriteFault::Refused(reason) => PutFault::Refused(reason),
            WriteFault::Write | WriteFault::Memory => PutFault::Memory,
            WriteFault::Failed => PutFault::Failed,
        }
    }
}
