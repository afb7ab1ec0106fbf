//! What stops the run.

ghost use Rattle.std.specs.Prelude.{◌≡◌};
ghost use Rattle.gob_write.specs.Faults.{IsDueAt, IsWrongAt, IsWrongIn, fault_status};

use crate::place::Place;
use gob_lines::{Due, PathStep, Wrong, path_text};
use gob_num::Memory;
use gob_stream::{Fault, WriteFault};
use gob_types::Reason;
use std::alloc::Global;
use std::fmt;

/// What stops the writing of the stream of some lines. Display writes the line that the program prints, without the
/// line feed and with no character that a terminal obeys.
#[derive(Drop)]
pub enum LinesFault {
    /// This line says no item by the types of those before.
    Wrong {
        /// The line, from 1.
        line: u64,
        /// The column, in bytes from 1.
        column: u64,
        /// The path to there in the value, empty at the value itself and outside of it.
        path: String,
        /// What is due there.
        due: Due,
    },
    /// The item of this line continues no stream.
    Refused {
        /// The line, from 1, or 0 for a definition in front of the values of plain JSON.
        line: u64,
        /// Why it doesn't.
        reason: Reason,
    },
    /// This line is longer than the limit for lines.
    TooLong {
        /// The line, from 1.
        line: u64,
        /// The most bytes that it may have, with its line feed.
        most: u64,
    },
    /// A read failed.
    Read,
    /// A write or a flush failed.
    Write,
    /// No memory was had.
    Memory,
}

impl LinesFault {
    /// That of the line of this number with which this is wrong.
    pub(crate) fn wrong(alloc: Global, line: u64, wrong: Wrong) -> LinesFault
        ensures { IsWrongAt line result }
    {
        let Wrong { at, due, path } = wrong;
        let column = (at as u64).saturating_add(1);
        LinesFault::due(alloc, Place { line, column }, due, path)
    }

    /// That of the text that begins at this place with which this is wrong.
    pub(crate) fn wrong_in(alloc: Global, start: Place, text: &[u8], wrong: Wrong) -> LinesFault
        ensures { IsWrongIn start text.now result }
    {
        let Wrong { at, due, path } = wrong;
        let front = &text[..at.min(text.len())];
        LinesFault::due(alloc, start.behind(front), due, path)
    }

    // That of a place where this is due, behind these steps.
    fn due(alloc: Global, place: Place, due: Due, path: Vec<PathStep>) -> LinesFault
        ensures { IsDueAt place result }
    {
        let Place { line, column } = place;
        match path_text(alloc, &path) {
            Ok(path) => LinesFault::Wrong {
                line,
                column,
                path,
                due,
            },
            Err(Memory) => LinesFault::Memory,
        }
    }

    /// The exit status of the program after it: 1 for lines that are no stream, 2 for all else.
    pub fn status(&self) -> u8
        ensures { result ≡ fault_status self.now }
    {
        match self {
            LinesFault::Wrong { .. } | LinesFault::Refused { .. } | LinesFault::TooLong { .. } => 1,
            LinesFault::Read | LinesFault::Write | LinesFault::Memory => 2,
        }
    }
}

impl fmt::Display for LinesFault {
    fn fmt<W: fmt::Write>(&self, f: &mut fmt::Formatter<W>) -> fmt::Result {
        match self {
            LinesFault::Wrong {
                line,
                column,
                path,
                due,
            } => {
                write!(f, "gob: line {line}, column {column}")?;
                if !path.is_empty() {
                    write!(f, ", at {path}")?;
                }
                write!(f, ": {due} is due")
            }
            LinesFault::Refused { line, reason } => {
                let number = reason.number();
                if *line == 0 {
                    return write!(f, "gob: types: refused {number} {reason}");
                }
                write!(f, "gob: line {line}: refused {number} {reason}")
            }
            LinesFault::TooLong { line, most } => {
                write!(f, "gob: line {line}: more than {most} bytes")
            }
            LinesFault::Read => write!(f, "gob: read fault"),
            LinesFault::Write => write!(f, "gob: write fault"),
            LinesFault::Memory => write!(f, "gob: out of memory"),
        }
    }
}

impl From<Memory> for LinesFault {
    ghost use Rattle.std.specs.Prelude.{◌≡◌};
    ghost use Rattle.gob_write.specs.declared.fault.LinesFault.TheVariants.{Memory};

    ghost from_gives = { λ _ fault. fault ≡ Memory };

    fn from(_: Memory) -> LinesFault {
        LinesFault::Memory
    }
}

impl From<Fault> for LinesFault {
    ghost use Rattle.std.specs.Prelude.{◌≡◌};
    ghost use Rattle.gob_write.specs.Faults.{reading_fault};

    ghost from_gives = { λ given fault. fault ≡ reading_fault given };

    // Reading bytes alone refuses nothing.
    fn from(fault: Fault) -> LinesFault {
        match fault {
            Fault::Read => LinesFault::Read,
            Fault::Memory | Fault::Refused(_) | Fault::Failed => LinesFault::Memory,
        }
    }
}
