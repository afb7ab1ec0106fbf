//! What ends the program.

use std::alloc::{AllocError, AllocFailed};
use std::{fmt, io};

/// What ends the program with a line on standard error.
#[derive(Drop)]
pub(crate) enum Fault {
    /// The input is no list of vectors.
    Vector,
    /// A read or a write failed.
    System,
    /// No memory was had.
    Memory,
}

impl fmt::Display for Fault {
    fn fmt<W: fmt::Write>(&self, f: &mut fmt::Formatter<W>) -> fmt::Result {
        match self {
            Fault::Vector => write!(f, "the input is no list of vectors"),
            Fault::System => write!(f, "a read or a write failed"),
            Fault::Memory => write!(f, "out of memory"),
        }
    }
}

impl From<AllocError> for Fault {
    fn from(_: AllocError) -> Fault {
        Fault::Memory
    }
}

impl<T: Drop> From<AllocFailed<T>> for Fault {
    fn from(_: AllocFailed<T>) -> Fault {
        Fault::Memory
    }
}

impl From<io::Error> for Fault {
    fn from(_: io::Error) -> Fault {
        Fault::System
    }
}
