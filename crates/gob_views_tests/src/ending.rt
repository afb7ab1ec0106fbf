//! How a run ended.

use gob_tool::ToolFault;

/// How a run ended.
#[derive(Clone, Copy, PartialEq, Eq)]
pub(crate) enum Ending {
    Whole,
    Refused,
    Read,
    Write,
    Other,
}

/// How a run ended that answered so.
pub(crate) fn ending_of(ended: Result<(), ToolFault>) -> Ending {
    match ended {
        Ok(()) => Ending::Whole,
        Err(ToolFault::Refused(_)) => Ending::Refused,
        Err(ToolFault::Read) => Ending::Read,
        Err(ToolFault::Write) => Ending::Write,
        Err(_) => Ending::Other,
    }
}
