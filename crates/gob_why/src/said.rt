//! What is said of a stream that is held in memory.

ghost use Rattle.std.specs.Prelude.{◌≡◌, IfOk};
ghost use Rattle.gob_why.specs.Said.{AnswersSo};

use gob_num::Memory;
use gob_stream::Refusal;
use gob_tool::ToolFault;

/// What a run wrote of a stream that is held in memory.
#[derive(Drop)]
pub struct Said {
    /// The refusal of the stream; None of a whole one.
    pub refusal: Option<Refusal>,
    /// The lines about it, in UTF-8.
    pub text: Vec<u8>,
}

impl Said {
    /// What was written by a run that answered this. A slice is read and a vector is written without a fault of their
    /// own, so another fault is want of memory.
    pub fn of(answer: Result<(), ToolFault>, text: Vec<u8>) -> Result<Said, Memory>
        ensures refusal { IfOk result (λ said. AnswersSo answer said.refusal) }
        ensures text { IfOk result (λ said. said.text ≡ text) }
    {
        match answer {
            Ok(()) => Ok(Said {
                refusal: None,
                text,
            }),
            Err(ToolFault::Refused(refusal)) => Ok(Said {
                refusal: Some(refusal),
                text,
            }),
            Err(_) => Err(Memory),
        }
    }
}
