//! What is said of some files.

ghost use Rattle.std.specs.Prelude.{◌≡◌};
ghost use Rattle.gob.specs.Exit.{EndsWith};
ghost use Rattle.gob.specs.Verdicts.{verdict_of, verdict_status, worse};

use crate::Exit;
use gob_tool::ToolFault;

/// What was said of a file, or of the worst of some.
#[derive(Clone, Copy, Debug, PartialEq, Eq)]
pub(crate) enum Verdict {
    /// It is a whole stream.
    Whole,
    /// It is refused.
    Refused,
    /// It wasn't opened, or a read failed.
    NotRead,
}

impl Verdict {
    /// What a check that answered so said of the file.
    pub(crate) fn of(answer: &Result<(), ToolFault>) -> Verdict
        ensures { result ≡ verdict_of answer.now }
    {
        match answer {
            Ok(()) => Verdict::Whole,
            Err(ToolFault::Refused(_)) => Verdict::Refused,
            Err(_) => Verdict::NotRead,
        }
    }

    /// The exit status behind it.
    pub(crate) fn status(self) -> u8
        ensures { result ≡ verdict_status self }
    {
        match self {
            Verdict::Whole => 0,
            Verdict::Refused => 1,
            Verdict::NotRead => 2,
        }
    }

    /// The worse of the two.
    pub(crate) fn or(self, other: Verdict) -> Verdict
        ensures { result ≡ worse self other }
    {
        match (self, other) {
            (Verdict::NotRead, _) | (_, Verdict::NotRead) => Verdict::NotRead,
            (Verdict::Refused, _) | (_, Verdict::Refused) => Verdict::Refused,
            (Verdict::Whole, Verdict::Whole) => Verdict::Whole,
        }
    }

    /// How the program ends where this was said of the worst file.
    pub(crate) fn ending(self) -> Result<(), Exit>
        ensures { EndsWith self result }
    {
        match self {
            Verdict::Whole => Ok(()),
            Verdict::Refused | Verdict::NotRead => Err(Exit::Verified(self)),
        }
    }
}
