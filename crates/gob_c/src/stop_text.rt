//! What is said of a conversion that stopped.

use gob_convert::{ConvertFault, MisfitText};
use std::fmt;

/// Why a conversion with these words for its renames stopped. Display writes the line that is said of it, without the
/// line feed.
#[derive(Clone, Copy)]
pub(crate) struct StopText<'a> {
    pub(crate) fault: &'a ConvertFault,
    pub(crate) words: &'a [&'a str],
}

impl fmt::Display for StopText<'_> {
    fn fmt<W: fmt::Write>(&self, f: &mut fmt::Formatter<W>) -> fmt::Result {
        match self.fault {
            ConvertFault::Run(fault) => write!(f, "{fault}"),
            ConvertFault::Clash(clash) => write!(f, "gob: {clash}"),
            ConvertFault::Full(reason) => write!(f, "gob: no more goes into one stream: {reason}"),
            ConvertFault::Misfits { number, misfit } => {
                let word = self.words.get(*number).copied().unwrap_or("");
                let why = MisfitText {
                    word,
                    misfit: *misfit,
                };
                write!(f, "gob: rename {why}")
            }
        }
    }
}
