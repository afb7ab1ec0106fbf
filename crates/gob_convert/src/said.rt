//! What is said of renames that ask for nothing, each without the words by which they were given.

use gob_rename::{Misfit, WordFault};
use std::fmt;

/// A word that doesn't fit the wanted types. Display writes it, and why it doesn't.
#[derive(Clone, Copy, Debug)]
pub struct MisfitText<'a> {
    /// The word.
    pub word: &'a str,
    /// Why it doesn't fit.
    pub misfit: Misfit,
}

impl fmt::Display for MisfitText<'_> {
    fn fmt<W: fmt::Write>(&self, f: &mut fmt::Formatter<W>) -> fmt::Result {
        let word = self.word;
        let field = WantedField(word);
        match self.misfit {
            Misfit::NoField => write!(f, "{word}: the wanted type has no field {field}"),
            Misfit::OldNameTaken => write!(
                f,
                "{word}: the wanted type has the field {field}, and one of the old name beside it"
            ),
        }
    }
}

// The wanted field of which the word tells, behind the name of its struct if that is said.
#[derive(Clone, Copy)]
struct WantedField<'a>(&'a str);

impl fmt::Display for WantedField<'_> {
    fn fmt<W: fmt::Write>(&self, f: &mut fmt::Formatter<W>) -> fmt::Result {
        let (place, new) = self.0.split_once('=').unwrap_or(("", self.0));
        match place.rsplit_once('.') {
            Some((of, _)) => write!(f, "{of}.{new}"),
            None => f.write_str(new),
        }
    }
}

/// Why a word says nothing of a field, as Display writes it.
#[derive(Clone, Copy, Debug)]
pub struct WordText(pub WordFault);

impl fmt::Display for WordText {
    fn fmt<W: fmt::Write>(&self, f: &mut fmt::Formatter<W>) -> fmt::Result {
        f.write_str(match self.0 {
            WordFault::NoEqualsSign => "no = between two names",
            WordFault::EmptyName => "a name is empty",
        })
    }
}
