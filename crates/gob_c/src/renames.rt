//! The fields that have another name in a stream, as C says them: words of which each ends before a byte 0.

ghost use Rattle.std.specs.Prelude.{◌≡◌, IfOk, MatchResult, map};
ghost use Rattle.gob_c.specs.Renames.{AreWordsIn, AsksRenames, IsRenamesFault};

use gob_convert::WordText;
use gob_num::Memory;
use gob_rename::{Rename, WordFault, WordsFault, renames_said_by};
use std::alloc::Global;
use std::fmt;

/// What words say of fields.
pub(crate) struct Renames<'a> {
    pub(crate) words: Vec<&'a str>,
    /// What each of them says.
    pub(crate) renames: Vec<Rename<'a>>,
}

// Not derived, so that a drop is one call in the proofs of what owns one.
impl Drop for Renames<'_> {
    fn drop(self) {
        let Renames {
            words: _,
            renames: _,
        } = self;
    }
}

/// Why bytes say no such words. Display writes the line that is said of it, without the line feed.
#[derive(Clone, Copy)]
pub(crate) enum RenamesFault<'a> {
    /// They aren't UTF-8.
    NotUtf8,
    /// A word says nothing of a field: no earlier one.
    Word {
        /// The word.
        word: &'a str,
        /// Why.
        fault: WordFault,
    },
    /// No memory was had.
    Memory,
}

impl fmt::Display for RenamesFault<'_> {
    fn fmt<W: fmt::Write>(&self, f: &mut fmt::Formatter<W>) -> fmt::Result {
        match self {
            RenamesFault::NotUtf8 => write!(f, "gob: a rename isn't UTF-8"),
            RenamesFault::Word { word, fault } => {
                let why = WordText(*fault);
                write!(f, "gob: rename {word}: {why}")
            }
            RenamesFault::Memory => write!(f, "gob: out of memory"),
        }
    }
}

impl<'a> From<Memory> for RenamesFault<'a> {
    ghost use Rattle.std.specs.Prelude.{◌≡◌};
    ghost use Rattle.gob_c.specs.declared.renames.RenamesFault.TheVariants as fault;

    ghost from_gives = { λ _ given. given ≡ fault.Memory };

    fn from(_: Memory) -> RenamesFault<'a> {
        RenamesFault::Memory
    }
}

/// What the words in these bytes say.
pub(crate) fn renames_in<'a>(
    alloc: Global,
    bytes: &'a [u8],
) -> Result<Renames<'a>, RenamesFault<'a>>
    ensures { MatchResult result (λ said. AsksRenames bytes.now said.renames.items) (IsRenamesFault bytes.now) }
{
    let text = text_of(bytes)?;
    let words = words_in(alloc, text)?;
    match renames_said_by(alloc, &words) {
        Ok(renames) => Ok(Renames { words, renames }),
        Err(WordsFault::Memory) => Err(RenamesFault::Memory),
        Err(WordsFault::Word { number, fault }) => Err(RenamesFault::Word {
            word: words[number],
            fault,
        }),
    }
}

// The text that the bytes are.
fn text_of<'a>(bytes: &'a [u8]) -> Result<&'a str, RenamesFault<'a>>
    ensures { MatchResult result (λ text. text.now ≡ bytes.now) (IsRenamesFault bytes.now) }
{
    match str::from_utf8(bytes) {
        Ok(text) => Ok(text),
        Err(_) => Err(RenamesFault::NotUtf8),
    }
}

// The words in the text.
fn words_in<'a>(alloc: Global, text: &'a str) -> Result<Vec<&'a str>, Memory>
    ensures { IfOk result (λ words. AreWordsIn text.now (map (λ word. word.now) words.items)) }
{
    let mut rest = text;
    let mut words = Vec::new(alloc);
    'words: while let Some((word, behind)) = rest.split_once('\0') {
        words.push(word)?;
        rest = behind;
    }
    Ok(words)
}
