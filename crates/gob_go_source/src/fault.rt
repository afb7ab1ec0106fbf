//! What is wrong with source, and where.

ghost use Rattle.std.specs.Prelude.{◌≡◌};

use crate::token::Mark;
use std::alloc::AllocError;
use std::fmt;

/// What is due where the source says something else.
#[derive(Clone, Copy)]
pub enum Due {
    /// UTF-8.
    Text,
    /// The bracket that closes one that is open.
    Closing,
    /// The end of a string or a comment.
    End,
    /// A type, whose values gob can encode.
    Type,
    /// No deeper type.
    Shallower,
    /// `type`, `package`, `import` or `func`.
    Declaration,
    /// A name.
    Name,
    /// The length of an array in decimal, or the bracket that closes a slice's.
    Length,
    /// This keyword, bracket or sign.
    Mark(Mark),
}

impl fmt::Display for Due {
    fn fmt<W: fmt::Write>(&self, f: &mut fmt::Formatter<W>) -> fmt::Result {
        f.write_str(self.words())
    }
}

impl Due {
    // What is due in words.
    fn words(self) -> &'static str {
        match self {
            Due::Text => "UTF-8",
            Due::Closing => "the closing bracket",
            Due::End => "the end of this string or comment",
            Due::Type => "a type",
            Due::Shallower => "a type that is less deep",
            Due::Declaration => "type, package, import or func",
            Due::Name => "a name",
            Due::Length => "the length of an array, or ]",
            Due::Mark(mark) => mark.words(),
        }
    }
}

/// What is wrong, and where.
#[derive(Clone, Copy)]
pub struct Wrong {
    /// The place of the wrong token among the tokens, from 0: how many there are where it is the end.
    pub place: usize,
    /// What is due in its place.
    pub due: Due,
}

/// Why source isn't read.
#[derive(Clone, Copy)]
pub enum Fault {
    /// A token isn't the one that is due.
    Wrong(Wrong),
    /// Memory is wanting.
    Memory,
}

impl From<AllocError> for Fault {
    ghost use Rattle.gob_go_source.specs.declared.fault.Fault.TheVariants as fault;

    ghost from_gives = { λ e r. r ≡ fault.Memory };

    fn from(_: AllocError) -> Fault {
        Fault::Memory
    }
}
