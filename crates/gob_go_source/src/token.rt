//! Tokens of Go source.

use gob_types::Marshal;

/// A keyword, a bracket or a sign that has a meaning among types.
#[derive(Clone, Copy, PartialEq, Eq)]
pub enum Mark {
    /// `package`
    Package,
    /// `import`
    Import,
    /// `func`
    Func,
    /// `struct`
    Struct,
    /// `map`
    Map,
    /// `interface`
    Interface,
    /// `chan`
    Chan,
    /// `<-`
    Arrow,
    /// `{`
    OpenBrace,
    /// `}`
    CloseBrace,
    /// `[`
    OpenBracket,
    /// `]`
    CloseBracket,
    /// `(`
    Open,
    /// `)`
    Close,
    /// `*`
    Star,
    /// `,`
    Comma,
    /// `.`
    Dot,
    /// `=`
    Equals,
    /// `;`, or the end of a line where Go puts one
    Stop,
    /// Anything else.
    Other,
}

impl Mark {
    // What people write for it.
    pub(crate) fn words(self) -> &'static str {
        match self {
            Mark::Package => "package",
            Mark::Import => "import",
            Mark::Func => "func",
            Mark::Struct => "struct",
            Mark::Map => "map",
            Mark::Interface => "interface",
            Mark::Chan => "chan",
            Mark::Arrow => "<-",
            Mark::OpenBrace => "{",
            Mark::CloseBrace => "}",
            Mark::OpenBracket => "[",
            Mark::CloseBracket => "]",
            Mark::Open => "(",
            Mark::Close => ")",
            Mark::Star => "*",
            Mark::Comma => ",",
            Mark::Dot => ".",
            Mark::Equals => "=",
            Mark::Stop => "the end of the line",
            Mark::Other => "another sign",
        }
    }
}

/// What the comment in front of a declaration says of its type, as `gob types` writes it.
#[derive(Clone, Copy)]
pub struct Note {
    /// The type's number in the stream.
    pub id: Option<u64>,
    /// By which method its values encode themselves, where they do.
    pub marshal: Option<Marshal>,
}

impl Note {
    /// What no comment says.
    pub const NONE: Note = Note {
        id: None,
        marshal: None,
    };
}

/// A token of Go source.
#[derive(Clone, Copy)]
pub enum Token<'a> {
    /// An identifier.
    Name(&'a [u8]),
    /// A whole number in decimal.
    Number(u64),
    /// A string in either kind of quotes.
    Text,
    /// `type`, with what the comment in front of it says.
    Type(Note),
    /// A keyword, a bracket or a sign.
    Mark(Mark),
}
