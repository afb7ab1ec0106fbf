//! The piece of source that stands first.

ghost use Rattle.std.specs.Prelude.{◌≡◌, ◌≤◌, ◌<◌, length, IfSome};
ghost use Rattle.gob_go_source.specs.Lexing.{front, pair_start, piece_of, quoted_by, scan_of, single_start, start_of};

use crate::scan::{Scan, end_of, is_blank, is_letter_byte};

/// What a piece of source is.
#[derive(Clone, Copy)]
pub(crate) enum Piece {
    /// Blanks.
    Blank,
    /// The end of a line.
    LineEnd,
    /// A comment.
    Comment,
    /// A name or a keyword.
    Word,
    /// A number.
    Number,
    /// A string, or a character in quotes.
    Text,
    /// The arrow of a channel.
    Arrow,
    /// Anything else: a bracket, a sign.
    Sign,
}

/// The piece that stands first.
#[derive(Clone, Copy)]
pub(crate) struct Front {
    /// What it is.
    pub piece: Piece,
    /// How many bytes it has.
    pub len: usize,
}

/// How a piece begins.
#[derive(Clone, Copy)]
pub(crate) struct Start {
    /// What it is.
    pub piece: Piece,
    /// How many bytes say so.
    pub len: usize,
    /// How it goes on behind them.
    pub scan: Scan,
}

/// The piece that stands first in the text, if there is one and it ends.
pub(crate) fn front_of(text: &[u8]) -> Option<Front>
    ensures front { result ≡ front text.now }
    ensures within { IfSome result (λ f. f.len ≤ length text.now) }
    ensures some { IfSome result (λ f. 0 < f.len) }
{
    let start = start_of(text)?;
    let behind = &text[start.len..];
    let count = end_of(start.scan, behind)?;
    Some(Front {
        piece: start.piece,
        len: start.len + count,
    })
}

// How the text begins.
fn start_of(text: &[u8]) -> Option<Start>
    ensures start { result ≡ start_of text.now }
    ensures within { IfSome result (λ s. s.len ≤ length text.now) }
    ensures some { IfSome result (λ s. 0 < s.len) }
{
    match text {
        [] => None,
        [only] => Some(single_start(*only)),
        [first, second, ..] => Some(pair_start(*first, *second).unwrap_or(single_start(*first))),
    }
}

// How a piece begins with these bytes, where it takes both to say so.
fn pair_start(first: u8, second: u8) -> Option<Start>
    ensures start { result ≡ pair_start first second }
    ensures len { IfSome result (λ s. s.len ≡ 2) }
{
    if first == b'/' && second == b'/' {
        return Some(two_bytes(Piece::Comment, Scan::Line));
    }
    if first == b'/' && second == b'*' {
        return Some(two_bytes(Piece::Comment, Scan::Block { star: false }));
    }
    if first == b'<' && second == b'-' {
        return Some(two_bytes(Piece::Arrow, Scan::Nothing));
    }
    None
}

// How a piece begins that takes two bytes to say so.
fn two_bytes(piece: Piece, scan: Scan) -> Start
    ensures { result ≡ record { piece = piece; len = 2; scan = scan } }
{
    Start {
        piece,
        len: 2,
        scan,
    }
}

// How a piece begins with this byte, where it alone says so.
fn single_start(first: u8) -> Start
    ensures { result ≡ single_start first }
{
    let piece = piece_of(first);
    Start {
        piece,
        len: 1,
        scan: scan_of(first, piece),
    }
}

// What else begins with the byte.
fn piece_of(first: u8) -> Piece
    ensures { result ≡ piece_of first }
{
    if is_blank(first) {
        Piece::Blank
    } else if first == b'\n' {
        Piece::LineEnd
    } else if first.is_ascii_digit() {
        Piece::Number
    } else if is_letter_byte(first) {
        Piece::Word
    } else if first == b'"' || first == b'\'' || first == b'`' {
        Piece::Text
    } else {
        Piece::Sign
    }
}

// How such a piece goes on.
fn scan_of(first: u8, piece: Piece) -> Scan
    ensures { result ≡ scan_of first piece }
{
    match piece {
        Piece::Blank => Scan::Blanks,
        Piece::Number => Scan::Word,
        Piece::Word => Scan::Word,
        Piece::Text => quoted_by(first),
        _ => Scan::Nothing,
    }
}

// How a string or a character goes on behind its mark.
fn quoted_by(quote: u8) -> Scan
    ensures { result ≡ quoted_by quote }
{
    if quote == b'`' {
        return Scan::Raw;
    }
    Scan::Quoted {
        quote,
        escaped: false,
    }
}
