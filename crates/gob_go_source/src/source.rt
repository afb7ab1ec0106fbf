//! What source declares.

ghost use Rattle.std.specs.Prelude.{◌≡◌, IfOk, None, length, min, take};
ghost use Rattle.std.specs.Str.{IsUtf8};
ghost use Rattle.gob_go_source.specs.Source.{SaysText, position_behind};

use crate::declarations::{GoSource, declared_by};
use crate::fault::{Due, Fault};
use crate::lexer::{LexFault, tokens_in};
use std::alloc::Global;
use std::{fmt, str};

/// A place in source.
#[derive(Clone, Copy)]
pub struct Position {
    /// The line, from 1.
    pub line: usize,
    /// The byte of the line, from 1.
    pub column: usize,
}

/// Why source isn't read.
#[derive(Clone, Copy)]
pub enum SourceFault {
    /// What stands at this place isn't what is due there.
    Wrong(Position, Due),
    /// Memory is wanting.
    Memory,
}

impl fmt::Display for SourceFault {
    fn fmt<W: fmt::Write>(&self, f: &mut fmt::Formatter<W>) -> fmt::Result {
        match self {
            SourceFault::Wrong(place, due) => {
                write!(
                    f,
                    "line {}, column {}: {due} is due",
                    place.line, place.column
                )
            }
            SourceFault::Memory => f.write_str("out of memory"),
        }
    }
}

/// What source declares: its types, each by its parts.
pub fn declared_in<'a>(alloc: Global, text: &'a [u8]) -> Result<GoSource<'a>, SourceFault>
    ensures { IfOk result (λ s. SaysText text.now s.types.items s.declarations.items) }
{
    if let Some(offset) = no_text_at(text) {
        return Err(SourceFault::Wrong(position_of(text, offset), Due::Text));
    }
    let lexed = match tokens_in(alloc, text) {
        Ok(lexed) => lexed,
        Err(fault) => return Err(of_piece(text, fault)),
    };
    match declared_by(alloc, lexed.tokens.as_slice()) {
        Ok(source) => Ok(source),
        Err(fault) => Err(of_token(text, lexed.offsets.as_slice(), fault)),
    }
}

// Where bytes begin that are no UTF-8.
fn no_text_at(text: &[u8]) -> Option<usize>
    ensures { result ≡ None → IsUtf8 text.now }
{
    match str::from_utf8(text) {
        Ok(_) => None,
        Err(fault) => Some(fault.valid_up_to()),
    }
}

// The fault of a piece of the text that has no end.
fn of_piece(text: &[u8], fault: LexFault) -> SourceFault {
    match fault {
        LexFault::Endless(offset) => SourceFault::Wrong(position_of(text, offset), Due::End),
        LexFault::Memory => SourceFault::Memory,
    }
}

// The fault of a token of the text, of those that begin at these offsets. Behind the last the text is over.
fn of_token(text: &[u8], offsets: &[usize], fault: Fault) -> SourceFault {
    match fault {
        Fault::Wrong(wrong) => {
            let offset = offsets.get(wrong.place).copied().unwrap_or(text.len());
            SourceFault::Wrong(position_of(text, offset), wrong.due)
        }
        Fault::Memory => SourceFault::Memory,
    }
}

/// The place of the byte at this offset of the text, or behind the text where that is shorter.
pub fn position_of(text: &[u8], offset: usize) -> Position
    ensures { result ≡ position_behind (take (min offset (length text.now)) text.now) }
{
    position_behind(&text[..offset.min(text.len())])
}

// The place behind the text.
fn position_behind(text: &[u8]) -> Position
    ensures { result ≡ position_behind text.now }
{
    let mut place = Position { line: 1, column: 1 };
    for byte in text {
        place = if *byte == b'\n' {
            Position {
                line: place.line + 1,
                column: 1,
            }
        } else {
            Position {
                line: place.line,
                column: place.column + 1,
            }
        };
    }
    place
}
