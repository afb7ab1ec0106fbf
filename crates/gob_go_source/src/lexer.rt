//! Source as tokens.

ghost use Rattle.std.specs.Prelude.{◌≡◌, ◌++◌, [], IfOk, OnOk, length, replicate};
ghost use Rattle.gob_go_source.specs.declared.lexer.Ahead.{Ahead};
ghost use Rattle.gob_go_source.specs.Lexing.{Gives, IsNumber, Lexes, Noted, ahead_behind, ends_line, has_line_end};
ghost use Rattle.gob_go_source.specs.Lexing.{nothing_ahead, sign, sign_of, stop_if, tokens_of};

use crate::note::note_of;
use crate::number::number_of;
use crate::piece::{Piece, front_of};
use crate::token::{Mark, Note, Token};
use crate::word::word_token;
use std::alloc::{AllocError, Global};

/// Why source isn't cut into tokens.
#[derive(Clone, Copy)]
pub enum LexFault {
    /// The string or the comment at this offset has no end.
    Endless(usize),
    /// Memory is wanting.
    Memory,
}

impl From<AllocError> for LexFault {
    ghost use Rattle.gob_go_source.specs.declared.lexer.LexFault.TheVariants as lex_fault;

    ghost from_gives = { λ e r. r ≡ lex_fault.Memory };

    fn from(_: AllocError) -> LexFault {
        LexFault::Memory
    }
}

/// The tokens of source, and where each begins in it.
#[derive(Drop)]
pub struct Lexed<'a> {
    /// The tokens.
    pub tokens: Vec<Token<'a>>,
    /// Where each of them begins, in bytes from 0.
    pub offsets: Vec<usize>,
}

/// What the pieces of source in front of one say of it.
#[derive(Clone, Copy)]
pub(crate) struct Ahead {
    /// The end of a line is a semicolon.
    pub ends: bool,
    /// What comments say of a type that is declared next.
    pub note: Note,
}

/// The tokens of source. Comments and blanks are none, and the end of a line is a semicolon where Go puts one.
pub fn tokens_in<'a>(alloc: Global, text: &'a [u8]) -> Result<Lexed<'a>, LexFault>
    ensures { IfOk result (λ l. (a : Ahead) × Lexes text.now [] a l.tokens.items l.offsets.items) }
{
    let mut tokens = Vec::new(alloc);
    let mut offsets = Vec::new(alloc);
    let mut rest = text;
    let mut ahead = nothing_ahead();
    'pieces: while !rest.is_empty() {
        let at = text.len() - rest.len();
        let Some(front) = front_of(rest) else {
            return Err(LexFault::Endless(at));
        };
        let (piece, behind) = rest.split_at(front.len);
        let token = token_of(ahead, front.piece, piece);
        put_token(token, at, &mut tokens, &mut offsets)?;
        ahead = ahead_behind(ahead, token, noted_by(front.piece, piece));
        rest = behind;
    }
    Ok(Lexed { tokens, offsets })
}

// Puts a token and where it begins behind the others, where there is one.
fn put_token<'a>(
    token: Option<Token<'a>>,
    at: usize,
    tokens: &mut Vec<Token<'a>>,
    offsets: &mut Vec<usize>,
) -> Result<(), AllocError>
    ensures tokens { OnOk result (tokens.new.items ≡ tokens.old.items ++ tokens_of token.entry) }
    ensures offsets { OnOk result
        (offsets.new.items ≡ offsets.old.items ++ replicate (length (tokens_of token.entry)) at) }
{
    let Some(token) = token else {
        return Ok(());
    };
    tokens.push(token)?;
    offsets.push(at)?;
    Ok(())
}

// The token of a piece, where it has one.
fn token_of(ahead: Ahead, piece: Piece, text: &[u8]) -> Option<Token<'_>>
    ensures { Gives ahead piece text.now result }
{
    match piece {
        Piece::Blank => None,
        Piece::LineEnd => stop_if(ahead.ends),
        Piece::Comment => stop_if(ahead.ends && has_line_end(text)),
        Piece::Word => Some(word_token(ahead.note, text)),
        Piece::Number => Some(number_token(text)),
        Piece::Text => Some(Token::Text),
        Piece::Arrow => Some(Token::Mark(Mark::Arrow)),
        Piece::Sign => Some(Token::Mark(sign_of(text))),
    }
}

// What a piece says of a type that is declared behind it.
fn noted_by(piece: Piece, text: &[u8]) -> Option<Note>
    ensures { Noted piece text.now result }
{
    match piece {
        Piece::Comment => note_of(text),
        _ => None,
    }
}

// A semicolon, where the end of a line is one.
fn stop_if(ends: bool) -> Option<Token<'static>>
    ensures { result ≡ stop_if ends }
{
    if ends {
        return Some(Token::Mark(Mark::Stop));
    }
    None
}

// Whether a line ends in the text.
fn has_line_end(text: &[u8]) -> bool
    ensures { result ≡ has_line_end text.now }
{
    text.iter().any(|byte| *byte == b'\n')
}

// The token of a number: itself, where the text is its decimal form.
fn number_token(text: &[u8]) -> Token<'_>
    ensures { IsNumber text.now result }
{
    match number_of(text) {
        Some(number) => Token::Number(number),
        None => Token::Mark(Mark::Other),
    }
}

// The mark that the first byte of the text is.
fn sign_of(text: &[u8]) -> Mark
    ensures { result ≡ sign_of text.now }
{
    match text.first() {
        Some(byte) => sign(*byte),
        None => Mark::Other,
    }
}

// The mark that a byte is.
fn sign(byte: u8) -> Mark
    ensures { result ≡ sign byte }
{
    match byte {
        b'{' => Mark::OpenBrace,
        b'}' => Mark::CloseBrace,
        b'[' => Mark::OpenBracket,
        b']' => Mark::CloseBracket,
        b'(' => Mark::Open,
        b')' => Mark::Close,
        b'*' => Mark::Star,
        b',' => Mark::Comma,
        b'.' => Mark::Dot,
        b'=' => Mark::Equals,
        b';' => Mark::Stop,
        _ => Mark::Other,
    }
}

// What is ahead where source begins.
fn nothing_ahead() -> Ahead
    ensures { result ≡ nothing_ahead }
{
    Ahead {
        ends: false,
        note: Note::NONE,
    }
}

// What is ahead behind a piece with this token, or with none, which says this of a type.
fn ahead_behind(ahead: Ahead, token: Option<Token<'_>>, noted: Option<Note>) -> Ahead
    ensures { result ≡ ahead_behind ahead token.entry noted }
{
    match token {
        Some(token) => Ahead {
            ends: ends_line(token),
            note: Note::NONE,
        },
        None => Ahead {
            ends: ahead.ends,
            note: noted.unwrap_or(ahead.note),
        },
    }
}

// Whether the end of a line behind the token is a semicolon.
fn ends_line(last: Token<'_>) -> bool
    ensures { result ≡ ends_line last.entry }
{
    match last {
        Token::Name(_) | Token::Number(_) | Token::Text => true,
        Token::Mark(mark) => matches!(mark, Mark::CloseBrace | Mark::CloseBracket | Mark::Close),
        Token::Type(_) => false,
    }
}
