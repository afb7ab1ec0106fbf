//! Names and keywords.

ghost use Rattle.std.specs.Prelude.{◌≡◌, bytes_eq};
ghost use Rattle.std.specs.List.{list_any};
ghost use Rattle.gob_go_source.specs.Lexing.{IsWord, keyword, keyword_mark};

use crate::token::{Mark, Note, Token};

// Go's keywords that have no meaning among types.
const OTHER_KEYWORDS: [&[u8]; 17] = [
    b"break",
    b"case",
    b"const",
    b"continue",
    b"default",
    b"defer",
    b"else",
    b"fallthrough",
    b"for",
    b"go",
    b"goto",
    b"if",
    b"range",
    b"return",
    b"select",
    b"switch",
    b"var",
];

/// The token of a name or a keyword, behind comments that say this of a type.
pub(crate) fn word_token(note: Note, text: &[u8]) -> Token<'_>
    ensures { IsWord (keyword note text.now) text.now result }
{
    match keyword(note, text) {
        Some(token) => token,
        None => Token::Name(text),
    }
}

// The token of a keyword.
fn keyword(note: Note, text: &[u8]) -> Option<Token<'static>>
    ensures { result ≡ keyword note text.now }
{
    if is_word(b"type", text) {
        return Some(Token::Type(note));
    }
    match mark_of(text) {
        Some(mark) => Some(Token::Mark(mark)),
        None => None,
    }
}

// The mark that a keyword is.
fn mark_of(text: &[u8]) -> Option<Mark>
    ensures { result ≡ keyword_mark text.now }
{
    if is_word(b"package", text) {
        return Some(Mark::Package);
    }
    if is_word(b"import", text) {
        return Some(Mark::Import);
    }
    if is_word(b"func", text) {
        return Some(Mark::Func);
    }
    if is_word(b"struct", text) {
        return Some(Mark::Struct);
    }
    if is_word(b"map", text) {
        return Some(Mark::Map);
    }
    if is_word(b"interface", text) {
        return Some(Mark::Interface);
    }
    if is_word(b"chan", text) {
        return Some(Mark::Chan);
    }
    if is_any_of(text, &OTHER_KEYWORDS) {
        return Some(Mark::Other);
    }
    None
}

// Whether the text is one of the words.
fn is_any_of(text: &[u8], words: &[&[u8]]) -> bool
    ensures { result ≡ list_any (λ word. bytes_eq word.now text.now) words.now }
{
    for word in words {
        if is_word(word, text) {
            return true;
        }
    }
    false
}

// Whether the text is this word.
fn is_word(word: &[u8], text: &[u8]) -> bool
    ensures { result ≡ bytes_eq word.now text.now }
{
    word == text
}
