//! Words of a shell's command line. No text puts a character into them that a terminal obeys.

ghost use Rattle.std.specs.Prelude.{◌≡◌, ◌++◌, IfOk, IsTrue, OnOk, encode_utf8_all, string_bytes};
ghost use Rattle.std.specs.Str.{chars};
ghost use Rattle.gob_words.specs.Escaped.{IsUnobeyed};
ghost use Rattle.gob_words.specs.Shell.{ArePlain, IsShellWord, is_plain, quoted_character};

use crate::message::escaped;
use std::alloc::{AllocError, Global};

/// The text as one word of a shell's command line, between single quotes where it has to be. A character that a
/// terminal obeys stands in it as `\u{..}`, as in [`escaped`].
pub fn quoted(alloc: Global, text: &str) -> Result<String, AllocError>
    ensures word { IsUnobeyed text.now → IfOk result (λ word.
        IsShellWord (chars (string_bytes word)) (chars text.now)) }
    ensures unobeyed { IfOk result (λ word. IsUnobeyed (string_bytes word)) }
{
    let shown = escaped(alloc, text)?;
    if is_plain_word(shown.as_str()) {
        return Ok(shown);
    }
    between_quotes(alloc, shown.as_str())
}

// The text between single quotes.
fn between_quotes(alloc: Global, text: &str) -> Result<String, AllocError>
    ensures word { IfOk result (λ word. IsShellWord (chars (string_bytes word)) (chars text.now)) }
    ensures unobeyed { IsUnobeyed text.now → IfOk result (λ word. IsUnobeyed (string_bytes word)) }
{
    let mut word = String::new(alloc);
    word.push('\'')?;
    for character in text.chars() {
        push_quoted(character, &mut word)?;
    }
    word.push('\'')?;
    Ok(word)
}

// Appends a character that stands between quotes: a single quote ends them, stands behind a backslash, and begins them
// again.
fn push_quoted(character: char, word: &mut String) -> Result<(), AllocError>
    ensures { OnOk result
        (string_bytes word.new ≡ string_bytes word.old ++ encode_utf8_all (quoted_character character)) }
{
    if character == '\'' {
        word.push_str("'\\''")
    } else {
        word.push(character)
    }
}

// Whether the text is a word as it stands.
fn is_plain_word(text: &str) -> bool
    ensures { IsTrue result → ArePlain text.now }
{
    !text.is_empty() && text.as_bytes().iter().all(|byte| is_plain(*byte))
}

// A letter, a digit or one of the marks that no shell reads as anything else.
fn is_plain(byte: u8) -> bool
    ensures { result ≡ is_plain byte }
{
    matches!(byte, b'a'..=b'z' | b'A'..=b'Z' | b'0'..=b'9' | b'.' | b'/' | b'_' | b'-')
}
