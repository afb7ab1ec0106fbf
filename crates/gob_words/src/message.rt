//! Lines that say what is wrong with a word. No word puts a character into them that a terminal obeys.

ghost use Rattle.std.specs.Prelude.{◌≡◌, ◌++◌, IfOk, OnOk, encode_utf8_all, string_bytes};
ghost use Rattle.std.specs.Str.{chars};
ghost use Rattle.gob_words.specs.Escaped.{IsUnobeyed, escaped_character, escaped_text, is_obeyed};

use std::alloc::{AllocError, Global};
use std::fmt::Display;

// What clap's text of a fault begins with, and what stands behind its first paragraph.
const ERROR: &str = "error: ";

const BLANK: &str = "\n\n";

/// The first paragraph of what clap shows of a fault, which names the word and says what is wrong with it, on one line.
pub(crate) fn shown_line<D: Display>(alloc: Global, shown: &D) -> Result<String, AllocError>
    ensures { IfOk result (λ line. IsUnobeyed (string_bytes line)) }
{
    let text = shown.to_string(alloc)?;
    let text = text.as_str();
    let text = text.strip_prefix(ERROR).unwrap_or(text);
    let paragraph = match text.split_once(BLANK) {
        Some((paragraph, _)) => paragraph,
        None => text.trim_end(),
    };
    let mut line = String::new(alloc);
    for part in paragraph.lines() {
        if !line.is_empty() {
            line.push(' ')?;
        }
        line.push_str(part.trim())?;
    }
    escaped(alloc, line.as_str())
}

/// Says in clap's words that the number of this option isn't one from `least` to `most`.
pub(crate) fn number_line(
    alloc: Global,
    option: &str,
    word: &str,
    least: u64,
    most: u64,
) -> Result<String, AllocError>
    ensures { IfOk result (λ line. IsUnobeyed (string_bytes line)) }
{
    let line = format!(in alloc;
        "invalid value '{word}' for '--{option} <N>': no number from {least} to {most}"
    )?;
    escaped(alloc, line.as_str())
}

/// Says in clap's words that what was given for `--size` is no size.
pub(crate) fn size_line(alloc: Global, word: &str) -> Result<String, AllocError>
    ensures { IfOk result (λ line. IsUnobeyed (string_bytes line)) }
{
    let line = format!(in alloc;
        "invalid value '{word}' for '--size <SIZE>': no number, and no number and K, M or G"
    )?;
    escaped(alloc, line.as_str())
}

/// Says in clap's words that a part has one size.
pub(crate) fn sizes_line(alloc: Global) -> Result<String, AllocError>
    ensures { IfOk result (λ line. IsUnobeyed (string_bytes line)) }
{
    escaped(
        alloc,
        "the argument '--size <SIZE>' cannot be used with '--values <N>'",
    )
}

/// Says in clap's words that what was given for `--as` says nothing of a type.
pub(crate) fn kind_line(alloc: Global, word: &str) -> Result<String, AllocError>
    ensures { IfOk result (λ line. IsUnobeyed (string_bytes line)) }
{
    let line = format!(in alloc;
        "invalid value '{word}' for '--as <ID=KIND>': no type id, =, and one of time.Time, big.Int, \
        big.Float, big.Rat, uuid, netip.Addr, text, base64"
    )?;
    escaped(alloc, line.as_str())
}

/// The text, in which each character that a terminal obeys stands as `\u{..}`.
pub fn escaped(alloc: Global, text: &str) -> Result<String, AllocError>
    ensures characters { IfOk result (λ line. chars (string_bytes line) ≡ escaped_text (chars text.now)) }
    ensures unobeyed { IfOk result (λ line. IsUnobeyed (string_bytes line)) }
    ensures unchanged { IsUnobeyed text.now → IfOk result (λ line. string_bytes line ≡ text.now) }
{
    let mut line = String::new(alloc);
    for character in text.chars() {
        push_escaped(character, &mut line)?;
    }
    Ok(line)
}

// Appends a character: as it is, or where a terminal obeys it by its number.
fn push_escaped(character: char, line: &mut String) -> Result<(), AllocError>
    ensures { OnOk result
        (string_bytes line.new ≡ string_bytes line.old ++ encode_utf8_all (escaped_character character)) }
{
    if is_obeyed(character) {
        let number = u32::from(character);
        write!(line, "\\u{{{number:x}}}")
    } else {
        line.push(character)
    }
}

// Controls, separators of lines, what turns the direction of the text, and characters without width.
fn is_obeyed(character: char) -> bool
    ensures { result ≡ is_obeyed character }
{
    matches!(
        character,
        '\0'..='\u{1f}'
            | '\u{7f}'..='\u{9f}'
            | '\u{61c}'
            | '\u{200b}'..='\u{200f}'
            | '\u{2028}'..='\u{202e}'
            | '\u{2066}'..='\u{2069}'
            | '\u{feff}'
    )
}
