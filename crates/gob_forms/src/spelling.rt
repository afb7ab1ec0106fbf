//! Texts that spell bytes.

ghost use Rattle.std.specs.Prelude.{◌≡◌, [], slice_index, IfOk, OnOk, MatchOption};
ghost use Rattle.gob_forms.specs.Names.{spelling_name, spelling_step};
ghost use Rattle.gob_forms.specs.Spellings.{behind_mark, filled, letters_behind, more_digits, numbers_behind};
ghost use Rattle.gob_forms.specs.Spellings.{of_base64, of_characters, of_digits, spelled, without_cut};

use crate::dump::{hexdump_digits, xxd_digits};
use base64::DecodeAllocError;
use base64::engine::general_purpose::STANDARD;
use gob_num::Memory;
use hex::FromHexError;
use std::alloc::Global;
use std::str;

/// How a text spells bytes.
#[derive(Clone, Copy, Debug, PartialEq, Eq)]
pub enum Spelling {
    /// Base64 in the usual alphabet.
    Base64,
    /// Base64 in the alphabet for URLs.
    UrlBase64,
    /// Hexadecimal digits, maybe with spaces and line feeds, and behind `\x` or `0x`.
    Hex,
    /// A dump as `xxd` makes it.
    Xxd,
    /// A dump as `hexdump -C` makes it.
    Hexdump,
    /// Decimal numbers between brackets, as Go prints bytes.
    Decimal,
    /// The bytes were taken for Latin-1, and written as UTF-8.
    Latin1,
}

impl Spelling {
    /// Each of them.
    pub const ALL: [Spelling; 7] = [
        Spelling::Base64,
        Spelling::UrlBase64,
        Spelling::Hex,
        Spelling::Xxd,
        Spelling::Hexdump,
        Spelling::Decimal,
        Spelling::Latin1,
    ];

    /// The bytes that the text spells so. Of a text that is cut off those are given that it still has whole. None: it
    /// is no such text.
    pub fn decode(self, alloc: Global, text: &[u8]) -> Result<Option<Vec<u8>>, Memory>
        ensures { IfOk result (λ found. MatchOption found (spelled self text.now ≡ None)
            (λ bytes. spelled self text.now ≡ Some bytes.items)) }
    {
        match self {
            Spelling::Base64 => decode_base64(alloc, text, b"+/"),
            Spelling::UrlBase64 => decode_base64(alloc, text, b"-_"),
            Spelling::Hex => decode_hex(alloc, behind_mark(text)),
            Spelling::Xxd => {
                let digits = xxd_digits(alloc, text)?;
                decode_hex(alloc, &digits)
            }
            Spelling::Hexdump => {
                let digits = hexdump_digits(alloc, text)?;
                decode_hex(alloc, &digits)
            }
            Spelling::Decimal => decode_decimal(alloc, text),
            Spelling::Latin1 => decode_latin1(alloc, text),
        }
    }

    /// What the text is called.
    pub fn name(self) -> &'static str
        ensures { result.now ≡ spelling_name self }
    {
        match self {
            Spelling::Base64 | Spelling::UrlBase64 => "base64",
            Spelling::Hex => "hexadecimal digits",
            Spelling::Xxd => "a dump by xxd",
            Spelling::Hexdump => "a dump by hexdump or od",
            Spelling::Decimal => "a list of decimal numbers",
            Spelling::Latin1 => "text in UTF-8, made of bytes that were taken for Latin-1",
        }
    }

    /// The command that gives the bytes, where IN is the file.
    pub fn step(self) -> &'static str
        ensures { result.now ≡ spelling_step self }
    {
        match self {
            Spelling::Base64 => "base64 -di IN | gob why",
            Spelling::UrlBase64 => "tr -- '-_' '+/' <IN | base64 -di | gob why",
            Spelling::Hex => "xxd -r -p IN | gob why",
            Spelling::Xxd => "sed 's/^[^:]*: //; s/  .*//' IN | xxd -r -p | gob why",
            Spelling::Hexdump => "sed 's/^[^ ]* *//; s/|.*//' IN | xxd -r -p | gob why",
            Spelling::Decimal => "tr -c 0-9 ' ' <IN | xargs printf %02x | xxd -r -p | gob why",
            Spelling::Latin1 => "iconv -f UTF-8 -t ISO-8859-1 IN | gob why",
        }
    }
}

// The bytes that base64 spells, in lines of any length, whose last two letters are these.
fn decode_base64(alloc: Global, text: &[u8], last: &[u8; 2]) -> Result<Option<Vec<u8>>, Memory>
    ensures { let of_text = of_base64 (slice_index last.now 0) (slice_index last.now 1) text.now in
        IfOk result (λ found. MatchOption found (of_text ≡ None) (λ bytes. of_text ≡ Some bytes.items)) }
{
    let Some(letters) = letters_of(alloc, text, last)? else {
        return Ok(None);
    };
    match STANDARD.decode(alloc, &letters) {
        Ok(bytes) => Ok(Some(bytes)),
        Err(DecodeAllocError::OutOfMemory) => Err(Memory),
        Err(DecodeAllocError::DecodeError(_)) => Ok(None),
    }
}

// The letters of the text in the usual alphabet, in whole groups of four.
fn letters_of(alloc: Global, text: &[u8], last: &[u8; 2]) -> Result<Option<Vec<u8>>, Memory>
    ensures { let of_text = letters_behind (slice_index last.now 0) (slice_index last.now 1) [] text.now in
        IfOk result (λ found. MatchOption found (of_text ≡ None) (λ letters. of_text ≡ Some letters.items)) }
{
    let mut letters = Vec::with_capacity(alloc, text.len().saturating_add(3))?;
    for byte in text {
        match *byte {
            b' ' | b'\r' | b'\n' => {}
            b'=' => {
                fill_group(&mut letters)?;
                return Ok(Some(letters));
            }
            letter if letter.is_ascii_alphanumeric() => letters.push(letter)?,
            letter if letter == last[0] => letters.push(b'+')?,
            letter if letter == last[1] => letters.push(b'/')?,
            _ => return Ok(None),
        }
    }
    let whole = letters.len() - letters.len() % 4;
    letters.truncate(whole);
    Ok(Some(letters))
}

// Puts behind the letters what makes the last of them a group.
fn fill_group(letters: &mut Vec<u8>) -> Result<(), Memory>
    ensures { OnOk result (letters.new.items ≡ filled letters.old.items) }
{
    let missing: &[u8] = match letters.len() % 4 {
        1 => b"===",
        2 => b"==",
        3 => b"=",
        _ => b"",
    };
    letters.extend_from_slice(missing)?;
    Ok(())
}

// The text behind what stands before hexadecimal digits, in Postgres or in C.
fn behind_mark(text: &[u8]) -> &[u8]
    ensures { result.now ≡ behind_mark text.now }
{
    match text {
        [b'\\', b'x', rest @ ..] | [b'0', b'x', rest @ ..] => rest,
        _ => text,
    }
}

// The bytes that the digits spell, without the one that is cut off.
fn decode_hex(alloc: Global, text: &[u8]) -> Result<Option<Vec<u8>>, Memory>
    ensures { IfOk result (λ found. MatchOption found (of_digits text.now ≡ None)
        (λ bytes. of_digits text.now ≡ Some bytes.items)) }
{
    let mut digits = Vec::with_capacity(alloc, text.len())?;
    for byte in text {
        if !byte.is_ascii_whitespace() {
            digits.push(*byte)?;
        }
    }
    let whole = digits.len() - digits.len() % 2;
    digits.truncate(whole);
    match hex::decode(alloc, &digits) {
        Ok(bytes) => Ok(Some(bytes)),
        Err(FromHexError::OutOfMemory) => Err(Memory),
        Err(_) => Ok(None),
    }
}

// The bytes that the decimal numbers are.
fn decode_decimal(alloc: Global, text: &[u8]) -> Result<Option<Vec<u8>>, Memory>
    ensures { IfOk result (λ found. MatchOption found (numbers_behind None [] text.now ≡ None)
        (λ bytes. numbers_behind None [] text.now ≡ Some bytes.items)) }
{
    let mut bytes = Vec::new(alloc);
    let mut number = None;
    for byte in text {
        match *byte {
            digit @ b'0'..=b'9' => {
                let Some(next) = with_digit(number, digit - b'0') else {
                    return Ok(None);
                };
                number = Some(next);
            }
            b'[' | b']' | b',' | b' ' | b'\r' | b'\n' => {
                if let Some(whole) = number {
                    bytes.push(whole)?;
                }
                number = None;
            }
            _ => return Ok(None),
        }
    }
    Ok(Some(bytes))
}

// The number with one more digit, where it is a byte.
fn with_digit(number: Option<u8>, digit: u8) -> Option<u8>
    ensures { result ≡ more_digits number digit }
{
    number.unwrap_or(0).checked_mul(10)?.checked_add(digit)
}

// The bytes whose characters in Latin-1 the text has.
fn decode_latin1(alloc: Global, text: &[u8]) -> Result<Option<Vec<u8>>, Memory>
    ensures { IfOk result (λ found. MatchOption found (of_characters (without_cut text.now) ≡ None)
        (λ bytes. of_characters (without_cut text.now) ≡ Some bytes.items)) }
{
    let Ok(text) = str::from_utf8(without_cut(text)) else {
        return Ok(None);
    };
    let mut bytes = Vec::with_capacity(alloc, text.len())?;
    for character in text.chars() {
        match u8::try_from(u32::from(character)) {
            Ok(byte) => bytes.push(byte)?,
            Err(_) => return Ok(None),
        }
    }
    Ok(Some(bytes))
}

// The text without the first half of a character of two bytes at its end.
fn without_cut(text: &[u8]) -> &[u8]
    ensures { result.now ≡ without_cut text.now }
{
    match text {
        [front @ .., 0xc2 | 0xc3] => front,
        _ => text,
    }
}
