//! The text of what has no parts: numbers, truth values, bytes and text. Each says how it answers by what the output
//! says of the text that it was to take.

ghost use Rattle.std.specs.Prelude.{◌≡◌, ◌<◌, ◌≤◌, ◌++◌, ◌∷◌, []};
ghost use Rattle.std.specs.Fmt.{decimal};
ghost use Rattle.hex.specs.Hex.{encode_lower};
ghost use Rattle.serde_json.specs.Data.{boolean, null, string};
ghost use Rattle.serde_json.specs.Written.{compact_text};
ghost use Rattle.gob_json.specs.Machine.Digits.{three_digits};
ghost use Rattle.gob_json.specs.Json.{hex_json, integer_json, natural_json, opaque_json, pair_json, pattern_json};
ghost use Rattle.gob_json.specs.Json.{text_json};

use super::block::DIGITS;
use super::digits::{HEX_PAIRS, TRIPLES};
use super::escape::put_escaped;
use super::out::TextOut;
use super::plain::is_plain_ascii;
use std::str;

/// Puts out the number in decimal.
#[inline(always)]
pub(crate) fn put_natural<O: TextOut>(number: u64, out: &mut O) -> Result<(), O::Fault>
    ensures { O.puts out.old out.new (compact_text (natural_json number)) result }
{
    if number < 1000 {
        return put_first(number, out);
    }
    put_thousands(number, out)
}

// Puts out the number below 1000 in decimal. Each piece is of a fixed number of bytes.
#[inline(always)]
fn put_first<O: TextOut>(number: u64, out: &mut O) -> Result<(), O::Fault>
    requires { number < 1000 }
    ensures { O.puts out.old out.new (decimal number) result }
{
    let row = number as usize * 4;
    if number >= 100 {
        return out.put(&TRIPLES[row..row + 3]);
    }
    if number >= 10 {
        return out.put(&TRIPLES[row + 1..row + 3]);
    }
    out.put(&TRIPLES[row + 2..row + 3])
}

// Puts out the three digits of the number below 1000, of which the first may be 0.
#[inline(always)]
fn put_three_digits<O: TextOut>(number: u64, out: &mut O) -> Result<(), O::Fault>
    requires { number < 1000 }
    ensures { O.puts out.old out.new (three_digits number) result }
{
    let row = number as usize * 4;
    out.put(&TRIPLES[row..row + 3])
}

// Puts out the number of four digits or more in decimal, three at a time.
fn put_thousands<O: TextOut>(number: u64, out: &mut O) -> Result<(), O::Fault>
    requires { 1000 ≤ number }
    ensures { O.puts out.old out.new (decimal number) result }
{
    if number < 1_000_000 {
        put_first(number / 1000, out)?;
        return put_three_digits(number % 1000, out);
    }
    if number < 1_000_000_000 {
        put_first(number / 1_000_000, out)?;
        put_three_digits(number / 1000 % 1000, out)?;
        return put_three_digits(number % 1000, out);
    }
    put_long(number, out)
}

// Puts out the number of any size in decimal.
fn put_long<O: TextOut>(number: u64, out: &mut O) -> Result<(), O::Fault>
    ensures { O.puts out.old out.new (decimal number) result }
{
    let mut digits = [0; DIGITS];
    let start = itoa::write_digits(number, &mut digits, DIGITS);
    out.put(&digits[start..])
}

/// Puts out the number in decimal, with a minus where it is below 0.
pub(crate) fn put_integer<O: TextOut>(number: i64, out: &mut O) -> Result<(), O::Fault>
    ensures { O.puts out.old out.new (compact_text (integer_json number)) result }
{
    let size = number.unsigned_abs();
    if number >= 0 {
        return put_natural(size, out);
    }
    out.put(b"-")?;
    put_natural(size, out)
}

/// Puts out `true` or `false`.
pub(crate) fn put_truth<O: TextOut>(truth: bool, out: &mut O) -> Result<(), O::Fault>
    ensures { O.puts out.old out.new (compact_text (boolean truth)) result }
{
    if truth {
        return out.put(b"true");
    }
    out.put(b"false")
}

/// Puts out `null`.
pub(crate) fn put_null<O: TextOut>(out: &mut O) -> Result<(), O::Fault>
    ensures { O.puts out.old out.new (compact_text null) result }
{
    out.put(b"null")
}

// Puts out the two digits of the byte in lower case hexadecimal.
#[inline(always)]
fn put_byte<O: TextOut>(byte: u8, out: &mut O) -> Result<(), O::Fault>
    ensures { O.puts out.old out.new (encode_lower (byte ∷ [])) result }
{
    let row = usize::from(byte) * 2;
    out.put(&HEX_PAIRS[row..row + 2])
}

// Puts out the bytes in lower case hexadecimal.
fn put_digits<O: TextOut>(bytes: &[u8], out: &mut O) -> Result<(), O::Fault>
    ensures { O.puts out.old out.new (encode_lower bytes.now) result }
{
    'bytes: for byte in bytes {
        put_byte(*byte, out)?;
    }
    Ok(())
}

// Puts out the three one behind another.
#[inline(always)]
fn put_three<O: TextOut>(
    first: &[u8],
    second: &[u8],
    third: &[u8],
    out: &mut O,
) -> Result<(), O::Fault>
    ensures { O.puts out.old out.new (first.now ++ (second.now ++ third.now)) result }
{
    out.put(first)?;
    out.put(second)?;
    out.put(third)
}

// Puts out the bytes in lower case hexadecimal, between these two.
fn put_digits_between<O: TextOut>(
    before: &[u8],
    bytes: &[u8],
    behind: &[u8],
    out: &mut O,
) -> Result<(), O::Fault>
    ensures { O.puts out.old out.new (before.now ++ (encode_lower bytes.now ++ behind.now)) result }
{
    out.put(before)?;
    put_digits(bytes, out)?;
    out.put(behind)
}

/// Puts out the bytes as a string of lower case hexadecimal.
pub(crate) fn put_hex<O: TextOut>(bytes: &[u8], out: &mut O) -> Result<(), O::Fault>
    ensures { O.puts out.old out.new (compact_text (hex_json bytes.now)) result }
{
    put_digits_between(b"\"", bytes, b"\"", out)
}

/// Puts out the 64 bits of a float as a string of 16 digits of lower case hexadecimal.
pub(crate) fn put_pattern<O: TextOut>(pattern: u64, out: &mut O) -> Result<(), O::Fault>
    ensures { O.puts out.old out.new (compact_text (pattern_json pattern)) result }
{
    put_three(b"\"", &pattern_digits(pattern.to_be_bytes()), b"\"", out)
}

/// The digits of eight bytes.
#[inline(always)]
pub(crate) fn pattern_digits(bytes: [u8; 8]) -> [u8; 16]
    ensures { result ≡ encode_lower bytes }
{
    let mut digits = [0; 16];
    'bytes: for index in 0..8 {
        let row = usize::from(bytes[index]) * 2;
        digits[2 * index..2 * index + 2].copy_from_slice(&HEX_PAIRS[row..row + 2]);
    }
    digits
}

/// Puts out the patterns of a complex number's two parts as an array.
pub(crate) fn put_complex<O: TextOut>(
    real: u64,
    imaginary: u64,
    out: &mut O,
) -> Result<(), O::Fault>
    ensures { O.puts out.old out.new (compact_text (pair_json (pattern_json real) (pattern_json imaginary))) result }
{
    put_three(b"[\"", &pattern_digits(real.to_be_bytes()), b"\",\"", out)?;
    put_three(b"", &pattern_digits(imaginary.to_be_bytes()), b"\"]", out)
}

/// Puts out the bytes of an opaque value as an object that holds them in hexadecimal.
pub(crate) fn put_opaque<O: TextOut>(bytes: &[u8], out: &mut O) -> Result<(), O::Fault>
    ensures { O.puts out.old out.new (compact_text (opaque_json bytes.now)) result }
{
    put_digits_between(b"{\"opaque\":\"", bytes, b"\"}", out)
}

/// Puts out text as a string where it is UTF-8, else as an object that holds its bytes in hexadecimal.
pub(crate) fn put_text<O: TextOut>(bytes: &[u8], out: &mut O) -> Result<(), O::Fault>
    ensures { O.puts out.old out.new (compact_text (text_json bytes.now)) result }
{
    if is_plain_ascii(bytes) {
        return put_three(b"\"", bytes, b"\"", out);
    }
    match str::from_utf8(bytes) {
        Ok(_) => put_string(bytes, out),
        Err(_) => put_digits_between(b"{\"hex\":\"", bytes, b"\"}", out),
    }
}

// Puts out the bytes as a string.
fn put_string<O: TextOut>(bytes: &[u8], out: &mut O) -> Result<(), O::Fault>
    ensures { O.puts out.old out.new (compact_text (string bytes.now)) result }
{
    out.put(b"\"")?;
    put_escaped(bytes, out)?;
    out.put(b"\"")
}
