//! Numbers in decimal at a place of a block of bytes. Digits are stores alone: whoever calls has asked for room.

ghost use Rattle.std.specs.Prelude.{◌≡◌, ◌+◌, ◌/◌, ◌%◌, ◌<◌, ◌≤◌, ◌++◌, length, take};
ghost use Rattle.std.specs.Fmt.{decimal};
ghost use Rattle.serde_json.specs.Written.{comma_if, compact_text};
ghost use Rattle.gob_json.specs.Json.{integer_json, pattern_json};
ghost use Rattle.gob_json.specs.Machine.Digits.{three_digits};

use super::digits::TRIPLES;
use super::leaf::pattern_digits;

/// As many digits as a number of 64 bits has.
pub(crate) const DIGITS: usize = 20;

/// As many bytes as a string of the 64 bits of a float has.
pub(crate) const PATTERN: usize = 18;

/// Puts the comma that stands before each part but the first, and tells where what follows begins.
#[inline(always)]
pub(crate) fn comma_at(later: bool, block: &mut [u8], at: usize) -> usize
    requires { at < length block.old }
    ensures text { take result block.new ≡ take at block.old ++ comma_if later }
    ensures end { result ≤ at + 1 }
{
    block[at] = b',';
    at + usize::from(later)
}

/// Puts the number in decimal, with a minus where it is below 0, and tells where it ends.
#[inline(always)]
pub(crate) fn integer_at(number: i64, block: &mut [u8], at: usize) -> usize
    requires { at + 21 ≤ length block.old }
    ensures text { take result block.new ≡ take at block.old ++ compact_text (integer_json number) }
    ensures end { result ≤ at + 21 }
{
    if number < 0 {
        block[at] = b'-';
        return natural_at(number.unsigned_abs(), block, at + 1);
    }
    natural_at(number.unsigned_abs(), block, at)
}

/// Puts the number in decimal, three digits at a time, and tells where it ends.
#[inline(always)]
pub(crate) fn natural_at(number: u64, block: &mut [u8], at: usize) -> usize
    requires { at + 20 ≤ length block.old }
    ensures text { take result block.new ≡ take at block.old ++ decimal number }
    ensures end { result ≤ at + 20 }
{
    if number < 1000 {
        return first_at(number, block, at);
    }
    if number < 1_000_000 {
        let behind = first_at(number / 1000, block, at);
        return three_at(number % 1000, block, behind);
    }
    if number < 1_000_000_000 {
        let behind = first_at(number / 1_000_000, block, at);
        let later = three_at(number / 1000 % 1000, block, behind);
        return three_at(number % 1000, block, later);
    }
    long_at(number, block, at)
}

/// Puts the 64 bits of a float as a string of 16 digits of lower case hexadecimal, and tells where it ends.
#[inline(always)]
pub(crate) fn pattern_at(pattern: u64, block: &mut [u8], at: usize) -> usize
    requires { at + 18 ≤ length block.old }
    ensures text { take result block.new ≡ take at block.old ++ compact_text (pattern_json pattern) }
    ensures end { result ≤ at + 18 }
{
    block[at] = b'"';
    block[at + 1..at + 17].copy_from_slice(&pattern_digits(pattern.to_be_bytes()));
    block[at + 17] = b'"';
    at + 18
}

// Puts the number below 1000 in decimal. Four bytes are stored, from the first digit that counts on.
#[inline(always)]
fn first_at(number: u64, block: &mut [u8], at: usize) -> usize
    requires { (number < 1000) × (at + 4 ≤ length block.old) }
    ensures text { take result block.new ≡ take at block.old ++ decimal number }
    ensures end { result ≤ at + 3 }
    ensures stays { length block.new ≡ length block.old }
{
    let zeros = usize::from(number < 10) + usize::from(number < 100);
    let from = number as usize * 4 + zeros;
    block[at..at + 4].copy_from_slice(&TRIPLES[from..from + 4]);
    at + (3 - zeros)
}

// Puts the three digits of the number below 1000, of which the first may be 0.
#[inline(always)]
fn three_at(number: u64, block: &mut [u8], at: usize) -> usize
    requires { (number < 1000) × (at + 4 ≤ length block.old) }
    ensures text { take result block.new ≡ take at block.old ++ three_digits number }
    ensures end { result ≡ at + 3 }
    ensures stays { length block.new ≡ length block.old }
{
    let from = number as usize * 4;
    block[at..at + 4].copy_from_slice(&TRIPLES[from..from + 4]);
    at + 3
}

// Puts the number of any size in decimal.
fn long_at(number: u64, block: &mut [u8], at: usize) -> usize
    requires { at + 20 ≤ length block.old }
    ensures text { take result block.new ≡ take at block.old ++ decimal number }
    ensures end { result ≤ at + 20 }
{
    let mut digits = [0; DIGITS];
    let start = itoa::write_digits(number, &mut digits, DIGITS);
    let end = at + (DIGITS - start);
    block[at..end].copy_from_slice(&digits[start..]);
    end
}
