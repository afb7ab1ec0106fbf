//! Times: a date with a time of day, as the bytes of a `Time` of Go's package time.

ghost use Rattle.std.specs.Prelude.{◌≡◌, ◌≤◌, ◌<◌, ℕ, length, slice_index, IfOk, IfSome};
ghost use Rattle.gob_make.specs.Leaf.{IsTrimmed};
ghost use Rattle.gob_make.specs.Tells.{parts_text};

use gob_num::Memory;
use jiff_fmt::temporal::parse_datetime;
use std::alloc::Global;

// The first byte.
const VERSION: u8 = 1;

// The seconds from 0001-01-01T00:00:00Z, where Go's times begin, to 1970-01-01T00:00:00Z.
const YEAR_1_TO_1970: i64 = 62_135_596_800;

// How many bytes a date has with a time of day in whole seconds.
const SECONDS: usize = 19;

// The most digits of a second.
const DIGITS: usize = 9;

/// The parts of a text that may be a time.
#[derive(Clone, Copy)]
pub(crate) struct Parts<'t> {
    /// The date, and the time of day in whole seconds.
    pub clock: &'t [u8],
    /// The digits of a second, without zeros at the end.
    pub digits: &'t [u8],
    /// How far the clock is ahead of UTC.
    pub zone: &'t [u8],
}

/// The parts of a text, where it has so many bytes, and a point there only in front of digits.
pub(crate) fn parts_of(text: &str) -> Option<Parts<'_>>
    ensures { IfSome result (λ parts. IsTrimmed text.now (parts_text parts)) }
{
    let bytes = text.as_bytes();
    if bytes.len() < SECONDS {
        return None;
    }
    let clock = &bytes[..SECONDS];
    if bytes.len() == SECONDS || bytes[SECONDS] != b'.' {
        return Some(Parts {
            clock,
            digits: &bytes[..0],
            zone: &bytes[SECONDS..],
        });
    }
    let behind = &bytes[SECONDS + 1..];
    let end = digits_in(behind);
    if end == 0 || end > DIGITS {
        return None;
    }
    Some(Parts {
        clock,
        digits: &behind[..kept_of(behind, end)],
        zone: &behind[end..],
    })
}

// How many digits stand in front.
fn digits_in(bytes: &[u8]) -> usize
    ensures { result ≤ length bytes.now }
{
    let mut end = 0;
    'digits: while end < bytes.len() && bytes[end].is_ascii_digit() {
        end += 1;
    }
    end
}

// How many of so many digits stand in front of the zeros at their end.
fn kept_of(digits: &[u8], end: usize) -> usize
    requires { end ≤ length digits.now }
    ensures within { result ≤ end }
    ensures zeros { (k : ℕ) → result ≤ k → k < end → slice_index digits.now k ≡ 48 }
{
    let mut kept = end;
    'zeros: while kept > 0 && digits[kept - 1] == b'0' {
        kept -= 1;
    }
    kept
}

/// The text of these parts.
pub(crate) fn text_of(alloc: Global, parts: Parts<'_>) -> Result<Vec<u8>, Memory>
    ensures { IfOk result (λ text. text.items ≡ parts_text parts.entry) }
{
    let mut text = Vec::new(alloc);
    text.extend_from_slice(parts.clock)?;
    if !parts.digits.is_empty() {
        text.push(b'.')?;
    }
    text.extend_from_slice(parts.digits)?;
    text.extend_from_slice(parts.zone)?;
    Ok(text)
}

/// The bytes of the time that these parts are in RFC 3339, where they are one. Of any others they may be those of a
/// time too, which has another text.
pub(crate) fn time_bytes(alloc: Global, parts: Parts<'_>) -> Result<Option<Vec<u8>>, Memory> {
    let Ok(clock) = parse_datetime(parts.clock) else {
        return Ok(None);
    };
    let Some(minutes) = minutes_of(parts.zone) else {
        return Ok(None);
    };
    // UTC itself is told by the minute behind UTC.
    let ahead = if minutes == -1 {
        0
    } else {
        i64::from(minutes) * 60
    };
    let seconds = clock
        .to_second()
        .wrapping_add(YEAR_1_TO_1970.wrapping_sub(ahead));
    let mut bytes = Vec::with_capacity(alloc, 15)?;
    bytes.push(VERSION)?;
    bytes.extend_from_slice(&seconds.to_be_bytes())?;
    bytes.extend_from_slice(&nanos_of(parts.digits).to_be_bytes())?;
    bytes.extend_from_slice(&minutes.to_be_bytes())?;
    Ok(Some(bytes))
}

// The nanoseconds that these digits of a second are.
fn nanos_of(digits: &[u8]) -> u32 {
    let mut nanos: u32 = 0;
    'places: for place in 0..DIGITS {
        let digit = match digits.get(place) {
            Some(digit) => digit.wrapping_sub(b'0') % 10,
            None => 0,
        };
        nanos = nanos.wrapping_mul(10).wrapping_add(u32::from(digit));
    }
    nanos
}

// The minutes that a clock is ahead of UTC, by the text of a zone: one behind it for UTC itself.
fn minutes_of(zone: &[u8]) -> Option<i16> {
    match zone {
        [b'Z'] => Some(-1),
        [b'+', high, low, b':', tens, ones] => Some(minutes_in(*high, *low, *tens, *ones)),
        [b'-', high, low, b':', tens, ones] => {
            Some(0i16.wrapping_sub(minutes_in(*high, *low, *tens, *ones)))
        }
        _ => None,
    }
}

// The minutes of some hours and minutes, of two digits each.
fn minutes_in(high: u8, low: u8, tens: u8, ones: u8) -> i16 {
    two_digits(high, low)
        .wrapping_mul(60)
        .wrapping_add(two_digits(tens, ones))
}

fn two_digits(high: u8, low: u8) -> i16 {
    i16::from(high.wrapping_sub(b'0') % 10) * 10 + i16::from(low.wrapping_sub(b'0') % 10)
}
