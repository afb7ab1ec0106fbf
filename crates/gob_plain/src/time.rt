//! Times: the bytes of a `Time` of Go's package time, as a date with a time of day.

ghost use Rattle.std.specs.Prelude.{◌≡◌, ◌≤◌, ◌↔◌, length, slice_get, IsTrue, MatchOption, pos, ◌≤ℤ◌};
ghost use Rattle.json.specs.Json as json;
ghost use Rattle.jiff_core.specs.Calendar.{IsWithin};
ghost use Rattle.jiff_core.specs.DateTime.{civil_nanos};
ghost use Rattle.gob_plain.specs.TimeText.{IsShownTime, IsInYears, IsZone, moment_text, has_time_layout};
ghost use Rattle.gob_plain.specs.TimeText.{has_offset_seconds, has_minutes_ahead, has_minutes_behind, is_utc};
ghost use Rattle.gob_plain.specs.TimeText.{time_seconds, time_nanos, time_ahead, clock_nanos};
ghost use Rattle.gob_plain.specs.TimeText.{offset_minutes, offset_seconds};
ghost use Rattle.gob_plain.specs.WritesPlain.{WritesPlain};

use jiff_core::Offset;
use jiff_core::civil::DateTime;
use jiff_fmt::temporal::DateTimePrinter;
use json::Writer;
use std::alloc::{AllocError, Global};

// The seconds from 0001-01-01T00:00:00Z, where Go's times begin, to 1970-01-01T00:00:00Z.
const YEAR_1_TO_1970: i64 = 62_135_596_800;

// The first nanosecond of the year 1 and the last one of 9999, from 1970-01-01T00:00:00 on.
const FIRST: i128 = -62_135_596_800_000_000_000;

const LAST: i128 = 253_402_300_799_999_999_999;

// The most seconds that a clock is ahead of UTC or behind it.
const MOST_AHEAD: i32 = 86_399;

/// What a clock shows, and how far it is ahead of UTC.
#[derive(Clone, Copy)]
pub(crate) struct Moment {
    pub clock: DateTime,
    /// None in UTC itself.
    pub zone: Option<Offset>,
}

/// Writes a time as RFC 3339 has it: with `Z` where it is told in UTC, else with the offset.
pub(crate) fn write_moment(
    alloc: Global,
    moment: Moment,
    out: &mut Writer,
) -> Result<(), AllocError>
    ensures { WritesPlain result out.old out.new (λ j. j ≡ json.string (moment_text moment.clock moment.zone)) }
{
    let printer = DateTimePrinter::new();
    let mut text = String::from_str(alloc, printer.datetime_text(moment.clock).as_str())?;
    match moment.zone {
        Some(offset) => text.push_str(printer.offset_text(offset).as_str())?,
        None => text.push_str("Z")?,
    }
    out.string(text.as_str())
}

/// The time that the bytes spell, where they have the layout of one that can be shown.
pub(crate) fn time_of(bytes: &[u8]) -> Option<Moment>
    ensures { MatchOption result (¬ IsShownTime bytes.now)
        (λ m. IsShownTime bytes.now × (civil_nanos m.clock ≡ clock_nanos bytes.now) × IsZone bytes.now m.zone) }
{
    if !has_time_layout(bytes) || !is_shown(bytes) {
        return None;
    }
    Some(Moment {
        clock: DateTime::from_nanosecond_in_range(clock_nanos(bytes)),
        zone: zone_of(bytes),
    })
}

// Whether the bytes are a version, as many as it has, and seconds of an offset where it has them.
fn has_time_layout(bytes: &[u8]) -> bool
    ensures layout { result ≡ has_time_layout bytes.now }
    ensures long { IsTrue result → 15 ≤ length bytes.now }
{
    bytes.len() == 15 && bytes[0] == 1
        || bytes.len() == 16 && bytes[0] == 2 && has_offset_seconds(bytes)
}

// Whether the seconds of the offset are from 1 to 59, with the sign of its minutes.
fn has_offset_seconds(bytes: &[u8]) -> bool
    requires { 16 ≤ length bytes.now }
    ensures { result ≡ has_offset_seconds bytes.now }
{
    let second = bytes[15];
    1 <= second && second <= 59 && has_minutes_ahead(bytes)
        || 197 <= second && has_minutes_behind(bytes) && !is_utc(bytes)
}

// Whether the minutes of the offset aren't below 0.
fn has_minutes_ahead(bytes: &[u8]) -> bool
    requires { 15 ≤ length bytes.now }
    ensures { result ≡ has_minutes_ahead bytes.now }
{
    bytes[13] <= 127
}

// Whether the minutes of the offset aren't above 0.
fn has_minutes_behind(bytes: &[u8]) -> bool
    requires { 15 ≤ length bytes.now }
    ensures { result ≡ has_minutes_behind bytes.now }
{
    128 <= bytes[13] || bytes[13] == 0 && bytes[14] == 0
}

// Whether the minutes of the offset stand for UTC itself.
fn is_utc(bytes: &[u8]) -> bool
    requires { 15 ≤ length bytes.now }
    ensures { result ≡ is_utc bytes.now }
{
    bytes[13] == 255 && bytes[14] == 255
}

// Whether bytes of this layout are a time that can be shown.
fn is_shown(bytes: &[u8]) -> bool
    requires layout { IsTrue (has_time_layout bytes.now) }
    requires long { 15 ≤ length bytes.now }
    ensures { IsTrue result ↔ IsShownTime bytes.now }
{
    if nanos_of(bytes) >= 1_000_000_000 {
        return false;
    }
    if seconds_of(bytes) < 0 {
        return false;
    }
    is_within_a_day(seconds_ahead(bytes)) && is_in_years(clock_nanos(bytes))
}

// Whether the clock is less than a day from UTC.
fn is_within_a_day(ahead: i32) -> bool
    ensures { IsTrue result ↔ IsWithin 86_399 ahead }
{
    -MOST_AHEAD <= ahead && ahead <= MOST_AHEAD
}

// Whether a clock shows a year from 1 to 9999 so many nanoseconds behind the year 1970.
fn is_in_years(nanos: i128) -> bool
    ensures { IsTrue result ↔ IsInYears nanos }
{
    FIRST <= nanos && nanos <= LAST
}

// What the clock shows, in nanoseconds since 1970-01-01T00:00:00 there.
fn clock_nanos(bytes: &[u8]) -> i128
    requires { 15 ≤ length bytes.now }
    ensures { result ≡ clock_nanos bytes.now }
{
    let seconds = seconds_of(bytes) as i128 - YEAR_1_TO_1970 as i128 + seconds_ahead(bytes) as i128;
    seconds * 1_000_000_000 + nanos_of(bytes) as i128
}

// How far the clock is ahead of UTC in whole minutes: none where it is UTC itself.
fn zone_of(bytes: &[u8]) -> Option<Offset>
    requires long { 15 ≤ length bytes.now }
    requires ahead { IsWithin 86_399 (time_ahead bytes.now) }
    ensures { IsZone bytes.now result }
{
    if is_utc(bytes) {
        return None;
    }
    match Offset::from_seconds((seconds_ahead(bytes) / 60 * 60) as i64) {
        Ok(offset) => Some(offset),
        Err(_) => unreachable!(),
    }
}

// The seconds since 0001-01-01T00:00:00Z.
fn seconds_of(bytes: &[u8]) -> i64
    requires { 15 ≤ length bytes.now }
    ensures { result ≡ time_seconds bytes.now }
{
    i64::from_be_bytes([
        bytes[1], bytes[2], bytes[3], bytes[4], bytes[5], bytes[6], bytes[7], bytes[8],
    ])
}

// The nanoseconds behind them.
fn nanos_of(bytes: &[u8]) -> u32
    requires { 15 ≤ length bytes.now }
    ensures { result ≡ time_nanos bytes.now }
{
    u32::from_be_bytes([bytes[9], bytes[10], bytes[11], bytes[12]])
}

// The seconds that the clock is ahead of UTC.
fn seconds_ahead(bytes: &[u8]) -> i32
    requires { 15 ≤ length bytes.now }
    ensures { result ≡ time_ahead bytes.now }
{
    if is_utc(bytes) {
        return 0;
    }
    offset_minutes(bytes) as i32 * 60 + offset_seconds(bytes) as i32
}

// The whole minutes of the offset.
fn offset_minutes(bytes: &[u8]) -> i16
    requires { 15 ≤ length bytes.now }
    ensures { result ≡ offset_minutes bytes.now }
{
    i16::from_be_bytes([bytes[13], bytes[14]])
}

// The seconds of the offset behind them, which version 2 has.
fn offset_seconds(bytes: &[u8]) -> i8
    ensures { result ≡ offset_seconds (slice_get bytes.now 15) }
{
    match bytes.get(15) {
        Some(second) => second.cast_signed(),
        None => 0,
    }
}
