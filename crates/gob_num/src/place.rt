//! Numbers that stand whole at a place of bytes: the fastest way to read what is there already.
ghost use Rattle.std.specs.Prelude.{◌≡◌, ◌+◌, ◌-◌, ◌<◌, ◌≤◌, ℕ, [], ◌∷◌, IfSome, IsTrue, length};
ghost use Rattle.gob_num.specs.Place.{IsUnsignedAt, IsOnlyNumberAt, AreUnsignedAt, NumberStandsAt};
ghost use Rattle.gob_num.specs.Place.{NoNumberStandsAt, PassesNumbers, CountsDigits};
ghost use Rattle.gob_num.specs.Taken.{TakesUnsigned};
ghost use Rattle.gob_num.specs.Unsigned.{IsNotMinimal};

use crate::number::Number;
use crate::unsigned::{LEAST_HEAD, Taken, digits_after, is_padded, known_digits, take_digits};

/// The number that stands whole at the place of the bytes, and where it ends. None says that none stands there: the
/// bytes end before it does, or begin no spelling, as [`take_uint`](crate::take_uint) judges.
#[inline(always)]
pub fn uint_at(bytes: &[u8], at: usize) -> Option<(u64, usize)>
    ensures found { IfSome result (λ found. IsUnsignedAt found.0 bytes.now at found.1) }
    ensures none { result ≡ None → NoNumberStandsAt bytes.now at }
{
    let head = *bytes.get(at)?;
    if head < 128 {
        return Some((u64::from(head), at + 1));
    }
    let taken = match bytes[at + 1..].first_chunk::<8>() {
        Some(digits) => take_digits(head, digits),
        None => take_near_the_end(&bytes[at..]),
    };
    match taken {
        Taken::Whole { number, used } => Some((number, at + used)),
        _ => None,
    }
}

/// The number that is known to stand whole at the place of the bytes, and where it ends: it isn't looked at whether it
/// does. Where none stands, some number and a place within the bytes are answered.
#[inline(always)]
pub fn known_uint_at(bytes: &[u8], at: usize) -> (u64, usize)
    requires { at ≤ length bytes.now }
    ensures known { IsOnlyNumberAt bytes.now at result.0 result.1 }
    ensures inside { result.1 ≤ length bytes.now }
{
    let Some(head) = bytes.get(at) else {
        return (0, at);
    };
    if *head < 128 {
        return (u64::from(*head), at + 1);
    }
    if *head < LEAST_HEAD {
        return (0, at);
    }
    match bytes[at + 1..].first_chunk::<8>() {
        Some(digits) => {
            let (number, used) = known_digits(*head, digits);
            (number, at + used)
        }
        None => known_near_the_end(bytes, at),
    }
}

// The number that begins at the place, fewer than nine bytes before the end, and the place behind it.
#[inline(never)]
fn known_near_the_end(bytes: &[u8], at: usize) -> (u64, usize)
    requires { at ≤ length bytes.now }
    ensures known { IsOnlyNumberAt bytes.now at result.0 result.1 }
    ensures inside { result.1 ≤ length bytes.now }
{
    match uint_at(bytes, at) {
        Some(found) => found,
        None => (0, at),
    }
}

/// Where the number ends that stands whole at the place of the bytes, if one does.
#[inline(always)]
pub fn uint_end(bytes: &[u8], at: usize) -> Option<usize>
    ensures found { IfSome result (λ end. NumberStandsAt bytes.now at end) }
    ensures none { result ≡ None → NoNumberStandsAt bytes.now at }
{
    let mut last = Counted { head: 0, count: 0 };
    last.end_of_next(bytes, at)
}

// Takes a number of which the last byte may be missing. It stands near the end of the bytes, and so is no part of the
// loops over those before.
#[inline(never)]
fn take_near_the_end(piece: &[u8]) -> Taken
    ensures { TakesUnsigned piece.now result }
{
    Number::new().take_by_bytes(piece)
}

/// Where so many numbers end that stand whole one behind another, the first of them at the place of the bytes. None
/// says that no so many stand there.
#[inline(never)]
pub fn uints_end(bytes: &[u8], begin: usize, count: u64) -> Option<usize>
    ensures found { IfSome result (λ end. AreUnsignedAt bytes.now count begin end) }
    ensures none { result ≡ None → (end : ℕ) → ¬ AreUnsignedAt bytes.now count begin end }
{
    let mut last = Counted { head: 0, count: 0 };
    let mut at = begin;
    let mut left = count;
    'numbers: while left > 0 {
        let end = last.end_of_next(bytes, at)?;
        let (place, rest) = last.pass_next(bytes, end, left - 1, end - at > 1);
        at = place;
        left = rest;
    }
    Some(at)
}

// As many bytes as a number has at the most.
const LONGEST: usize = 9;

// Fewer numbers of one size than these, one behind another, are no run.
const LEAST_RUN: u64 = 2;

// So many numbers of any size are gone over before a run is looked for again.
const MIXED: u64 = 64;

// The head of the last number of more than one byte, if there was one, and how many digits it counts. Lists have runs
// of numbers of one size: so where the next ends is mostly there before its head is read.
#[derive(Clone, Copy)]
struct Counted {
    head: u8,
    count: u8,
}

impl Counted {
    // Goes over numbers that stand at the place one behind another, at the most so many, and tells where it ends and
    // how many are left: a run of the last long one's size, and where that is short, numbers of any size. Whether the
    // number before the place is `long` tells a list of mixed sizes from one of short numbers alone.
    #[inline(always)]
    fn pass_next(self, bytes: &[u8], begin: usize, most: u64, long: bool) -> (usize, u64)
        requires counts { CountsDigits self.head self.count }
        requires place { begin ≤ length bytes.now }
        ensures { PassesNumbers bytes.now most begin result.1 result.0 }
    {
        if self.head < LEAST_HEAD {
            return (begin, most);
        }
        let (at, left) = self.pass_alike(bytes, begin, most);
        let run = most - left;
        if run >= LEAST_RUN || (run == 0 && !long) {
            return (at, left);
        }
        pass_mixed(bytes, at, left)
    }

    // Where the number at the place ends.
    #[inline(always)]
    fn end_of_next(&mut self, bytes: &[u8], at: usize) -> Option<usize>
        requires { CountsDigits self.old.head self.old.count }
        ensures counts { CountsDigits self.new.head self.new.count }
        ensures found { IfSome result (λ end. NumberStandsAt bytes.now at end) }
        ensures none { result ≡ None → NoNumberStandsAt bytes.now at }
    {
        let head = *bytes.get(at)?;
        if head < 128 {
            return Some(at + 1);
        }
        let first = *bytes.get(at + 1)?;
        if head != self.head {
            if head < LEAST_HEAD {
                return None;
            }
            *self = Counted {
                head,
                count: digits_after(head),
            };
        }
        if is_padded(self.count, first) {
            return None;
        }
        let count = usize::from(self.count);
        if bytes.len() - at - 1 < count {
            return None;
        }
        Some(at + 1 + count)
    }

    // Goes over numbers of the last one's size that stand at the place one behind another, at the most so many, and
    // tells where it ends and how many are left. Of each only its head and its first digit are looked at, and no step
    // waits for the size of the one before: a list of ints takes two thirds of the time of asking where each ends.
    #[inline(always)]
    fn pass_alike(self, bytes: &[u8], begin: usize, most: u64) -> (usize, u64)
        requires counts { (248 ≤ self.head) × (self.head + self.count ≡ 256) }
        requires place { begin ≤ length bytes.now }
        ensures passed { PassesNumbers bytes.now most begin result.1 result.0 }
        ensures inside { result.0 ≤ length bytes.now }
    {
        let mut at = begin;
        let mut left = most;
        let size = usize::from(self.count) + 1;
        let least = least_digit(self.count);
        'alike: while left > 0 && self.begins_number(least, bytes, at) {
            at += size;
            left -= 1;
        }
        (at, left)
    }

    // Whether the head and a digit of at least `least` begin a number at the place, with room for the longest.
    #[inline(always)]
    fn begins_number(self, least: u8, bytes: &[u8], at: usize) -> bool
        requires counts { (248 ≤ self.head) × (self.head + self.count ≡ 256) }
        requires least { (digit : ℕ) → least ≤ digit → ¬ IsNotMinimal ((256 - self.count) ∷ digit ∷ []) }
        requires place { at ≤ length bytes.now }
        ensures { IsTrue result → NumberStandsAt bytes.now at (at + 1 + self.count) }
    {
        if bytes.len() - at < LONGEST {
            return false;
        }
        if bytes[at] != self.head {
            return false;
        }
        if bytes[at + 1] < least {
            return false;
        }
        true
    }
}

// The least first digit of a number with so many.
#[inline(always)]
fn least_digit(count: u8) -> u8
    requires { (0 < count) × (count ≤ 8) }
    ensures { (digit : ℕ) → result ≤ digit → ¬ IsNotMinimal ((256 - count) ∷ digit ∷ []) }
{
    if count == 1 { 128 } else { 1 }
}

// Goes over numbers of any size that stand at the place one behind another, at the most so many and some of them, and
// tells where it ends and how many are left. Where sizes change at random a branch on them would be missed each time.
#[inline(always)]
fn pass_mixed(bytes: &[u8], begin: usize, most: u64) -> (usize, u64)
    requires place { begin ≤ length bytes.now }
    ensures { PassesNumbers bytes.now most begin result.1 result.0 }
{
    let mut at = begin;
    let mut left = most;
    let least = most.saturating_sub(MIXED);
    'mixed: while left > least {
        let size = size_at(bytes, at);
        if size == 0 {
            break;
        }
        at += size;
        left -= 1;
    }
    (at, left)
}

// How many bytes the number has that stands at the place, with room for the longest; 0 where none does. No branch is on
// its size.
#[inline(always)]
fn size_at(bytes: &[u8], at: usize) -> usize
    requires place { at ≤ length bytes.now }
    ensures { 0 < result → NumberStandsAt bytes.now at (at + result) }
{
    if bytes.len() - at < LONGEST {
        return 0;
    }
    let count = digits_behind(bytes[at]);
    if count > 8 {
        return 0;
    }
    if bytes[at + 1] < least_behind(count) {
        return 0;
    }
    usize::from(count) + 1
}

// How many digits the head counts: none where it is the number.
#[inline(always)]
fn digits_behind(head: u8) -> u8
    ensures short { head < 128 → result ≡ 0 }
    ensures long { 128 ≤ head → head + result ≡ 256 }
{
    if head < 128 { 0 } else { 255 - head + 1 }
}

// The least byte behind a head that counts so many digits: their least first digit, or any byte where there are none.
#[inline(always)]
fn least_behind(count: u8) -> u8
    requires { count ≤ 128 }
    ensures { 0 < count → (digit : ℕ) → result ≤ digit → ¬ IsNotMinimal ((256 - count) ∷ digit ∷ []) }
{
    u8::from(count > 0) + 127 * u8::from(count == 1)
}
