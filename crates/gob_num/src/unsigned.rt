//! Unsigned numbers: written, and taken whole from the front of a piece of a stream.
ghost use Rattle.std.specs.Prelude.{◌≡◌, ◌+◌, ◌-◌, ◌^◌, ◌<◌, ◌≤◌, ◌↔◌, [], ◌∷◌};
ghost use Rattle.std.specs.Prelude.{IsTrue, OnOk, OnErr, vec_len, vec_capacity};
ghost use Rattle.gob_num.specs.Unsigned.{IsUnsigned, IsNotMinimal};
ghost use Rattle.gob_num.specs.Spelled.{Appends};
ghost use Rattle.gob_num.specs.Taken.{TakesUnsigned};

use crate::memory::Memory;
use crate::number::Number;
use std::alloc::Global;

// The head before eight digits, which is the least.
pub(crate) const LEAST_HEAD: u8 = 248;

/// What the front of a piece of a stream is, where a number is to stand there.
#[derive(Clone, Copy, Debug, PartialEq, Eq)]
pub enum Taken {
    /// The first `used` bytes of the piece spell the number.
    Whole { number: u64, used: usize },
    /// The whole piece is a proper prefix of a spelling, as the empty one is: the number goes on behind it.
    More,
    /// The first byte begins no number: it is one of `80` to `f7`.
    BadHead,
    /// The second byte shows that fewer digits would hold the number, so this is not its spelling.
    NotMinimal,
}

/// Appends the one spelling of the number. [`Memory`] comes only where the vector had no room for nine bytes
/// and could not grow; then it holds what it held.
pub fn write_uint(_alloc: Global, n: u64, out: &mut Vec<u8>) -> Result<(), Memory>
    ensures ok { OnOk result (Appends (IsUnsigned n) out.old.items out.new.items) }
    ensures err { OnErr result (out.new.items ≡ out.old.items) }
    ensures full { OnErr result (vec_capacity out.old < vec_len out.old + 9) }
{
    if n < 128 {
        out.push(n as u8)?;
        return Ok(());
    }
    let count = digit_count(n);
    let mut spelled = [0u8; 9];
    spelled[0] = (256 - count) as u8;
    spelled[1..=count].copy_from_slice(&n.to_be_bytes()[8 - count..]);
    out.extend_from_slice(&spelled[..=count])?;
    Ok(())
}

/// Takes a whole number from the front of the piece, and says what stands there.
///
/// It is faster than [`Number`], and judges as it does. A number of which the piece has a prefix alone is left
/// to [`Number`], which keeps that prefix.
pub fn take_uint(piece: &[u8]) -> Taken
    ensures { TakesUnsigned piece.now result }
{
    let Some((head, rest)) = piece.split_first() else {
        return Taken::More;
    };
    if *head < 128 {
        return Taken::Whole {
            number: u64::from(*head),
            used: 1,
        };
    }
    match rest.first_chunk::<8>() {
        Some(digits) => take_digits(*head, digits),
        None => Number::new().take_by_bytes(piece),
    }
}

// Takes a number of more than one byte, where eight bytes and so all of its digits are there.
#[inline(always)]
pub(crate) fn take_digits(head: u8, digits: &[u8; 8]) -> Taken
    requires { 128 ≤ head }
    ensures { TakesUnsigned (head ∷ digits.now) result }
{
    if head < LEAST_HEAD {
        return Taken::BadHead;
    }
    if is_padded(digits_after(head), digits[0]) {
        return Taken::NotMinimal;
    }
    let (number, used) = known_digits(head, digits);
    Taken::Whole { number, used }
}

/// The number of the head and the digits behind it, and how many bytes it takes with the head. It isn't looked at
/// whether fewer digits would hold it.
#[inline(always)]
pub(crate) fn known_digits(head: u8, digits: &[u8; 8]) -> (u64, usize)
    requires { LEAST_HEAD ≤ head }
    ensures taken { ¬ IsNotMinimal (head ∷ digits.now)
        → TakesUnsigned (head ∷ digits.now) (Taken.Whole result.0 result.1) }
    ensures few { (0 < result.1) × (result.1 ≤ 9) }
{
    let count = digits_after(head);
    let number = u64::from_be_bytes(*digits) >> (64 - 8 * u32::from(count));
    (number, usize::from(count) + 1)
}

/// How many digits follow the head.
pub(crate) fn digits_after(head: u8) -> u8
    requires { LEAST_HEAD ≤ head }
    ensures { head + result ≡ 256 }
{
    255 - head + 1
}

/// Whether fewer digits than these would hold the number, as the first of them shows.
pub(crate) fn is_padded(count: u8, first: u8) -> bool
    requires { (0 < count) × (count ≤ 8) }
    ensures { IsTrue result ↔ IsNotMinimal ((256 - count) ∷ first ∷ []) }
{
    if count == 1 { first < 128 } else { first == 0 }
}

// How many digits to base 256 the number has.
fn digit_count(n: u64) -> usize
    requires { 0 < n }
    ensures range { (0 < result) × (result ≤ 8) }
    ensures enough { n < 256 ^ result }
    ensures least { 256 ^ (result - 1) ≤ n }
{
    8 - n.leading_zeros() as usize / 8
}
