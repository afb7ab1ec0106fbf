//! Numbers and bytes that stand at a place of a body.

ghost use Rattle.std.specs.Prelude.{◌≡◌, ◌+◌, ◌-◌, ◌<◌, ◌≤◌, ◌^◌, ℕ, List, IfSome, None, Some, drop, length, take};
ghost use Rattle.gob_types.specs.declared.kind.Field.{Field};
ghost use Rattle.gob_value.specs.Machine.Begins.{BeginsThisNumber};
ghost use Rattle.gob_walk.specs.Standing.{EndsAt, IsNextField, NumberFrom};

use gob_num::known_uint_at;
use gob_types::{Field, Fields};

/// The number that stands in the body from the place on, and where it ends. A number is a byte below 80, or the negated
/// count of the bytes that follow it, the first of them not 0. None says that none stands there. Where one is known to
/// stand it isn't looked at whether it does: then some number and a place are answered where none stands.
#[inline(always)]
pub fn number_at<const KNOWN: bool>(body: &[u8], at: usize) -> Option<(u64, usize)>
    requires { at ≤ length body.now }
    ensures found { IfSome result (λ found. NumberFrom body.now at found.0 found.1) }
    ensures stands { IfSome result (λ found. EndsAt KNOWN (BeginsThisNumber found.0) body.now at found.1) }
    ensures none { result ≡ None → (n : ℕ) (rest : List ℕ) → ¬ BeginsThisNumber n (drop at body.now) rest }
{
    if KNOWN {
        return Some(known_uint_at(body, at));
    }
    gob_value::number_at(body, at)
}

/// So many bytes that stand in the body from the place on, and where they end. None says that there are fewer.
#[inline(always)]
pub fn bytes_at(count: u64, body: &[u8], begin: usize) -> Option<(&[u8], usize)>
    requires { begin ≤ length body.now }
    ensures bytes { IfSome result (λ found. found.0.now ≡ take count (drop begin body.now)) }
    ensures end { IfSome result (λ found. found.1 ≡ begin + count) }
    ensures enough { IfSome result (λ found. begin + count ≤ length body.now) }
    ensures none { result ≡ None → length body.now < begin + count }
{
    if count > (body.len() - begin) as u64 {
        return None;
    }
    let end = begin + count as usize;
    Some((&body[begin..end], end))
}

/// The field that is so much above the one before the next, with its number, if there is one.
#[inline(always)]
pub fn next_field(types: &Fields, next: u64, delta: u64) -> Option<(u64, &Field)>
    ensures some { IfSome result (λ found. IsNextField types.now next delta found.0 found.1.now) }
    ensures none { result ≡ None → (f : ℕ) (e : Field) → ¬ IsNextField types.now next delta f e }
    ensures small { IfSome result (λ found. found.0 < 2 ^ 64 - 1) }
{
    if delta == 0 || delta > types.count().saturating_sub(next) {
        return None;
    }
    let number = next + delta - 1;
    match types.get(number) {
        Some(field) => Some((number, field)),
        None => None,
    }
}
