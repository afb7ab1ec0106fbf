//! Numbers that stand at a place of a body.

ghost use Rattle.std.specs.Prelude.{◌≡◌, ◌+◌, ◌^◌, ◌<◌, ℕ, IfSome};
ghost use Rattle.gob_num.specs.Place.{NoNumberStandsAt};
ghost use Rattle.gob_value.specs.Machine.Begins.{HoldsBetween, BeginsThisNumber};

use gob_num::{uint_at, uint_end};

/// The number that stands whole in the body at the place, and where it ends. None says that none stands there.
#[inline(always)]
pub fn number_at(body: &[u8], at: usize) -> Option<(u64, usize)>
    ensures stands { IfSome result (λ found. HoldsBetween (BeginsThisNumber found.0) body.now at found.1) }
    ensures onward { IfSome result (λ found. at < found.1) }
    ensures none { result ≡ None → NoNumberStandsAt body.now at }
{
    uint_at(body, at)
}

/// Where the number ends that stands whole in the body at the place. None says that none stands there.
#[inline(always)]
pub fn number_end(body: &[u8], at: usize) -> Option<usize>
    ensures stands { IfSome result (λ end. (n : ℕ) × HoldsBetween (BeginsThisNumber n) body.now at end) }
    ensures none { result ≡ None → NoNumberStandsAt body.now at }
{
    uint_end(body, at)
}

/// The number of the field of which this is the delta, where `next` is the least number that it can have. None says
/// that it has more than 64 bits.
#[inline(always)]
pub fn field_number(next: u64, delta: u64) -> Option<u64>
    requires { 0 < delta }
    ensures found { IfSome result (λ number. number + 1 ≡ next + delta) }
    ensures none { result ≡ None → 2 ^ 64 < next + delta }
{
    next.checked_add(delta - 1)
}
