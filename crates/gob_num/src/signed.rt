//! Signed numbers, which are spelled as unsigned ones with the sign in the last bit.
ghost use Rattle.std.specs.Prelude.{◌≡◌, ◌+◌, ◌<◌, ℕ, List, OnOk, OnErr, vec_len, vec_capacity};
ghost use Rattle.gob_num.specs.Unsigned.{IsUnsigned};
ghost use Rattle.gob_num.specs.Signed.{IsSigned};
ghost use Rattle.gob_num.specs.Spelled.{Appends};

use crate::memory::Memory;
use crate::unsigned::write_uint;
use std::alloc::Global;

/// Appends the one spelling of the signed number. [`Memory`] comes only where the vector had no room for nine
/// bytes and could not grow; then it holds what it held.
pub fn write_int(alloc: Global, i: i64, out: &mut Vec<u8>) -> Result<(), Memory>
    ensures ok { OnOk result (Appends (IsSigned i) out.old.items out.new.items) }
    ensures err { OnErr result (out.new.items ≡ out.old.items) }
    ensures full { OnErr result (vec_capacity out.old < vec_len out.old + 9) }
{
    write_uint(alloc, to_unsigned(i), out)
}

/// The signed number that the unsigned `u` stands for: what spells `u` spells the result.
pub fn to_signed(u: u64) -> i64
    ensures { (bytes : List ℕ) → IsUnsigned u bytes → IsSigned result bytes }
{
    let half = (u / 2) as i64;
    if u % 2 == 0 { half } else { -half - 1 }
}

// The unsigned number by which `i` is spelled.
fn to_unsigned(i: i64) -> u64
    ensures { (bytes : List ℕ) → IsUnsigned result bytes → IsSigned i bytes }
{
    if i < 0 {
        (-(i + 1)) as u64 * 2 + 1
    } else {
        i as u64 * 2
    }
}
