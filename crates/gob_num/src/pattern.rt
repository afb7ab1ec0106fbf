//! The 64-bit patterns of floats, which are spelled with their bytes in the other order.
ghost use Rattle.std.specs.Prelude.{◌≡◌, ◌+◌, ◌<◌, ℕ, List, OnOk, OnErr, vec_len, vec_capacity};
ghost use Rattle.gob_num.specs.Unsigned.{IsUnsigned};
ghost use Rattle.gob_num.specs.Pattern.{IsPattern};
ghost use Rattle.gob_num.specs.Spelled.{Appends};

use crate::memory::Memory;
use crate::unsigned::write_uint;
use std::alloc::Global;

/// Appends the one spelling of a float's 64-bit pattern. [`Memory`] comes only where the vector had no room
/// for nine bytes and could not grow; then it holds what it held.
pub fn write_pattern(alloc: Global, p: u64, out: &mut Vec<u8>) -> Result<(), Memory>
    ensures ok { OnOk result (Appends (IsPattern p) out.old.items out.new.items) }
    ensures err { OnErr result (out.new.items ≡ out.old.items) }
    ensures full { OnErr result (vec_capacity out.old < vec_len out.old + 9) }
{
    write_uint(alloc, p.swap_bytes(), out)
}

/// The float's 64-bit pattern that the unsigned `u` stands for: what spells `u` spells the result.
pub fn to_pattern(u: u64) -> u64
    ensures { (bytes : List ℕ) → IsUnsigned u bytes → IsPattern result bytes }
{
    u.swap_bytes()
}
