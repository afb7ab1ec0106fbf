//! A caller's loop over the elements of a list, proved by what its views show.

ghost use Rattle.std.specs.Prelude.{◌≡◌, ℕ, Option};
ghost use Rattle.std.specs.Int.{int_wrap, w64};
ghost use Rattle.gob_value.specs.Tree.{Trees, many};
ghost use Rattle.gob_tape.specs.Seeing.{Sees};
ghost use Rattle.gob_tape_tests.specs.Sums.{sum_of};

use gob_num::to_signed;
use gob_tape::{ValueKind, View};

/// The sum of the ints among the elements of a list. It wraps around, as sums of Go's `int64` do.
pub fn sum_of_ints(list: View<'_>) -> i64
    ensures { (f : Option ℕ) (vs : Trees) → Sees list.entry f (many vs) → result ≡ int_wrap w64 (sum_of vs) }
{
    let mut sum = 0i64;
    for child in list.children() {
        if let ValueKind::Int = child.kind() {
            sum = sum.wrapping_add(to_signed(child.numbers().0));
        }
    }
    sum
}
