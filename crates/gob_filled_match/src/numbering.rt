//! Numbers in the places of filled nils.

ghost use Rattle.std.specs.Prelude.{◌≡◌, ℕ, List, [], ◌∷◌, ◌++◌, IfOk, IsTrue, Some, slice_get};
ghost use Rattle.gob_types.specs.Table.{Table};
ghost use Rattle.gob_filled.specs.Filled.{Fillings};
ghost use Rattle.gob_go.specs.Meaning.{AreFillings};
ghost use Rattle.gob_filled_match.specs.Received.{Anywhere, IsInNumbers};

use gob_go::Filling;
use gob_num::{Memory, write_uint};
use std::alloc::Global;

/// The skeleton with the number of its filling, from 1 on, in the place of each nil that is filled. `Memory` also where
/// the fillings don't stand at bytes 0, in their order.
pub(crate) fn number_fillings(
    alloc: Global,
    skeleton: &[u8],
    fillings: &[Filling],
) -> Result<Vec<u8>, Memory>
    ensures { IfOk result (λ bytes. (T : Table) (fs : Fillings) → AreFillings T fillings.now fs
        → IsInNumbers Anywhere fs [] skeleton.now fs bytes.items) }
{
    let mut bytes = Vec::new(alloc);
    let mut from = 0;
    for index in 0..fillings.len() {
        let place = fillings[index].place as usize;
        if place < from || !is_zero_at(skeleton, place) {
            return Err(Memory);
        }
        bytes.extend_from_slice(&skeleton[from..place])?;
        write_uint(alloc, index as u64 + 1, &mut bytes)?;
        from = place + 1;
    }
    bytes.extend_from_slice(&skeleton[from..])?;
    Ok(bytes)
}

// Whether a byte 0 stands at the place.
fn is_zero_at(bytes: &[u8], place: usize) -> bool
    ensures { IsTrue result → slice_get bytes.now place ≡ Some 0 }
{
    matches!(bytes.get(place), Some(0))
}
