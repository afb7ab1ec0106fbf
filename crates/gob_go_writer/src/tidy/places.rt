//! The places of nils in a value and in its tidy form.

ghost use Rattle.std.specs.Prelude.{◌≡◌, ◌+◌, ◌≤◌, IfOk, IsTrue, length};
ghost use Rattle.gob_num.specs.Unsigned.{AreBytes};
ghost use Rattle.gob_go_writer.specs.Machine.Places.{AreCloser, places_in};

use gob_go::Filling;
use gob_num::Memory;
use std::alloc::Global;

/// The places of the nils that are filled with these.
pub(crate) fn places_of(alloc: Global, fillings: &[Filling]) -> Result<Vec<u64>, Memory>
    ensures { IfOk result (λ places. places.items ≡ places_in fillings.now) }
{
    let mut places = Vec::new(alloc);
    for filling in fillings {
        places.push(filling.place)?;
    }
    Ok(places)
}

// Where a piece begins in the bytes of a value, and in those of its tidy form.
#[derive(Clone, Copy)]
struct Start {
    from: u64,
    to: u64,
}

/// Whether each piece that ends before a nil, or at the end, is no longer in the tidy form than in the skeleton: the
/// nils stand there at the second places, and here at the first ones. Tidying makes none longer.
pub(crate) fn are_closer(nils: &[u64], places: &[u64], skeleton: &[u8], tidied: &[u8]) -> bool
    ensures closer { IsTrue result
        → AreCloser (length skeleton.now) (length tidied.now) 0 0 nils.now places.now }
    ensures bytes { AreBytes tidied.now }
{
    let end = Start {
        from: skeleton.len() as u64,
        to: tidied.len() as u64,
    };
    are_closer_up_to(nils, places, end)
}

// Whether they are so where the skeleton and its tidy form end there.
fn are_closer_up_to(nils: &[u64], places: &[u64], end: Start) -> bool
    ensures { IsTrue result → AreCloser end.from end.to 0 0 nils.now places.now }
{
    if places.len() != nils.len() {
        return false;
    }
    let mut start = Start { from: 0, to: 0 };
    'nils: for i in 0..nils.len() {
        let nil = Start {
            from: nils[i],
            to: places[i],
        };
        if nil.from >= end.from || nil.to >= end.to {
            return false;
        }
        if !is_closer(start, nil) {
            return false;
        }
        start = Start {
            from: nil.from + 1,
            to: nil.to + 1,
        };
    }
    is_closer(start, end)
}

// Whether the piece from the start up to this end is no longer in the tidy form than in the value.
fn is_closer(start: Start, end: Start) -> bool
    ensures { IsTrue result → (start.to ≤ end.to) × (end.to + start.from ≤ end.from + start.to) }
{
    start.from <= end.from && start.to <= end.to && end.to - start.to <= end.from - start.from
}
