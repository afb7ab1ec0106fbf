//! Where types are likely to stand in what keeps them in an order.

use crate::id::TypeId;
use std::alloc::Global;

// Where an id is greater, its place isn't kept: so they take 256 KiB at most, whatever ids a stream defines.
const MOST_IDS: u64 = 65536;

/// The places at which types were entered, by their ids. They are guesses, which whoever uses them checks: a place may
/// be missing, for want of memory or since the id is too great, and what stood there may be gone.
pub(crate) struct Places {
    by_id: Vec<u32>,
}

// Not derived, so that a drop is one call in the proofs of what owns one.
impl Drop for Places {
    fn drop(self) {
        let Places { by_id: _ } = self;
    }
}

impl Places {
    /// None is kept yet.
    pub(crate) fn new(alloc: Global) -> Places {
        Places {
            by_id: Vec::new(alloc),
        }
    }

    /// Where the type of this id is likely to stand.
    #[inline]
    pub(crate) fn of(&self, id: TypeId) -> usize {
        match self.by_id.get(id.0 as usize) {
            Some(place) => *place as usize,
            None => usize::MAX,
        }
    }

    /// Keeps the place of an id, where there is memory for it.
    pub(crate) fn keep(&mut self, id: TypeId, place: usize) {
        if id.0 >= MOST_IDS {
            return;
        }
        let at = id.0 as usize;
        if at >= self.by_id.len() && self.by_id.resize(at + 1, u32::MAX).is_err() {
            return;
        }
        if let Some(kept) = self.by_id.get_mut(at) {
            *kept = place.min(u32::MAX as usize) as u32;
        }
    }
}
