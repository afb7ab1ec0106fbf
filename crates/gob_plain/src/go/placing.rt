//! What fills each nil of a value, where it is known in which parts the fillings stand.

ghost use Rattle.std.specs.Prelude.{◌≡◌, ℕ, [], ◌∷◌, List, Option, IfOk, IsTrue, reverse};
ghost use Rattle.gob_plain.specs.declared.go.level.HeldText as declared;
ghost use Rattle.gob_plain.specs.Machine.Placing.{AreIn, ArePlaced, fillers_left, gaps_left};

use crate::go::level::HeldText;
use crate::go::parting::{Parted, part};
use gob_num::Memory;
use json::Scratch;
use std::alloc::Global;

/// What fills each of the nils, which are the parts of these numbers, parted: nothing, or the next of the fillers, of
/// which each stands so many parts behind the one before. `Memory` also where one stands in none of them.
#[inline(never)]
pub(crate) fn in_nils<'a>(
    alloc: Global,
    nils: &[u64],
    gaps: &[u64],
    fillers: Vec<HeldText<'a>>,
) -> Result<Parted<'a>, Memory>
    ensures { IfOk result (λ parted. ArePlaced nils.now gaps.now fillers.entry.items parted.texts.items
        parted.held.items) }
{
    let mut parted = Parted {
        texts: Vec::with_capacity(alloc, nils.len())?,
        held: Vec::new(alloc),
    };
    let mut left = Left::new(gaps, fillers);
    let mut scratch = Scratch::new(alloc);
    for nil in nils {
        let filler = left.take(*nil);
        part(filler, &mut scratch, &mut parted)?;
    }
    if !left.is_empty() {
        return Err(Memory);
    }
    Ok(parted)
}

/// The fillers that are left.
#[derive(Drop)]
struct Left<'g, 'a> {
    /// For each filler how many parts begin before its nil, behind that of the filler before.
    gaps: &'g [u64],
    /// The number of the next filler.
    next: usize,
    /// The number of the part behind the nil of the filler before.
    behind: u64,
    /// Those that are left, the next one last.
    fillers: Vec<HeldText<'a>>,
}

impl<'g, 'a> Left<'g, 'a> {
    // All of them.
    fn new(gaps: &'g [u64], fillers: Vec<HeldText<'a>>) -> Left<'g, 'a>
        ensures behind { result.behind ≡ 0 }
        ensures gaps { gaps_left result ≡ gaps.entry.now }
        ensures fillers { fillers_left result ≡ fillers.entry.items }
    {
        let mut fillers = fillers;
        fillers.reverse();
        Left {
            gaps,
            next: 0,
            behind: 0,
            fillers,
        }
    }

    // Goes past the nil that is the part of this number. Answers what fills it.
    fn take(&mut self, nil: u64) -> Option<HeldText<'a>>
        ensures { (nils : List ℕ) (all : List (Option declared.HeldText))
            → AreIn self.new.behind nils (gaps_left self.new) (fillers_left self.new) all
            → AreIn self.old.behind (nil ∷ nils) (gaps_left self.old) (fillers_left self.old) (result ∷ all) }
    {
        let gap = self.gaps.get(self.next)?;
        let ahead = nil.checked_sub(self.behind)?;
        if ahead != *gap {
            return None;
        }
        let behind = nil.checked_add(1)?;
        let filler = self.fillers.pop()?;
        self.next += 1;
        self.behind = behind;
        Some(filler)
    }

    // Whether none is left.
    fn is_empty(&self) -> bool
        ensures gaps { IsTrue result → gaps_left self.now ≡ [] }
        ensures fillers { IsTrue result → fillers_left self.now ≡ [] }
    {
        self.next >= self.gaps.len() && self.fillers.is_empty()
    }
}
