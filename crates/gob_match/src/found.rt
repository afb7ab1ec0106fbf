//! The pairs of types that a search has found.

ghost use Rattle.std.specs.Prelude.{◌≡◌, ◌∷◌, [], ◌^◌, ◌<◌, IfOk, MatchOption, ℕ, None, length, Some, slice_get};
ghost use Rattle.std.specs.Option.{option_copied};
ghost use Rattle.gob_match.specs.Machine.Search.{IsPathTo, HasPath, HasOrigin, IsAt, AddsPairs, came};

use crate::pair::TypePair;
use crate::step::TypeStep;
use gob_num::Memory;
use indexmap::IndexMap;
use std::alloc::Global;
use std::marker::Model;

/// How a pair was found: by this step from the pair at this place.
#[derive(Drop)]
pub(crate) struct Origin {
    pub(crate) place: usize,
    pub(crate) step: TypeStep,
}

/// The pairs that a search has found, in the order in which it found them: its queue, and the set of pairs that
/// it has seen. All but the first have an origin.
#[derive(Drop)]
pub(crate) struct Found {
    pairs: IndexMap<TypePair, Option<Origin>>,
}

impl Model for Found {
    ghost use Rattle.std.specs.Prelude.{List};
    ghost use Rattle.std.specs.Option.{option_copied};
    ghost use Rattle.gob_match.specs.Machine.Search.{Entry};

    ghost Value = { List Entry };

    ghost view = { λ s. s.pairs.entries };
}

impl Found {
    /// The pair with which the search begins.
    pub(crate) fn start(alloc: Global, pair: TypePair) -> Result<Found, Memory>
        ensures { IfOk result (λ found. found ≡ (pair, None) ∷ []) }
    {
        let mut pairs = IndexMap::new(alloc);
        pairs.insert(pair, None)?;
        Ok(Found { pairs })
    }

    /// How many pairs were found.
    pub(crate) fn count(&self) -> usize
        ensures count { result ≡ length self.now }
        ensures small { result < 2 ^ 63 }
    {
        self.pairs.len()
    }

    /// The pair at a place.
    pub(crate) fn pair_at(&self, place: usize) -> TypePair
        requires { place < length self.now }
        ensures { IsAt self.now place result }
    {
        match self.pairs.get_index(place) {
            Some((pair, _)) => *pair,
            None => unreachable!(),
        }
    }

    /// The place of a pair, where it was found.
    pub(crate) fn place_of(&self, pair: TypePair) -> Option<usize>
        ensures { MatchOption result ((k : ℕ) → IsAt self.now k pair → ⊥) (λ k. IsAt self.now k pair) }
    {
        self.pairs.get_index_of(&pair)
    }

    /// Adds a pair, found by a step from the pair at `place`, unless it was found before. Gives its place.
    pub(crate) fn add(
        &mut self,
        pair: TypePair,
        place: usize,
        step: TypeStep,
    ) -> Result<usize, Memory>
        ensures at { IfOk result (λ k. IsAt self.new k pair) }
        ensures added { IfOk result (λ _. AddsPairs self.old self.new place (λ s q. (s ≡ step) × (q ≡ pair))) }
    {
        if let Some(known) = self.pairs.get_index_of(&pair) {
            drop(step);
            return Ok(known);
        }
        let new = self.pairs.len();
        self.pairs.insert(pair, Some(Origin { place, step }))?;
        Ok(new)
    }

    /// The steps that lead from the first pair to the one at a place.
    pub(crate) fn path_to(&self, alloc: Global, place: usize) -> Result<Vec<TypeStep>, Memory>
        requires { HasPath self.now place }
        ensures { IfOk result (λ path. IsPathTo self.now place path.items) }
    {
        let mut steps = Vec::new(alloc);
        let mut at = place;
        while let Some(origin) = self.origin_at(at) {
            steps.push(origin.step.copied(alloc)?)?;
            at = origin.place;
        }
        steps.reverse();
        Ok(steps)
    }

    // How the pair at a place was found.
    fn origin_at(&self, place: usize) -> Option<&Origin>
        requires { place < length self.now }
        ensures { HasOrigin self.now place (option_copied result) }
    {
        match self.pairs.get_index(place) {
            Some((_, origin)) => origin.as_ref(),
            None => unreachable!(),
        }
    }
}
