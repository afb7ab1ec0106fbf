//! Sets of type ids.
ghost use Rattle.std.specs.Prelude.{◌≡◌, ◌^◌, ◌<◌, ◌↔◌, [], IsTrue, IfOk, IfSome, OnOk, OnErr, Contains};
ghost use Rattle.std.specs.Prelude.{length, take, ◌++◌, ◌∷◌, ◌⊎◌, MatchOption};
ghost use Rattle.gob_types.specs.declared.id.TypeId.{TypeId};
ghost use Rattle.gob_types.specs.Machine.Walk.{AddsAll, AddsOne, AreAmong, Grows};

use crate::id::TypeId;
use gob_num::Memory;
use indexmap::IndexSet;
use std::alloc::Global;
use std::marker::Model;

/// A set of type ids, in the order in which they were added.
pub(crate) struct TypeSet {
    ids: IndexSet<TypeId>,
}

// Not derived, so that a drop is one call in the proofs of what owns one.
impl Drop for TypeSet {
    fn drop(self) {
        let TypeSet { ids: _ } = self;
    }
}

impl Model for TypeSet {
    ghost use Rattle.std.specs.Prelude.{List};
    ghost use Rattle.gob_types.specs.declared.id.TypeId.{TypeId};

    ghost Value = { List TypeId };

    ghost view = { λ s. s.ids.keys };
}

impl TypeSet {
    /// A set of no ids, which allocates nothing.
    pub(crate) fn new(alloc: Global) -> TypeSet
        ensures { result ≡ [] }
    {
        TypeSet {
            ids: IndexSet::new(alloc),
        }
    }

    /// The ids, in order.
    pub(crate) fn as_slice(&self) -> &[TypeId]
        ensures { result.now ≡ self.now }
    {
        self.ids.as_slice()
    }

    /// How many ids there are.
    pub(crate) fn count(&self) -> usize
        ensures count { result ≡ length self.now }
        ensures small { result < 2 ^ 63 }
    {
        self.ids.len()
    }

    /// The id at this place of the order.
    #[inline]
    pub(crate) fn at(&self, place: usize) -> Option<TypeId>
        ensures { IfSome result (λ id. Contains self.now id) }
    {
        self.ids.get_index(place).copied()
    }

    /// Whether the id is in the set, which is likely to have it at this place.
    #[inline]
    pub(crate) fn contains_at(&self, id: TypeId, place: usize) -> bool
        ensures { IsTrue result ↔ Contains self.now id }
    {
        match self.at(place) {
            Some(there) if there == id => true,
            _ => self.contains(id),
        }
    }

    /// Whether the id is in the set.
    pub(crate) fn contains(&self, id: TypeId) -> bool
        ensures { IsTrue result ↔ Contains self.now id }
    {
        self.ids.contains(&id)
    }

    /// Adds an id, last, unless it is there, and says whether it is new.
    pub(crate) fn add(&mut self, id: TypeId) -> Result<bool, Memory>
        ensures added { IfOk result (λ new. AddsOne self.old self.new id new) }
        ensures unchanged { OnErr result (self.new ≡ self.old) }
        ensures small { length self.old < 2 ^ 63 }
    {
        let count = self.ids.len();
        self.ids.insert(id)?;
        Ok(count < self.ids.len())
    }

    /// Takes off all ids but the first ones.
    pub(crate) fn truncate(&mut self, count: usize)
        ensures { self.new ≡ take count self.old }
    {
        self.ids.truncate(count);
    }

    /// Takes the last id off, where there is one.
    pub(crate) fn pop(&mut self) -> Option<TypeId>
        ensures { MatchOption result ((self.old ≡ []) × (self.new ≡ [])) (λ id. self.old ≡ self.new ++ id ∷ []) }
    {
        self.ids.pop()
    }

    /// Adds ids, in order, but for those that are there.
    pub(crate) fn add_all(&mut self, ids: &[TypeId]) -> Result<(), Memory>
        ensures added { OnOk result (AddsAll self.old self.new (Contains ids.now)) }
        ensures grown { Grows self.old self.new }
    {
        for id in ids {
            self.add(*id)?;
        }
        Ok(())
    }
}

/// The ids of both sets. The smaller is added to the larger.
pub(crate) fn merged(first: TypeSet, second: TypeSet) -> Result<TypeSet, Memory>
    ensures { IfOk result (λ both. (u : TypeId) → Contains both u → Contains first u ⊎ Contains second u) }
{
    if first.count() < second.count() {
        return with_ids(second, &first);
    }
    with_ids(first, &second)
}

// The first set with the ids of the second behind its own.
fn with_ids(first: TypeSet, second: &TypeSet) -> Result<TypeSet, Memory>
    ensures { IfOk result (λ both. AddsAll first both (Contains second.now)) }
{
    let mut both = first;
    both.add_all(second.as_slice())?;
    Ok(both)
}

/// Ids of the second set that are in the first.
pub(crate) fn common(alloc: Global, first: &TypeSet, second: &TypeSet) -> Result<TypeSet, Memory>
    ensures { IfOk result (λ both. AreAmong first.now both) }
{
    let mut both = TypeSet::new(alloc);
    for id in second.as_slice() {
        if !first.contains(*id) {
            continue;
        }
        both.add(*id)?;
    }
    Ok(both)
}
