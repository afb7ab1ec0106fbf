//! Which id of one stream stands for each id of another.

ghost use Rattle.std.specs.Prelude.{◌≡◌, [], None, Some, IsTrue, OnErr, OnOk};
ghost use Rattle.gob_join.specs.Renaming.{LetsStand, among};

use gob_num::Memory;
use gob_types::TypeId;
use indexmap::IndexMap;
use std::alloc::Global;
use std::marker::Model;

/// What tells which id stands for another.
pub(crate) trait NewIds {
    ghost use Rattle.std.specs.Prelude.{◌≡◌};
    ghost use Rattle.gob_join.specs.Renaming.{NewId};

    /// The id that stands for each id for which one does.
    ghost ids: { Self → NewId };

    /// The id that stands for this one, where one does.
    fn get(&self, id: TypeId) -> Option<TypeId>
        ensures { result ≡ ids self.now id };
}

/// Whether this id stands for the other.
pub(crate) fn stands_for<N: NewIds>(ids: &N, id: TypeId, new: TypeId) -> bool
    ensures { IsTrue result → N.ids ids.now id ≡ Some new }
{
    match ids.get(id) {
        Some(other) => other == new,
        None => false,
    }
}

/// Which id of the joined stream stands for an id of a stream that is taken in, as far as that is known. One id may
/// stand for two, where two types have one shape.
pub(crate) struct Renaming {
    ids: IndexMap<TypeId, TypeId>,
}

// Not derived, so that a drop is one call in the proofs of what owns one.
impl Drop for Renaming {
    fn drop(self) {
        let Renaming { ids: _ } = self;
    }
}

impl Model for Renaming {
    ghost use Rattle.std.specs.Prelude.{List};
    ghost use Rattle.gob_types.specs.declared.id.TypeId.{TypeId};

    ghost Value = { List (TypeId × TypeId) };

    ghost view = { λ s. s.ids.entries };
}

impl Renaming {
    /// One of no ids.
    pub(crate) fn new(alloc: Global) -> Renaming
        ensures { result ≡ [] }
    {
        Renaming {
            ids: IndexMap::new(alloc),
        }
    }

    /// Lets `new` stand for an id for which none stands.
    pub(crate) fn add(&mut self, id: TypeId, new: TypeId) -> Result<(), Memory>
        requires { among self.old id ≡ None }
        ensures added { OnOk result (LetsStand id new (among self.old) (among self.new)) }
        ensures unchanged { OnErr result (self.new ≡ self.old) }
    {
        self.ids.insert(id, new)?;
        Ok(())
    }

    /// For how many ids one stands.
    pub(crate) fn count(&self) -> usize {
        self.ids.len()
    }
}

impl NewIds for Renaming {
    ghost use Rattle.gob_join.specs.Renaming.{among};

    ghost ids = { λ renaming. among renaming };

    fn get(&self, id: TypeId) -> Option<TypeId> {
        self.ids.get(&id).copied()
    }
}

/// The ids that stand for others, with those that may.
#[derive(Drop)]
pub(crate) struct Known<'a> {
    pub(crate) renaming: &'a Renaming,
    pub(crate) shared: &'a Renaming,
}

impl NewIds for Known<'_> {
    ghost use Rattle.gob_join.specs.Renaming.{among, or_else};

    ghost ids = { λ known. or_else (among known.renaming.now) (among known.shared.now) };

    fn get(&self, id: TypeId) -> Option<TypeId> {
        match self.renaming.get(id) {
            Some(new) => Some(new),
            None => self.shared.get(id),
        }
    }
}
