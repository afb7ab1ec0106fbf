//! Types by their ids.
ghost use Rattle.std.specs.Prelude.{◌≡◌, [], OnOk, OnErr, IfOk, Contains, length, take};
ghost use Rattle.gob_types.specs.declared.id.TypeId.{TypeId};
ghost use Rattle.std.specs.Option.{option_copied};
ghost use Rattle.gob_types.specs.Table.{shape_of, IsDefined};
ghost use Rattle.gob_types.specs.Machine.Entered.{with_entry};

use crate::id::TypeId;
use crate::kind::Shape;
use crate::places::Places;
use crate::type_set::TypeSet;
use gob_num::Memory;
use indexmap::IndexMap;
use std::alloc::{AllocFailed, Global};
use std::marker::Model;

/// Types by their ids, in the order in which they were entered.
pub(crate) struct Entries {
    shapes: IndexMap<TypeId, Shape>,
    // Where they stand among them, as far as that is kept.
    places: Places,
}

// Not derived, so that a drop is one call in the proofs of what owns one.
impl Drop for Entries {
    fn drop(self) {
        let Entries {
            shapes: _,
            places: _,
        } = self;
    }
}

impl Model for Entries {
    ghost use Rattle.gob_types.specs.Table.{Table};

    ghost Value = { Table };

    ghost view = { λ s. s.shapes.entries };
}

impl Entries {
    /// None is entered yet.
    pub(crate) fn new(alloc: Global) -> Entries
        ensures { result ≡ [] }
    {
        Entries {
            shapes: IndexMap::new(alloc),
            places: Places::new(alloc),
        }
    }

    /// How many types there are.
    pub(crate) fn count(&self) -> usize
        ensures { result ≡ length self.now }
    {
        self.shapes.len()
    }

    /// The shape of a type, where there is one.
    #[inline]
    pub(crate) fn shape_of(&self, id: TypeId) -> Option<&Shape>
        ensures { option_copied result ≡ shape_of self.now id }
    {
        match self.shapes.get_index(self.places.of(id)) {
            Some((there, shape)) if *there == id => Some(shape),
            _ => self.search(id),
        }
    }

    // The shape of a type, found by its hash. It stands apart, so that this is no part of the loops that look up.
    #[cold]
    #[inline(never)]
    fn search(&self, id: TypeId) -> Option<&Shape>
        ensures { option_copied result ≡ shape_of self.now id }
    {
        self.shapes.get(&id)
    }

    /// The ids of the types, in order.
    pub(crate) fn ids(&self, alloc: Global) -> Result<TypeSet, Memory>
        ensures { IfOk result (λ ids. (u : TypeId) → IsDefined self.now u → Contains ids u) }
    {
        let mut ids = TypeSet::new(alloc);
        for place in 0..self.shapes.len() {
            let Some((id, _)) = self.shapes.get_index(place) else {
                continue;
            };
            ids.add(*id)?;
        }
        Ok(ids)
    }

    /// Enters a type, last, unless its id is there.
    pub(crate) fn enter(
        &mut self,
        id: TypeId,
        shape: Shape,
    ) -> Result<(), AllocFailed<(TypeId, Shape)>>
        ensures entered { OnOk result (self.new ≡ with_entry self.old id shape) }
        ensures unchanged { OnErr result (self.new ≡ self.old) }
    {
        let place = self.shapes.len();
        self.shapes.insert(id, shape)?;
        self.places.keep(id, place);
        Ok(())
    }

    /// Takes off all types but the first ones.
    pub(crate) fn truncate(&mut self, count: usize)
        ensures { self.new ≡ take count self.old }
    {
        self.shapes.truncate(count);
    }
}
