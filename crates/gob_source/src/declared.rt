//! The types that a file declares.

ghost use Rattle.std.specs.Prelude.{◌≡◌, IfOk, OnOk, is_some};
ghost use Rattle.gob_types.specs.Table.{shape_of};
ghost use Rattle.gob_source.specs.Names.{is_taken};
ghost use Rattle.gob_source.specs.Places.{KnowsIds, KnowsNamed, PutsName, first_id, first_named, precedes, stands_by};
ghost use Rattle.gob_source.specs.Source.{comes_by, is_among};

use gob_types::{Shapes, TypeId};
use indexmap::IndexMap;
use std::alloc::{AllocError, Global};

/// The types that a file declares, and where each of them and each name stands first: both are found by their hashes.
pub(crate) struct Declared<'a, S: Shapes> {
    /// Where memory comes from.
    pub alloc: Global,
    /// The table that has them.
    pub shapes: &'a S,
    /// Their ids, in order.
    pub ids: &'a [TypeId],
    places: IndexMap<TypeId, usize>,
    names: IndexMap<&'a [u8], usize>,
    ghost known_ids: { KnowsIds 0 ids.now places.entries },
    ghost known_names: { KnowsNamed (S.table shapes.now) 0 ids.now names.entries },
}

impl<'a, S: Shapes> Drop for Declared<'a, S> {
    fn drop(self) {
        let Declared {
            alloc: _,
            shapes: _,
            ids: _,
            places: _,
            names: _,
        } = self;
    }
}

impl<'a, S: Shapes> Declared<'a, S> {
    /// These types of the table, in order.
    pub(crate) fn new(alloc: Global, shapes: &'a S, ids: &'a [TypeId]) -> Result<Self, AllocError>
        ensures shapes { IfOk result (λ types. types.shapes.now ≡ shapes.now) }
        ensures ids { IfOk result (λ types. types.ids.now ≡ ids.now) }
    {
        let places = places_of(alloc, ids)?;
        let names = names_of(alloc, shapes, ids)?;
        Ok(Declared {
            alloc,
            shapes,
            ids,
            places,
            names,
        })
    }

    /// Whether the type is among them.
    pub(crate) fn declares(&self, id: TypeId) -> bool
        ensures { result ≡ is_among id self.now.ids.now }
    {
        self.place_of(id).is_some()
    }

    /// Whether the type stands among them, and not behind the other.
    pub(crate) fn comes_by(&self, of: TypeId, id: TypeId) -> bool
        ensures { result ≡ comes_by self.now.ids.now of id }
    {
        stands_by(self.place_of(id), self.place_of(of))
    }

    /// Whether a type that stands before this one has the name.
    pub(crate) fn is_taken(&self, id: TypeId, name: &[u8]) -> bool
        ensures { result ≡ is_taken (S.table self.now.shapes.now) self.now.ids.now id name.now }
    {
        precedes(self.names.get(name).copied(), self.place_of(id))
    }

    // Where the type stands first.
    fn place_of(&self, id: TypeId) -> Option<usize>
        ensures { result ≡ first_id 0 self.now.ids.now id }
    {
        self.places.get(&id).copied()
    }
}

// Whether there is a place, and no other before it.
fn stands_by(place: Option<usize>, other: Option<usize>) -> bool
    ensures { result ≡ stands_by place other }
{
    match (place, other) {
        (Some(place), Some(other)) => place <= other,
        (Some(_), None) => true,
        (None, _) => false,
    }
}

// Whether there is a place, before the other if there is one.
fn precedes(place: Option<usize>, other: Option<usize>) -> bool
    ensures { result ≡ precedes place other }
{
    match (place, other) {
        (Some(place), Some(other)) => place < other,
        (Some(_), None) => true,
        (None, _) => false,
    }
}

// Where each of these types stands first.
fn places_of(alloc: Global, ids: &[TypeId]) -> Result<IndexMap<TypeId, usize>, AllocError>
    ensures { IfOk result (λ places. KnowsIds 0 ids.now places.entries) }
{
    let mut places = IndexMap::new(alloc);
    let mut left = ids.len();
    'ids: while left > 0 {
        left -= 1;
        places.insert(ids[left], left)?;
    }
    Ok(places)
}

// Where each name of these types stands first.
fn names_of<'a, S: Shapes>(
    alloc: Global,
    shapes: &'a S,
    ids: &[TypeId],
) -> Result<IndexMap<&'a [u8], usize>, AllocError>
    ensures { IfOk result (λ names. KnowsNamed (S.table shapes.now) 0 ids.now names.entries) }
{
    let mut names = IndexMap::new(alloc);
    let mut left = ids.len();
    'names: while left > 0 {
        left -= 1;
        put_name(shapes, ids[left], left, &mut names)?;
    }
    Ok(names)
}

// Puts the place of a type's name, in place of a later one.
fn put_name<'a, S: Shapes>(
    shapes: &'a S,
    id: TypeId,
    place: usize,
    names: &mut IndexMap<&'a [u8], usize>,
) -> Result<(), AllocError>
    ensures { OnOk result
        (PutsName (shape_of (S.table shapes.now) id) place names.old.entries names.new.entries) }
{
    let Some(shape) = shapes.shape_of(id) else {
        return Ok(());
    };
    names.insert(shape.name.as_bytes(), place)?;
    Ok(())
}
