//! What source declares, by names.

ghost use Rattle.std.specs.Prelude.{◌≡◌, IfOk, OnOk, Some, slice_get};
ghost use Rattle.gob_go_types.specs.Code.{DistinctNames, declaration_of, declared_at};
ghost use Rattle.gob_go_types.specs.Names.{KnowsNames, PutsName};

use crate::fault::TypesFault;
use gob_go_source::{Declaration, GoSource, GoType};
use indexmap::IndexMap;
use std::alloc::{AllocError, Global};

/// What source declares, and where the declaration of each name stands: that is found by its hash.
pub(crate) struct Code<'s, 'a> {
    /// Where memory comes from.
    pub alloc: Global,
    /// The source.
    pub source: &'s GoSource<'a>,
    names: IndexMap<&'a [u8], usize>,
    ghost known: { KnowsNames source.now.declarations.items 0 names.entries },
}

impl<'s, 'a> Drop for Code<'s, 'a> {
    fn drop(self) {
        let Code {
            alloc: _,
            source: _,
            names: _,
        } = self;
    }
}

impl<'s, 'a> Code<'s, 'a> {
    /// The source, if it declares no name twice.
    pub(crate) fn new(alloc: Global, source: &'s GoSource<'a>) -> Result<Self, TypesFault<'a>>
        ensures source { IfOk result (λ code. code.source.now ≡ source.now) }
        ensures distinct { OnOk result (DistinctNames source.now.declarations.items) }
    {
        let names = names_of(alloc, &source.declarations)?;
        Ok(Code {
            alloc,
            source,
            names,
        })
    }

    /// Where the declaration of the name stands.
    pub(crate) fn declaration_of(&self, name: &[u8]) -> Option<usize>
        ensures { result ≡ declaration_of self.now.source.now.declarations.items name.now }
    {
        self.names.get(name).copied()
    }

    /// The declaration at a place.
    pub(crate) fn declaration(&self, place: usize) -> Result<Declaration<'a>, TypesFault<'a>>
        ensures { IfOk result (λ d. slice_get self.now.source.now.declarations.items place ≡ Some d) }
    {
        self.source
            .declarations
            .get(place)
            .copied()
            .ok_or(TypesFault::Broken)
    }

    /// The number that the comment in front of the declaration of this name says.
    pub(crate) fn noted_id(&self, name: &[u8]) -> Option<u64> {
        let place = self.declaration_of(name)?;
        self.source.declarations.get(place)?.note.id
    }

    /// The type at a place.
    pub(crate) fn type_at(&self, place: usize) -> Result<&'s GoType<'a>, TypesFault<'a>>
        ensures { IfOk result (λ t. slice_get self.now.source.now.types.items place ≡ Some t.now) }
    {
        self.source.types.get(place).ok_or(TypesFault::Broken)
    }

    /// Where the declaration of the type at a place stands, if that is a declared name.
    pub(crate) fn declared_at(&self, place: usize) -> Result<Option<usize>, TypesFault<'a>>
        ensures { IfOk result (λ r. r ≡ declared_at self.now.source.now place) }
    {
        match self.type_at(place)? {
            GoType::Name(name) => Ok(self.declaration_of(*name)),
            _ => Ok(None),
        }
    }
}

// Where the declaration of each name stands, if none is declared twice.
fn names_of<'a>(
    alloc: Global,
    declarations: &[Declaration<'a>],
) -> Result<IndexMap<&'a [u8], usize>, TypesFault<'a>>
    ensures known { IfOk result (λ names. KnowsNames declarations.now 0 names.entries) }
    ensures distinct { OnOk result (DistinctNames declarations.now) }
{
    let mut names = IndexMap::new(alloc);
    let mut left = declarations.len();
    'names: while left > 0 {
        left -= 1;
        put_name(declarations[left], left, &mut names)?;
    }
    Ok(names)
}

// Puts the name of a declaration, which isn't there yet.
fn put_name<'a>(
    declaration: Declaration<'a>,
    place: usize,
    names: &mut IndexMap<&'a [u8], usize>,
) -> Result<(), TypesFault<'a>>
    ensures { OnOk result (PutsName declaration.entry place names.old.entries names.new.entries) }
{
    match names
        .insert(declaration.name, place)
        .map_err(AllocError::from)?
    {
        Some(_) => Err(TypesFault::Twice(declaration.name)),
        None => Ok(()),
    }
}
