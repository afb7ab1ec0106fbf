//! Registered names, type by type.

ghost use Rattle.std.specs.Prelude.{◌≡◌, ◌+◌, ◌<◌, ◌^◌, IfOk, OnOk, length, slice_index_or};
ghost use Rattle.gob_source.specs.Adds.{Adds};
ghost use Rattle.gob_source.specs.Places.{CountsNames, KnowsNamings, PutsNaming, count_in};
ghost use Rattle.gob_source.specs.Registered.{name_line, naming, names_of, names_text, namings};

use crate::registered::Registered;
use crate::text::{push_escaped, push_text};
use gob_types::TypeId;
use indexmap::IndexMap;
use std::alloc::{AllocError, Global};

/// A name of a type, by its place among the names of that type.
#[derive(Clone, Copy, PartialEq, Eq, Hash)]
pub(crate) struct NamePlace {
    id: TypeId,
    place: usize,
}

/// The names of each type: how many it has, and which. Both are found by their hashes.
pub(crate) struct NamesByType<'a> {
    /// All of the names.
    pub all: &'a [Registered],
    counts: IndexMap<TypeId, usize>,
    names: IndexMap<NamePlace, &'a [u8]>,
    ghost counted: { CountsNames (namings all.now) counts.entries },
    ghost known: { KnowsNamings (namings all.now) names.entries },
}

impl<'a> Drop for NamesByType<'a> {
    fn drop(self) {
        let NamesByType {
            all: _,
            counts: _,
            names: _,
        } = self;
    }
}

impl<'a> NamesByType<'a> {
    /// These names, type by type.
    pub(crate) fn new(alloc: Global, all: &'a [Registered]) -> Result<Self, AllocError>
        ensures { IfOk result (λ names. names.all.now ≡ all.now) }
    {
        let mut counts = IndexMap::new(alloc);
        let mut names = IndexMap::new(alloc);
        for index in 0..all.len() {
            put_naming(&all[index], &mut counts, &mut names)?;
        }
        Ok(NamesByType { all, counts, names })
    }

    // How many names a type has.
    fn count_of(&self, id: TypeId) -> usize
        ensures { result ≡ length (names_of id (namings self.now.all.now)) }
    {
        self.counts.get(&id).copied().unwrap_or(0)
    }

    // One of them.
    fn name_of(&self, id: TypeId, place: usize) -> &'a [u8]
        requires { place < length (names_of id (namings self.now.all.now)) }
        ensures { result.now ≡ slice_index_or (names_of id (namings self.now.all.now)) place result.now }
    {
        match self.names.get(&NamePlace { id, place }) {
            Some(name) => *name,
            None => unreachable!(),
        }
    }
}

// Puts a name behind those of its type.
fn put_naming<'a>(
    registered: &'a Registered,
    counts: &mut IndexMap<TypeId, usize>,
    names: &mut IndexMap<NamePlace, &'a [u8]>,
) -> Result<(), AllocError>
    requires { count_in counts.old.entries registered.now.id + 1 < 2 ^ 64 }
    ensures { OnOk result (PutsNaming (naming registered.now) counts.old.entries counts.new.entries names.old.entries
        names.new.entries) }
{
    let id = registered.id;
    let place = counts.get(&id).copied().unwrap_or(0);
    names.insert(NamePlace { id, place }, registered.name.as_slice())?;
    counts.insert(id, place + 1)?;
    Ok(())
}

/// Appends the names of a type, a line each.
pub(crate) fn push_names(
    names: &NamesByType<'_>,
    id: TypeId,
    out: &mut Vec<u8>,
) -> Result<(), AllocError>
    ensures { Adds result out.old.items out.new.items (names_text (names_of id (namings names.now.all.now))) }
{
    for place in 0..names.count_of(id) {
        push_name_line(names.name_of(id, place), out)?;
    }
    Ok(())
}

// Appends a line with a name.
fn push_name_line(name: &[u8], out: &mut Vec<u8>) -> Result<(), AllocError>
    ensures { Adds result out.old.items out.new.items (name_line name.now) }
{
    push_text(b"\n// registered as ", out)?;
    push_escaped(name, out)
}
