//! The names of a struct's fields.

ghost use Rattle.std.specs.Prelude.{◌≡◌, ◌↔◌, ◌++◌, ◌∷◌, [], ◌<◌, ◌^◌};
ghost use Rattle.std.specs.Prelude.{IsTrue, IfOk, MatchOption, Some, slice_get, Contains};
ghost use Rattle.gob_match.specs.Machine.Struct.{AddsName, AreNames};
ghost use Rattle.gob_match.specs.Pairs.{RepeatsName};

use gob_num::Memory;
use gob_types::Field;
use indexmap::IndexSet;
use std::alloc::Global;
use std::marker::Model;

/// Names, each of them once, in the order in which they were added. A name is found by its hash.
#[derive(Drop)]
pub(crate) struct NameSet<'a> {
    names: IndexSet<&'a [u8]>,
}

impl<'a> Model for NameSet<'a> {
    ghost use Rattle.std.specs.Prelude.{ℕ, List, map};

    ghost Value = { List (List ℕ) };

    ghost view = { λ s. map (λ name. name.now) s.names.keys };
}

impl<'a> NameSet<'a> {
    /// No names.
    pub(crate) fn new(alloc: Global) -> NameSet<'a>
        ensures { result ≡ [] }
    {
        NameSet {
            names: IndexSet::new(alloc),
        }
    }

    /// Adds a name, last, unless it is there, and says whether it is new.
    pub(crate) fn add(&mut self, name: &'a [u8]) -> Result<bool, Memory>
        ensures { IfOk result (λ new. AddsName self.old self.new name.now new) }
    {
        let (_, new) = self.names.insert_full(name)?;
        Ok(new)
    }

    /// The number of a name, counted from 0.
    pub(crate) fn number_of(&self, name: &[u8]) -> Option<usize>
        ensures { MatchOption result (¬ Contains self.now name.now) (λ k. slice_get self.now k ≡ Some name.now) }
    {
        self.names.get_index_of(name)
    }
}

/// The names of fields, in order, or `None` where two fields have one name.
pub(crate) fn names_of<'a>(
    alloc: Global,
    fields: &'a [Field],
) -> Result<Option<NameSet<'a>>, Memory>
    ensures { IfOk result (λ names. MatchOption names (RepeatsName fields.now) (AreNames fields.now)) }
{
    let mut names = NameSet::new(alloc);
    for field in fields {
        if names.add(field.name.as_bytes())? {
            continue;
        }
        return Ok(None);
    }
    Ok(Some(names))
}

/// Whether two fields have one name.
pub(crate) fn repeats_name(alloc: Global, fields: &[Field]) -> Result<bool, Memory>
    ensures { IfOk result (λ answer. IsTrue answer ↔ RepeatsName fields.now) }
{
    Ok(names_of(alloc, fields)?.is_none())
}
