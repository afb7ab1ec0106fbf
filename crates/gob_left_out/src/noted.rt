//! The fields that a value leaves out.

ghost use Rattle.std.specs.Prelude.{◌≡◌, ◌++◌, ◌∷◌, [], IfOk, OnOk, IfSome, None, slice_get, Some};
ghost use Rattle.gob_left_out.specs.LeftOut.{IsFirstPath};
ghost use Rattle.gob_left_out.specs.Machine.Walk.{IsAlone, Notes};

use crate::field::UnwantedField;
use gob_match::TypeStep;
use gob_num::Memory;
use gob_types::Name;
use indexmap::IndexMap;
use std::alloc::Global;
use std::marker::Model;

/// The fields that a value leaves out, each once, in the order in which they were met, with the steps to the first.
#[derive(Drop)]
pub struct LeftOut {
    pub(crate) rows: IndexMap<UnwantedField, Vec<TypeStep>>,
}

impl Model for LeftOut {
    ghost use Rattle.std.specs.Prelude.{List};
    ghost use Rattle.gob_left_out.specs.LeftOut.{Row};

    ghost Value = { List Row };

    ghost view = { λ s. s.rows.entries };
}

impl LeftOut {
    /// No field.
    pub fn new(alloc: Global) -> LeftOut
        ensures { result ≡ [] }
    {
        LeftOut {
            rows: IndexMap::new(alloc),
        }
    }

    /// Adds a field, to which the steps and its name lead, unless it is there.
    pub(crate) fn note(
        &mut self,
        alloc: Global,
        field: UnwantedField,
        trail: &[TypeStep],
        name: &Name,
    ) -> Result<(), Memory>
        ensures { OnOk result (Notes self.old self.new (IsAlone field (trail.now ++ TypeStep.Named name.now ∷ []))) }
    {
        if let Some(_known) = self.rows.get_index_of(&field) {
            return Ok(());
        }
        let path = path_to(alloc, trail, name)?;
        self.rows.insert(field, path)?;
        Ok(())
    }

    /// The steps to the first of them, if there is one.
    pub fn into_first(self) -> Option<Vec<TypeStep>>
        ensures none { result ≡ None → self ≡ [] }
        ensures first { IfSome result (λ path. IsFirstPath self path) }
    {
        match self.rows.into_iter().next() {
            Some((_, path)) => Some(path),
            None => None,
        }
    }
}

/// A copy of the steps, and a last one to the field of this name.
fn path_to(alloc: Global, trail: &[TypeStep], name: &Name) -> Result<Vec<TypeStep>, Memory>
    ensures { IfOk result (λ path. path.items ≡ trail.now ++ TypeStep.Named name.now ∷ []) }
{
    let mut path = Vec::new(alloc);
    for step in trail {
        path.push(step.copied(alloc)?)?;
    }
    let name = Vec::from_slice(alloc, name.as_bytes())?;
    path.push(TypeStep::Named(Name::new(name)))?;
    Ok(path)
}
