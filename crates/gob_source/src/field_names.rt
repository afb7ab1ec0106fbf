//! The names of the fields of a struct, as they are seen.

ghost use Rattle.std.specs.Prelude.{◌≡◌, ◌++◌, ◌∷◌, [], ◌&&◌, not, IfOk, List};
ghost use Rattle.gob_types.specs.declared.kind.Field.{Field};
ghost use Rattle.gob_source.specs.Machine.{KnowsNames, has_name, with_name};
ghost use Rattle.gob_source.specs.Names.{is_identifier, is_reserved};
ghost use Rattle.gob_source.specs.Source.{is_declared};

use crate::names::{is_identifier, is_reserved};
use gob_types::Field;
use indexmap::IndexSet;
use std::alloc::{AllocError, Global};
use std::marker::Model;

/// The names of the fields that were seen, each of them once. A name is found by its hash.
#[derive(Drop)]
pub(crate) struct FieldNames<'a> {
    names: IndexSet<&'a [u8]>,
}

impl<'a> Model for FieldNames<'a> {
    ghost use Rattle.std.specs.Prelude.{ℕ, List, map};

    ghost Value = { List (List ℕ) };

    ghost view = { λ s. map (λ name. name.now) s.names.keys };
}

impl<'a> FieldNames<'a> {
    /// No field was seen.
    pub(crate) fn new(alloc: Global) -> FieldNames<'a>
        ensures { result ≡ [] }
    {
        FieldNames {
            names: IndexSet::new(alloc),
        }
    }

    /// Whether a struct can declare the field behind those that were seen. It is one of these then.
    pub(crate) fn declares(&mut self, field: &'a Field) -> Result<bool, AllocError>
        ensures { IfOk result (λ declared. (seen : List Field) → KnowsNames self.old seen
            → (declared ≡ is_declared seen field.now) × KnowsNames self.new (seen ++ field.now ∷ [])) }
    {
        let name = field.name.as_bytes();
        let first = self.add(name)?;
        Ok(can_declare(name, first))
    }

    /// Adds a name, and says whether it is new.
    pub(crate) fn add(&mut self, name: &'a [u8]) -> Result<bool, AllocError>
        ensures { IfOk result (λ new. (new ≡ not (has_name name.now self.old))
            × (self.new ≡ with_name self.old name.now)) }
    {
        let (_, new) = self.names.insert_full(name)?;
        Ok(new)
    }
}

// Whether a struct can declare a field of this name, which may be the first of its kind.
fn can_declare(name: &[u8], first: bool) -> bool
    ensures { result ≡ (is_identifier name.now && (not (is_reserved name.now) && first)) }
{
    is_identifier(name) && !is_reserved(name) && first
}
