//! The types that are needed of what interfaces hold. Recursion is as deep as interfaces hold others.

use crate::renaming::{NewIds, Renaming};
use gob_go::Filled;
use gob_num::Memory;
use gob_types::{Field, Kind, Shapes, Table, TypeId};
use indexmap::IndexSet;
use std::alloc::Global;

/// Appends the types of what the interfaces of a value hold, and of what those of that hold, with all that these types
/// lead to, but for those for which an id stands: then one stands for all that they lead to.
pub(crate) fn push_needed(
    alloc: Global,
    table: &Table,
    value: &Filled,
    renaming: &Renaming,
    pending: &mut Vec<TypeId>,
) -> Result<(), Memory> {
    let mut needed = Needed {
        renaming,
        ids: IndexSet::new(alloc),
    };
    needed.add_held(value)?;
    needed.add_named(table)?;
    pending.extend_from_slice(needed.ids.as_slice())?;
    Ok(())
}

// Types for which no id stands.
struct Needed<'a> {
    renaming: &'a Renaming,
    ids: IndexSet<TypeId>,
}

// Not derived, so that a drop is one call in the proofs of what owns one.
impl Drop for Needed<'_> {
    fn drop(self) {
        let Needed {
            renaming: _,
            ids: _,
        } = self;
    }
}

impl Needed<'_> {
    // Adds a type, unless an id stands for it.
    fn add(&mut self, id: TypeId) -> Result<(), Memory> {
        if self.renaming.get(id).is_none() {
            self.ids.insert(id)?;
        }
        Ok(())
    }

    // Adds those of what the interfaces of a value hold.
    #[cycle(held)]
    fn add_held(&mut self, value: &Filled) -> Result<(), Memory> {
        for filling in &value.fillings {
            self.add(filling.id)?;
            self.add_held(&filling.value)?;
        }
        Ok(())
    }

    // Adds those that the shapes of those here name, until all are.
    fn add_named(&mut self, table: &Table) -> Result<(), Memory> {
        for place in 0..usize::MAX {
            let Some(id) = self.ids.get_index(place).copied() else {
                return Ok(());
            };
            if let Some(shape) = table.shape_of(id) {
                self.add_named_by(&shape.kind)?;
            }
        }
        Ok(())
    }

    // Adds those that a shape of this kind names.
    fn add_named_by(&mut self, kind: &Kind) -> Result<(), Memory> {
        match kind {
            Kind::Array { elem, .. } => self.add(*elem),
            Kind::Slice { elem } => self.add(*elem),
            Kind::Map { key, elem } => {
                self.add(*key)?;
                self.add(*elem)
            }
            Kind::Struct { fields } => self.add_types_of(fields.as_slice()),
            Kind::Basic(_) | Kind::Opaque(_) => Ok(()),
        }
    }

    // Adds those of fields.
    fn add_types_of(&mut self, fields: &[Field]) -> Result<(), Memory> {
        for field in fields {
            self.add(field.id)?;
        }
        Ok(())
    }
}
