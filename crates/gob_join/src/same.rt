//! Types that the joined stream has under other ids.

use crate::numbering::FIRST;
use crate::renaming::{Known, NewIds, Renaming};
use crate::shape::is_renamed;
use gob_num::Memory;
use gob_types::{Field, Shape, Shapes, Table, TypeId};
use std::alloc::Global;

// Types that are the same under other ids, if those are that some of them lead to.
struct Assumed {
    renaming: Renaming,
    // Those for which an id stands, in the order in which they were met.
    ids: Vec<TypeId>,
}

// Not derived, so that a drop is one call in the proofs of what owns one.
impl Drop for Assumed {
    fn drop(self) {
        let Assumed {
            renaming: _,
            ids: _,
        } = self;
    }
}

impl Assumed {
    // None is met yet.
    fn new(alloc: Global) -> Assumed {
        Assumed {
            renaming: Renaming::new(alloc),
            ids: Vec::new(alloc),
        }
    }

    // Lets `new` stand for the id, unless one stands for it.
    fn assume(&mut self, known: &Known<'_>, id: TypeId, new: TypeId) -> Result<(), Memory> {
        if known.get(id).is_some() || self.renaming.get(id).is_some() {
            return Ok(());
        }
        self.renaming.add(id, new)?;
        self.ids.push(id)?;
        Ok(())
    }

    // So for the types that a shape names, by those that the other one does.
    fn assume_named(
        &mut self,
        known: &Known<'_>,
        shape: &Shape,
        other: &Shape,
    ) -> Result<(), Memory> {
        if let (Some(key), Some(new)) = (shape.kind.key(), other.kind.key()) {
            self.assume(known, key, new)?;
        }
        if let (Some(elem), Some(new)) = (shape.kind.elem(), other.kind.elem()) {
            self.assume(known, elem, new)?;
        }
        match (shape.kind.fields(), other.kind.fields()) {
            (Some(fields), Some(others)) => {
                self.assume_fields(known, fields.as_slice(), others.as_slice())
            }
            _ => Ok(()),
        }
    }

    // And of fields.
    fn assume_fields(
        &mut self,
        known: &Known<'_>,
        fields: &[Field],
        others: &[Field],
    ) -> Result<(), Memory> {
        for (field, other) in fields.iter().zip(others) {
            self.assume(known, field.id, other.id)?;
        }
        Ok(())
    }
}

/// Lets for each of the types for which no id stands one stand under which the joined stream has the same type, with
/// all that it leads to: the least one of those from the first on up to one that is free. All that types got whose own
/// was taken are there.
pub(crate) fn share_more(
    alloc: Global,
    table: &Table,
    joined: &Table,
    ids: &[TypeId],
    renaming: &Renaming,
    shared: &mut Renaming,
) -> Result<(), Memory> {
    let mut search = Search {
        alloc,
        table,
        joined,
        looks_left: LOOKS.saturating_mul(ids.len()),
    };
    for id in ids {
        if renaming.get(*id).is_none() && shared.get(*id).is_none() {
            let same = search.same_as(renaming, shared, *id)?;
            share_all(same, shared)?;
        }
    }
    Ok(())
}

// Lets those ids stand that stand there.
fn share_all(same: Option<Assumed>, shared: &mut Renaming) -> Result<(), Memory> {
    let Some(same) = same else {
        return Ok(());
    };
    for id in &same.ids {
        if let Some(new) = same.renaming.get(*id)
            && shared.get(*id).is_none()
        {
            shared.add(*id, new)?;
        }
    }
    Ok(())
}

// At how many types of the joined stream a search looks for each type. Behind them it finds no more, so that streams
// which were made to take long don't.
const LOOKS: usize = 4096;

// A search for the types of a table among those of the joined stream.
#[derive(Drop)]
struct Search<'a> {
    alloc: Global,
    table: &'a Table,
    joined: &'a Table,
    looks_left: usize,
}

impl Search<'_> {
    // The type under another id, with all that it leads to, where the joined stream has it there.
    fn same_as(
        &mut self,
        renaming: &Renaming,
        shared: &Renaming,
        id: TypeId,
    ) -> Result<Option<Assumed>, Memory> {
        let known = Known { renaming, shared };
        let Some(shape) = self.table.shape_of(id) else {
            return Ok(None);
        };
        for number in FIRST..TypeId::GREATEST.0 + 1 {
            let new = TypeId(number);
            let Some(other) = self.joined.shape_of(new) else {
                return Ok(None);
            };
            if other.name.as_bytes() == shape.name.as_bytes() {
                let same = self.same_under(&known, id, new)?;
                if same.is_some() {
                    return Ok(same);
                }
            }
        }
        Ok(None)
    }

    // The type under this id, with all that it leads to, where the joined stream has it there.
    fn same_under(
        &mut self,
        known: &Known<'_>,
        id: TypeId,
        new: TypeId,
    ) -> Result<Option<Assumed>, Memory> {
        let mut assumed = Assumed::new(self.alloc);
        assumed.assume(known, id, new)?;
        for place in 0..self.looks_left {
            self.looks_left = self.looks_left.saturating_sub(1);
            let Some(id) = assumed.ids.get(place) else {
                return Ok(Some(assumed));
            };
            if !self.is_same(known, *id, &mut assumed)? {
                return Ok(None);
            }
        }
        Ok(None)
    }

    // Whether the type has the same shape under the id that stands for its own, where those that are assumed are the
    // same.
    fn is_same(
        &self,
        known: &Known<'_>,
        id: TypeId,
        assumed: &mut Assumed,
    ) -> Result<bool, Memory> {
        let Some(new) = assumed.renaming.get(id) else {
            return Ok(false);
        };
        let (Some(shape), Some(other)) = (self.table.shape_of(id), self.joined.shape_of(new)) else {
            return Ok(false);
        };
        assumed.assume_named(known, shape, other)?;
        let ids = Assuming {
            known,
            assumed: &assumed.renaming,
        };
        Ok(is_renamed(shape, other, &ids))
    }
}

// The ids that stand for others, with those that are assumed to.
#[derive(Drop)]
struct Assuming<'a> {
    known: &'a Known<'a>,
    assumed: &'a Renaming,
}

impl NewIds for Assuming<'_> {
    ghost use Rattle.gob_join.specs.Renaming.{among, or_else};

    ghost ids = { λ both. or_else
        (or_else (among both.known.now.renaming.now) (among both.known.now.shared.now)) (among both.assumed.now) };

    fn get(&self, id: TypeId) -> Option<TypeId> {
        match self.known.get(id) {
            Some(new) => Some(new),
            None => self.assumed.get(id),
        }
    }
}
