//! What a file of source is made of, gathered from the items of a stream.

ghost use Rattle.std.specs.Prelude.{◌≡◌, OnOk};
ghost use Rattle.gob_types.specs.Table.{Table};
ghost use Rattle.gob_types.specs.declared.id.TypeId.{TypeId};
ghost use Rattle.gob_filled.specs.Filled as spelled;
ghost use Rattle.gob_go.specs.Meaning.{IsFilled};
ghost use Rattle.gob_go.specs.declared.filled.Filling.{out-Filling};
ghost use Rattle.gob_source.specs.Registered.{each_once, with_naming};
ghost use Rattle.gob_views.specs.Gathering.{inner_namings};
ghost use Rattle.gob_views.specs.Machine.Gathered.{IsEmpty, ItemGathered, TypeGathered};

use gob_go::{Filled, Filling, GoItem, push_ids};
use gob_num::Memory;
use gob_source::RegisteredNames;
use gob_types::TypeId;
use indexmap::IndexSet;
use std::alloc::Global;

/// What was gathered. It grows with the types and their names, and not with the values.
pub(crate) struct Gathered {
    /// The ids of the types that the items define, in order.
    pub(crate) ids: Vec<TypeId>,
    /// The names under which types fill interfaces.
    pub(crate) names: RegisteredNames,
    /// The types of the values, each of them once.
    pub(crate) values: IndexSet<TypeId>,
}

impl Drop for Gathered {
    fn drop(self) {
        let Gathered {
            ids: _,
            names: _,
            values: _,
        } = self;
    }
}

impl Gathered {
    /// Nothing was gathered.
    pub(crate) fn new(alloc: Global) -> Gathered
        ensures { IsEmpty result }
    {
        Gathered {
            ids: Vec::new(alloc),
            names: RegisteredNames::new(alloc),
            values: IndexSet::new(alloc),
        }
    }

    /// Gathers what an item says.
    pub(crate) fn keep(&mut self, alloc: Global, item: &GoItem) -> Result<(), Memory>
        ensures { OnOk result (ItemGathered item.now self.old self.new) }
    {
        push_ids(item, &mut self.ids)?;
        if let GoItem::Put { id, value } = item {
            self.keep_type(*id)?;
            return keep_names(alloc, value, &mut self.names);
        }
        Ok(())
    }

    /// Gathers the type of a value.
    pub(crate) fn keep_type(&mut self, id: TypeId) -> Result<(), Memory>
        ensures { OnOk result (TypeGathered id self.old self.new) }
    {
        self.values.insert_full(id)?;
        Ok(())
    }
}

/// Gathers the names under which types fill the interfaces of a value, at any depth.
#[cycle(names)]
fn keep_names(alloc: Global, value: &Filled, names: &mut RegisteredNames) -> Result<(), Memory>
    ensures { OnOk result ((T : Table) (t : TypeId) (w : spelled.Filled) → IsFilled T t value.now w
        → names.new ≡ each_once names.old (inner_namings w)) }
{
    for filling in &value.fillings {
        keep_filling(alloc, filling, names)?;
    }
    Ok(())
}

/// Gathers the name of a filling, and those in its value.
#[cycle(names)]
fn keep_filling(alloc: Global, filling: &Filling, names: &mut RegisteredNames) -> Result<(), Memory>
    ensures { OnOk result ((T : Table) (w : spelled.Filled)
        → IsFilled T (out-Filling filling.now).id (out-Filling filling.now).value w
        → names.new ≡ each_once (with_naming names.old (
          (out-Filling filling.now).id,
          (out-Filling filling.now).name.items,
        )) (inner_namings w)) }
{
    names.add(alloc, filling.id, &filling.name)?;
    keep_names(alloc, &filling.value, names)
}
