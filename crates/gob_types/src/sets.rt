//! Sets of type ids, one for each type id.
ghost use Rattle.std.specs.Prelude.{◌≡◌, [], OnOk, Contains, IfSome, is_some};
ghost use Rattle.std.specs.Map.{lookup};
ghost use Rattle.gob_types.specs.declared.id.TypeId.{TypeId};
ghost use Rattle.gob_types.specs.Machine.Entered.{same_id};
ghost use Rattle.gob_types.specs.Machine.Kept.{IsIn, KeepsSets, IsSet};

use crate::id::TypeId;
use crate::type_set::TypeSet;
use gob_num::Memory;
use indexmap::IndexMap;
use std::alloc::Global;
use std::marker::Model;
use std::mem;

/// For each type id a set of type ids, which is empty at first.
pub(crate) struct Sets {
    sets: IndexMap<TypeId, TypeSet>,
}

// Not derived, so that a drop is one call in the proofs of what owns one.
impl Drop for Sets {
    fn drop(self) {
        let Sets { sets: _ } = self;
    }
}

impl Model for Sets {
    ghost use Rattle.gob_types.specs.Machine.Kept.{Sets as IdSets};

    ghost Value = { IdSets };

    ghost view = { λ s. s.sets.entries };
}

impl Sets {
    /// All are empty.
    pub(crate) fn new(alloc: Global) -> Sets
        ensures { result ≡ [] }
    {
        Sets {
            sets: IndexMap::new(alloc),
        }
    }

    /// The set of this type.
    pub(crate) fn of(&self, id: TypeId) -> &[TypeId]
        ensures { (u : TypeId) → IsIn self.now id u → Contains result.now u }
    {
        match self.sets.get(&id) {
            Some(set) => set.as_slice(),
            None => &[],
        }
    }

    /// Whether the type has a set, be it an empty one.
    pub(crate) fn has(&self, id: TypeId) -> bool
        ensures { result ≡ is_some (lookup (same_id id) self.now) }
    {
        self.sets.get(&id).is_some()
    }

    /// Adds an id to the set of this type. Without memory each set has what it had.
    pub(crate) fn add(&mut self, alloc: Global, id: TypeId, member: TypeId) -> Result<(), Memory>
        ensures added { OnOk result (IsIn self.new id member) }
        ensures kept { KeepsSets self.old self.new }
    {
        if let Some(set) = self.sets.get_mut(&id) {
            set.add(member)?;
            return Ok(());
        }
        let mut set = TypeSet::new(alloc);
        set.add(member)?;
        self.sets.insert(id, set)?;
        Ok(())
    }

    /// Gives the type this set in place of its own.
    pub(crate) fn put(&mut self, id: TypeId, set: TypeSet) -> Result<(), Memory>
        ensures { OnOk result (IsSet self.old self.new id set) }
    {
        self.sets.insert(id, set)?;
        Ok(())
    }

    /// Takes an id out of the set of this type, the last, where there is one.
    pub(crate) fn pop(&mut self, id: TypeId) -> Option<TypeId>
        ensures taken { IfSome result (λ u. IsIn self.old id u) }
        ensures kept { KeepsSets self.new self.old }
    {
        let set = self.sets.get_mut(&id)?;
        set.pop()
    }

    /// Takes all out of the set of this type.
    pub(crate) fn take(&mut self, alloc: Global, id: TypeId) -> TypeSet
        ensures taken { (u : TypeId) → Contains result u → IsIn self.old id u }
        ensures kept { KeepsSets self.new self.old }
    {
        let empty = TypeSet::new(alloc);
        let Some(set) = self.sets.get_mut(&id) else {
            return empty;
        };
        mem::replace(set, empty)
    }
}
