//! The definitions of a stream, behind the base table.
ghost use Rattle.std.specs.Prelude.{◌≡◌, ◌++◌, ◌∷◌, [], IfOk, OnOk, OnErr, MatchResult, IfErr, Contains};
ghost use Rattle.gob_types.specs.declared.id.TypeId.{TypeId};
ghost use Rattle.gob_types.specs.Table.{IsDefined};
ghost use Rattle.gob_types.specs.Base.{base_table};
ghost use Rattle.gob_types.specs.Definable.{IsDefinable};
ghost use Rattle.gob_types.specs.Defined.{IsTable, Admits, types, definition_count};
ghost use Rattle.gob_types.specs.Refused.{RefusesToDefine};
ghost use Rattle.gob_types.specs.Machine.Kept.{prefix};

use crate::base::enter_base;
use crate::basic::Basic;
use crate::entries::Entries;
use crate::id::TypeId;
use crate::kind::Shape;
use crate::shapes::Shapes;
use crate::table::DefineFault;
use crate::type_set::TypeSet;
use gob_num::Memory;
use std::alloc::Global;
use std::marker::Model;

/// The base table, and behind it what the stream has defined, in the order of arrival.
pub(crate) struct Definitions {
    // The types, in that order.
    entries: Entries,
    // How many definitions there may be at most.
    max_types: u64,
}

// Not derived, so that a drop is one call in the proofs of what owns one.
impl Drop for Definitions {
    fn drop(self) {
        let Definitions {
            entries: _,
            max_types: _,
        } = self;
    }
}

impl Model for Definitions {
    ghost use Rattle.gob_types.specs.Defined.{Defined, IsTable};

    ghost Value = { Defined };

    ghost view = { λ s. record { entries = s.entries; most = s.max_types } };

    ghost invariant = { λ s. IsTable s.entries };
}

impl Definitions {
    /// The table that a stream begins with: the base table alone. It takes at most `max_types` definitions.
    pub(crate) fn new(alloc: Global, max_types: u64) -> Result<Definitions, Memory>
        ensures base { IfOk result (λ made. types made ≡ base_table) }
        ensures most { IfOk result (λ made. made.most ≡ max_types) }
    {
        let mut entries = Entries::new(alloc);
        enter_base(&mut entries, alloc)?;
        Ok(Definitions { entries, max_types })
    }

    /// How many definitions there are.
    pub(crate) fn count(&self) -> u64
        ensures count { result ≡ definition_count (types self.now) }
        ensures known { IsTable (types self.now) }
    {
        self.entries.count() as u64 - BASE_COUNT
    }

    /// The ids of the types.
    pub(crate) fn ids(&self, alloc: Global) -> Result<TypeSet, Memory>
        ensures { IfOk result (λ ids. (u : TypeId) → IsDefined (types self.now) u → Contains ids u) }
    {
        self.entries.ids(alloc)
    }

    /// What is known of every table: a caller learns it by this call, which does nothing.
    pub(crate) fn learn(&self)
        ensures types { IsTable (types self.now) }
        ensures entries { IsTable self.now.entries }
    {
        let _ = &self.entries;
    }

    /// Whether the table takes a definition of this id, or the first reason why it refuses one. It never
    /// answers [`DefineFault::Memory`].
    pub(crate) fn admits(&self, id: TypeId) -> Result<(), DefineFault>
        ensures admitted { OnOk result (Admits self.now id) }
        ensures refused { IfErr result (λ fault. RefusesToDefine self.now id fault) }
        ensures judged { IfErr result (λ fault. ¬ (fault ≡ DefineFault.Memory)) }
        ensures known { IsTable (types self.now) }
    {
        self.learn();
        if !id.is_own() {
            return Err(DefineFault::ReservedType);
        }
        if self.shape_of(id).is_some() {
            return Err(DefineFault::DefinedTwice);
        }
        if self.count() >= self.max_types {
            return Err(DefineFault::TooManyTypes);
        }
        Ok(())
    }

    /// Defines a type, behind those that are defined already. The first of the faults that holds is answered,
    /// and after a fault the table is as it was.
    pub(crate) fn define(
        &mut self,
        _alloc: Global,
        id: TypeId,
        shape: Shape,
    ) -> Result<(), DefineFault>
        requires { IsDefinable shape }
        ensures admitted { OnOk result (Admits self.old id) }
        ensures defined { OnOk result (types self.new ≡ types self.old ++ (id, shape) ∷ []) }
        ensures entries { OnOk result (self.new.entries ≡ self.old.entries ++ (id, shape) ∷ []) }
        ensures most { self.new.most ≡ self.old.most }
        ensures refused { IfErr result (λ fault. RefusesToDefine self.old id fault) }
        ensures unchanged { OnErr result (self.new ≡ self.old) }
    {
        self.admits(id)?;
        self.entries.enter(id, shape)?;
        Ok(())
    }

    /// Takes the last definition back.
    pub(crate) fn undo(&mut self)
        requires { IsTable (prefix self.old.entries) }
        ensures entries { self.new.entries ≡ prefix self.old.entries }
        ensures most { self.new.most ≡ self.old.most }
    {
        let count = self.entries.count();
        self.entries.truncate(count.saturating_sub(1));
    }
}

impl Shapes for Definitions {
    ghost use Rattle.gob_types.specs.Defined.{types};
    ghost use Rattle.gob_types.specs.Machine.Distinct.{distinct-types};

    ghost table = { types };

    ghost distinct = { distinct-types };

    #[inline]
    fn shape_of(&self, id: TypeId) -> Option<&Shape> {
        self.entries.shape_of(id)
    }

    #[inline]
    fn basic_of(&self, id: TypeId) -> Option<Basic> {
        self.learn();
        id.basic()
    }
}

// How many types the base table has.
const BASE_COUNT: u64 = 17;
