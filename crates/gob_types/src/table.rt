//! The table of a stream: its definitions, and which of its types are ready.
ghost use Rattle.std.specs.Prelude.{◌≡◌, ◌++◌, ◌∷◌, [], IfOk, OnOk, OnErr, MatchResult, IfErr, IsTrue, ◌↔◌};
ghost use Rattle.gob_types.specs.Base.{base_table};
ghost use Rattle.gob_types.specs.Definable.{IsDefinable};
ghost use Rattle.gob_types.specs.Defined.{IsTable, Admits, types, definition_count};
ghost use Rattle.gob_types.specs.Refused.{RefusesToDefine};
ghost use Rattle.gob_types.specs.Ready.{IsReady};
ghost use Rattle.gob_types.specs.Machine.Kept.{IsKeptReadiness};
ghost use Rattle.gob_types.specs.Readiness.{IsNotReady};

use crate::basic::Basic;
use crate::definitions::Definitions;
use crate::id::TypeId;
use crate::kind::Shape;
use crate::learning::{learn_anew, settle};
use crate::places::Places;
use crate::readiness::NotReady;
use crate::shapes::Shapes;
use crate::type_set::TypeSet;
use crate::waits::Waits;
use gob_num::Memory;
use std::alloc::{AllocFailed, Global};
use std::marker::Model;
use std::mem;

/// Why a definition is refused. The table is then as it was before.
#[derive(Clone, Copy, Debug, PartialEq, Eq)]
pub enum DefineFault {
    /// The id is below 64 or above 2147483647.
    ReservedType,
    /// The id is defined already.
    DefinedTwice,
    /// As many definitions as the table may take are there already.
    TooManyTypes,
    /// The allocator refused to let the table grow.
    Memory,
}

impl<T: Drop> From<AllocFailed<T>> for DefineFault {
    ghost use Rattle.std.specs.Prelude.{◌≡◌};
    ghost use Rattle.gob_types.specs.declared.table.DefineFault.TheVariants as fault;

    ghost from_gives = { λ _ given. given ≡ fault.Memory };

    fn from(_: AllocFailed<T>) -> DefineFault {
        DefineFault::Memory
    }
}

/// The types of one stream: the base table, and behind it what the stream has defined, in the order of
/// arrival. It keeps which of them are ready.
pub struct Table {
    definitions: Definitions,
    // The types that are ready.
    ready: TypeSet,
    // Where they stand among them, as far as that is kept.
    ready_places: Places,
    // What the others wait for, where that is known: not behind a definition for which there was no memory.
    waits: Option<Waits>,
}

// Not derived, so that a drop is one call in the proofs of what owns one.
impl Drop for Table {
    fn drop(self) {
        let Table {
            definitions: _,
            ready: _,
            ready_places: _,
            waits: _,
        } = self;
    }
}

impl Model for Table {
    ghost use Rattle.gob_types.specs.Defined.{Defined, types};
    ghost use Rattle.gob_types.specs.Machine.Kept.{IsKeptReadiness};

    ghost Value = { Defined };

    ghost view = { λ s. s.definitions };

    ghost invariant = { λ s. IsKeptReadiness (types s.definitions) s.ready s.waits };
}

impl Table {
    /// The table that a stream begins with: the base table alone. It takes at most `max_types` definitions.
    pub fn new(alloc: Global, max_types: u64) -> Result<Table, Memory>
        ensures base { IfOk result (λ table. types table ≡ base_table) }
        ensures most { IfOk result (λ table. table.most ≡ max_types) }
    {
        let definitions = Definitions::new(alloc, max_types)?;
        let mut ready = TypeSet::new(alloc);
        let waits = learn_anew(&definitions, alloc, &mut ready)?;
        let mut ready_places = Places::new(alloc);
        keep_places(&mut ready_places, &ready, 0);
        Ok(Table {
            definitions,
            ready,
            ready_places,
            waits: Some(waits),
        })
    }

    /// How many definitions there are.
    pub fn count(&self) -> u64
        ensures count { result ≡ definition_count (types self.now) }
        ensures known { IsTable (types self.now) }
    {
        self.definitions.count()
    }

    /// Whether the table takes a definition of this id, or the first reason why it refuses one. It never
    /// answers [`DefineFault::Memory`].
    pub fn admits(&self, id: TypeId) -> Result<(), DefineFault>
        ensures admitted { OnOk result (Admits self.now id) }
        ensures refused { IfErr result (λ fault. RefusesToDefine self.now id fault) }
        ensures judged { IfErr result (λ fault. ¬ (fault ≡ DefineFault.Memory)) }
        ensures known { IsTable (types self.now) }
    {
        self.definitions.admits(id)
    }

    /// Defines a type, behind those that are defined already. The first of the faults that holds is answered,
    /// and after a fault the table is as it was.
    pub fn define(&mut self, alloc: Global, id: TypeId, shape: Shape) -> Result<(), DefineFault>
        requires { IsDefinable shape }
        ensures admitted { OnOk result (Admits self.old id) }
        ensures defined { OnOk result (types self.new ≡ types self.old ++ (id, shape) ∷ []) }
        ensures most { self.new.most ≡ self.old.most }
        ensures refused { IfErr result (λ fault. RefusesToDefine self.old id fault) }
        ensures unchanged { OnErr result (self.new ≡ self.old) }
    {
        self.definitions.learn();
        self.definitions.define(alloc, id, shape)?;
        let count = self.ready.count();
        let waits = mem::replace(&mut self.waits, None);
        if let Ok(settled) = settle(&self.definitions, alloc, &mut self.ready, waits, id) {
            self.waits = Some(settled);
            keep_places(&mut self.ready_places, &self.ready, count);
            return Ok(());
        }
        self.ready.truncate(count);
        self.definitions.undo();
        Err(DefineFault::Memory)
    }

    /// Whether the type is ready: each type that it leads to, itself among them, is defined and has finite values.
    /// It takes no memory and no walk.
    #[inline]
    pub fn kept(&self, id: TypeId) -> bool
        ensures { IsTrue result ↔ IsReady (types self.now) id }
    {
        self.ready.contains_at(id, self.ready_places.of(id))
    }

    /// Whether values of the type can be read: each type that it leads to, itself among them, is defined and
    /// has finite values. It speaks of the table alone, so type 24 is ready, though no stream may name it.
    ///
    /// What isn't defined is answered before what has no finite value, and of several ids the least. Of a type that
    /// is ready nothing is walked or allocated; else the time is linear in the types that are reached and in what
    /// their shapes name.
    pub fn ready(&self, alloc: Global, id: TypeId) -> Result<(), NotReady>
        ensures judged { let T = types self.now in
            MatchResult result (λ _. IsReady T id) (λ fault. IsNotReady T id fault) }
        ensures known { IsTable (types self.now) }
    {
        self.definitions.learn();
        if self.kept(id) {
            return Ok(());
        }
        self.definitions.ready(alloc, id)
    }
}

// Keeps the places of the ids of a set from this one on.
fn keep_places(places: &mut Places, ids: &TypeSet, from: usize) {
    'ids: for place in from..ids.count() {
        if let Some(id) = ids.at(place) {
            places.keep(id, place);
        }
    }
}

impl Shapes for Table {
    ghost use Rattle.gob_types.specs.Defined.{types};
    ghost use Rattle.gob_types.specs.Machine.Distinct.{distinct-types};

    ghost table = { types };

    ghost distinct = { distinct-types };

    #[inline]
    fn shape_of(&self, id: TypeId) -> Option<&Shape> {
        self.definitions.shape_of(id)
    }

    #[inline]
    fn basic_of(&self, id: TypeId) -> Option<Basic> {
        self.definitions.basic_of(id)
    }
}
