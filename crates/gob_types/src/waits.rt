//! What types that aren't ready wait for.
//!
//! Each waits for one that it leads to. That one isn't defined, or waits itself, or no definition can make it ready;
//! so the ways of waiting come to an end, and what waits isn't ready. Types that lead to one another are one
//! component: they wait for one of them, and what they had still to look at is its.
ghost use Rattle.std.specs.Prelude.{◌≡◌, ◌⊎◌, [], OnOk, IfOk, IfSome, Contains, MatchBool, Some, is_some, IsTrue, ◌↔◌};
ghost use Rattle.std.specs.Map.{lookup};
ghost use Rattle.gob_types.specs.declared.id.TypeId.{TypeId};
ghost use Rattle.gob_types.specs.Machine.Entered.{same_id};
ghost use Rattle.gob_types.specs.Table.{Table};
ghost use Rattle.gob_types.specs.Ready.{Reaches};
ghost use Rattle.gob_types.specs.Machine.Kept.{IsIn, KeepsSets, IsSet, Waiting, WaitsFor, AreLed, Redirects};
ghost use Rattle.gob_types.specs.Machine.Kept.{AddsWaiting};

use crate::id::TypeId;
use crate::sets::Sets;
use crate::type_set::{TypeSet, merged};
use gob_num::Memory;
use indexmap::IndexMap;
use std::alloc::Global;
use std::marker::Model;

/// What each type that isn't ready waits for.
pub(crate) struct Waits {
    // For types that aren't ready one each that they lead to.
    awaited: IndexMap<TypeId, TypeId>,
    // For each type those that wait, or waited, for it.
    users: Sets,
    // For each type what it has still to look at: types that it leads to.
    left: Sets,
}

// Not derived, so that a drop is one call in the proofs of what owns one.
impl Drop for Waits {
    fn drop(self) {
        let Waits {
            awaited: _,
            users: _,
            left: _,
        } = self;
    }
}

impl Model for Waits {
    ghost use Rattle.gob_types.specs.Machine.Kept.{Waiting, KnowsUsers};

    ghost Value = { Waiting };

    ghost view = { λ s. record { awaited = s.awaited.entries; left = s.left } };

    ghost invariant = { λ s. KnowsUsers s.awaited.entries s.users };
}

// How many steps are tried first, when it is asked whether one type waits for another.
const FEWEST_STEPS: usize = 8;

impl Waits {
    /// None waits yet.
    pub(crate) fn new(alloc: Global) -> Waits
        ensures awaited { result.awaited ≡ [] }
        ensures left { result.left ≡ [] }
    {
        Waits {
            awaited: IndexMap::new(alloc),
            users: Sets::new(alloc),
            left: Sets::new(alloc),
        }
    }

    /// What the type waits for.
    pub(crate) fn awaited(&self, id: TypeId) -> Option<TypeId>
        ensures { result ≡ lookup (same_id id) self.now.awaited }
    {
        self.awaited.get(&id).copied()
    }

    /// The types that wait for this one, and others that did.
    pub(crate) fn users(&self, id: TypeId) -> &[TypeId]
        ensures { (u : TypeId) → lookup (same_id u) self.now.awaited ≡ Some id → Contains result.now u }
    {
        self.users.of(id)
    }

    /// Whether the type was given what it has to look at.
    pub(crate) fn has_begun(&self, id: TypeId) -> bool
        ensures { result ≡ is_some (lookup (same_id id) self.now.left) }
    {
        self.left.has(id)
    }

    /// Gives the type what it has to look at: these types.
    pub(crate) fn begin(&mut self, id: TypeId, names: TypeSet) -> Result<(), Memory>
        ensures left { OnOk result (IsSet self.old.left self.new.left id names) }
        ensures awaited { self.new.awaited ≡ self.old.awaited }
    {
        self.left.put(id, names)
    }

    /// The next type that this one has to look at.
    pub(crate) fn next(&mut self, id: TypeId) -> Option<TypeId>
        ensures taken { IfSome result (λ u. IsIn self.old.left id u) }
        ensures left { KeepsSets self.new.left self.old.left }
        ensures awaited { self.new.awaited ≡ self.old.awaited }
    {
        self.left.pop(id)
    }

    /// Lets the type wait for another.
    pub(crate) fn wait(&mut self, alloc: Global, id: TypeId, awaited: TypeId) -> Result<(), Memory>
        ensures awaited { OnOk result (IsSet self.old.awaited self.new.awaited id awaited) }
        ensures left { self.new.left ≡ self.old.left }
    {
        self.users.add(alloc, awaited, id)?;
        self.awaited.insert(id, awaited)?;
        Ok(())
    }

    /// Whether the one type is the other, waits for it, or waits for one that does.
    ///
    /// It is asked from both sides in turn, with twice as many steps each time: so it takes about the fewer of the
    /// types on the way from the one, and of those that wait for the other.
    pub(crate) fn leads_to(&self, alloc: Global, from: TypeId, id: TypeId) -> Result<bool, Memory>
        ensures { IfOk result (λ yes.
            MatchBool yes (WaitsFor self.now.awaited from id) (¬ WaitsFor self.now.awaited from id)) }
    {
        let mut steps = FEWEST_STEPS;
        for _ in 0..usize::BITS {
            if let Some(yes) = self.ahead(from, id, steps) {
                return Ok(yes);
            }
            if let Some(yes) = self.behind(alloc, from, id, steps)? {
                return Ok(yes);
            }
            steps = steps.saturating_mul(2);
        }
        // No memory has so many types.
        Err(Memory)
    }

    // Whether the one type waits for the other, where so many steps from the one type tell it.
    fn ahead(&self, from: TypeId, id: TypeId, steps: usize) -> Option<bool>
        ensures { IfSome result (λ yes.
            MatchBool yes (WaitsFor self.now.awaited from id) (¬ WaitsFor self.now.awaited from id)) }
    {
        let mut at = from;
        for _ in 0..steps {
            if at == id {
                return Some(true);
            }
            let Some(next) = self.awaited(at) else {
                return Some(false);
            };
            at = next;
        }
        None
    }

    // Whether the one type waits for the other, where so many of those that wait for the other tell it.
    fn behind(
        &self,
        alloc: Global,
        from: TypeId,
        id: TypeId,
        most: usize,
    ) -> Result<Option<bool>, Memory>
        ensures { IfOk result (λ told. IfSome told (λ yes.
            MatchBool yes (WaitsFor self.now.awaited from id) (¬ WaitsFor self.now.awaited from id))) }
    {
        let mut back = TypeSet::new(alloc);
        back.add(id)?;
        let mut room = most;
        let mut next = 0;
        while next < back.count() {
            let at = back.as_slice()[next];
            next += 1;
            let users = self.users(at);
            if users.len() >= room {
                return Ok(None);
            }
            room -= users.len();
            self.add_waiting(&mut back, at, users)?;
        }
        Ok(Some(back.contains(from)))
    }

    // Adds those of the users that wait for this type.
    fn add_waiting(&self, back: &mut TypeSet, id: TypeId, users: &[TypeId]) -> Result<(), Memory>
        ensures { OnOk result (AddsWaiting self.now.awaited users.now id back.old back.new) }
    {
        for user in users {
            if !self.is_waiting(*user, id) {
                continue;
            }
            back.add(*user)?;
        }
        Ok(())
    }

    // Whether the type waits for this one.
    fn is_waiting(&self, user: TypeId, id: TypeId) -> bool
        ensures { IsTrue result ↔ (lookup (same_id user) self.now.awaited ≡ Some id) }
    {
        match self.awaited(user) {
            Some(awaited) => awaited == id,
            None => false,
        }
    }

    /// Lets each type on the way of waiting from the one to the other wait for the other, which takes over what they
    /// had still to look at.
    pub(crate) fn take_over(
        &mut self,
        alloc: Global,
        from: TypeId,
        id: TypeId,
    ) -> Result<(), Memory>
        ensures redirected { OnOk result (Redirects self.old.awaited self.new.awaited id) }
        ensures led { (T : Table) → AreLed T self.old → Reaches T id from → WaitsFor self.old.awaited from id
            → OnOk result (AreLed T self.new) }
    {
        let mut at = from;
        for _ in 0..self.awaited.len() {
            if at == id {
                return Ok(());
            }
            let Some(next) = self.awaited(at) else {
                return Ok(());
            };
            self.merge(alloc, at, id)?;
            self.wait(alloc, at, id)?;
            at = next;
        }
        Ok(())
    }

    // Adds what the one type had to look at to what the other has.
    fn merge(&mut self, alloc: Global, from: TypeId, id: TypeId) -> Result<(), Memory>
        ensures left { OnOk result ((u w : TypeId) → IsIn self.new.left u w → IsIn self.old.left u w
            ⊎ ((id ≡ u) × IsIn self.old.left from w)) }
        ensures awaited { self.new.awaited ≡ self.old.awaited }
    {
        let taken = self.left.take(alloc, from);
        let own = self.left.take(alloc, id);
        self.left.put(id, merged(own, taken)?)
    }
}
