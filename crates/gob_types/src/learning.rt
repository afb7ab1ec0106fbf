//! Which types of a table are ready, found from those that are known to be.
//!
//! What is ready stays ready when the table grows. A type that isn't waits for one that it leads to (`waits.rt`), and
//! is looked at when it is defined, and when what it waited for became ready. It then goes on through the types that
//! it leads to from where it stopped, and drops those that are ready. One that waits for the type itself is of its
//! component, and what it had still to look at is looked at too. For any other it waits. So each name is looked at
//! once; where none is left, one walk past the ready types shows the whole component to be ready, or that no
//! definition can make it so.
ghost use Rattle.std.specs.Prelude.{◌≡◌, [], IfOk, OnOk, IfSome, Contains, MatchBool, Some};
ghost use Rattle.std.specs.Map.{lookup};
ghost use Rattle.gob_types.specs.declared.id.TypeId.{TypeId};
ghost use Rattle.gob_types.specs.Machine.Entered.{same_id};
ghost use Rattle.gob_types.specs.Table.{Table};
ghost use Rattle.gob_types.specs.Defined.{types};
ghost use Rattle.gob_types.specs.Ready.{Reaches};
ghost use Rattle.gob_types.specs.Machine.Walk.{Grows};
ghost use Rattle.gob_types.specs.Machine.Kept.{AreReady, AreLed, Redirects, WaitsFor, IsHopeless, MetPast, AreAdded};
ghost use Rattle.gob_types.specs.Machine.Kept.{IsLooking, IsLearning, AreSettled, WasKept, IsJudged};

use crate::definitions::Definitions;
use crate::grounds::Grounds;
use crate::id::TypeId;
use crate::reaching::reached_past;
use crate::readiness::names_of;
use crate::type_set::{TypeSet, common};
use crate::waits::Waits;
use gob_num::Memory;
use std::alloc::Global;

/// Finds what the definition of this type, the last one, makes ready.
pub(crate) fn settle(
    table: &Definitions,
    alloc: Global,
    ready: &mut TypeSet,
    waits: Option<Waits>,
    id: TypeId,
) -> Result<Waits, Memory>
    requires { WasKept (types table.now) id ready.old waits }
    ensures settled { IfOk result (λ made. AreSettled (types table.now) ready.new made) }
    ensures grown { Grows ready.old ready.new }
{
    let Some(mut waits) = waits else {
        return learn_anew(table, alloc, ready);
    };
    let mut queue = TypeSet::new(alloc);
    look(table, alloc, ready, &mut waits, &mut queue, id)?;
    learn_all(table, alloc, ready, &mut waits, queue)?;
    Ok(waits)
}

/// Finds which types are ready, where nothing is known of the others.
pub(crate) fn learn_anew(
    table: &Definitions,
    alloc: Global,
    ready: &mut TypeSet,
) -> Result<Waits, Memory>
    requires { AreReady (types table.now) ready.old }
    ensures settled { IfOk result (λ made. AreSettled (types table.now) ready.new made) }
    ensures grown { Grows ready.old ready.new }
{
    let mut waits = Waits::new(alloc);
    let ids = table.ids(alloc)?;
    learn_all(table, alloc, ready, &mut waits, ids)?;
    Ok(waits)
}

// Looks at these types, and at those that wait for one that became ready, and so on.
fn learn_all(
    table: &Definitions,
    alloc: Global,
    ready: &mut TypeSet,
    waits: &mut Waits,
    ids: TypeSet,
) -> Result<(), Memory>
    requires { IsLearning (types table.now) ready.old waits.old ids }
    ensures settled { OnOk result (AreSettled (types table.now) ready.new waits.new) }
    ensures grown { Grows ready.old ready.new }
{
    let mut queue = ids;
    for _ in 0..u64::MAX {
        let Some(id) = queue.pop() else {
            return Ok(());
        };
        if is_judged(ready, waits, id) {
            continue;
        }
        look(table, alloc, ready, waits, &mut queue, id)?;
    }
    // No memory has so many types.
    Err(Memory)
}

// Whether the type is ready, or waits for one that isn't.
fn is_judged(ready: &TypeSet, waits: &Waits, id: TypeId) -> bool
    ensures { MatchBool result (IsJudged waits.now.awaited ready.now id) (¬ Contains ready.now id) }
{
    if ready.contains(id) {
        return true;
    }
    match waits.awaited(id) {
        Some(awaited) => !ready.contains(awaited),
        None => false,
    }
}

// Looks at a type: it waits for another then, or no definition can make it ready, or it is ready, and what waits for
// it or for another that became ready with it is in the queue.
fn look(
    table: &Definitions,
    alloc: Global,
    ready: &mut TypeSet,
    waits: &mut Waits,
    queue: &mut TypeSet,
    id: TypeId,
) -> Result<(), Memory>
    requires looking { IsLooking (types table.now) ready.old waits.old queue.old id }
    requires apart { ¬ Contains ready.old id }
    ensures learning { OnOk result (IsLearning (types table.now) ready.new waits.new queue.new) }
    ensures grown { Grows ready.old ready.new }
{
    begin(table, alloc, waits, id)?;
    if let Some(next) = next_awaited(alloc, ready, waits, id)? {
        return waits.wait(alloc, id, next);
    }
    let mut met = TypeSet::new(alloc);
    if let Some(missing) = reached_past(table, ready, id, &mut met)? {
        return waits.wait(alloc, id, missing);
    }
    if !are_grounded(table, alloc, ready, id, &met)? {
        return Ok(());
    }
    add_ready(ready, waits, queue, &met)
}

// Gives the type the types that it names to look at, where it wasn't looked at before.
fn begin(table: &Definitions, alloc: Global, waits: &mut Waits, id: TypeId) -> Result<(), Memory>
    ensures led { AreLed (types table.now) waits.old → OnOk result (AreLed (types table.now) waits.new) }
    ensures awaited { waits.new.awaited ≡ waits.old.awaited }
{
    if waits.has_begun(id) {
        return Ok(());
    }
    waits.begin(id, names_of(table, alloc, id)?)
}

// The next type to look at from this one that isn't ready and doesn't wait for it in turn. What does is taken over.
fn next_awaited(
    alloc: Global,
    ready: &TypeSet,
    waits: &mut Waits,
    id: TypeId,
) -> Result<Option<TypeId>, Memory>
    ensures redirected { OnOk result (Redirects waits.old.awaited waits.new.awaited id) }
    ensures led { (T : Table) → AreLed T waits.old → OnOk result (AreLed T waits.new) }
    ensures apart { IfOk result (λ found.
        IfSome found (λ at. (¬ Contains ready.now at) × ¬ WaitsFor waits.new.awaited at id)) }
    ensures reached { (T : Table) → AreLed T waits.old → IfOk result (λ found. IfSome found (λ at. Reaches T id at)) }
{
    for _ in 0..u64::MAX {
        let Some(at) = waits.next(id) else {
            return Ok(None);
        };
        if ready.contains(at) {
            continue;
        }
        if !waits.leads_to(alloc, at, id)? {
            return Ok(Some(at));
        }
        waits.take_over(alloc, at, id)?;
    }
    Ok(None)
}

// Adds these types to those that are ready, and the types that wait for a new one of them to the queue.
fn add_ready(
    ready: &mut TypeSet,
    waits: &Waits,
    queue: &mut TypeSet,
    met: &TypeSet,
) -> Result<(), Memory>
    ensures grown { Grows ready.old ready.new }
    ensures added { OnOk result (AreAdded waits.now.awaited met.now ready.old ready.new queue.old queue.new) }
{
    for id in met.as_slice() {
        if !ready.add(*id)? {
            continue;
        }
        queue.add_all(waits.users(*id))?;
    }
    Ok(())
}

// Whether all of these types, which were met from the one, have finite values.
fn are_grounded(
    table: &Definitions,
    alloc: Global,
    known: &TypeSet,
    id: TypeId,
    met: &TypeSet,
) -> Result<bool, Memory>
    requires known { AreReady (types table.now) known.now }
    requires met { MetPast (types table.now) known.now id met.now }
    ensures { IfOk result
        (λ yes. MatchBool yes (AreReady (types table.now) met.now) (IsHopeless (types table.now) id)) }
{
    let mut grounds = Grounds::of(alloc, common(alloc, known, met)?);
    for id in met.as_slice() {
        if !grounds.judge(table, alloc, *id)? {
            return Ok(false);
        }
    }
    Ok(true)
}
