//! Which ids stand for the types of a stream that is taken in.

ghost use Rattle.std.specs.Prelude.{◌≡◌, ◌≤◌, ◌∷◌, [], IfSome, OnOk};
ghost use Rattle.gob_join.specs.Machine.Numbered.{NumbersSome};
ghost use Rattle.gob_join.specs.Renaming.{among};

use crate::renaming::{Known, NewIds, Renaming};
use crate::same::share_more;
use crate::shape::is_renamed;
use gob_num::Memory;
use gob_types::{Shapes, Table, TypeId};
use indexmap::IndexSet;
use std::alloc::Global;

/// The first id that Go's encoder gives a type of a program.
pub(crate) const FIRST: u64 = 65;

/// Lets an id stand for each of these types for which none does: its own, where the joined stream has the same type
/// under it, with all that it leads to; else another one under which it has that; else its own, where it has none under
/// it; else the least one that is free.
pub(crate) fn number(
    alloc: Global,
    table: &Table,
    joined: &Table,
    ids: &[TypeId],
    renaming: &mut Renaming,
) -> Result<(), Memory>
    ensures { OnOk result (NumbersSome ids.now (among renaming.old) (among renaming.new)) }
{
    let mut shared = shared_types(alloc, table, joined, ids, renaming)?;
    share_more(alloc, table, joined, ids, renaming, &mut shared)?;
    let mut kept = IndexSet::new(alloc);
    keep_ids(joined, &shared, ids, renaming, &mut kept)?;
    number_anew(joined, &kept, ids, renaming)
}

// The types that the joined stream has under the same ids, with all that they lead to: those that have the same shape
// there, but for those whose shape names a type that doesn't, again and again.
fn shared_types(
    alloc: Global,
    table: &Table,
    joined: &Table,
    ids: &[TypeId],
    renaming: &Renaming,
) -> Result<Renaming, Memory> {
    let mut shared = Renaming::new(alloc);
    for id in ids {
        if joined.shape_of(*id).is_some() {
            let_stand(&mut shared, *id, *id)?;
        }
    }
    'passes: for _ in 0..ids.len() {
        let fewer = still_shared(alloc, table, joined, renaming, &shared, ids)?;
        let settled = fewer.count() == shared.count();
        shared = fewer;
        if settled {
            break;
        }
    }
    Ok(shared)
}

// Those of the shared types that have the same shape, where all others are shared.
fn still_shared(
    alloc: Global,
    table: &Table,
    joined: &Table,
    renaming: &Renaming,
    shared: &Renaming,
    ids: &[TypeId],
) -> Result<Renaming, Memory> {
    let known = Known { renaming, shared };
    let mut still = Renaming::new(alloc);
    for id in ids {
        if shared.get(*id).is_some() && is_shared(table, joined, *id, &known) {
            let_stand(&mut still, *id, *id)?;
        }
    }
    Ok(still)
}

// Whether the type has the same shape in both tables.
fn is_shared(table: &Table, joined: &Table, id: TypeId, known: &Known<'_>) -> bool {
    match (table.shape_of(id), joined.shape_of(id)) {
        (Some(shape), Some(other)) => is_renamed(shape, other, known),
        _ => false,
    }
}

// Lets an id stand for each type that is shared, and its own for each whose id is free, which is then a kept one.
fn keep_ids(
    joined: &Table,
    shared: &Renaming,
    ids: &[TypeId],
    renaming: &mut Renaming,
    kept: &mut IndexSet<TypeId>,
) -> Result<(), Memory>
    ensures { OnOk result (NumbersSome ids.now (among renaming.old) (among renaming.new)) }
{
    for id in ids {
        keep_id(joined, shared, *id, renaming, kept)?;
    }
    Ok(())
}

// So of one of them.
fn keep_id(
    joined: &Table,
    shared: &Renaming,
    id: TypeId,
    renaming: &mut Renaming,
    kept: &mut IndexSet<TypeId>,
) -> Result<(), Memory>
    ensures { OnOk result (NumbersSome (id ∷ []) (among renaming.old) (among renaming.new)) }
{
    if let Some(new) = shared.get(id) {
        return let_stand(renaming, id, new);
    }
    if joined.shape_of(id).is_some() {
        return Ok(());
    }
    kept.insert(id)?;
    let_stand(renaming, id, id)
}

// Lets the least ids that are free stand for the others.
fn number_anew(
    joined: &Table,
    kept: &IndexSet<TypeId>,
    ids: &[TypeId],
    renaming: &mut Renaming,
) -> Result<(), Memory>
    ensures { OnOk result (NumbersSome ids.now (among renaming.old) (among renaming.new)) }
{
    let mut next = FIRST;
    for id in ids {
        if renaming.get(*id).is_none() {
            let Some(new) = free_from(joined, kept, next) else {
                return Ok(());
            };
            let_stand(renaming, *id, new)?;
            next = new.0 + 1;
        }
    }
    Ok(())
}

// The least id from this one on that is free.
fn free_from(joined: &Table, kept: &IndexSet<TypeId>, first: u64) -> Option<TypeId>
    ensures { IfSome result (λ id. id.0 ≤ 2147483647) }
{
    for number in first..TypeId::GREATEST.0 + 1 {
        let id = TypeId(number);
        if joined.shape_of(id).is_none() && !kept.contains(&id) {
            return Some(id);
        }
    }
    None
}

// Lets an id stand for another, where none does.
fn let_stand(renaming: &mut Renaming, id: TypeId, new: TypeId) -> Result<(), Memory>
    ensures { OnOk result (NumbersSome (id ∷ []) (among renaming.old) (among renaming.new)) }
{
    if renaming.get(id).is_some() {
        return Ok(());
    }
    renaming.add(id, new)
}
