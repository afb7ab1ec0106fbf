//! Whether an item that a session gave is the one that was spelled. Recursion is as deep as interfaces hold others.

ghost use Rattle.std.specs.Prelude.{◌≡◌, MatchBool, IfErr, OnOk};
ghost use Rattle.gob_types.specs.Defined.{types};
ghost use Rattle.gob_value.specs.View.{view};
ghost use Rattle.gob_go.specs.Meaning.{definitions_of};
ghost use Rattle.gob_go_writer.specs.Machine.Alike.{AreAlike, AreAlikeDescribed, AreFilledAlike, AreDefinedAlike};
ghost use Rattle.gob_go_writer.specs.Machine.Alike.{FillAlike, FilledAs, FillsAs, MeansAs};
ghost use Rattle.gob_go_writer.specs.Machine.Unfit.{IsUnfit};

use crate::value::{NO_ITEM, write_description};
use gob_go::{Definition, Filled, Filling, GoItem};
use gob_types::{Denial, Table};
use gob_value::Value;
use std::alloc::Global;

/// Ok exactly where the two items are the same, as far as there is memory to spell their descriptions anew.
pub(crate) fn same_item(
    alloc: Global,
    table: &Table,
    given: &GoItem,
    item: &GoItem,
) -> Result<(), Denial>
    ensures ok { OnOk result (MeansAs given.now item.now) }
    ensures refused { IfErr result (IsUnfit (AreAlike (types table.now) given.now item.now)) }
{
    match given {
        GoItem::Define { id, described } => {
            let GoItem::Define {
                id: due_id,
                described: due,
            } = item
            else {
                return Err(NO_ITEM);
            };
            if id.0 != due_id.0 {
                return Err(NO_ITEM);
            }
            same_description(alloc, table, described, due)
        }
        GoItem::Put { id, value } => {
            let GoItem::Put {
                id: due_id,
                value: due,
            } = item
            else {
                return Err(NO_ITEM);
            };
            if id.0 != due_id.0 {
                return Err(NO_ITEM);
            }
            same_value(alloc, table, value, due)
        }
    }
}

// Ok exactly where the two values are the same.
#[cycle(same)]
fn same_value(alloc: Global, table: &Table, given: &Filled, due: &Filled) -> Result<(), Denial>
    ensures ok { OnOk result (FilledAs given.now due.now) }
    ensures refused { IfErr result (IsUnfit (AreFilledAlike (types table.now) given.now due.now)) }
{
    if !same_bytes(&given.skeleton, &due.skeleton) || given.fillings.len() != due.fillings.len() {
        return Err(NO_ITEM);
    }
    'fillings: for place in 0..given.fillings.len() {
        same_filling(alloc, table, &given.fillings[place], &due.fillings[place])?;
    }
    Ok(())
}

// Ok exactly where the two fill a nil alike.
#[cycle(same)]
fn same_filling(alloc: Global, table: &Table, given: &Filling, due: &Filling) -> Result<(), Denial>
    ensures ok { OnOk result (FillsAs given.now due.now) }
    ensures refused { IfErr result (IsUnfit (FillAlike (types table.now) given.now due.now)) }
{
    if given.place != due.place || given.id.0 != due.id.0 || !same_bytes(&given.name, &due.name) {
        return Err(NO_ITEM);
    }
    same_definitions(alloc, table, &given.definitions, &due.definitions)?;
    same_value(alloc, table, &given.value, &due.value)?;
    Ok(())
}

// Ok exactly where the two define the same, in one order.
fn same_definitions(
    alloc: Global,
    table: &Table,
    given: &[Definition],
    due: &[Definition],
) -> Result<(), Denial>
    ensures ok { OnOk result (definitions_of given.now ≡ definitions_of due.now) }
    ensures refused { IfErr result (IsUnfit (AreDefinedAlike (types table.now) given.now due.now)) }
{
    if given.len() != due.len() {
        return Err(NO_ITEM);
    }
    'definitions: for place in 0..given.len() {
        let one = &given[place];
        let other = &due[place];
        if one.id.0 != other.id.0 {
            return Err(NO_ITEM);
        }
        same_description(alloc, table, &one.described, &other.described)?;
    }
    Ok(())
}

// Ok exactly where the two descriptions are the same. Equal descriptions have equal spellings.
fn same_description(alloc: Global, table: &Table, given: &Value, due: &Value) -> Result<(), Denial>
    ensures ok { OnOk result (view given.now ≡ view due.now) }
    ensures refused { IfErr result
        (IsUnfit (AreAlikeDescribed (types table.now) (view given.now) (view due.now))) }
{
    let mut spelled = Vec::new(alloc);
    write_description(alloc, table, given, &mut spelled)?;
    let mut due_spelled = Vec::new(alloc);
    write_description(alloc, table, due, &mut due_spelled)?;
    if !same_bytes(&spelled, &due_spelled) {
        return Err(NO_ITEM);
    }
    Ok(())
}

// Whether the bytes are the same.
fn same_bytes(first: &[u8], second: &[u8]) -> bool
    ensures { MatchBool result (first.now ≡ second.now) (¬ (first.now ≡ second.now)) }
{
    first == second
}
