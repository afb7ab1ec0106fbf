//! The tidy form of a value, level by level. Recursion is as deep as interfaces hold others, at most 1000.

ghost use Rattle.std.specs.Prelude.{OnOk};
ghost use Rattle.gob_types.specs.Defined.{types};
ghost use Rattle.gob_go_writer.specs.Machine.Tidied.{AreTidied, IsFillingTidied, IsValueTidied};

use crate::tidy::description::tidy_definitions;
use crate::tidy::skeleton::{Skeleton, tidy_skeleton};
use gob_go::{Filled, Filling};
use gob_num::Memory;
use gob_types::{Table, TypeId};
use std::alloc::Global;

/// Gives a value of the type its tidy form.
#[cycle(value)]
pub(crate) fn tidy_value(
    alloc: Global,
    table: &Table,
    id: TypeId,
    value: &mut Filled,
) -> Result<(), Memory>
    ensures { OnOk result (IsValueTidied (types table.now) id value.old value.new) }
{
    let Skeleton { bytes, places } = tidy_skeleton(
        alloc,
        table,
        id,
        &value.skeleton,
        &value.fillings,
    )?;
    value.skeleton = bytes;
    tidy_fillings(alloc, table, &mut value.fillings, &places)
}

// Gives what fills nils its tidy form, for the nils at these places.
#[cycle(value)]
fn tidy_fillings(
    alloc: Global,
    table: &Table,
    fillings: &mut [Filling],
    places: &[u64],
) -> Result<(), Memory>
    ensures { OnOk result (AreTidied (types table.now) places.now fillings.old fillings.new) }
{
    'fillings: for i in 0..fillings.len() {
        let Some(place) = places.get(i) else {
            return Err(Memory);
        };
        tidy_filling(alloc, table, *place, &mut fillings[i])?;
    }
    Ok(())
}

// Gives what fills a nil its tidy form, and the definitions in front of it theirs, for the nil at this place.
#[cycle(value)]
fn tidy_filling(
    alloc: Global,
    table: &Table,
    place: u64,
    filling: &mut Filling,
) -> Result<(), Memory>
    ensures { OnOk result (IsFillingTidied (types table.now) place filling.old filling.new) }
{
    filling.place = place;
    tidy_definitions(alloc, table, &mut filling.definitions)?;
    tidy_value(alloc, table, filling.id, &mut filling.value)
}
