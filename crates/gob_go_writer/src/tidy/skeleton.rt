//! The tidy form of a skeleton, and where its nils stand.

ghost use Rattle.std.specs.Prelude.{IfOk};
ghost use Rattle.gob_types.specs.Defined.{types};
ghost use Rattle.gob_go_writer.specs.Machine.Tidied.{IsSkeletonTidied};

use crate::tidy::places::{are_closer, places_of};
use gob_go::Filling;
use gob_num::Memory;
use gob_tidy::tidy_with_nils;
use gob_types::{Table, TypeId};
use std::alloc::Global;

/// The tidy form of a skeleton.
pub(crate) struct Skeleton {
    /// Its bytes.
    pub(crate) bytes: Vec<u8>,
    /// Where the nils stand in it that are filled.
    pub(crate) places: Vec<u64>,
}

/// The tidy form of the skeleton of a value of the type, whose nils are filled with these.
pub(crate) fn tidy_skeleton(
    alloc: Global,
    table: &Table,
    id: TypeId,
    skeleton: &[u8],
    fillings: &[Filling],
) -> Result<Skeleton, Memory>
    ensures { IfOk result (λ form. IsSkeletonTidied (types table.now) id skeleton.now fillings.now form) }
{
    let nils = places_of(alloc, fillings)?;
    let mut bytes = Vec::new(alloc);
    let Some(places) = tidy_with_nils(alloc, table, id, skeleton, &nils, &mut bytes)? else {
        return Err(Memory);
    };
    if !are_closer(&nils, &places, skeleton, &bytes) {
        return Err(Memory);
    }
    Ok(Skeleton { bytes, places })
}
