//! What stands in the nils of a value.

ghost use Rattle.std.specs.Prelude.{◌≡◌, ℕ, ◌+◌, ◌<◌, ◌≤◌, IfOk};
ghost use Rattle.std.specs.Option.{IfSome};
ghost use Rattle.serde_json.specs.Data.{Data};
ghost use Rattle.gob_types.specs.Defined.{types};
ghost use Rattle.gob_types.specs.Table.{Table};
ghost use Rattle.gob_json_writer.specs.Nils.{HeldShows};
ghost use Rattle.gob_go.specs.Meaning.{IsFilled};
ghost use Rattle.gob_json_writer.specs.FilledJson.{FilledShows};
ghost use Rattle.gob_json_writer.specs.Machine.Holding.{Holds, IsLevelOf, HoldsFilling};

use crate::go::filling_here::Due;
use crate::go::level::{gaps_of, tape_of};
use crate::{Held, Nils};
use gob_go::{Filled, Filling};
use gob_num::Memory;
use gob_tape::Tape;
use gob_types::{Table, TypeId};
use std::alloc::{AllocError, Global};

/// What stands in the nils of a value.
#[derive(Drop)]
pub(crate) struct Holding<'a> {
    /// The types of the values.
    pub(crate) table: &'a Table,
    /// The fillings that are due.
    pub(crate) due: Due<'a>,
    /// How deep they may hold one another.
    pub(crate) levels: u64,
}

/// A value, with what stands in its nils.
#[derive(Drop)]
pub(crate) struct FilledTape<'a> {
    pub(crate) tape: Tape,
    pub(crate) nils: Holding<'a>,
}

/// The value of the type as a level.
pub(crate) fn level_of<'a>(
    alloc: Global,
    table: &'a Table,
    id: TypeId,
    value: &'a Filled,
    levels: u64,
) -> Result<FilledTape<'a>, Memory>
    ensures level { IfOk result (λ level. IsLevelOf (types table.entry.now) id value.entry.now level) }
    ensures levels { IfOk result (λ level. level.nils.levels ≡ levels) }
{
    if !table.kept(id) {
        return Err(Memory);
    }
    let tape = tape_of(alloc, table, id, &value.skeleton)?;
    let gaps = gaps_of(alloc, table, id, &value.skeleton, &value.fillings)?;
    let due = Due::new(&value.fillings, gaps);
    Ok(FilledTape {
        tape,
        nils: Holding { table, due, levels },
    })
}

impl<'a> Nils for Holding<'a> {
    ghost shows = { Holds };

    ghost levels = { λ nils. nils.levels };

    fn pass(&mut self, alloc: Global) -> Result<Option<Held<Holding<'a>>>, AllocError> {
        let Some(filling) = self.due.pass() else {
            return Ok(None);
        };
        match held_of(alloc, self.table, filling, self.levels) {
            Ok(held) => Ok(Some(held)),
            Err(_) => Err(AllocError),
        }
    }
}

/// What the filling has an interface hold.
fn held_of<'a>(
    alloc: Global,
    table: &'a Table,
    filling: &'a Filling,
    levels: u64,
) -> Result<Held<Holding<'a>>, Memory>
    ensures held { IfOk result (λ held. HoldsFilling (types table.entry.now) filling.entry.now held) }
    ensures levels { IfOk result (λ held. held.nils.levels < levels) }
{
    let Some(levels) = levels.checked_sub(1) else {
        return Err(Memory);
    };
    let level = level_of(alloc, table, filling.id, &filling.value, levels)?;
    let mut name = Vec::new(alloc);
    name.extend_from_slice(&filling.name)?;
    Ok(Held {
        name,
        id: filling.id,
        tape: level.tape,
        nils: level.nils,
    })
}
