//! What is read anew of the skeleton of a value: its tape, and which of its nils are filled.

ghost use Rattle.std.specs.Prelude.{IfOk};
ghost use Rattle.gob_types.specs.Defined.{types};
ghost use Rattle.gob_types.specs.Ready.{IsReady};
ghost use Rattle.gob_value.specs.Tree.{Tree};
ghost use Rattle.gob_value.specs.Top.{SpellsTop};
ghost use Rattle.gob_tape.specs.Meaning.{Means};
ghost use Rattle.gob_json_writer.specs.Gaps.{AreGaps};

use gob_go::Filling;
use gob_num::Memory;
use gob_read::{BodyReader, CheckBuilder, Progress};
use gob_stream::Limits;
use gob_tape::{Tape, TapeBuilder};
use gob_types::{Table, TypeId};
use std::alloc::Global;

/// The tape of a value of the type, which this spells, with its tag. `Memory` also where it spells none.
pub fn tape_of(alloc: Global, table: &Table, id: TypeId, skeleton: &[u8]) -> Result<Tape, Memory>
    requires { IsReady (types table.now) id }
    ensures { IfOk result (λ tape. (v : Tree) → SpellsTop (types table.now) id v skeleton.now → Means tape v) }
{
    let mut reader = BodyReader::<TapeBuilder>::new(
        alloc,
        id,
        skeleton.len() as u64,
        Limits::DEEPEST,
    )?;
    match reader.push(alloc, table, skeleton) {
        Ok(Progress::Done { out, used: _ }) => Ok(out),
        _ => Err(Memory),
    }
}

/// For each filling how many parts of the value begin before its nil, behind that of the filling before. The value is
/// one of the type, which this spells, with its tag. `Memory` also where the fillings don't stand in parts of it, in
/// their order.
pub fn gaps_of(
    alloc: Global,
    table: &Table,
    id: TypeId,
    skeleton: &[u8],
    fillings: &[Filling],
) -> Result<Vec<u64>, Memory>
    requires { IsReady (types table.now) id }
    ensures { IfOk result (λ gaps. AreGaps (types table.now) id skeleton.now 0 fillings.now gaps.items) }
{
    let mut reader = BodyReader::<CheckBuilder>::new(
        alloc,
        id,
        skeleton.len() as u64,
        Limits::DEEPEST,
    )?;
    let mut gaps = Vec::new(alloc);
    let mut from = 0;
    let mut number = 0;
    for filling in fillings {
        let place = filling.place as usize;
        if place < from || place > skeleton.len() {
            return Err(Memory);
        }
        match reader.push(alloc, table, &skeleton[from..place]) {
            Ok(Progress::More) => {}
            _ => return Err(Memory),
        }
        let begun = reader.held();
        let Some(gap) = begun.checked_sub(number) else {
            return Err(Memory);
        };
        gaps.push(gap)?;
        let Some(behind) = begun.checked_add(1) else {
            return Err(Memory);
        };
        number = behind;
        from = place;
    }
    Ok(gaps)
}
