//! Fillings moved to the nils that they fill in what is received.

ghost use Rattle.std.specs.Prelude.{◌≡◌, IfOk, IfSome, Some, map};
ghost use Rattle.gob_types.specs.Table.{Table};
ghost use Rattle.gob_filled.specs.Filled.{Fillings};
ghost use Rattle.gob_go.specs.Meaning.{AreFillings};
ghost use Rattle.gob_filled_match.specs.Machine.Moving.{AreStillThere, HasWaited, IsPlaced, MovesFillings};

use crate::taking::FilledNil;
use gob_go::Filling;
use gob_num::Memory;
use std::alloc::Global;

/// Those of the fillings that fill these nils, by their numbers, each at its place. `Memory` also where there is none
/// of a number, or only one for two nils.
pub(crate) fn move_fillings(
    alloc: Global,
    fillings: Vec<Filling>,
    nils: &[FilledNil],
) -> Result<Vec<Filling>, Memory>
    ensures { IfOk result (λ moved. (T : Table) (all : Fillings) → AreFillings T fillings.items all
        → MovesFillings T all nils.now moved.items) }
{
    let mut waiting = all_waiting(alloc, fillings)?;
    let mut moved = Vec::new(alloc);
    for nil in nils {
        let Some(filling) = take_waiting(&mut waiting, nil.number) else {
            return Err(Memory);
        };
        moved.push(placed(filling, nil.place))?;
    }
    Ok(moved)
}

// All of them wait.
fn all_waiting(alloc: Global, fillings: Vec<Filling>) -> Result<Vec<Option<Filling>>, Memory>
    ensures { IfOk result (λ waiting. waiting.items ≡ map (λ filling. Some filling) fillings.items) }
{
    let mut waiting = Vec::new(alloc);
    for filling in fillings {
        waiting.push(Some(filling))?;
    }
    Ok(waiting)
}

// The filling of this number, if it still waits.
fn take_waiting(waiting: &mut Vec<Option<Filling>>, number: u64) -> Option<Filling>
    ensures taken { IfSome result (HasWaited waiting.old.items number) }
    ensures others { AreStillThere waiting.old.items waiting.new.items }
{
    let index = number.checked_sub(1)? as usize;
    if index >= waiting.len() {
        return None;
    }
    waiting[index].take()
}

// The filling at this place.
fn placed(filling: Filling, place: u64) -> Filling
    ensures { IsPlaced filling place result }
{
    let Filling {
        place: _,
        name,
        definitions,
        id,
        value,
    } = filling;
    Filling {
        place,
        name,
        definitions,
        id,
        value,
    }
}
