//! Values whose types are named by other ids. Recursion is as deep as interfaces hold others.

ghost use Rattle.std.specs.Prelude.{◌≡◌, Some, IfOk};
ghost use Rattle.gob_join.specs.Machine.Renamed.{RenamesFilling, RenamesKept};
ghost use Rattle.gob_join.specs.Renaming.{among};

use crate::fault::TakeFault;
use crate::renaming::{NewIds, Renaming};
use gob_go::{Filled, Filling};
use gob_types::{Reason, TypeId};
use std::alloc::Global;

/// The answer where no id stands for one, or where its shape isn't the other's.
pub(crate) const UNKNOWN: TakeFault = TakeFault::Full(Reason::DoesNotFit);

/// The value, where other ids stand for the types of what its interfaces hold, without the definitions in it. Refused
/// where none stands for one.
#[cycle(value)]
pub(crate) fn renamed_value(
    alloc: Global,
    value: Filled,
    ids: &Renaming,
) -> Result<Filled, TakeFault>
    ensures { IfOk result (λ made. RenamesKept (among ids.now) value made) }
{
    let Filled { skeleton, fillings } = value;
    let mut renamed = Vec::new(alloc);
    for filling in fillings {
        renamed.push(renamed_filling(alloc, filling, ids)?)?;
    }
    Ok(Filled {
        skeleton,
        fillings: renamed,
    })
}

// So what fills a nil.
#[cycle(value)]
fn renamed_filling(alloc: Global, filling: Filling, ids: &Renaming) -> Result<Filling, TakeFault>
    ensures { IfOk result (λ made. RenamesFilling (among ids.now) filling made) }
{
    let Filling {
        place,
        name,
        definitions: _,
        id,
        value,
    } = filling;
    let id = new_id(ids, id)?;
    let value = renamed_value(alloc, value, ids)?;
    Ok(Filling {
        place,
        name,
        definitions: Vec::new(alloc),
        id,
        value,
    })
}

/// The id that stands for this one.
pub(crate) fn new_id(ids: &Renaming, id: TypeId) -> Result<TypeId, TakeFault>
    ensures { IfOk result (λ new. among ids.now id ≡ Some new) }
{
    match ids.get(id) {
        Some(new) => Ok(new),
        None => Err(UNKNOWN),
    }
}
