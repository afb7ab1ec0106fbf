//! Tables in which fields are renamed.

ghost use Rattle.std.specs.Prelude.{◌≡◌, ◌++◌, ◌∷◌, [], IfOk, OnOk, MatchResult, Some};
ghost use Rattle.gob_types.specs.Defined.{IsTable, types};
ghost use Rattle.gob_types.specs.Definable.{IsDefinable};
ghost use Rattle.gob_types.specs.declared.kind.Shape.{Shape};
ghost use Rattle.gob_types.specs.Table.{shape_of};
ghost use Rattle.gob_rename.specs.Fitting.{AllFit, IsRenameFault};
ghost use Rattle.gob_rename.specs.Renaming.{ids_defined, renamed, renamed_shape};

use crate::fault::RenameFault;
use crate::judging::judge;
use crate::rename::Rename;
use crate::shapes::renamed_shape;
use gob_num::Memory;
use gob_types::{Shapes, Table, TypeId};
use std::alloc::Global;

/// The table in which the fields are renamed, one after another, where `table` defines the types of these ids, in this
/// order. Each of the renames has to fit the names that those before it leave: the first that doesn't is answered.
pub fn renamed_by(
    alloc: Global,
    renames: &[Rename<'_>],
    table: &Table,
    ids: &[TypeId],
) -> Result<Table, RenameFault>
    requires { ids.now ≡ ids_defined (types table.now) }
    ensures known { IsTable (types table.now) }
    ensures renamed { IfOk result (λ made. types made ≡ renamed renames.now (types table.now)) }
    ensures judged { MatchResult result (λ _. AllFit renames.now (types table.now))
        (IsRenameFault renames.now (types table.now)) }
{
    let _known = table.count();
    for number in 0..renames.len() {
        let before = renamed_table(alloc, &renames[..number], table, ids)?;
        let judged = judge(&renames[number], &before, ids);
        drop(before);
        if let Err(misfit) = judged {
            return Err(RenameFault::Misfits { number, misfit });
        }
    }
    Ok(renamed_table(alloc, renames, table, ids)?)
}

/// The table in which the fields are renamed.
fn renamed_table(
    alloc: Global,
    renames: &[Rename<'_>],
    table: &Table,
    ids: &[TypeId],
) -> Result<Table, Memory>
    requires { ids.now ≡ ids_defined (types table.now) }
    ensures { IfOk result (λ made. types made ≡ renamed renames.now (types table.now)) }
{
    let _known = table.count();
    let mut made = Table::new(alloc, u64::MAX)?;
    for id in ids {
        define_renamed(alloc, renames, table, *id, &mut made)?;
    }
    Ok(made)
}

/// Defines the type of this id in `made` too, with its fields renamed.
fn define_renamed(
    alloc: Global,
    renames: &[Rename<'_>],
    table: &Table,
    id: TypeId,
    made: &mut Table,
) -> Result<(), Memory>
    requires { (s : Shape) → shape_of (types table.now) id ≡ Some s → IsDefinable s }
    ensures { OnOk result ((s : Shape) → shape_of (types table.now) id ≡ Some s
        → types made.new ≡ types made.old ++ (id, renamed_shape renames.now s) ∷ []) }
{
    let Some(shape) = table.shape_of(id) else {
        return Ok(());
    };
    let renamed = renamed_shape(alloc, renames, shape)?;
    // The one table took the id, and this one has room, so that memory alone can be wanting.
    match made.define(alloc, id, renamed) {
        Ok(()) => Ok(()),
        Err(_) => Err(Memory),
    }
}
