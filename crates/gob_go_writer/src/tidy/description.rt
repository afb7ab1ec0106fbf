//! The tidy form of descriptions, in items of their own and in what fills nils.

ghost use Rattle.std.specs.Prelude.{OnOk};
ghost use Rattle.gob_types.specs.Defined.{types};
ghost use Rattle.gob_value.specs.View.{view};
ghost use Rattle.gob_go_writer.specs.Machine.Tidied.{AreDefinitionsTidied, IsDescriptionTidied};

use gob_go::Definition;
use gob_num::Memory;
use gob_stream::Limits;
use gob_types::{Table, TypeId};
use gob_value::{Value, fits, tidy};
use std::alloc::Global;
use std::mem;

/// Gives a description its tidy form.
pub(crate) fn tidy_description(
    alloc: Global,
    table: &Table,
    described: &mut Value,
) -> Result<(), Memory>
    ensures { OnOk result (IsDescriptionTidied (types table.now) (view described.old) (view described.new)) }
{
    // its contract says that the types are those of a stream
    let _count = table.count();
    if fits(table, TypeId::WIRE_TYPE, described, Limits::GREATEST_DEPTH).is_err() {
        return Err(Memory);
    }
    let spelled = mem::replace(described, Value::Nil);
    *described = tidy(alloc, table, TypeId::WIRE_TYPE, spelled)?;
    Ok(())
}

/// Gives each description of the definitions its tidy form.
pub(crate) fn tidy_definitions(
    alloc: Global,
    table: &Table,
    definitions: &mut [Definition],
) -> Result<(), Memory>
    ensures { OnOk result (AreDefinitionsTidied (types table.now) definitions.old definitions.new) }
{
    'definitions: for i in 0..definitions.len() {
        tidy_description(alloc, table, &mut definitions[i].described)?;
    }
    Ok(())
}
