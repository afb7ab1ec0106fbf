//! The JSON of a value whose interfaces may hold others.

ghost use Rattle.serde_json.specs.Data.{Data};
ghost use Rattle.gob_types.specs.Defined.{types};
ghost use Rattle.gob_json_writer.specs.WritesJson.{WritesJsonOf};
ghost use Rattle.gob_json_writer.specs.FilledJson.{PutShows};

use crate::go::holding::{FilledTape, level_of};
use crate::write_filled_tape;
use gob_go::Filled;
use gob_types::{Table, TypeId};
use json::Writer;
use std::alloc::{AllocError, Global};

// How deep values may hold one another.
const LEVELS: u64 = 1000;

/// Writes a value of this type, with the type: `{"type":t,"value":v}`. A nil that is filled shows as
/// `{"interface":{"name":n,"type":t,"value":v}}`, where `n` is text as a string where it is UTF-8, else an object that
/// holds its bytes in hexadecimal; any other nil shows as `null`. The writing goes as deep as the value.
pub fn write_filled(
    alloc: Global,
    id: TypeId,
    value: &Filled,
    table: &Table,
    out: &mut Writer,
) -> Result<(), AllocError>
    ensures { WritesJsonOf result out.old out.new (PutShows (types table.now) id value.now) (λ json. json) }
{
    match level_of(alloc, table, id, value, LEVELS) {
        Ok(FilledTape { tape, mut nils }) => {
            write_filled_tape(alloc, id, &tape, &mut nils, table, out)
        }
        Err(_) => Err(AllocError),
    }
}
