//! How values are spelled.

ghost use Rattle.std.specs.Prelude.{◌≤◌};

use gob_num::Memory;
use gob_types::{Table, TypeId};
use gob_value::{SpellFault, Value, spell};
use std::alloc::Global;

/// Whether the value, down to this depth, is spelled so, behind what a vector held. It holds no more for want of
/// memory.
pub fn is_spelled(
    alloc: Global,
    table: &Table,
    id: TypeId,
    value: &Value,
    depth: u64,
    due: &[u8],
) -> Result<bool, Memory>
    requires { depth ≤ 1000 }
{
    let mut out = vec![in alloc; 7u8]?;
    match spell(alloc, table, id, value, depth, &mut out) {
        Ok(()) => Ok(out.split_first() == Some((&7, due))),
        Err(SpellFault::Memory) if out.len() == 1 => Err(Memory),
        Err(_) => Ok(false),
    }
}
