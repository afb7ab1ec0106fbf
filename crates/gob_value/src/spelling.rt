//! The spelling of a value of any type.

ghost use Rattle.std.specs.Prelude.{◌≡◌, ◌≤◌, OnOk, OnErr, IfErr};
ghost use Rattle.gob_num.specs.Spelled.{Appends};
ghost use Rattle.gob_value.specs.View.{view};
ghost use Rattle.gob_value.specs.Spelling.{Spells};
ghost use Rattle.gob_value.specs.Within.{IsWithin};
ghost use Rattle.gob_value.specs.Faults.{IsSpellFault};

use crate::fault::SpellFault;
use crate::fitting::fits;
use crate::value::Value;
use crate::value_bytes::write_value;
use gob_types::{Shapes, TypeId};
use std::alloc::Global;

/// Appends the one spelling of the value at the type, without a tag. The value may be no deeper than `depth`,
/// which is at most 1000. It refuses what `fits` does, and then answers `Memory` where the vector can't grow.
/// After each fault the vector holds what it held.
pub fn spell<S: Shapes>(
    alloc: Global,
    shapes: &S,
    id: TypeId,
    value: &Value,
    depth: u64,
    out: &mut Vec<u8>,
) -> Result<(), SpellFault>
    requires { depth ≤ 1000 }
    ensures ok { OnOk result
        (Appends (Spells (S.table shapes.now) id (view value.now)) out.old.items out.new.items) }
    ensures within { OnOk result (IsWithin depth (view value.now)) }
    ensures fault { IfErr result
        (λ fault. IsSpellFault (S.table shapes.now) id depth (view value.now) fault) }
    ensures err { OnErr result (out.new.items ≡ out.old.items) }
{
    fits(shapes, id, value, depth)?;
    let start = out.len();
    match write_value(alloc, value, out) {
        Ok(()) => Ok(()),
        Err(_) => {
            out.truncate(start);
            Err(SpellFault::Memory)
        }
    }
}
