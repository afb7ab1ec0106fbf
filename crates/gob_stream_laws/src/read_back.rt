//! What is written is read back: the contracts of gob_stream together, as that of one function.

ghost use Rattle.std.specs.Prelude.{◌≡◌, Err, IfOk};
ghost use Rattle.gob_stream.specs.Item.{item_views};
ghost use Rattle.gob_stream.specs.declared.fault.Fault.{Fault};
ghost use Rattle.gob_stream.specs.declared.fault.Fault.TheVariants.{Refused};
ghost use Rattle.gob_stream.specs.declared.fault.Refusal.{Refusal};

use gob_stream::{Fault, Input, Item, Limits, Output, WriteStop, laws, read_stream, write_stream};
use gob_value::Value;
use std::alloc::Global;

/// Why items were not read back.
#[derive(Clone, Copy, Debug, PartialEq, Eq)]
pub enum Stopped {
    /// The writer stopped.
    Writing(WriteStop),
    /// The reader stopped.
    Reading(Fault),
}

/// Writes the items to memory, and reads them back: those items, and what was written is not refused.
pub fn write_and_read(
    alloc: Global,
    items: &[Item<Value>],
    limits: Limits,
) -> Result<Vec<Item<Value>>, Stopped>
    ensures same { IfOk result (λ given. item_views given.items ≡ item_views items.now) }
    ensures unrefused { (refusal : Refusal) → ¬ (result ≡ Err (Stopped.Reading (Refused refusal))) }
{
    let mut output = Output::new(Vec::new(alloc));
    if let Err(stop) = write_stream(alloc, &mut output, items, limits) {
        return Err(Stopped::Writing(stop));
    }
    let bytes = output.into_inner();
    let mut input = Input::new(bytes.as_slice());
    let mut given = Vec::new(alloc);
    laws::streams_are_read_back();
    match read_stream(alloc, &mut input, limits, &mut given) {
        Ok(()) => Ok(given),
        Err(fault) => Err(Stopped::Reading(fault)),
    }
}
