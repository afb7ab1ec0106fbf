//! The definitions that are in force where another encoder's stream begins.

ghost use Rattle.std.specs.Prelude.{◌≤◌, List, IfOk, IsTrue};
ghost use Rattle.gob_types.specs.Table.{Table};
ghost use Rattle.gob_stream.specs.Bounds.{within_trees};
ghost use Rattle.gob_filled.specs.Stream.{FilledItem, FilledStream};
ghost use Rattle.gob_types.specs.Base.{base_table};
ghost use Rattle.gob_salvage.specs.Fronts.{DefinesTypes, IsWithout};

use crate::frame::frame_at;
use gob_num::Memory;
use gob_split::push_definitions;
use gob_stream::{Input, Limits};
use indexmap::IndexSet;
use std::alloc::Global;

/// The definitions of a stream, each as an item of its own, those in its values too.
pub(crate) fn definitions_of(
    alloc: Global,
    limits: Limits,
    stream: &[u8],
) -> Result<Vec<u8>, Memory>
    ensures { (items : List FilledItem) (T : Table)
        → FilledStream base_table (within_trees limits) items stream.now T
        → IfOk result (λ definitions. DefinesTypes (within_trees limits) T definitions.items) }
{
    let mut definitions = Vec::new(alloc);
    let mut input = Input::new(stream);
    match push_definitions(alloc, &mut input, &mut definitions, limits) {
        Ok(()) if may_have(&limits, definitions.len()) => Ok(definitions),
        // Nothing of a stream is refused.
        _ => Err(Memory),
    }
}

// Whether an item, and a stream, may have so many bytes.
fn may_have(limits: &Limits, bytes: usize) -> bool
    ensures item { IsTrue result → bytes ≤ limits.now.item }
    ensures stream { IsTrue result → bytes ≤ limits.now.stream }
{
    let count = bytes as u64;
    count <= limits.item() && count <= limits.stream()
}

/// The definitions but those of these ids.
pub(crate) fn without(
    alloc: Global,
    limits: &Limits,
    definitions: &[u8],
    ids: &IndexSet<u64>,
) -> Result<Vec<u8>, Memory>
    ensures { (T : Table) → DefinesTypes (within_trees limits.now) T definitions.now
        → IfOk result (λ front. IsWithout (within_trees limits.now) T ids.now.keys front.items) }
{
    let mut front = Vec::new(alloc);
    let mut at = 0;
    'definitions: while at < definitions.len() {
        let Some(frame) = frame_at(limits, definitions, at) else {
            // Each is an item.
            return Err(Memory);
        };
        if !ids.contains(&frame.number.unsigned_abs()) {
            front.extend_from_slice(&definitions[at..frame.end])?;
        }
        at = frame.end;
    }
    Ok(front)
}
