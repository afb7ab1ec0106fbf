//! Keeping the values of a stream that match a wanted type.

use gob_all::{
    Fault, Input, Item, Limits, MatchFault, Memory, StreamReader, Table, TreeBuilder, TypeId,
    Value, fits, match_types, receive,
};
use std::alloc::Global;
use std::io::Read;

/// Appends each value of the stream whose type matches the wanted one, as a value of that. Others are left out, and all
/// are where the wanted type isn't ready.
pub fn keep_wanted<R: Read>(
    alloc: Global,
    input: &mut Input<R>,
    wanted: &Table,
    wanted_id: TypeId,
    out: &mut Vec<Value>,
) -> Result<(), Fault> {
    let mut stream = StreamReader::<TreeBuilder>::new(alloc, Limits::standard())?;
    for _ in 0..u64::MAX {
        if !stream.more(input)? {
            return Ok(());
        }
        let step = stream.step(alloc)?;
        if let Some(Item::Put { id, value }) = &step.item {
            if let Some(kept) = received(alloc, stream.table(), *id, value, wanted, wanted_id)? {
                out.push(kept).map_err(Memory::from)?;
            }
        }
        drop(step);
    }
    Ok(())
}

/// The value as one of the wanted type, where its type matches that.
fn received(
    alloc: Global,
    table: &Table,
    id: TypeId,
    value: &Value,
    wanted: &Table,
    wanted_id: TypeId,
) -> Result<Option<Value>, Memory> {
    // What a reader gives is of a type that is ready, and fits it: whoever doesn't prove that asks.
    if !table.kept(id) || !wanted.kept(wanted_id) {
        return Ok(None);
    }
    let Ok(()) = fits(table, id, value, Limits::GREATEST_DEPTH) else {
        return Ok(None);
    };
    match match_types(alloc, table, id, wanted, wanted_id) {
        Ok(matched) => Ok(Some(receive(alloc, &matched, value)?)),
        Err(MatchFault::Clash { .. }) => Ok(None),
        Err(MatchFault::Memory) => Err(Memory),
    }
}
