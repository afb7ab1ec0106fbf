//! What is received of the bytes of a value, in bytes.

ghost use Rattle.std.specs.Prelude.{IfOk};
ghost use Rattle.gob_types.specs.Ready.{IsReady};
ghost use Rattle.gob_value.specs.Top.{SpellsTop};
ghost use Rattle.gob_value.specs.View.{view};
ghost use Rattle.gob_match.specs.Calls.Matched.{IsMatchOf, IsSound};
ghost use Rattle.gob_filled_match.specs.Machine.Bytes.{ReceivesBytes};

use gob_match::{Matched, receive, receive_whole};
use gob_num::Memory;
use gob_read::{BodyReader, Progress, TreeBuilder};
use gob_types::{Shapes, TypeId};
use gob_value::{Value, has_structs, spell};
use std::alloc::Global;

// How deep a value may be.
const MOST_DEPTH: u64 = 1000;

/// A type of a table.
#[derive(Drop)]
pub(crate) struct TypeIn<'a, S> {
    pub(crate) types: &'a S,
    pub(crate) id: TypeId,
}

/// The bytes of what is received of the value that these spell, behind its tag where it isn't a struct. `Memory` also
/// where they spell none.
pub(crate) fn receive_bytes<S: Shapes, T: Shapes>(
    alloc: Global,
    matched: &Matched<'_, S, T>,
    from: TypeIn<'_, S>,
    to: TypeIn<'_, T>,
    bytes: &[u8],
) -> Result<Vec<u8>, Memory>
    requires sound { IsSound S.table T.table matched.now }
    requires of { IsMatchOf from.types.now from.id to.types.now to.id matched.now }
    requires ready { IsReady (S.table from.types.now) from.id }
    ensures { IfOk result (λ received. ReceivesBytes (S.table from.entry.types.now) (T.table to.entry.types.now)
        from.entry.id to.entry.id bytes.now received.items) }
{
    let mut received = Vec::new(alloc);
    if receive_whole(alloc, matched, bytes, MOST_DEPTH, &mut received) {
        return Ok(received);
    }
    let value = tree_of(alloc, from.types, from.id, bytes)?;
    let value = receive(alloc, matched, &value)?;
    bytes_of(alloc, to.types, to.id, &value)
}

/// The value of the type that the bytes spell.
pub(crate) fn tree_of<S: Shapes>(
    alloc: Global,
    types: &S,
    id: TypeId,
    bytes: &[u8],
) -> Result<Value, Memory>
    requires { IsReady (S.table types.now) id }
    ensures { IfOk result (λ value. SpellsTop (S.table types.now) id (view value) bytes.now) }
{
    let mut reader = BodyReader::<TreeBuilder>::new(alloc, id, bytes.len() as u64, MOST_DEPTH)?;
    match reader.push(alloc, types, bytes) {
        Ok(Progress::Done { out, used: _ }) => Ok(out),
        _ => Err(Memory),
    }
}

// The bytes that spell the value of the type.
fn bytes_of<S: Shapes>(
    alloc: Global,
    types: &S,
    id: TypeId,
    value: &Value,
) -> Result<Vec<u8>, Memory>
    ensures { IfOk result (λ bytes. SpellsTop (S.table types.now) id (view value.now) bytes.items) }
{
    let mut bytes = Vec::new(alloc);
    if !has_structs(types, id) {
        bytes.push(0)?;
    }
    match spell(alloc, types, id, value, MOST_DEPTH, &mut bytes) {
        Ok(()) => Ok(bytes),
        Err(_) => Err(Memory),
    }
}
