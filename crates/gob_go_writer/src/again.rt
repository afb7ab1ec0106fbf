//! A stream read and written again.

ghost use Rattle.std.specs.Prelude.{◌≡◌, ◌<◌, ◌≤◌, ◌++◌, ℕ, List, [], length, take, IfErr, IfOk, OnOk};
ghost use Rattle.gob_stream.specs.Bounds.{within_trees};
ghost use Rattle.gob_go.specs.Calls.Session.{limits_of};
ghost use Rattle.gob_go_writer.specs.Calls.Again.{HasWritten, HasWrittenOn, IsStream, StopsAgain};

use crate::item::write_item;
use gob_go::GoSession;
use gob_stream::{Advance, Fault, Limits};
use std::alloc::Global;

/// The items of a whole stream, written again as they were read: its own bytes. It refuses what a session refuses, and
/// an item that is under way at the end as `Ended`. It holds an item and the bytes that were written.
pub fn write_again(alloc: Global, bytes: &[u8], limits: Limits) -> Result<Vec<u8>, Fault>
    ensures again { IfOk result (λ again. again.items ≡ bytes.now) }
    ensures stream { OnOk result (IsStream (within_trees limits) bytes.now) }
    ensures stops { IfErr result (StopsAgain (within_trees limits) bytes.now) }
{
    let Ok(mut session) = GoSession::new(alloc, limits) else {
        return Err(Fault::Memory);
    };
    let mut again = Vec::new(alloc);
    write_items(alloc, &mut session, bytes, &mut again)?;
    session.finish()?;
    Ok(again)
}

// Writes the items that the bytes give to a session that has taken none.
fn write_items(
    alloc: Global,
    session: &mut GoSession,
    bytes: &[u8],
    out: &mut Vec<u8>,
) -> Result<(), Fault>
    requires { HasWritten session.old [] out.old.items }
    ensures written { OnOk result (HasWritten session.new bytes.now out.new.items) }
    ensures stops { IfErr result (StopsAgain (within_trees (limits_of session.old)) bytes.now) }
    ensures limits { limits_of session.new ≡ limits_of session.old }
{
    let mut used = 0;
    'steps: for _ in 0..bytes.len() {
        if used == bytes.len() {
            return Ok(());
        }
        used += write_next(alloc, session, &bytes[used..], out)?;
    }
    Ok(())
}

// Takes bytes from the front of the piece, as a session does in a step, and writes the item that ends with them.
fn write_next(
    alloc: Global,
    session: &mut GoSession,
    piece: &[u8],
    out: &mut Vec<u8>,
) -> Result<usize, Fault>
    requires { HasWrittenOn session.old out.old.items }
    ensures written { IfOk result (λ used. (bytes : List ℕ) → HasWritten session.old bytes out.old.items
        → HasWritten session.new (bytes ++ take used piece.now) out.new.items) }
    ensures used { IfOk result (λ used. (0 < length piece.now → 0 < used) × (used ≤ length piece.now)) }
    ensures stops { IfErr result (λ fault. (bytes : List ℕ) → HasWritten session.old bytes out.old.items
        → StopsAgain (within_trees (limits_of session.old)) (bytes ++ piece.now) fault) }
    ensures limits { limits_of session.new ≡ limits_of session.old }
{
    let Advance { used, item } = session.step(alloc, piece)?;
    match item {
        None => Ok(used),
        Some(item) => match write_item(alloc, session.table(), &item, out) {
            Ok(()) => Ok(used),
            Err(_) => Err(Fault::Memory),
        },
    }
}
