//! Sessions that read from memory.

ghost use Rattle.std.specs.Prelude.{◌≡◌, ◌≤◌, IfOk, length};
ghost use Rattle.gob_stream.specs.Bounds.{within_trees};
ghost use Rattle.gob_go.specs.Calls.Session.{limits_of};
ghost use Rattle.gob_salvage.specs.Searching.{BeginsStream};
ghost use Rattle.gob_salvage.specs.Taking.{HasReadAll};

use crate::item::take_item;
use gob_go::GoSession;
use gob_num::Memory;
use gob_stream::{Fault, Limits};
use std::alloc::Global;

/// A session that has read these bytes, which are a stream.
pub(crate) fn read_again(alloc: Global, limits: Limits, kept: &[u8]) -> Result<GoSession, Memory>
    ensures read { IfOk result (λ session. HasReadAll session kept.now) }
    ensures limits { IfOk result (λ session. limits_of session ≡ limits) }
{
    let mut session = GoSession::new(alloc, limits)?;
    let mut at = 0;
    'items: while at < kept.len() {
        let passed = session.pass_values(&kept[at..]);
        if passed.items > 0 {
            at += passed.used;
            continue;
        }
        match take_item(alloc, &mut session, &kept[at..]) {
            Ok(used) => at += used,
            // Nothing of a stream is refused.
            Err(_) => return Err(Memory),
        }
    }
    Ok(session)
}

/// Reads items from the front of the piece, so many at the most: how many stand there, and where the last of them ends.
pub(crate) fn read_some(
    alloc: Global,
    limits: Limits,
    piece: &[u8],
    most: u64,
) -> Result<(u64, usize), Memory>
    ensures { IfOk result (λ read. BeginsStream (within_trees limits) piece.now read.0 read.1) }
{
    let mut session = GoSession::new(alloc, limits)?;
    let mut end = 0;
    'items: for items in 0..most {
        if end == piece.len() {
            return Ok((items, end));
        }
        match take_item(alloc, &mut session, &piece[end..]) {
            Ok(used) => end += used,
            Err(Fault::Refused(_)) => return Ok((items, end)),
            Err(_) => return Err(Memory),
        }
    }
    Ok((most, end))
}
