//! Reading a body in pieces.

ghost use Rattle.std.specs.Prelude.{[], IfOk, min};
ghost use Rattle.gob_types.specs.Defined.{types};
ghost use Rattle.gob_read.specs.Calls.UnderWay.{HasReadBody};

use crate::body::Body;
use gob_num::Memory;
use gob_read::{BodyReader, Builder, Progress, Stop};
use gob_types::{NotReady, Table, TypeId};
use std::alloc::Global;

/// A reader of the body.
pub fn reader<B: Builder>(alloc: Global, table: &Table, body: &Body) -> Result<BodyReader<B>, Stop>
    ensures { IfOk result (λ reader. HasReadBody B.building (types table.now) (record { 0 = body.now.id })
        (min body.now.depth B.DEPTH) body.now.length reader []) }
{
    let id = TypeId(body.id);
    match table.ready(alloc, id) {
        Ok(()) => Ok(BodyReader::new(alloc, id, body.length, body.depth)?),
        Err(NotReady::Memory) => Err(Stop::Memory),
        Err(_) => Err(Stop::Failed),
    }
}

/// What comes of the body in pieces of this length; none where it goes on behind its bytes, or ends before them.
pub fn read<B: Builder>(
    alloc: Global,
    table: &Table,
    body: &Body,
    piece: usize,
) -> Result<Option<B::Out>, Stop> {
    let mut reader: BodyReader<B> = reader(alloc, table, body)?;
    let bytes = body.bytes.as_slice();
    let mut taken = 0usize;
    'pieces: for _ in 0..=bytes.len() {
        let end = bytes.len().min(taken.saturating_add(piece));
        match reader.push(alloc, table, &bytes[taken..end])? {
            Progress::More => taken = end,
            Progress::Done { out, used } => {
                if used < bytes.len() - taken {
                    return Ok(None);
                }
                return Ok(Some(out));
            }
        }
    }
    Ok(None)
}

/// Whether it is the refusal that is due: its number, its place and what was seen.
pub fn is_refusal(stop: Stop, due: &[u64]) -> Result<bool, Memory> {
    match stop {
        Stop::Refused {
            place,
            seen,
            reason,
        } => Ok(due == [u64::from(reason.number()), place, seen].as_slice()),
        Stop::Memory => Err(Memory),
        Stop::Failed => Ok(false),
    }
}
