//! The rows of a body behind its type number.

ghost use Rattle.std.specs.Prelude.{◌≤◌};
ghost use Rattle.gob_types.specs.Defined.{types};
ghost use Rattle.gob_stream.specs.Bounds.{greatest_depth};
ghost use Rattle.gob_explain.specs.Body.{WalksBody};

use crate::row::{Awaited, RowPart};
use crate::sink::RowSink;
use crate::stop::RowStop;
use crate::walk::{Walk, walk_value};
use gob_types::{Table, TypeId};

/// How far rows lead in a body.
#[derive(Clone, Copy, Debug, PartialEq, Eq)]
pub struct Walked {
    /// Where they end, counted from the first byte behind the type number.
    pub place: usize,
    /// Whether a value is whole there.
    pub whole: bool,
    /// What comes next there, where none is.
    pub awaited: Option<Awaited>,
}

/// Tells the sink of the rows of a body behind its type number, up to the end of its value, or to the first place at
/// which what comes next doesn't stand there whole, lies deeper than `most`, or is a value of a type that isn't ready.
/// Where an interface holds something, the rows of its filling are among them. It takes no memory, and recurses as deep
/// as the value is. An error is the sink's: it was told of rows up to some place.
pub fn walk_body<O: RowSink>(
    table: &Table,
    id: TypeId,
    body: &[u8],
    most: u64,
    out: &mut O,
) -> Result<Walked, O::Fault>
    requires { most ≤ greatest_depth }
    ensures { WalksBody O.tells (types table.now) id body.now most out.old out.new result }
{
    let part = RowPart { id, depth: 1 };
    let walk = Walk { table, body, most };
    match walk_value(&walk, part, 0, out) {
        Ok(place) => Ok(Walked {
            place,
            whole: true,
            awaited: None,
        }),
        Err(RowStop::Here(place, awaited)) => Ok(Walked {
            place,
            whole: false,
            awaited: Some(awaited),
        }),
        Err(RowStop::Sink(fault)) => Err(fault),
    }
}
