//! However bytes are cut, a session gives their outcome: the contracts of gob_stream together, as that of one function.

ghost use Rattle.std.specs.Prelude.{ℕ};
ghost use Rattle.gob_stream.specs.Bounds.{within_trees};
ghost use Rattle.gob_stream.specs.Item.{item_views};
ghost use Rattle.gob_stream.specs.Reading.{Given};
ghost use Rattle.gob_stream_laws.specs.Pieces.{joined, HasOutcome};

use gob_read::TreeBuilder;
use gob_stream::{Fault, Item, Limits, Session, laws};
use gob_value::Value;
use std::alloc::Global;

/// Reads a stream that comes in these pieces, and appends its items. The outcome is that of all the bytes, wherever
/// they are cut, under a depth of at most 1000.
pub fn read_pieces(
    alloc: Global,
    pieces: &[Vec<u8>],
    limits: Limits,
    out: &mut Vec<Item<Value>>,
) -> Result<(), Fault>
    ensures { Given out.old.items out.new.items (λ given. HasOutcome (within_trees limits) (joined pieces.now)
        (item_views given) result) }
{
    laws::shown_refusals_stay();
    let mut session = Session::<TreeBuilder>::new(alloc, limits)?;
    for piece in pieces {
        session.feed(alloc, piece, out)?;
    }
    session.finish()
}
