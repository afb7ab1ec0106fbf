//! Counting a stream that is held in memory.

ghost use Rattle.std.specs.Prelude.{[]};
ghost use Rattle.gob_counted.specs.Apart.{IsCountable};
ghost use Rattle.gob_counted.specs.Calls.{ChecksBytes, HasCounted, session_of, tally_of};

use crate::apart::TellsApart;
use crate::counter::Counter;
use crate::tally::Tally;
use gob_stream::{Fault, Limits};
use std::alloc::Global;

/// What there is in a stream that was held in memory.
#[derive(Clone, Copy, Debug, PartialEq, Eq)]
pub struct Checked {
    /// That of its items: all of them where the bytes are a stream, and those before the refused one where they aren't.
    /// Where memory is wanting it is that of items with which the bytes begin, none at the least.
    pub tally: Tally,
    /// Ok exactly where all of the bytes are a stream; else its refusal, or want of memory.
    pub ended: Result<(), Fault>,
}

/// Goes through a stream that is held in memory, in the grammar of the session `S`, counts what there is in it, and
/// keeps nothing of it. No value may be deeper than these limits allow, or than the session goes.
pub fn check_bytes<S: TellsApart>(alloc: Global, bytes: &[u8], limits: Limits) -> Checked
    ensures { IsCountable S.stepping → ChecksBytes S.stepping limits bytes.now result.tally result.ended }
{
    let Ok(mut counter) = Counter::<S>::new(alloc, limits) else {
        return Checked {
            tally: Tally::NONE,
            ended: Err(Fault::Memory),
        };
    };
    let ended = count_all(alloc, &mut counter, bytes);
    Checked {
        tally: counter.tally(),
        ended,
    }
}

// Feeds a new counter all bytes of a stream.
fn count_all<S: TellsApart>(
    alloc: Global,
    counter: &mut Counter<S>,
    bytes: &[u8],
) -> Result<(), Fault>
    ensures { HasCounted S.stepping counter.old [] []
        → ChecksBytes S.stepping (S.stepping.limits (session_of counter.old)) bytes.now
        (tally_of counter.new) result }
{
    counter.feed(alloc, bytes)?;
    counter.finish()
}
