//! A counter of either grammar, as C has it behind one pointer.

use gob_counted::{Counter, Tally, laws};
use gob_go::GoSession;
use gob_num::Memory;
use gob_read::SkipBuilder;
use gob_stream::{Fault, Limits, Session};
use std::alloc::Global;

/// A counter of one stream.
#[derive(Drop)]
pub enum AnyCounter {
    /// Of the documented format alone.
    Exact(Counter<Session<SkipBuilder>>),
    /// Of all that Go's encoder writes.
    Go(Counter<GoSession>),
}

impl AnyCounter {
    ghost use Rattle.std.specs.Prelude.{◌≡◌, IfOk};
    ghost use Rattle.gob_counted.specs.Calls.{tally_of};
    ghost use Rattle.gob_c.specs.AnyCounter.{CounterGoesSo, CounterIsSo, CountsExactly};
    ghost use Rattle.gob_c.specs.Counting.{IsNewCounter, TakesEnd, TakesPiece};

    /// A counter that has taken no byte, of the documented format alone where it is exact. No value may be deeper than
    /// these limits allow; of the documented format at most 65536, else 1000.
    pub fn new(alloc: Global, limits: Limits, exact: bool) -> Result<AnyCounter, Memory>
        ensures new { IfOk result (λ counter. CounterIsSo counter (λ X I Told d c. IsNewCounter d limits c)) }
        ensures exact { IfOk result (λ counter. CountsExactly exact counter) }
    {
        laws::sessions_are_countable::<SkipBuilder>();
        if exact {
            return Ok(AnyCounter::Exact(Counter::new(alloc, limits)?));
        }
        Ok(AnyCounter::Go(Counter::new(alloc, limits)?))
    }

    /// As [`Counter::feed`].
    pub fn feed(&mut self, alloc: Global, piece: &[u8]) -> Result<(), Fault>
        ensures { CounterGoesSo self.old self.new (λ X I Told d old new. TakesPiece d old new piece.now result) }
    {
        match self {
            AnyCounter::Exact(counter) => counter.feed(alloc, piece),
            AnyCounter::Go(counter) => counter.feed(alloc, piece),
        }
    }

    /// As [`Counter::finish`].
    pub fn finish(&mut self) -> Result<(), Fault>
        ensures { CounterGoesSo self.old self.new (λ X I Told d old new. TakesEnd d old new result) }
    {
        match self {
            AnyCounter::Exact(counter) => counter.finish(),
            AnyCounter::Go(counter) => counter.finish(),
        }
    }

    /// As [`Counter::tally`].
    pub fn tally(&self) -> Tally
        ensures { CounterIsSo self.now (λ X I Told d c. result ≡ tally_of c) }
    {
        match self {
            AnyCounter::Exact(counter) => counter.tally(),
            AnyCounter::Go(counter) => counter.tally(),
        }
    }
}
