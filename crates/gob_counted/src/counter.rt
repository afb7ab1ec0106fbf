//! A counter of a stream that comes in pieces.

ghost use Rattle.std.specs.Prelude.{◌≡◌, ◌+◌, ◌-◌, ◌^◌, ◌<◌, ◌≤◌, ℕ, List, [], ◌++◌, take, length, min, Err};
ghost use Rattle.std.specs.Prelude.{IfOk, OnErr};
ghost use Rattle.gob_types.specs.Defined.{definition_count, types};
ghost use Rattle.gob_counted.specs.Apart.{IsCountable};
ghost use Rattle.gob_counted.specs.Calls.{CountsOn, EndsCounting, GoesOn, HasCounted, StepsCounting};
ghost use Rattle.gob_counted.specs.Calls.{session_of, tally_of};

use crate::apart::TellsApart;
use crate::tally::Tally;
use gob_num::Memory;
use gob_stream::{Fault, Limits};
use std::alloc::Global;

/// A counter of one stream, from its first byte on, in the grammar of the session `S`.
pub struct Counter<S: TellsApart> {
    session: S,
    // That of the items that are whole.
    tally: Tally,
    // How many bytes the session has taken: those of the items, and of the one under way.
    taken: u64,
}

// Not derived, so that a drop is one call in the proofs of what owns one.
impl<S: TellsApart> Drop for Counter<S> {
    fn drop(self) {
        let Counter {
            session: _,
            tally: _,
            taken: _,
        } = self;
    }
}

impl<S: TellsApart> Counter<S> {
    /// A counter that has taken no byte. No value may be deeper than these limits allow, or than the session goes.
    pub fn new(alloc: Global, limits: Limits) -> Result<Counter<S>, Memory>
        ensures counted { IsCountable S.stepping → IfOk result (λ counter. HasCounted S.stepping counter [] []) }
        ensures limits { IfOk result (λ counter. S.stepping.limits (session_of counter) ≡ limits) }
    {
        let session = S::begin(alloc, limits)?;
        Ok(Counter {
            session,
            tally: Tally::NONE,
            taken: 0,
        })
    }

    /// Takes the next piece of the stream, and counts the items that are whole with it, also those before a refusal. A
    /// refusal comes in the call that brings the last of the bytes that show it, and never says `Ended`: the refused
    /// item begins where the whole ones end, at the `bytes` of the tally. If memory is wanting, the tally is that of
    /// items with which the bytes begin. After a fault each call answers [`Fault::Failed`], and nothing changes.
    pub fn feed(&mut self, alloc: Global, piece: &[u8]) -> Result<(), Fault>
        ensures counted { (items : List S.Told) (bytes : List ℕ) → HasCounted S.stepping self.old items bytes
            → CountsOn S.stepping self.old self.new items (bytes ++ piece.now) result }
        ensures failed { OnErr result (S.stepping.failed (session_of self.new)) }
        ensures stays { S.stepping.failed (session_of self.old) → (result ≡ Err Fault.Failed) × (self.new ≡ self.old) }
        ensures limits { S.stepping.limits (session_of self.new) ≡ S.stepping.limits (session_of self.old) }
    {
        if self.session.has_failed() {
            return Err(Fault::Failed);
        }
        let mut rest = piece;
        while !rest.is_empty() {
            let used = self.take_some(alloc, rest)?;
            rest = &rest[used..];
        }
        Ok(())
    }

    /// Says that no byte follows. Ok exactly where all of the bytes are a stream, the tally being that of the whole of
    /// it, and then nothing has changed; else the refusal `Ended` at the end of the bytes that came. The tally stays.
    /// After a fault each call answers [`Fault::Failed`], and nothing changes.
    pub fn finish(&mut self) -> Result<(), Fault>
        ensures ended { (items : List S.Told) (bytes : List ℕ) → HasCounted S.stepping self.old items bytes
            → EndsCounting S.stepping self.old items bytes result }
        ensures whole { (items : List S.Told) (bytes : List ℕ) → HasCounted S.stepping self.old items bytes
            → IfOk result (λ _. self.new ≡ self.old) }
        ensures tally { tally_of self.new ≡ tally_of self.old }
        ensures failed { OnErr result (S.stepping.failed (session_of self.new)) }
        ensures stays { S.stepping.failed (session_of self.old) → (result ≡ Err Fault.Failed) × (self.new ≡ self.old) }
        ensures limits { S.stepping.limits (session_of self.new) ≡ S.stepping.limits (session_of self.old) }
    {
        if self.session.has_failed() {
            return Err(Fault::Failed);
        }
        self.session.finish()
    }

    /// That of the items which are whole by now. Behind a refusal the refused item begins where these end.
    pub fn tally(&self) -> Tally
        ensures { result ≡ tally_of self.now }
    {
        self.tally
    }

    // Takes bytes from the front of the piece: the items of values that stand whole there, or else none behind the end
    // of an item. How many.
    fn take_some(&mut self, alloc: Global, piece: &[u8]) -> Result<usize, Fault>
        requires { 0 < length piece.now }
        ensures counted { (items : List S.Told) (bytes : List ℕ) → HasCounted S.stepping self.old items bytes
            → StepsCounting S.stepping self.old self.new items bytes piece.now result }
        ensures used { IfOk result (λ used. (0 < used) × (used ≤ length piece.now)) }
        ensures failed { OnErr result (S.stepping.failed (session_of self.new)) }
        ensures limits { S.stepping.limits (session_of self.new) ≡ S.stepping.limits (session_of self.old) }
    {
        let passed = self.pass_values(piece);
        if passed > 0 {
            return Ok(passed);
        }
        self.step(alloc, piece)
    }

    // Goes past the items of values that stand whole at the front of the piece. How many bytes they are.
    fn pass_values(&mut self, piece: &[u8]) -> usize
        ensures counted { (items : List S.Told) (bytes : List ℕ) → HasCounted S.stepping self.old items bytes
            → GoesOn S.stepping self.new items (bytes ++ take result piece.now) }
        ensures within { result ≤ length piece.now }
        ensures limits { S.stepping.limits (session_of self.new) ≡ S.stepping.limits (session_of self.old) }
    {
        let passed = self.session.pass_values(piece);
        if passed.items == 0 {
            return 0;
        }
        self.take(passed.used);
        self.count(passed.items, passed.items);
        passed.used
    }

    // Takes bytes from the front of the piece, none behind the end of an item. How many.
    fn step(&mut self, alloc: Global, piece: &[u8]) -> Result<usize, Fault>
        requires { 0 < length piece.now }
        ensures counted { (items : List S.Told) (bytes : List ℕ) → HasCounted S.stepping self.old items bytes
            → StepsCounting S.stepping self.old self.new items bytes piece.now result }
        ensures used { IfOk result (λ used. (0 < used) × (used ≤ length piece.now)) }
        ensures failed { OnErr result (S.stepping.failed (session_of self.new)) }
        ensures limits { S.stepping.limits (session_of self.new) ≡ S.stepping.limits (session_of self.old) }
    {
        let step = self.session.step(alloc, piece)?;
        let used = step.used;
        self.take(used);
        match &step.item {
            Some(item) => {
                let is_value = S::is_value(item);
                self.count(1, is_value as u64);
                Ok(used)
            }
            None => Ok(used),
        }
    }

    // Counts bytes that the session has taken. No stream is so long that the sum doesn't fit.
    fn take(&mut self, used: usize)
        ensures taken { self.new.taken ≡ min (self.old.taken + used) (2 ^ 64 - 1) }
        ensures session { session_of self.new ≡ session_of self.old }
        ensures tally { tally_of self.new ≡ tally_of self.old }
    {
        self.taken = self.taken.saturating_add(used as u64);
    }

    // Counts items that are whole now, and with which all bytes are that were taken. There are no more than bytes.
    fn count(&mut self, items: u64, values: u64)
        ensures items { (tally_of self.new).items ≡ min ((tally_of self.old).items + items) (2 ^ 64 - 1) }
        ensures types { (tally_of self.new).types ≡ definition_count (types (S.stepping.table (session_of self.old))) }
        ensures values { (tally_of self.new).values ≡ min ((tally_of self.old).values + values) (2 ^ 64 - 1) }
        ensures bytes { (tally_of self.new).bytes ≡ self.old.taken }
        ensures session { session_of self.new ≡ session_of self.old }
        ensures taken { self.new.taken ≡ self.old.taken }
    {
        self.tally = Tally {
            items: self.tally.items.saturating_add(items),
            types: self.session.table().count(),
            values: self.tally.values.saturating_add(values),
            bytes: self.taken,
        };
    }
}
