//! Reading a stream.

use crate::count::{CountStage, ended};
use crate::fault::Fault;
use crate::feeding::feed;
use crate::item::Item;
use crate::limits::Limits;
use crate::stage::{Around, Extent, Stage, Stepped};
use gob_num::Memory;
use gob_read::Builder;
use gob_types::Table;
use std::alloc::Global;
use std::marker::Model;
use std::mem;

/// A reader of one stream, from its first byte on, that makes of each value what `B` builds.
pub struct Session<B: Builder> {
    // The limits of the stream.
    pub(crate) limits: Limits,
    // The types that it has defined.
    pub(crate) types: Table,
    // How many bytes of it were taken.
    pub(crate) taken: u64,
    // What is expected.
    pub(crate) stage: Stage<B>,
}

/// How far a session has come in a piece.
#[derive(Drop)]
pub struct Advance<I: Drop> {
    /// How many bytes of the piece were taken, one at least of a piece that has any.
    pub used: usize,
    /// The item that is whole with them, if one is.
    pub item: Option<I>,
}

impl<I: Drop> Advance<I> {
    ghost use Rattle.std.specs.Prelude.{◌≡◌, None};

    /// Of an empty piece: no byte was taken.
    pub fn nothing() -> Advance<I>
        ensures { result ≡ record { used = 0; item = None } }
    {
        Advance {
            used: 0,
            item: None,
        }
    }
}

// Not derived, so that a drop is one call in the proofs of what owns one.
impl<B: Builder> Drop for Session<B> {
    fn drop(self) {
        let Session {
            limits: _,
            types: _,
            taken: _,
            stage: _,
        } = self;
    }
}

impl<B: Builder> Model for Session<B> {
    ghost use Rattle.std.specs.Coded.{codes};
    ghost use Rattle.gob_value.specs.contracts.value.Value as value;
    ghost use Rattle.gob_stream.specs.Machine.SessionState.{SessionState};
    ghost use Rattle.gob_stream.specs.Machine.HasRead.{IsUsable};

    ghost Value = { SessionState B B.Out };

    ghost coded = { Prim.hlevel (codes, value.the_row.coded) };

    ghost view = { λ session. record {
      limits = session.limits;
      types = session.types;
      taken = session.taken;
      stage = session.stage;
    } };

    // It has read some bytes, or has failed.
    ghost invariant = { λ session. IsUsable B.building (record {
      limits = session.limits;
      types = session.types;
      taken = session.taken;
      stage = session.stage;
    }) };
}

impl<B: Builder> Session<B> {
    ghost use Rattle.std.specs.Prelude.{◌≡◌, ◌≢◌, ◌-◌, ◌<◌, ◌≤◌, ◌++◌, ◌∷◌, ℕ, List, [], length, Err};
    ghost use Rattle.std.specs.Prelude.{MatchBool, IfOk, IfErr, IfSome, OnOk, OnErr};
    ghost use Rattle.gob_stream.specs.Bounds.{AreLimits, deepest};
    ghost use Rattle.gob_stream.specs.Item.{StreamItem};
    ghost use Rattle.gob_stream.specs.Reading.{Given};
    ghost use Rattle.gob_stream.specs.Calls.Session.{HasRead, HasReadOn, HasFailed, IsBetweenItems, StaysAsItWas};
    ghost use Rattle.gob_stream.specs.Calls.Session.{table_of, taken_of, limits_of, wanted_of};
    ghost use Rattle.gob_stream.specs.Calls.Session.{FeedAnswers, FeedsHonestly, FinishAnswers, StepAnswers};

    /// A reader that has taken no byte. No value may be deeper than these limits allow, or than the builder takes.
    pub fn new(alloc: Global, limits: Limits) -> Result<Session<B>, Memory>
        ensures has_read { IfOk result (λ session. HasRead B.building session [] []) }
        ensures taken { IfOk result (λ session. taken_of session ≡ 0) }
        ensures limits { IfOk result (λ session. limits_of session ≡ limits) }
        ensures allowed { AreLimits deepest limits }
    {
        let types = Table::new(alloc, limits.types())?;
        Ok(Session {
            limits,
            types,
            taken: 0,
            stage: Stage::Count(CountStage::new(0)),
        })
    }

    /// Takes the next piece of the stream, and appends the items that are whole with it to `out`, also those before
    /// a refusal; after [`Fault::Memory`] those of the bytes that were taken are in `out`, all but the last at most.
    /// A refusal comes in the call that brings the last of the bytes that show it, and never says `Ended`.
    /// Its place is honest, as [`crate::laws::places_are_honest`] has it.
    /// After a fault each call answers [`Fault::Failed`].
    pub fn feed(
        &mut self,
        alloc: Global,
        piece: &[u8],
        out: &mut Vec<Item<B::Out>>,
    ) -> Result<(), Fault>
        ensures fed { Given out.old.items out.new.items (λ given. (items : List StreamItem) (bytes : List ℕ)
            → HasRead B.building self.old items bytes
            → FeedAnswers B.building self.old self.new items bytes piece.now given result) }
        ensures honest { Given out.old.items out.new.items (λ given. (items : List StreamItem) (bytes : List ℕ)
            → HasRead B.building self.old items bytes
            → FeedsHonestly B.building self.old items (bytes ++ piece.now) given result) }
        ensures failed { OnErr result (HasFailed self.new) }
        ensures stays { HasFailed self.old
            → (result ≡ Err Fault.Failed) × StaysAsItWas self.old self.new × (out.new ≡ out.old) }
        ensures limits { limits_of self.new ≡ limits_of self.old }
    {
        feed(self, alloc, piece, out)
    }

    /// Takes some bytes from the front of the piece, one at least where it has any, and none behind the end of an item.
    /// A refusal comes in the call that is given the last of the bytes that show it, and never says `Ended`.
    /// After a fault each call answers [`Fault::Failed`].
    pub fn step(&mut self, alloc: Global, piece: &[u8]) -> Result<Advance<Item<B::Out>>, Fault>
        ensures advances { (items : List StreamItem) (bytes : List ℕ)
            → HasRead B.building self.old items bytes
            → StepAnswers B.building self.old self.new items bytes piece.now result }
        ensures used { IfOk result (λ step. (0 < length piece.now → 0 < step.used) × (step.used ≤ length piece.now)) }
        ensures whole { length piece.now ≤ wanted_of self.old → IfOk result (λ step. step.used ≡ length piece.now) }
        ensures between { IfOk result (λ step. IfSome step.item (λ _. IsBetweenItems self.new)) }
        ensures failed { OnErr result (HasFailed self.new) }
        ensures stays { HasFailed self.old
            → (result ≡ Err Fault.Failed) × StaysAsItWas self.old self.new }
        ensures unread { IfErr result (λ fault. fault ≢ Fault.Read) }
        ensures types { OnErr result (table_of self.new ≡ table_of self.old) }
        ensures taken { OnErr result (taken_of self.new ≡ taken_of self.old) }
        ensures limits { limits_of self.new ≡ limits_of self.old }
    {
        if self.has_failed() {
            return Err(Fault::Failed);
        }
        if piece.is_empty() {
            return Ok(Advance::nothing());
        }
        let _most = self.limits.stream(); // its contract: no stream is so long that the sum wraps
        let around = Around {
            alloc,
            limits: self.limits,
            taken: self.taken,
        };
        let stage = mem::replace(&mut self.stage, Stage::Failed);
        let Stepped { used, stage, item } = stage.take(&around, &mut self.types, piece)?;
        self.taken += used as u64;
        self.stage = stage;
        Ok(Advance { used, item })
    }

    /// Says that no byte follows. Ok exactly between two items, and then nothing has changed; else the refusal
    /// `Ended` at the end of the bytes that came. It takes no memory. After a fault each call answers
    /// [`Fault::Failed`].
    pub fn finish(&mut self) -> Result<(), Fault>
        ensures finishes { (items : List StreamItem) (bytes : List ℕ)
            → HasRead B.building self.old items bytes
            → FinishAnswers B.building self.old self.new items bytes result }
        ensures failed { OnErr result (HasFailed self.new) }
        ensures stays { HasFailed self.old → (result ≡ Err Fault.Failed)
            × StaysAsItWas self.old self.new }
        ensures unread { IfErr result (λ fault. fault ≢ Fault.Read) }
        ensures types { table_of self.new ≡ table_of self.old }
        ensures limits { limits_of self.new ≡ limits_of self.old }
    {
        match &self.stage {
            Stage::Failed => Err(Fault::Failed),
            Stage::Count(count) if count.begin == self.taken => Ok(()),
            _ => {
                let fault = ended(self.taken);
                self.fail();
                Err(fault)
            }
        }
    }

    /// The types of the stream so far.
    pub fn table(&self) -> &Table
        ensures { result.now ≡ table_of self.now }
    {
        &self.types
    }

    /// The limits that it was made with.
    pub fn limits(&self) -> Limits
        ensures { result ≡ limits_of self.now }
    {
        self.limits
    }

    /// Whether there was a fault. If not, it has read some bytes.
    pub(crate) fn has_failed(&self) -> bool
        ensures failed { MatchBool result (HasFailed self.now) (¬ HasFailed self.now) }
        ensures has_read { ¬ HasFailed self.now → HasReadOn B.building self.now }
    {
        matches!(self.stage, Stage::Failed)
    }

    /// From now on nothing more is read.
    pub(crate) fn fail(&mut self)
        ensures failed { HasFailed self.new }
        ensures types { table_of self.new ≡ table_of self.old }
        ensures taken { taken_of self.new ≡ taken_of self.old }
        ensures limits { limits_of self.new ≡ limits_of self.old }
    {
        self.stage = Stage::Failed;
    }

    /// How many bytes can be read at once without going past the item's end: one where that isn't known.
    pub(crate) fn wanted(&self) -> u64
        ensures value { result ≡ wanted_of self.now }
        ensures some { 0 < result }
    {
        match &self.stage {
            Stage::Value(value) => self.bytes_to_come(value.rest),
            Stage::Description(description) => self.bytes_to_come(description.rest),
            _ => 1,
        }
    }

    // How many bytes of a part of the stream are to come.
    fn bytes_to_come(&self, rest: Extent) -> u64
        requires { taken_of self.now ≤ rest.end }
        ensures { result ≡ rest.end - taken_of self.now }
    {
        rest.end - self.taken
    }
}
