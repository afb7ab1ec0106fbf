//! Reading a stream.

use crate::around::Around;
use crate::count::ItemCount;
use crate::item::GoItem;
use crate::stage::{Stage, Stepped};
use gob_num::Memory;
use gob_stream::{Advance, Fault, Limits, ended, feed};
use gob_types::Table;
use std::alloc::Global;
use std::marker::Model;
use std::mem;

/// A reader of one stream of Go's encoder, from its first byte on. It keeps the types so far, and the item under way.
pub struct GoSession {
    // The limits of the stream.
    pub(crate) limits: Limits,
    // The types that it has defined.
    pub(crate) types: Table,
    // How many bytes of it were taken.
    pub(crate) taken: u64,
    // What is expected.
    pub(crate) stage: Stage,
    // Whether values are kept.
    pub(crate) keeps: bool,
}

// Not derived, so that a drop is one call in the proofs of what owns one.
impl Drop for GoSession {
    fn drop(self) {
        let GoSession {
            limits: _,
            types: _,
            taken: _,
            stage: _,
            keeps: _,
        } = self;
    }
}

impl Model for GoSession {
    ghost use Rattle.std.specs.Coded.{codes};
    ghost use Rattle.gob_value.specs.contracts.value.Value as value;
    ghost use Rattle.gob_go.specs.contracts.filled.Filling as filling;
    ghost use Rattle.gob_go.specs.Machine.SessionState.{SessionState};
    ghost use Rattle.gob_go.specs.Machine.HasRead.{IsUsable};

    ghost Value = { SessionState };

    ghost coded = { Prim.hlevel (codes, value.the_row.coded, filling.the_row.coded) };

    ghost view = { λ session. record {
      limits = session.limits;
      types = session.types;
      taken = session.taken;
      stage = session.stage;
      keeps = session.keeps;
    } };

    // It has read some bytes, or has failed.
    ghost invariant = { λ session. IsUsable (record {
      limits = session.limits;
      types = session.types;
      taken = session.taken;
      stage = session.stage;
      keeps = session.keeps;
    }) };
}

impl GoSession {
    ghost use Rattle.std.specs.Prelude.{◌≡◌, ◌≢◌, ◌<◌, ◌≤◌, ◌++◌, ◌∷◌, ℕ, List, [], length, Err, Bool};
    ghost use Rattle.std.specs.Prelude.{MatchBool, IfOk, IfErr, IfSome, OnOk, OnErr};
    ghost use Rattle.gob_types.specs.Defined.{types};
    ghost use Rattle.gob_stream.specs.Bounds.{AreLimits, deepest};
    ghost use Rattle.gob_stream.specs.Reading.{Given};
    ghost use Rattle.gob_filled.specs.Stream.{FilledItem};
    ghost use Rattle.gob_go.specs.Calls.Session.{HasRead, HasFailed, IsBetweenItems, StaysAsItWas};
    ghost use Rattle.gob_go.specs.Calls.Session.{StandsAfter, StandsSomewhere, StepAnswersSo};
    ghost use Rattle.gob_go.specs.Calls.Session.{table_of, taken_of, limits_of};
    ghost use Rattle.gob_go.specs.Calls.Session.{FeedAnswers, FeedsHonestly, FinishAnswers, StepAnswers};

    /// A reader that has taken no byte. No value may be deeper than these limits allow, or than 1000, and what an
    /// interface holds lies one deeper than the interface. The limit of an item is for all segments of it together.
    pub fn new(alloc: Global, limits: Limits) -> Result<GoSession, Memory>
        ensures has_read { IfOk result (λ session. HasRead session [] []) }
        ensures taken { IfOk result (λ session. taken_of session ≡ 0) }
        ensures limits { IfOk result (λ session. limits_of session ≡ limits) }
        ensures allowed { AreLimits deepest limits }
    {
        GoSession::start(alloc, limits, true)
    }

    // One that keeps values, or nothing of them.
    pub(crate) fn start(alloc: Global, limits: Limits, keeps: bool) -> Result<GoSession, Memory>
        ensures stands { IfOk result (λ session. StandsAfter keeps session [] []) }
        ensures taken { IfOk result (λ session. taken_of session ≡ 0) }
        ensures limits { IfOk result (λ session. limits_of session ≡ limits) }
        ensures allowed { AreLimits deepest limits }
    {
        let types = Table::new(alloc, limits.types())?;
        Ok(GoSession {
            limits,
            types,
            taken: 0,
            stage: Stage::Count(ItemCount::new(0)),
            keeps,
        })
    }

    /// Takes the next piece of the stream, all of it, and appends the items that are whole with it to `out`, also
    /// those before a refusal; of the item that is refused nothing is given. After [`Fault::Memory`] the items of the
    /// bytes that were taken are in `out`, where at most the last of them is lost. A refusal comes in the call that
    /// brings the last of the bytes that show it, and never says `Ended`: [`GoSession::finish`] does. Its place is
    /// honest, as `gob_filled::laws::places_are_honest` has it. After a fault each call answers [`Fault::Failed`].
    pub fn feed(&mut self, alloc: Global, piece: &[u8], out: &mut Vec<GoItem>) -> Result<(), Fault>
        ensures fed { Given out.old.items out.new.items (λ given. (items : List FilledItem) (bytes : List ℕ)
            → HasRead self.old items bytes → FeedAnswers self.old self.new items bytes piece.now given result) }
        ensures honest { Given out.old.items out.new.items (λ given. (items : List FilledItem) (bytes : List ℕ)
            → HasRead self.old items bytes
            → FeedsHonestly self.old items (types (table_of self.new)) (bytes ++ piece.now) given result) }
        ensures failed { OnErr result (HasFailed self.new) }
        ensures stays { HasFailed self.old
            → (result ≡ Err Fault.Failed) × StaysAsItWas self.old self.new × (out.new ≡ out.old) }
        ensures limits { limits_of self.new ≡ limits_of self.old }
    {
        feed(self, alloc, piece, out)
    }

    /// Takes some bytes from the front of the piece, one at least where it has any, and none behind the end of an item;
    /// the next call is for the rest of them. A refusal comes in the call that is given the last of the bytes that show
    /// it, and never says `Ended`. After a fault each call answers [`Fault::Failed`].
    pub fn step(&mut self, alloc: Global, piece: &[u8]) -> Result<Advance<GoItem>, Fault>
        ensures advances { (items : List FilledItem) (bytes : List ℕ) → HasRead self.old items bytes
            → StepAnswers self.old self.new items bytes piece.now result }
        ensures any { (keep : Bool) (items : List FilledItem) (bytes : List ℕ) → StandsAfter keep self.old items bytes
            → StepAnswersSo keep self.old self.new items bytes piece.now result }
        ensures used { IfOk result (λ step. (0 < length piece.now → 0 < step.used) × (step.used ≤ length piece.now)) }
        ensures between { IfOk result (λ step. IfSome step.item (λ _. IsBetweenItems self.new)) }
        ensures failed { OnErr result (HasFailed self.new) }
        ensures stays { HasFailed self.old → (result ≡ Err Fault.Failed) × StaysAsItWas self.old self.new }
        ensures unread { IfErr result (λ fault. fault ≢ Fault.Read) }
        ensures taken { OnErr result (taken_of self.new ≡ taken_of self.old) }
        ensures limits { limits_of self.new ≡ limits_of self.old }
    {
        let _most = self.limits.stream(); // its contract: no stream is so long that the sum wraps
        if self.has_failed() {
            return Err(Fault::Failed);
        }
        if piece.is_empty() {
            return Ok(Advance::nothing());
        }
        let around = Around {
            alloc,
            limits: self.limits,
            taken: self.taken,
            keeps: self.keeps,
        };
        let stage = mem::replace(&mut self.stage, Stage::Failed);
        let Stepped { used, stage, item } = stage.take(&around, &mut self.types, piece)?;
        self.taken += used as u64;
        self.stage = stage;
        Ok(Advance { used, item })
    }

    /// The types of the stream so far, those too that were defined in front of values in interfaces, and those of the
    /// item under way, or of one that was refused.
    pub fn table(&self) -> &Table
        ensures { result.now ≡ table_of self.now }
    {
        &self.types
    }

    /// The limits that it was made with.
    pub fn limits(&self) -> Limits
        ensures { result ≡ limits_of self.now }
    {
        self.limits
    }

    /// Says that no byte follows. Ok exactly where no item is under way, and then nothing has changed; else the refusal
    /// `Ended` at the end of the bytes that came. It takes no memory. After a fault each call answers
    /// [`Fault::Failed`].
    pub fn finish(&mut self) -> Result<(), Fault>
        ensures finishes { (items : List FilledItem) (bytes : List ℕ) → HasRead self.old items bytes
            → FinishAnswers self.old self.new items bytes result }
        ensures any { (keep : Bool) (items : List FilledItem) (bytes : List ℕ) → StandsAfter keep self.old items bytes
            → FinishAnswers self.old self.new items bytes result }
        ensures failed { OnErr result (HasFailed self.new) }
        ensures stays { HasFailed self.old → (result ≡ Err Fault.Failed) × StaysAsItWas self.old self.new }
        ensures unread { IfErr result (λ fault. fault ≢ Fault.Read) }
        ensures types { table_of self.new ≡ table_of self.old }
        ensures limits { limits_of self.new ≡ limits_of self.old }
    {
        match &self.stage {
            Stage::Failed => Err(Fault::Failed),
            Stage::Count(count) if count.number.rest.begin == self.taken => Ok(()),
            _ => {
                let fault = ended(self.taken);
                self.fail();
                Err(fault)
            }
        }
    }

    // Whether there was a fault. If not, it has read some bytes.
    pub(crate) fn has_failed(&self) -> bool
        ensures failed { MatchBool result (HasFailed self.now) (¬ HasFailed self.now) }
        ensures has_read { ¬ HasFailed self.now → StandsSomewhere self.now }
    {
        matches!(self.stage, Stage::Failed)
    }

    // From now on nothing more is read.
    pub(crate) fn fail(&mut self)
        ensures failed { HasFailed self.new }
        ensures types { table_of self.new ≡ table_of self.old }
        ensures taken { taken_of self.new ≡ taken_of self.old }
        ensures limits { limits_of self.new ≡ limits_of self.old }
    {
        self.stage = Stage::Failed;
    }
}
