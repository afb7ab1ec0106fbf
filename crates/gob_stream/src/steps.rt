//! What a reader that owns its bytes asks of a session.

use crate::fault::Fault;
use crate::limits::Limits;
use crate::session::Advance;
use crate::values::Passed;
use crate::whole::{Awaited, Whole};
use gob_num::Memory;
use gob_types::Table;
use std::alloc::Global;

/// A session, which reads the items of one stream in the pieces that come: [`crate::Session`], for the format, and the
/// session for what Go's encoder writes. [`crate::ReaderOf`] reads with any.
pub trait Steps: Drop {
    ghost use Rattle.std.specs.Prelude.{◌≡◌, ◌≢◌, ℕ, ◌+◌, ◌<◌, ◌≤◌, List, [], length, Err};
    ghost use Rattle.std.specs.Prelude.{IsTrue, MatchBool, IfOk, IfErr, IfSome, OnErr};
    ghost use Rattle.gob_stream.specs.Bounds.{AreLimits, deepest};
    ghost use Rattle.gob_stream.specs.Stepping.{FinishAnswersBy, GivesAllBy, GivesNoMoreBy, HasBegunNextBy};
    ghost use Rattle.gob_stream.specs.Stepping.{HasBodyNextBy, HasItemNextBy, ReadsItemsBy, ReadsOnBy, StepAnswersBy};
    ghost use Rattle.gob_stream.specs.Stepping.{StandsBy, Stepping};
    ghost use Rattle.gob_stream.specs.Grammar.{GivesIn};
    ghost use Rattle.gob_stream.specs.Honest.{OfRefusal};
    ghost use Rattle.gob_types.specs.Base.{base_table};
    ghost use Rattle.gob_types.specs.declared.reason.Reason.TheVariants as reason;

    /// An item, as it is handed out.
    type Item: Drop;

    // An item, as contracts tell of it.
    ghost Told: { Type 0 };

    // What contracts see of a session, and its grammar.
    ghost stepping: { Stepping Self Self.Item Told };

    /// A session that has taken no byte.
    fn begin(alloc: Global, limits: Limits) -> Result<Self, Memory>
        ensures new { IfOk result (λ session. stepping.read session [] []) }
        ensures taken { IfOk result (λ session. stepping.taken session ≡ 0) }
        ensures limits { IfOk result (λ session. stepping.limits session ≡ limits) }
        ensures allowed { AreLimits deepest limits }
        ensures stands { IfOk result (λ session. StandsBy stepping session) }
        ensures nothing { GivesIn stepping.grammar (stepping.within limits) base_table [] [] };

    /// Takes some bytes from the front of the piece, one at least where it has any, and none behind the end of an item.
    /// After a fault each call answers [`Fault::Failed`].
    fn step(&mut self, alloc: Global, piece: &[u8]) -> Result<Advance<Self::Item>, Fault>
        ensures stepped { (items : List Told) (bytes : List ℕ) (h : stepping.read self.old items bytes)
            → StepAnswersBy stepping (stepping.behind self.old items bytes h) self.old self.new items bytes piece.now
            result }
        ensures answers { stepping.steps self.old self.new piece.now result }
        ensures shown { (items : List Told) (bytes : List ℕ) → stepping.read self.old items bytes
            → OfRefusal (λ refusal. length bytes < refusal.seen) result }
        ensures used { IfOk result (λ step. (0 < length piece.now → 0 < step.used) × (step.used ≤ length piece.now)) }
        ensures between { IfOk result (λ step. IfSome step.item (λ _. stepping.between self.new)) }
        ensures stands { StandsBy stepping self.new }
        ensures failed { OnErr result (stepping.failed self.new) }
        ensures stays { stepping.failed self.old → (result ≡ Err Fault.Failed) × (self.new ≡ self.old) }
        ensures unread { IfErr result (λ fault. fault ≢ Fault.Read) }
        ensures limits { stepping.limits self.new ≡ stepping.limits self.old };

    /// Says that no byte follows. Ok exactly between two items, and then nothing has changed, else the refusal `Ended`.
    /// After a fault it answers [`Fault::Failed`].
    fn finish(&mut self) -> Result<(), Fault>
        ensures finished { (items : List Told) (bytes : List ℕ) (h : stepping.read self.old items bytes)
            → FinishAnswersBy stepping (stepping.behind self.old items bytes h) self.old self.new items bytes result }
        ensures whole { (items : List Told) (bytes : List ℕ) → stepping.read self.old items bytes
            → IfOk result (λ _. self.new ≡ self.old) }
        ensures ended { (items : List Told) (bytes : List ℕ) → stepping.read self.old items bytes
            → OfRefusal (λ refusal. refusal.reason ≡ reason.Ended) result }
        ensures failed { OnErr result (stepping.failed self.new) }
        ensures unread { IfErr result (λ fault. fault ≢ Fault.Read) }
        ensures types { stepping.table self.new ≡ stepping.table self.old }
        ensures limits { stepping.limits self.new ≡ stepping.limits self.old };

    /// The item of a value at the front of the piece, where no byte of an item is under way, of which not all of what
    /// comes at once is there. None after a fault.
    fn awaited(&self, piece: &[u8]) -> Option<Awaited>
        ensures between { IfSome result (λ awaited. stepping.between self.now) }
        ensures begun { IfSome result (λ awaited.
            HasBegunNextBy stepping self.now awaited.id awaited.head awaited.size piece.now) }
        ensures given { IfSome result (λ awaited. GivesNoMoreBy stepping self.now piece.now) };

    /// The item of a value at the front of the piece, where no byte of an item is under way and all of what comes at
    /// once is there. None after a fault.
    fn whole_value<'a>(&self, piece: &'a [u8]) -> Option<Whole<'a>>
        ensures between { IfSome result (λ whole. stepping.between self.now) }
        ensures body { IfSome result (λ whole.
            HasBodyNextBy stepping self.now whole.id whole.body.now whole.used piece.now) };

    /// Goes past these bytes, which the caller has found to be an item that defines nothing.
    fn pass(&mut self, item: &[u8])
        requires between { stepping.between self.old }
        requires item { HasItemNextBy stepping self.old item.now }
        ensures passed { ReadsOnBy stepping self.old self.new item.now }
        ensures between { stepping.between self.new }
        ensures stands { StandsBy stepping self.new }
        ensures taken { stepping.taken self.new ≡ stepping.taken self.old + length item.now }
        ensures types { stepping.table self.new ≡ stepping.table self.old }
        ensures limits { stepping.limits self.new ≡ stepping.limits self.old };

    /// Goes past the items of values that stand whole at the front of the piece, one behind another. After a fault it
    /// passes none.
    fn pass_values(&mut self, piece: &[u8]) -> Passed
        ensures passed { ReadsItemsBy stepping self.old self.new result.items result.used piece.now }
        ensures between { 0 < result.items → stepping.between self.old × stepping.between self.new }
        ensures stands { StandsBy stepping self.new }
        ensures stays { stepping.failed self.old
            → (result.items ≡ 0) × (result.used ≡ 0) × (self.new ≡ self.old) }
        ensures taken { stepping.taken self.new ≡ stepping.taken self.old + result.used }
        ensures types { stepping.table self.new ≡ stepping.table self.old }
        ensures limits { stepping.limits self.new ≡ stepping.limits self.old };

    /// Whether there was a fault: then contracts tell of nothing that it has read.
    fn has_failed(&self) -> bool
        ensures failed { MatchBool result (stepping.failed self.now) (¬ stepping.failed self.now) }
        ensures unread { IsTrue result → (items : List Told) (bytes : List ℕ) → ¬ stepping.read self.now items bytes };

    /// From now on nothing more is read.
    fn fail(&mut self)
        ensures given { GivesAllBy stepping self.old }
        ensures failed { stepping.failed self.new }
        ensures types { stepping.table self.new ≡ stepping.table self.old }
        ensures taken { stepping.taken self.new ≡ stepping.taken self.old }
        ensures limits { stepping.limits self.new ≡ stepping.limits self.old };

    /// The types of the stream so far.
    fn table(&self) -> &Table
        ensures { result.now ≡ stepping.table self.now };

    /// The limits that it was made with.
    fn limits(&self) -> Limits
        ensures { result ≡ stepping.limits self.now };
}
