//! A reader of a stream that owns the bytes that it has read and not yet taken.

ghost use Rattle.std.specs.Prelude.{◌≡◌, ◌<◌, ◌≤◌, ℕ, List, [], Option, true, false, length, take, drop};
ghost use Rattle.std.specs.Prelude.{◌≢◌, Err, IsTrue, IfErr, IfOk, IfSome, OnErr, OnOk};
ghost use Rattle.gob_types.specs.Defined.{types};
ghost use Rattle.gob_stream.specs.Bounds.{AreLimits, deepest};
ghost use Rattle.gob_stream.specs.Calls.Ends.{failed_reads, reader_of};
ghost use Rattle.gob_stream.specs.Calls.ReaderOf.{FillsBy, HasFailedBy, HasReadBy, IsShort, KnowsTypesBy, LacksBy};
ghost use Rattle.gob_stream.specs.Calls.ReaderOf.{PassesBy, PassesOneBy, ReadsOnce, StepsBy};
ghost use Rattle.gob_stream.specs.Calls.ReaderOf.{ahead_of, session_of, types_behind, waits_in};
ghost use Rattle.gob_stream.specs.Honest.{OfRefusal};
ghost use Rattle.gob_stream.specs.Reading.{CountsReads};
ghost use Rattle.gob_stream.specs.Stepping.{GivesAllBy, HasBegunNextBy, HasBodyNextBy, HasItemNextBy, StandsBy};
ghost use Rattle.gob_stream.specs.Grammar.{GivesIn};
ghost use Rattle.gob_types.specs.Base.{base_table};

use crate::fault::Fault;
use crate::input::Input;
use crate::limits::Limits;
use crate::session::{Advance, Session};
use crate::steps::Steps;
use crate::values::Passed;
use crate::waiting::Waiting;
use crate::whole::{Awaited, Whole};
use gob_num::Memory;
use gob_types::Table;
use std::alloc::Global;
use std::io::Read;

/// A reader of one stream, from its first byte on, in the grammar of the session `S`. After a fault it reads no more:
/// each call that may fail answers [`Fault::Failed`].
pub struct ReaderOf<S: Steps> {
    session: S,
    // What was read of the stream and not yet given to the session.
    waiting: Waiting,
    // Whether the input has ended.
    ended: bool,
}

/// What a reader has beside its session.
#[derive(Drop)]
pub struct Ahead {
    // What was read of the stream and not yet given to the session.
    waiting: Waiting,
    // Whether the input has ended.
    ended: bool,
}

/// A reader of a stream of the format, that makes of each value what `B` builds.
pub type StreamReader<B> = ReaderOf<Session<B>>;

// Not derived, so that a drop is one call in the proofs of what owns one.
impl<S: Steps> Drop for ReaderOf<S> {
    fn drop(self) {
        let ReaderOf {
            session: _,
            waiting: _,
            ended: _,
        } = self;
    }
}

impl<S: Steps> ReaderOf<S> {
    /// A reader that has read nothing. No value may be deeper than these limits allow, or than the session goes.
    pub fn new(alloc: Global, limits: Limits) -> Result<ReaderOf<S>, Memory>
        ensures new { IfOk result (λ reader. (read : Option (List ℕ)) → HasReadBy S.stepping reader read read []) }
        ensures taken { IfOk result (λ reader. S.stepping.taken (session_of reader) ≡ 0) }
        ensures limits { IfOk result (λ reader. S.stepping.limits (session_of reader) ≡ limits) }
        ensures allowed { AreLimits deepest limits }
        ensures stands { IfOk result (λ reader. StandsBy S.stepping (session_of reader)) }
        ensures nothing { GivesIn S.stepping.grammar (S.stepping.within limits) base_table [] [] }
    {
        let session = S::begin(alloc, limits)?;
        let waiting = Waiting::new(alloc)?;
        Ok(ReaderOf {
            session,
            waiting,
            ended: false,
        })
    }

    /// Its session, and what it has read ahead of it.
    pub fn into_parts(self) -> (S, Ahead)
        ensures session { result.0 ≡ session_of self }
        ensures ahead { result.1 ≡ ahead_of self }
    {
        let ReaderOf {
            session,
            waiting,
            ended,
        } = self;
        (session, Ahead { waiting, ended })
    }

    /// A reader that goes on with this session, and has read so much ahead of it.
    pub fn from_parts(session: S, ahead: Ahead) -> ReaderOf<S>
        ensures session { session_of result ≡ session }
        ensures ahead { ahead_of result ≡ ahead }
    {
        let Ahead { waiting, ended } = ahead;
        ReaderOf {
            session,
            waiting,
            ended,
        }
    }

    /// Reads until bytes wait that are more than the first ones of an item of a value. So what comes of it at once
    /// waits as a whole, but where its type isn't ready, where the limits don't allow it, or where the input ends
    /// within it. False at the end of the input between two items. What waits is kept as it comes, and no more than
    /// those bytes and a piece.
    pub fn fill<R: Read>(&mut self, input: &mut Input<R>) -> Result<bool, Fault>
        ensures filled { (read : Option (List ℕ)) (items : List S.Told)
            (h : HasReadBy S.stepping self.old read (R.remaining (reader_of input.old)) items)
            → FillsBy S.stepping (session_of self.old) (types_behind S.stepping h) self.new read
            (R.remaining (reader_of input.new)) items result }
        ensures refused { (read : Option (List ℕ)) (items : List S.Told)
            → HasReadBy S.stepping self.old read (R.remaining (reader_of input.old)) items
            → OfRefusal (λ _. KnowsTypesBy S.stepping (S.stepping.limits (session_of self.old)) read
            (R.remaining (reader_of input.new)) items (types (S.stepping.table (session_of self.new)))) result }
        // a fault is the last
        ensures failed { OnErr result (HasFailedBy S.stepping self.new) }
        ensures stays { HasFailedBy S.stepping self.old → (result ≡ Err Fault.Failed) × (self.new ≡ self.old) }
        // what it has read, and what stays
        ensures counted { CountsReads (failed_reads input.old) (failed_reads input.new) result }
        ensures some { IfOk result (λ more. IsTrue more → 0 < length (waits_in self.new)) }
        ensures same { IfOk result (λ more. IsTrue more → session_of self.new ≡ session_of self.old) }
        ensures limits { S.stepping.limits (session_of self.new) ≡ S.stepping.limits (session_of self.old) }
        ensures types { S.stepping.table (session_of self.new) ≡ S.stepping.table (session_of self.old) }
    {
        if self.session.has_failed() {
            return Err(Fault::Failed);
        }
        'reads: loop {
            if self.has_next() {
                return Ok(true);
            }
            if self.ended {
                return self.end();
            }
            self.read_once(input)?;
        }
    }

    /// Reads once where no byte waits. False at the end of the input between two items.
    pub fn more<R: Read>(&mut self, input: &mut Input<R>) -> Result<bool, Fault>
        ensures filled { (read : Option (List ℕ)) (items : List S.Told)
            (h : HasReadBy S.stepping self.old read (R.remaining (reader_of input.old)) items)
            → FillsBy S.stepping (session_of self.old) (types_behind S.stepping h) self.new read
            (R.remaining (reader_of input.new)) items result }
        ensures refused { (read : Option (List ℕ)) (items : List S.Told)
            → HasReadBy S.stepping self.old read (R.remaining (reader_of input.old)) items
            → OfRefusal (λ _. KnowsTypesBy S.stepping (S.stepping.limits (session_of self.old)) read
            (R.remaining (reader_of input.new)) items (types (S.stepping.table (session_of self.new)))) result }
        // a fault is the last
        ensures failed { OnErr result (HasFailedBy S.stepping self.new) }
        ensures stays { HasFailedBy S.stepping self.old → (result ≡ Err Fault.Failed) × (self.new ≡ self.old) }
        // what it has read, and what stays
        ensures counted { CountsReads (failed_reads input.old) (failed_reads input.new) result }
        ensures some { IfOk result (λ more. IsTrue more → 0 < length (waits_in self.new)) }
        ensures limits { S.stepping.limits (session_of self.new) ≡ S.stepping.limits (session_of self.old) }
        ensures types { S.stepping.table (session_of self.new) ≡ S.stepping.table (session_of self.old) }
    {
        let has_failed = self.session.has_failed();
        if has_failed {
            return Err(Fault::Failed);
        }
        if !self.waiting.bytes().is_empty() {
            return Ok(true);
        }
        self.read_once(input)?;
        if self.waiting.bytes().is_empty() {
            return self.end();
        }
        Ok(true)
    }

    /// Whether the next [`ReaderOf::fill`] may have to wait for its input: at most the first bytes of an item of a
    /// value wait, and the last read gave less than was asked for. What was made of the items before is to go out
    /// first.
    #[inline(always)]
    pub fn may_wait(&self) -> bool
        ensures lacks { IsTrue result → LacksBy S.stepping self.now }
        ensures short { IsTrue result → IsShort self.now }
        ensures none { waits_in self.now ≡ [] → IsShort self.now → IsTrue result }
    {
        self.waiting.has_room() && !self.has_next()
    }

    // Says that no byte follows those that were taken.
    fn end(&mut self) -> Result<bool, Fault>
        requires none { waits_in self.old ≡ [] }
        requires ended { IsTrue self.old.ended }
        ensures filled { (read now : Option (List ℕ)) (items : List S.Told)
            (h : HasReadBy S.stepping self.old read now items)
            → FillsBy S.stepping (session_of self.old) (types_behind S.stepping h) self.new read now items result }
        ensures refused { (read now : Option (List ℕ)) (items : List S.Told)
            → HasReadBy S.stepping self.old read now items
            → OfRefusal (λ _. KnowsTypesBy S.stepping (S.stepping.limits (session_of self.old)) read now items
            (types (S.stepping.table (session_of self.new)))) result }
        ensures failed { OnErr result (HasFailedBy S.stepping self.new) }
        ensures unread { IfErr result (λ fault. fault ≢ Fault.Read) }
        ensures no_more { IfOk result (λ more. more ≡ false) }
        ensures limits { S.stepping.limits (session_of self.new) ≡ S.stepping.limits (session_of self.old) }
        ensures types { S.stepping.table (session_of self.new) ≡ S.stepping.table (session_of self.old) }
    {
        self.session.finish()?;
        Ok(false)
    }

    // Whether bytes wait, and more than the first ones of an item of a value that is to come.
    #[inline(always)]
    fn has_next(&self) -> bool
        ensures some { IsTrue result → 0 < length (waits_in self.now) }
        ensures lacks { result ≡ false → LacksBy S.stepping self.now }
    {
        let bytes = self.waiting.bytes();
        if bytes.is_empty() {
            return false;
        }
        self.ended || self.session.awaited(bytes).is_none()
    }

    // Reads once, behind what waits. Behind a fault of it nothing more is read.
    fn read_once<R: Read>(&mut self, input: &mut Input<R>) -> Result<(), Fault>
        ensures read { ReadsOnce self.old self.new (R.remaining (reader_of input.old))
            (R.remaining (reader_of input.new)) result }
        ensures same { OnOk result (session_of self.new ≡ session_of self.old) }
        ensures given { OnErr result (GivesAllBy S.stepping (session_of self.old)) }
        ensures failed { OnErr result (HasFailedBy S.stepping self.new) }
        ensures reads { CountsReads (failed_reads input.old) (failed_reads input.new) result }
        ensures limits { S.stepping.limits (session_of self.new) ≡ S.stepping.limits (session_of self.old) }
        ensures types { S.stepping.table (session_of self.new) ≡ S.stepping.table (session_of self.old) }
    {
        match self.waiting.read_more(input) {
            Ok(count) => {
                self.ended = count == 0;
                Ok(())
            }
            Err(fault) => {
                self.session.fail();
                Err(fault)
            }
        }
    }

    /// How many bytes wait.
    #[inline(always)]
    pub fn waiting(&self) -> usize
        ensures { result ≡ length (waits_in self.now) }
    {
        self.waiting.bytes().len()
    }

    /// The bytes that wait.
    #[inline(always)]
    pub fn bytes(&self) -> &[u8]
        ensures { result.now ≡ waits_in self.now }
    {
        self.waiting.bytes()
    }

    /// The item of a value that waits in front, where no byte of an item is under way, all of what comes of it at once
    /// is there, its type is ready and the limits allow its length. It takes no memory, and looks at no byte of the
    /// value: where its body is a value of its type in which no interface holds another, the item is whole with it.
    /// None says nothing of what waits, and is the answer after a fault.
    #[inline(always)]
    pub fn whole(&self) -> Option<Whole<'_>>
        ensures between { IfSome result (λ whole. S.stepping.between (session_of self.now)) }
        ensures body { IfSome result (λ whole.
            HasBodyNextBy S.stepping (session_of self.now) whole.id whole.body.now whole.used (waits_in self.now)) }
    {
        self.session.whole_value(self.waiting.bytes())
    }

    /// The item of a value of which the first bytes wait in front, and not all of what comes of it at once, where no
    /// byte of an item is under way. None says nothing of what waits, and is the answer after a fault.
    pub fn awaited(&self) -> Option<Awaited>
        ensures between { IfSome result (λ awaited. S.stepping.between (session_of self.now)) }
        ensures begun { IfSome result (λ awaited.
            HasBegunNextBy S.stepping (session_of self.now) awaited.id awaited.head awaited.size (waits_in self.now)) }
    {
        self.session.awaited(self.waiting.bytes())
    }

    /// Goes past the first bytes that wait, which the caller has found to be an item that defines nothing. Interfaces
    /// in its value hold others only where the session is one for what Go's encoder writes.
    pub fn pass(&mut self, used: usize)
        requires between { S.stepping.between (session_of self.old) }
        requires item { HasItemNextBy S.stepping (session_of self.old) (take used (waits_in self.old)) }
        requires within { used ≤ length (waits_in self.old) }
        ensures passed { PassesOneBy S.stepping self.old self.new used }
        ensures between { S.stepping.between (session_of self.new) }
        ensures stands { StandsBy S.stepping (session_of self.new) }
        ensures table { S.stepping.table (session_of self.new) ≡ S.stepping.table (session_of self.old) }
        ensures limits { S.stepping.limits (session_of self.new) ≡ S.stepping.limits (session_of self.old) }
    {
        self.session.pass(&self.waiting.bytes()[..used]);
        self.waiting.pass(used);
    }

    /// Goes past the items of values that wait in front, one behind another, and define nothing. Interfaces in them
    /// hold values only where the session is one for what Go's encoder writes. It keeps nothing of the values, and
    /// takes no memory. It may pass fewer than wait there, or none, which says nothing of what waits. After a fault it
    /// passes none.
    pub fn pass_values(&mut self) -> Passed
        ensures passed { PassesBy S.stepping self.old self.new result }
        ensures left { waits_in self.new ≡ drop result.used (waits_in self.old) }
        ensures stands { StandsBy S.stepping (session_of self.new) }
        ensures between { 0 < result.items
            → S.stepping.between (session_of self.old) × S.stepping.between (session_of self.new) }
        ensures stays { HasFailedBy S.stepping self.old
            → (result.items ≡ 0) × (result.used ≡ 0) × HasFailedBy S.stepping self.new }
        ensures table { S.stepping.table (session_of self.new) ≡ S.stepping.table (session_of self.old) }
        ensures limits { S.stepping.limits (session_of self.new) ≡ S.stepping.limits (session_of self.old) }
    {
        let passed = self.session.pass_values(self.waiting.bytes());
        self.waiting.pass(passed.used);
        passed
    }

    /// Takes some of the bytes that wait, one at least, and none behind the end of an item.
    pub fn step(&mut self, alloc: Global) -> Result<Advance<S::Item>, Fault>
        requires some { 0 < length (waits_in self.old) }
        ensures stepped { (read now : Option (List ℕ)) (items : List S.Told)
            (h : HasReadBy S.stepping self.old read now items)
            → StepsBy S.stepping self.old (types_behind S.stepping h) self.new read now items result }
        ensures refused { (read now : Option (List ℕ)) (items : List S.Told)
            → HasReadBy S.stepping self.old read now items
            → OfRefusal (λ _. KnowsTypesBy S.stepping (S.stepping.limits (session_of self.old)) read now items
            (types (S.stepping.table (session_of self.new)))) result }
        // a fault is the last
        ensures failed { OnErr result (HasFailedBy S.stepping self.new) }
        ensures stays { HasFailedBy S.stepping self.old → (result ≡ Err Fault.Failed) × (self.new ≡ self.old) }
        // what it has taken, and what stays
        ensures used { IfOk result (λ step. 0 < step.used) }
        ensures stands { StandsBy S.stepping (session_of self.new) }
        ensures between { IfOk result (λ step. IfSome step.item (λ _. S.stepping.between (session_of self.new))) }
        ensures unread { IfErr result (λ fault. fault ≢ Fault.Read) }
        ensures limits { S.stepping.limits (session_of self.new) ≡ S.stepping.limits (session_of self.old) }
    {
        let step = self.session.step(alloc, self.waiting.bytes())?;
        self.waiting.pass(step.used);
        Ok(step)
    }

    /// The types of the stream so far.
    pub fn table(&self) -> &Table
        ensures { result.now ≡ S.stepping.table (session_of self.now) }
    {
        self.session.table()
    }

    /// The limits that it was made with.
    pub fn limits(&self) -> Limits
        ensures { result ≡ S.stepping.limits (session_of self.now) }
    {
        self.session.limits()
    }
}
