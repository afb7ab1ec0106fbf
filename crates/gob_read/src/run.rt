//! A reader under way.

ghost use Rattle.std.specs.Prelude.{◌≡◌, ℕ, ◌+◌, ◌<◌, ◌≤◌, List, [], ◌∷◌, IfOk, IfErr, length};
ghost use Rattle.gob_types.specs.declared.id.TypeId.{TypeId};
ghost use Rattle.gob_types.specs.Table.{Table};
ghost use Rattle.gob_types.specs.Ready.{IsReady};
ghost use Rattle.gob_read.specs.Machine.Steps.{CanTake};
ghost use Rattle.gob_read.specs.Machine.Running.{IsNewRun, IsReachedSomewhere, IsBefore, IsBeforeIn, TakesSome};
ghost use Rattle.gob_read.specs.Machine.Running.{depth_of, begun_parts};
ghost use Rattle.gob_read.specs.Machine.Running.{BytesAnswers, RestAnswers, NumberAnswers, JudgeAnswers};
ghost use Rattle.gob_read.specs.Machine.Running.{EndAnswers, PieceAnswers};
ghost use Rattle.gob_read.specs.Calls.Reader.{HasReadSoFar};
ghost use Rattle.gob_read.specs.Held.{IsHeld, counted_of};
ghost use Rattle.gob_read.specs.Machine.Nil.{IsNotAtNil, IsClear, StepsClear, StopsHere, ClearOfParts, IsNoInterface};

use crate::builder::{Builder, Stores};
use crate::frames::Frames;
use crate::next::{Moved, Next, NextNumber};
use crate::state::State;
use crate::stop::Stop;
use gob_num::{Memory, Number, Step, Taken, take_uint};
use gob_types::{Denial, Reason, Shapes, TypeId};
use std::alloc::Global;

/// A reader that has not ended. Offsets count from the first byte that it was given.
pub(crate) struct Run<B: Builder> {
    /// What it knows between two items.
    pub(crate) state: State<B>,
    /// The expected number, as far as its bytes came.
    pub(crate) number: Number,
    /// The offset of the expected item's first byte.
    pub(crate) start: u64,
    /// How many bytes were taken.
    pub(crate) taken: u64,
    /// How many bytes are announced.
    pub(crate) length: u64,
    /// The greatest depth of a part.
    pub(crate) depth: u64,
}

// Not derived, so that a drop is one call in the proofs of what owns one.
impl<B: Builder> Drop for Run<B> {
    fn drop(self) {
        let Run {
            state: _,
            number: _,
            start: _,
            taken: _,
            length: _,
            depth: _,
        } = self;
    }
}

/// How far the reader has come in a piece.
#[derive(Clone, Copy)]
pub(crate) struct Advance {
    /// How many bytes were taken.
    pub(crate) used: usize,
    /// Where the reader has moved with them.
    pub(crate) moved: Moved,
}

impl Advance {
    /// Nothing of the piece was taken.
    pub(crate) const NONE: Advance = Advance {
        used: 0,
        moved: Moved::ToNext,
    };
}

impl<B: Builder> Run<B> {
    /// The builder, which was told of the parts so far.
    pub(crate) fn into_builder(self) -> B
        ensures { result ≡ self.state.builder }
    {
        let Run {
            state,
            number: _,
            start: _,
            taken: _,
            length: _,
            depth: _,
        } = self;
        state.into_builder()
    }

    /// A reader of a value of the type that has taken nothing.
    pub(crate) fn new(alloc: Global, id: TypeId, length: u64, depth: u64) -> Result<Run<B>, Memory>
        ensures new { IfOk result (λ run. (T : Table) → IsReady T id → IsNewRun T id B.building.received run) }
        ensures length { IfOk result (λ run. run.length ≡ length) }
        ensures depth { IfOk result (λ run. run.depth ≡ depth) }
    {
        let builder = B::fresh(alloc)?;
        Ok(Run {
            state: State {
                builder,
                stack: Frames::new(alloc),
                expected: Next::Top { id },
            },
            number: Number::new(),
            start: 0,
            taken: 0,
            length,
            depth,
        })
    }

    /// Reads on until the piece is taken, or the value is whole and the body with it.
    pub(crate) fn take_piece<S: Shapes>(
        &mut self,
        shapes: &S,
        piece: &[u8],
    ) -> Result<Advance, Stop>
        requires has_read { IsReachedSomewhere (S.table shapes.now) B.building.received self.old }
        requires room { self.old.taken + length piece.now ≤ self.old.length }
        ensures { PieceAnswers (S.table shapes.now) B.building.received self.old self.new piece.now result }
    {
        self.judge()?;
        let mut used = 0;
        let mut cut = false;
        'items: for _ in 0..piece.len() {
            if used == piece.len() {
                return Ok(Advance {
                    used,
                    moved: Moved::ToNext,
                });
            }
            let taken = self.take_next(shapes, &piece[used..], &mut cut)?;
            used += taken.used;
            match taken.moved {
                Moved::ToNext => self.judge()?,
                Moved::PastValue => {
                    self.finish()?;
                    return Ok(Advance {
                        used,
                        moved: Moved::PastValue,
                    });
                }
            }
        }
        Ok(Advance {
            used,
            moved: Moved::ToNext,
        })
    }

    /// What is kept of the parts that have begun, and of their raw bytes.
    pub(crate) fn held(&self) -> u64
        ensures { (T : Table) (t : TypeId) (z : List ℕ) → HasReadSoFar T t B.building.received self.now z
            → IsHeld T t B.STORES z result }
    {
        let _taken = self.taken;
        self.state.builder.held().saturating_add(self.begun())
    }

    /// The parts that have begun, and that the builder isn't told of yet, if it stores parts.
    fn begun(&self) -> u64
        ensures { (r : List ℕ) → self.now.taken ≡ self.now.start + length r
            → result ≡ counted_of B.STORES (begun_parts self.now.state.expected r) }
    {
        if matches!(B::STORES, Stores::Nothing) {
            return 0;
        }
        match self.state.expected {
            Next::Top { id: _ } => 0,
            Next::Number(NextNumber::Tag { id: _ }) => 0,
            Next::Number(NextNumber::Part { id: _ }) => u64::from(self.start < self.taken),
            Next::Number(NextNumber::Second { pattern: _ }) => 1,
            Next::Number(NextNumber::Delta) => 0,
            Next::Raw { left: _ } => 0,
        }
    }

    /// Stops at a part that is too deep, and at the end of the body.
    #[inline(always)]
    pub(crate) fn judge(&self) -> Result<(), Stop>
        requires { self.now.taken ≤ self.now.length }
        ensures judged { JudgeAnswers B.building.received self.now result }
        ensures no_interface { IfErr result IsNoInterface }
    {
        if self.depth_now() > self.depth {
            return Err(self.refuse(self.taken, Reason::TooDeep));
        }
        if self.taken == self.length {
            return Err(self.refuse(self.taken, Reason::Short));
        }
        Ok(())
    }

    /// Stops where the body goes on behind the value.
    pub(crate) fn finish(&self) -> Result<(), Stop>
        requires { self.now.taken ≤ self.now.length }
        ensures ended { EndAnswers B.building.received self.now result }
        ensures no_interface { IfErr result IsNoInterface }
    {
        if self.taken < self.length {
            return Err(self.refuse(self.taken, Reason::Extra));
        }
        Ok(())
    }

    /// The refusal that the bytes so far show.
    fn refuse(&self, place: u64, reason: Reason) -> Stop
        ensures { result ≡ Stop.Refused place self.now.taken reason }
    {
        Stop::Refused {
            place,
            seen: self.taken,
            reason,
        }
    }

    /// The depth of the part that the expected item is in.
    #[inline(always)]
    pub(crate) fn depth_now(&self) -> u64
        ensures { result ≡ depth_of self.now.state.expected self.now.state.stack }
    {
        let opens = self.state.stack.depth();
        match self.state.expected {
            Next::Top { id: _ } => 0,
            Next::Number(NextNumber::Tag { id: _ }) => 0,
            Next::Number(NextNumber::Delta) => opens,
            Next::Number(NextNumber::Part { id: _ }) => opens + 1,
            Next::Number(NextNumber::Second { pattern: _ }) => opens + 1,
            Next::Raw { left: _ } => opens + 1,
        }
    }

    /// Takes the next item, or as much of it as there is, or parts that stand whole.
    #[inline(always)]
    pub(crate) fn take_next<S: Shapes>(
        &mut self,
        shapes: &S,
        rest: &[u8],
        cut: &mut bool,
    ) -> Result<Advance, Stop>
        requires { IsBefore (S.table shapes.now) B.building.received self.old self.old.state.expected rest.now }
        ensures taken { RestAnswers (S.table shapes.now) B.building.received self.old self.new rest.now result }
        ensures clear { IfOk result (λ _. IsNotAtNil (S.table shapes.now) self.old
            → IsClear (S.table shapes.now) self.new) }
        ensures here { IfErr result (StopsHere self.old) }
    {
        match self.state.expected {
            Next::Top { id: _ } => unreachable!(),
            Next::Number(NextNumber::Part { id }) => self.take_part(shapes, id, rest, cut),
            Next::Number(item) => self.take_number(shapes, item, rest),
            Next::Raw { left } => Ok(self.take_raw_bytes(left, rest)?),
        }
    }

    /// Takes the expected part with those behind it that stand whole too, or the part's first number, or the next byte
    /// of that.
    #[inline(always)]
    fn take_part<S: Shapes>(
        &mut self,
        shapes: &S,
        id: TypeId,
        rest: &[u8],
        cut: &mut bool,
    ) -> Result<Advance, Stop>
        requires { IsBefore (S.table shapes.now) B.building.received self.old
            (Next.Number (NextNumber.Part id)) rest.now }
        ensures taken { RestAnswers (S.table shapes.now) B.building.received self.old self.new rest.now result }
        ensures clear { IfOk result (λ _. StepsClear self.old self.new) }
        ensures here { IfErr result (StopsHere self.old) }
    {
        let skipped = self.skip_parts(shapes, id, rest, cut);
        if skipped.used > 0 {
            return Ok(skipped);
        }
        let taken = self.take_basic_parts(shapes, id, rest)?;
        if taken.used > 0 {
            return Ok(taken);
        }
        self.take_number(shapes, NextNumber::Part { id }, rest)
    }

    /// Takes the expected number, or the next byte of it.
    #[inline(always)]
    fn take_number<S: Shapes>(
        &mut self,
        shapes: &S,
        item: NextNumber,
        rest: &[u8],
    ) -> Result<Advance, Stop>
        requires { IsBefore (S.table shapes.now) B.building.received self.old (Next.Number item) rest.now }
        ensures taken { RestAnswers (S.table shapes.now) B.building.received self.old self.new rest.now result }
        ensures clear { IfOk result (λ _. StepsClear self.old self.new) }
        ensures here { IfErr result (StopsHere self.old) }
    {
        if self.start == self.taken {
            if let Taken::Whole { number, used } = take_uint(rest) {
                self.taken += used as u64;
                return match self.take_whole_number(shapes, item, number) {
                    Ok(moved) => Ok(Advance { used, moved }),
                    Err(stop) => Err(stop),
                };
            }
        }
        match self.take_number_byte(shapes, item, rest[0]) {
            Ok(moved) => Ok(Advance { used: 1, moved }),
            Err(stop) => Err(stop),
        }
    }

    /// Takes the next byte of a number, and answers where that leads.
    #[inline(never)]
    fn take_number_byte<S: Shapes>(
        &mut self,
        shapes: &S,
        item: NextNumber,
        b: u8,
    ) -> Result<Moved, Stop>
        requires { IsBefore (S.table shapes.now) B.building.received self.old (Next.Number item) (b ∷ []) }
        ensures taken { BytesAnswers (S.table shapes.now) B.building.received self.old self.new (b ∷ []) result }
        ensures clear { IfOk result (λ _. StepsClear self.old self.new) }
        ensures here { IfErr result (StopsHere self.old) }
    {
        self.taken += 1;
        match self.number.push(b) {
            Step::More => Ok(Moved::ToNext),
            Step::BadHead => Err(self.refuse(self.start, Reason::BadHead)),
            Step::NotMinimal => Err(self.refuse(self.start, Reason::NotMinimal)),
            Step::Done(n) => self.take_whole_number(shapes, item, n),
        }
    }

    /// Takes the expected number, whose last byte was taken, and answers where that leads.
    #[inline(always)]
    pub(crate) fn take_whole_number<S: Shapes>(
        &mut self,
        shapes: &S,
        item: NextNumber,
        n: u64,
    ) -> Result<Moved, Stop>
        requires { CanTake (S.table shapes.now) B.building.received self.old.state item n }
        ensures { NumberAnswers (S.table shapes.now) B.building.received self.old self.new n result }
    {
        match self.state.take_number(shapes, item, n) {
            Ok(moved) => {
                self.start = self.taken;
                Ok(moved)
            }
            Err(Denial::Memory) => Err(Stop::Memory),
            Err(Denial::Refused(reason)) => Err(self.refuse(self.start, reason)),
        }
    }

    /// Takes as many of the expected raw bytes as there are.
    fn take_raw_bytes(&mut self, left: u64, rest: &[u8]) -> Result<Advance, Memory>
        requires { IsBeforeIn B.building.received self.old (Next.Raw left) rest.now }
        ensures taken { IfOk result (λ taken.
            (T : Table) → TakesSome T B.building.received self.old self.new rest.now taken) }
        ensures clear { IfOk result (λ _. ClearOfParts self.new) }
    {
        let used = left.min(rest.len() as u64) as usize;
        let moved = self.state.take_raw_bytes(left, &rest[..used])?;
        self.taken += used as u64;
        if used as u64 == left {
            self.start = self.taken;
        }
        Ok(Advance { used, moved })
    }
}
