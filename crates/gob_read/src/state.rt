//! A reader between two items.

ghost use Rattle.std.specs.Prelude.{◌≡◌, ◌-◌, ◌<◌, ◌≤◌, ◌↔◌, IfOk, IsTrue, length};
ghost use Rattle.gob_read.specs.Machine.Steps.{CanEnd, StepEnds, CanTake, StepTakes, StepRefuses, CanTakeRaw};
ghost use Rattle.gob_read.specs.Machine.Steps.{TakesRaw, TakesOrBlames};
ghost use Rattle.gob_read.specs.Machine.Steps.{CanTakeTag, IsWrongTag, CanTakeImaginary, TakesHere};
ghost use Rattle.gob_read.specs.Machine.Kinds.{BeginsAs};

use crate::builder::Builder;
use crate::frames::Frames;
use crate::next::{Moved, Next, NextNumber};
use gob_num::{Memory, to_pattern};
use gob_types::{Basic, Denial, Reason, Shapes, TypeId};
use gob_value::has_structs;

/// What a reader knows between two items: what is made of the parts so far, which parts are open, and what is
/// expected. After a fault it is of no more use.
pub(crate) struct State<B: Builder> {
    /// What was told of each part so far.
    pub(crate) builder: B,
    /// The open parts.
    pub(crate) stack: Frames,
    /// What comes next.
    pub(crate) expected: Next,
}

// Not derived, so that a drop is one call in the proofs of what owns one.
impl<B: Builder> Drop for State<B> {
    fn drop(self) {
        let State {
            builder: _,
            stack: _,
            expected: _,
        } = self;
    }
}

impl<B: Builder> State<B> {
    /// The builder, which was told of the parts so far.
    pub(crate) fn into_builder(self) -> B
        ensures { result ≡ self.builder }
    {
        let State {
            builder,
            stack: _,
            expected: _,
        } = self;
        builder
    }

    /// Before the first byte: finds what a body of the type begins with.
    pub(crate) fn begin<S: Shapes>(&mut self, shapes: &S)
        ensures begun { BeginsAs (S.table shapes.now) self.old.expected self.new.expected }
        ensures builder { self.new.builder ≡ self.old.builder }
        ensures stack { self.new.stack ≡ self.old.stack }
    {
        let Next::Top { id } = self.expected else {
            return;
        };
        let item = if has_structs(shapes, id) {
            NextNumber::Part { id }
        } else {
            NextNumber::Tag { id }
        };
        self.expected = Next::Number(item);
    }

    /// After a whole part: moves to what is expected behind it, or past the value where it was the outermost one.
    #[inline(always)]
    pub(crate) fn after_part(&mut self) -> Result<Moved, Memory>
        requires { CanEnd B.building.received self.old }
        ensures { IfOk result (λ moved. StepEnds B.building.received self.old self.new moved) }
    {
        'opens: loop {
            let Some(frame) = self.stack.innermost() else {
                return Ok(Moved::PastValue);
            };
            if let Some(next) = frame.next() {
                self.stack.replace(next);
                self.expected = Next::Number(next.item());
                return Ok(Moved::ToNext);
            }
            self.stack.close();
            self.builder.leave()?;
        }
    }

    /// Takes the expected number, and answers where that leads.
    #[inline(always)]
    pub(crate) fn take_number<S: Shapes>(
        &mut self,
        shapes: &S,
        item: NextNumber,
        n: u64,
    ) -> Result<Moved, Denial>
        requires { CanTake (S.table shapes.now) B.building.received self.old item n }
        ensures { TakesOrBlames (StepTakes (S.table shapes.now) B.building.received self.old self.new n)
            (StepRefuses (S.table shapes.now) B.building.received self.old n) result }
    {
        match item {
            NextNumber::Tag { id } => self.take_tag(id, n),
            NextNumber::Part { id } => self.take_part(shapes, id, n),
            NextNumber::Second { pattern } => Ok(self.take_imaginary(pattern, n)?),
            NextNumber::Delta => self.take_delta(shapes, n),
        }
    }

    /// Takes the tag before the body's value, which is of this type.
    #[inline(always)]
    fn take_tag(&mut self, id: TypeId, n: u64) -> Result<Moved, Denial>
        requires { CanTakeTag B.building.received self.old id n }
        ensures { TakesOrBlames (TakesHere B.building.received self.old self.new n) (IsWrongTag n) result }
    {
        if n != 0 {
            return Err(Denial::Refused(Reason::SingleTag));
        }
        self.expected = Next::Number(NextNumber::Part { id });
        Ok(Moved::ToNext)
    }

    /// Takes the imaginary part of a complex number, behind the pattern of its real part.
    fn take_imaginary(&mut self, pattern: u64, n: u64) -> Result<Moved, Memory>
        requires { CanTakeImaginary B.building.received self.old pattern n }
        ensures { IfOk result (λ moved. TakesHere B.building.received self.old self.new n moved) }
    {
        self.builder.number(Basic::Complex, pattern, to_pattern(n))?;
        self.after_part()
    }

    /// Takes raw bytes of the part that is read, and answers where that leads.
    pub(crate) fn take_raw_bytes(&mut self, left: u64, bytes: &[u8]) -> Result<Moved, Memory>
        requires { CanTakeRaw B.building.received self.old left bytes.now }
        ensures { IfOk result (λ moved. TakesRaw B.building.received self.old self.new left bytes.now moved) }
    {
        self.builder.raw_more(bytes)?;
        let rest = left - bytes.len() as u64;
        if rest == 0 {
            self.builder.leave()?;
            return self.after_part();
        }
        self.expected = Next::Raw { left: rest };
        Ok(Moved::ToNext)
    }
}
