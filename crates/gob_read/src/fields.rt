//! The deltas of a struct.

ghost use Rattle.std.specs.Prelude.{◌≡◌, ◌+◌, ◌^◌, ◌<◌, ◌≤◌, IfOk, OnOk, length};
ghost use Rattle.gob_read.specs.Event as event;
ghost use Rattle.gob_read.specs.Building.{MayTakeEvent};
ghost use Rattle.gob_read.specs.Machine.BasicParts.{NamesField, CanEndFields, EndsFields};
ghost use Rattle.gob_read.specs.Machine.Steps.{CanBeginStruct, BeginsStruct, CanGoOn, StepGoesOn, LeadsNowhere};
ghost use Rattle.gob_read.specs.Machine.Steps.{CanTake, StepTakes};
ghost use Rattle.gob_read.specs.Machine.Steps.{StepRefuses, TakesOrBlames};

use crate::builder::Builder;
use crate::event::GroupKind;
use crate::frame::Frame;
use crate::next::{Moved, Next, NextNumber};
use crate::state::State;
use gob_num::Memory;
use gob_types::{Denial, Fields, Kind, Reason, Shapes, TypeId};

impl<B: Builder> State<B> {
    /// Takes the first delta of a struct of the type, which has these fields.
    #[inline(always)]
    pub(crate) fn take_first_delta(
        &mut self,
        id: TypeId,
        fields: &Fields,
        n: u64,
    ) -> Result<Moved, Denial>
        requires { CanBeginStruct B.building.received self.old id fields.now n }
        ensures { TakesOrBlames (BeginsStruct B.building.received self.old self.new id fields.now n)
            (LeadsNowhere fields.now 0 n) result }
    {
        self.builder.enter(GroupKind::Fields)?;
        self.stack.open(Frame::Fields { id, next: 0 })?;
        self.take_field(id, 0, fields, n)
    }

    /// Takes the delta behind a field of the innermost open struct.
    #[inline(always)]
    pub(crate) fn take_delta<S: Shapes>(&mut self, shapes: &S, n: u64) -> Result<Moved, Denial>
        requires { CanTake (S.table shapes.now) B.building.received self.old NextNumber.Delta n }
        ensures { TakesOrBlames (StepTakes (S.table shapes.now) B.building.received self.old self.new n)
            (StepRefuses (S.table shapes.now) B.building.received self.old n) result }
    {
        let Some(frame) = self.stack.innermost() else {
            unreachable!()
        };
        let Frame::Fields { id, next } = frame else {
            unreachable!()
        };
        let Some(shape) = shapes.shape_of(id) else {
            unreachable!()
        };
        let Kind::Struct { fields } = &shape.kind else {
            unreachable!()
        };
        self.take_field(id, next, fields, n)
    }

    /// Takes a delta of the innermost open struct, which is of this type and has these fields, of which the next
    /// has the number `next` or a greater one.
    #[inline(always)]
    fn take_field(
        &mut self,
        id: TypeId,
        next: u64,
        fields: &Fields,
        n: u64,
    ) -> Result<Moved, Denial>
        requires { CanGoOn B.building.received self.old id fields.now next n }
        ensures { TakesOrBlames (StepGoesOn B.building.received self.old self.new id fields.now next n)
            (LeadsNowhere fields.now next n) result }
    {
        if n == 0 {
            return Ok(self.end_fields()?);
        }
        let number = next.saturating_add(n - 1);
        let Some(field) = fields.get(number) else {
            return Err(Denial::Refused(Reason::FieldNumber));
        };
        self.name_field(id, number, field.id)?;
        Ok(Moved::ToNext)
    }

    /// Takes the number of the next field of the innermost open struct, which is of this type, and the type of its
    /// part.
    #[inline(always)]
    pub(crate) fn name_field(&mut self, id: TypeId, number: u64, part: TypeId) -> Result<(), Memory>
        requires named { MayTakeEvent B.building.received self.old.builder (event.field number) }
        requires inside { 0 < length self.old.stack }
        requires small { number + 1 < 2 ^ 64 }
        ensures { OnOk result (NamesField B.building.received self.old self.new id number part) }
    {
        self.builder.field(number)?;
        self.stack.replace(Frame::Fields {
            id,
            next: number + 1,
        });
        self.expected = Next::Number(NextNumber::Part { id: part });
        Ok(())
    }

    /// Ends the innermost open struct, and answers where that leads.
    #[inline(always)]
    pub(crate) fn end_fields(&mut self) -> Result<Moved, Memory>
        requires { CanEndFields B.building.received self.old }
        ensures { IfOk result (λ moved. EndsFields B.building.received self.old self.new moved) }
    {
        self.stack.close();
        self.builder.leave()?;
        self.after_part()
    }
}
