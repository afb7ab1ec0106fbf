//! Parts of basic types that stand whole in a piece. Those of a struct or of a list are taken one behind another,
//! without a look at what is expected in between.

ghost use Rattle.std.specs.Prelude.{◌≡◌, ◌<◌, IfOk, IfSome, [], ◌∷◌};
ghost use Rattle.gob_types.specs.Table.{Table};
ghost use Rattle.gob_types.specs.declared.kind.Kind.TheVariants as kind;
ghost use Rattle.gob_read.specs.Machine.Kinds.{HasKind, IsRawKind};
ghost use Rattle.gob_read.specs.Machine.Running.{IsBefore, IsBeforeIn, TakesBytes};
ghost use Rattle.gob_read.specs.Machine.BasicParts.{MayTakeBasic, TakesBasicEvents, IsInFields, IsInList, IsFollowedBy};
ghost use Rattle.gob_read.specs.Machine.BasicParts.{TakesBasicPart, TakesBasicParts, TakesFieldDelta};

use crate::builder::Builder;
use crate::event::RawKind;
use crate::frame::Frame;
use crate::next::{Moved, Next, NextNumber};
use crate::run::{Advance, Run};
use crate::state::State;
use gob_num::{Memory, Taken, take_uint, to_pattern};
use gob_types::{Basic, Fields, Kind, Shapes, TypeId};

/// The field whose part is expected.
#[derive(Clone, Copy)]
pub(crate) struct Entered {
    /// One more than its number.
    pub(crate) next: u64,
    /// The type of its part.
    pub(crate) part: TypeId,
}

impl<B: Builder> State<B> {
    /// Tells a part of the basic type whose first number is `n`, if it stands whole with what is behind the number,
    /// `more`. It answers how many bytes of `more` are in the part, and nothing where it isn't told: where it has two
    /// numbers, isn't allowed or goes on behind the piece.
    #[inline(always)]
    fn tell_basic(&mut self, basic: Basic, n: u64, more: &[u8]) -> Result<Option<usize>, Memory>
        requires { MayTakeBasic B.building.received self.old basic n more.now }
        ensures { IfOk result (λ used. TakesBasicEvents B.building.received self.old self.new basic n more.now used) }
    {
        match basic {
            Basic::Int | Basic::Uint => self.builder.number(basic, n, 0)?,
            Basic::Float => self.builder.number(basic, to_pattern(n), 0)?,
            Basic::Bytes => return self.tell_bytes(basic, RawKind::Bytes, n, more),
            Basic::Str => return self.tell_bytes(basic, RawKind::Str, n, more),
            Basic::Bool | Basic::Complex | Basic::Interface => return Ok(None),
        }
        Ok(Some(0))
    }

    /// Tells a part of `n` bytes, which are the first of `more`.
    #[inline(always)]
    fn tell_bytes(
        &mut self,
        basic: Basic,
        raw: RawKind,
        n: u64,
        more: &[u8],
    ) -> Result<Option<usize>, Memory>
        requires can { MayTakeBasic B.building.received self.old basic n more.now }
        requires told { IsRawKind (kind.Basic basic) raw }
        ensures { IfOk result (λ used. TakesBasicEvents B.building.received self.old self.new basic n more.now used) }
    {
        if n == 0 || n > more.len() as u64 {
            return Ok(None);
        }
        let count = n as usize;
        self.builder.raw_start(raw)?;
        self.builder.raw_more(&more[..count])?;
        self.builder.leave()?;
        Ok(Some(count))
    }
}

impl<B: Builder> Run<B> {
    /// Takes the expected part and what stands whole behind it in its struct or list, if it is in one and no byte of it
    /// was taken before. Where it isn't taken, nothing is done.
    #[inline(always)]
    pub(crate) fn take_basic_parts<S: Shapes>(
        &mut self,
        shapes: &S,
        id: TypeId,
        rest: &[u8],
    ) -> Result<Advance, Memory>
        requires { IsBefore (S.table shapes.now) B.building.received self.old
            (Next.Number (NextNumber.Part id)) rest.now }
        ensures { IfOk result (λ taken.
            TakesBasicParts (S.table shapes.now) B.building.received self.old self.new rest.now taken) }
    {
        if self.start != self.taken {
            return Ok(Advance::NONE);
        }
        match self.state.stack.innermost() {
            Some(Frame::Fields { id: of, next }) => {
                self.take_basic_fields(shapes, of, Entered { next, part: id }, rest)
            }
            Some(Frame::Many { elem, left }) => self.take_basic_elements(shapes, elem, left, rest),
            _ => Ok(Advance::NONE),
        }
    }

    /// Takes the part of the first field, which is expected in the innermost open struct, and the deltas and parts
    /// behind it there, as long as the parts are of basic types and stand whole in the piece.
    #[inline(never)]
    fn take_basic_fields<S: Shapes>(
        &mut self,
        shapes: &S,
        of: TypeId,
        first: Entered,
        rest: &[u8],
    ) -> Result<Advance, Memory>
        requires before { IsBefore (S.table shapes.now) B.building.received self.old
            (Next.Number (NextNumber.Part first.part)) rest.now }
        requires inside { IsInFields of first.next self.old.state.stack }
        requires fresh { self.old.start ≡ self.old.taken }
        ensures { IfOk result (λ taken.
            TakesBasicParts (S.table shapes.now) B.building.received self.old self.new rest.now taken) }
    {
        let Some(fields) = fields_of(shapes, of) else {
            return Ok(Advance::NONE);
        };
        let mut field = first;
        let mut used = 0;
        let moved = Moved::ToNext;
        'fields: for _ in 0..rest.len() {
            let Some(basic) = basic_of(shapes, field.part) else {
                return Ok(Advance { used, moved });
            };
            let next = Frame::Fields {
                id: of,
                next: field.next,
            };
            let taken = self.take_basic_part(shapes, field.part, basic, next, &rest[used..])?;
            used += taken;
            if taken == 0 || used == rest.len() {
                return Ok(Advance { used, moved });
            }
            let delta = rest[used];
            if delta == 0 {
                let moved = self.take_end()?;
                return Ok(Advance {
                    used: used + 1,
                    moved,
                });
            }
            let Some(entered) = self.take_field_delta(shapes, of, fields, field.next, delta)? else {
                return Ok(Advance { used, moved });
            };
            field = entered;
            used += 1;
            if used == rest.len() {
                return Ok(Advance { used, moved });
            }
        }
        Ok(Advance { used, moved })
    }

    /// Takes the expected element of the innermost open list, and those behind it, as long as they are of a basic type
    /// and stand whole in the piece. The last one of the list isn't taken, since the list ends with it.
    #[inline(never)]
    fn take_basic_elements<S: Shapes>(
        &mut self,
        shapes: &S,
        elem: TypeId,
        left: u64,
        rest: &[u8],
    ) -> Result<Advance, Memory>
        requires before { IsBefore (S.table shapes.now) B.building.received self.old
            (Next.Number (NextNumber.Part elem)) rest.now }
        requires inside { IsInList elem left self.old.state.stack }
        requires fresh { self.old.start ≡ self.old.taken }
        ensures { IfOk result (λ taken.
            TakesBasicParts (S.table shapes.now) B.building.received self.old self.new rest.now taken) }
    {
        let Some(basic) = basic_of(shapes, elem) else {
            return Ok(Advance::NONE);
        };
        let mut used = 0;
        let moved = Moved::ToNext;
        'elements: for index in 0..left {
            let next = Frame::Many {
                elem,
                left: left - 1 - index,
            };
            let taken = self.take_basic_part(shapes, elem, basic, next, &rest[used..])?;
            used += taken;
            if taken == 0 || used == rest.len() {
                return Ok(Advance { used, moved });
            }
        }
        Ok(Advance { used, moved })
    }

    /// Takes the expected part, which is of the basic type, if it stands whole in the piece. Behind it `next` is the
    /// innermost open part. It answers how many bytes the part has, and 0 where it isn't taken.
    #[inline(always)]
    fn take_basic_part<S: Shapes>(
        &mut self,
        _shapes: &S,
        id: TypeId,
        basic: Basic,
        next: Frame,
        rest: &[u8],
    ) -> Result<usize, Memory>
        requires before { IsBefore (S.table _shapes.now) B.building.received self.old
            (Next.Number (NextNumber.Part id)) rest.now }
        requires kind_ { HasKind (S.table _shapes.now) id (kind.Basic basic) }
        requires inside { IsFollowedBy next self.old.state.stack }
        requires fresh { self.old.start ≡ self.old.taken }
        ensures { IfOk result (λ used. TakesBasicPart (S.table _shapes.now) B.building.received self.old self.new
            next rest.now used) }
    {
        let Taken::Whole { number, used } = take_uint(rest) else {
            return Ok(0);
        };
        let Some(more) = self.state.tell_basic(basic, number, &rest[used..])? else {
            return Ok(0);
        };
        self.state.stack.replace(next);
        self.state.expected = Next::Number(next.item());
        self.taken += (used + more) as u64;
        self.start = self.taken;
        Ok(used + more)
    }

    /// Takes the delta `n`, which is not 0, if it leads to a field and has one byte.
    #[inline(always)]
    fn take_field_delta<S: Shapes>(
        &mut self,
        _shapes: &S,
        of: TypeId,
        fields: &Fields,
        next: u64,
        n: u8,
    ) -> Result<Option<Entered>, Memory>
        requires before { IsBefore (S.table _shapes.now) B.building.received self.old
            (Next.Number NextNumber.Delta) (n ∷ []) }
        requires inside { IsInFields of next self.old.state.stack }
        requires struct_ { HasKind (S.table _shapes.now) of (kind.Struct fields.now) }
        requires fresh { self.old.start ≡ self.old.taken }
        requires no_end { 0 < n }
        ensures { IfOk result (λ entered.
            TakesFieldDelta (S.table _shapes.now) B.building.received self.old self.new n of entered) }
    {
        let number = next.saturating_add(u64::from(n) - 1);
        if n > 127 {
            return Ok(None);
        }
        let Some(field) = fields.get(number) else {
            return Ok(None);
        };
        self.state.name_field(of, number, field.id)?;
        self.taken += 1;
        self.start = self.taken;
        Ok(Some(Entered {
            next: number + 1,
            part: field.id,
        }))
    }

    /// Takes the delta 0 of the innermost open struct, and answers where that leads.
    #[inline(always)]
    fn take_end(&mut self) -> Result<Moved, Memory>
        requires before { IsBeforeIn B.building.received self.old (Next.Number NextNumber.Delta) (0 ∷ []) }
        requires fresh { self.old.start ≡ self.old.taken }
        ensures taken { IfOk result (λ moved.
            (T : Table) → TakesBytes T B.building.received self.old self.new (0 ∷ []) moved) }
        ensures fresh { IfOk result (λ _. self.new.start ≡ self.new.taken) }
    {
        let moved = self.state.end_fields()?;
        self.taken += 1;
        self.start = self.taken;
        Ok(moved)
    }
}

/// The basic type that the id names.
#[inline(always)]
fn basic_of<S: Shapes>(shapes: &S, id: TypeId) -> Option<Basic>
    ensures { IfSome result (λ basic. HasKind (S.table shapes.now) id (kind.Basic basic)) }
{
    shapes.basic_of(id)
}

/// The fields of the struct type that the id names.
#[inline(always)]
fn fields_of<S: Shapes>(shapes: &S, id: TypeId) -> Option<&Fields>
    ensures { IfSome result (λ fields. HasKind (S.table shapes.now) id (kind.Struct fields.now)) }
{
    shapes.shape_of(id)?.kind.fields()
}
