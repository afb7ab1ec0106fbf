//! The first number of a part, by the kind of its type.

ghost use Rattle.std.specs.Prelude.{◌≡◌, ◌<◌, ◌≤◌, IfOk, length};
ghost use Rattle.gob_types.specs.declared.kind.Kind.TheVariants as kind;
ghost use Rattle.gob_read.specs.Machine.Kinds.{IsScalar, IsRawKind, IsList, IsGroup};
ghost use Rattle.gob_read.specs.Machine.Steps.{CanBegin, StepBegins, CanTakeFirst, TakesFirst, RefusesFirst};
ghost use Rattle.gob_read.specs.Machine.Steps.{IsNoFirst, TakesOrBlames};

use crate::builder::Builder;
use crate::event::{GroupKind, RawKind};
use crate::frame::Frame;
use crate::next::{Moved, Next, NextNumber};
use crate::state::State;
use gob_num::{Memory, to_pattern};
use gob_types::{Basic, Denial, Kind, Reason, Shapes, TypeId};

impl<B: Builder> State<B> {
    /// Takes the first number of a part of the type, and answers where that leads.
    #[inline(always)]
    pub(crate) fn take_part<S: Shapes>(
        &mut self,
        shapes: &S,
        id: TypeId,
        n: u64,
    ) -> Result<Moved, Denial>
        requires { CanTakeFirst (S.table shapes.now) B.building.received self.old id n }
        ensures { TakesOrBlames (TakesFirst (S.table shapes.now) B.building.received self.old self.new id n)
            (RefusesFirst (S.table shapes.now) B.building.received self.old id n) result }
    {
        let Some(shape) = shapes.shape_of(id) else {
            unreachable!()
        };
        match &shape.kind {
            Kind::Basic(basic) => self.take_basic(*basic, n),
            Kind::Opaque(_) => Ok(self.take_byte_count(RawKind::Opaque, n)?),
            Kind::Struct { fields } => self.take_first_delta(id, fields, n),
            Kind::Map { key, elem } => {
                let left = n.saturating_sub(1);
                let first = Frame::Key {
                    key: *key,
                    elem: *elem,
                    left,
                };
                Ok(self.take_count(GroupKind::Pairs, first, n)?)
            }
            Kind::Slice { elem } => Ok(self.take_element_count(*elem, n)?),
            Kind::Array { elem, len } => {
                if n != *len {
                    return Err(Denial::Refused(Reason::ArrayCount));
                }
                Ok(self.take_element_count(*elem, n)?)
            }
        }
    }

    /// Takes the first number of a part of a basic type.
    #[inline(always)]
    fn take_basic(&mut self, basic: Basic, n: u64) -> Result<Moved, Denial>
        requires { CanBegin B.building.received self.old (λ k. k ≡ kind.Basic basic) n }
        ensures { TakesOrBlames (StepBegins B.building.received self.old self.new (λ k. k ≡ kind.Basic basic) n)
            (IsNoFirst (kind.Basic basic) n) result }
    {
        match basic {
            Basic::Bool => {
                if n > 1 {
                    return Err(Denial::Refused(Reason::Bool));
                }
                Ok(self.take_scalar(basic, n, n)?)
            }
            Basic::Int => Ok(self.take_scalar(basic, n, n)?),
            Basic::Uint => Ok(self.take_scalar(basic, n, n)?),
            Basic::Float => Ok(self.take_scalar(basic, n, to_pattern(n))?),
            Basic::Bytes => Ok(self.take_byte_count(RawKind::Bytes, n)?),
            Basic::Str => Ok(self.take_byte_count(RawKind::Str, n)?),
            Basic::Complex => {
                self.expected = Next::Number(NextNumber::Second {
                    pattern: to_pattern(n),
                });
                Ok(Moved::ToNext)
            }
            Basic::Interface => {
                if n != 0 {
                    return Err(Denial::Refused(Reason::InterfaceValue));
                }
                Ok(self.take_scalar(basic, n, n)?)
            }
        }
    }

    /// Takes a part that the number `n` spells, and tells it as `told`.
    #[inline(always)]
    fn take_scalar(&mut self, basic: Basic, n: u64, told: u64) -> Result<Moved, Memory>
        requires { CanBegin B.building.received self.old (λ k. IsScalar k n basic told) n }
        ensures { IfOk result (λ moved.
            StepBegins B.building.received self.old self.new (λ k. IsScalar k n basic told) n moved) }
    {
        self.builder.number(basic, told, 0)?;
        self.after_part()
    }

    /// Takes how many raw bytes the part has.
    #[inline(always)]
    fn take_byte_count(&mut self, kind: RawKind, n: u64) -> Result<Moved, Memory>
        requires { CanBegin B.building.received self.old (λ k. IsRawKind k kind) n }
        ensures { IfOk result (λ moved.
            StepBegins B.building.received self.old self.new (λ k. IsRawKind k kind) n moved) }
    {
        self.builder.raw_start(kind)?;
        if n == 0 {
            self.builder.leave()?;
            return self.after_part();
        }
        self.expected = Next::Raw { left: n };
        Ok(Moved::ToNext)
    }

    /// Takes how many elements a list has.
    #[inline(always)]
    fn take_element_count(&mut self, elem: TypeId, n: u64) -> Result<Moved, Memory>
        requires { CanBegin B.building.received self.old (λ k. IsList k n elem) n }
        ensures { IfOk result (λ moved.
            StepBegins B.building.received self.old self.new (λ k. IsList k n elem) n moved) }
    {
        let first = Frame::Many {
            elem,
            left: n.saturating_sub(1),
        };
        self.take_count(GroupKind::Many, first, n)
    }

    /// Takes how many elements or pairs a part has. `first` is open while the first of them is read.
    #[inline(always)]
    fn take_count(&mut self, group: GroupKind, first: Frame, n: u64) -> Result<Moved, Memory>
        requires { CanBegin B.building.received self.old (λ k. IsGroup k n group first) n }
        ensures { IfOk result (λ moved.
            StepBegins B.building.received self.old self.new (λ k. IsGroup k n group first) n moved) }
    {
        self.builder.enter(group)?;
        if n == 0 {
            self.builder.leave()?;
            return self.after_part();
        }
        self.stack.open(first)?;
        self.expected = Next::Number(first.item());
        Ok(Moved::ToNext)
    }
}
