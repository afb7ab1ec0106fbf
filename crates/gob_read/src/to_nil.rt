//! Reading on up to the number of an interface.

ghost use Rattle.std.specs.Prelude.{◌≡◌, ◌+◌, ◌≤◌, ◌<◌, [], ◌∷◌, IfOk, IfErr, MatchBool, length};
ghost use Rattle.gob_read.specs.Machine.Running.{IsReachedSomewhere, IsBefore, BytesAnswers, PieceAnswers};
ghost use Rattle.gob_read.specs.Machine.Nil.{IsAtNil, IsNotAtNil, IsClear, StandsAtNil, NilAnswers, IsNoInterface};

use crate::builder::Builder;
use crate::next::{Moved, Next, NextNumber};
use crate::run::{Advance, Run};
use crate::stop::Stop;
use gob_types::{Basic, Shapes};

/// How far a reader has come in a piece that stops before the number of an interface.
#[derive(Clone, Copy)]
pub(crate) enum Came {
    /// The whole piece was taken.
    ToEnd,
    /// Before the number of an interface, behind so many bytes of the piece.
    ToNil { used: usize },
    /// Past the value, with which the body ends, behind so many bytes.
    PastValue { used: usize },
}

impl<B: Builder> Run<B> {
    /// Reads on until the piece is taken, the number of an interface comes next, or the value is whole and the body
    /// with it. It never refuses an interface.
    pub(crate) fn take_to_nil<S: Shapes>(&mut self, shapes: &S, piece: &[u8]) -> Result<Came, Stop>
        requires has_read { IsReachedSomewhere (S.table shapes.now) B.building.received self.old }
        requires room { self.old.taken + length piece.now ≤ self.old.length }
        requires clear { IsClear (S.table shapes.now) self.old }
        ensures came { NilAnswers (S.table shapes.now) B.building.received self.old self.new piece.now result }
        ensures at_nil { IfOk result (λ came. StandsAtNil (S.table shapes.now) self.new came) }
        ensures clear { IfOk result (λ _. IsClear (S.table shapes.now) self.new) }
        ensures no_interface { IfErr result IsNoInterface }
    {
        self.judge()?;
        let mut used = 0;
        let mut cut = false;
        'items: for _ in 0..piece.len() {
            if self.is_at_nil(shapes) {
                return Ok(Came::ToNil { used });
            }
            if used == piece.len() {
                return Ok(Came::ToEnd);
            }
            let taken = self.take_next(shapes, &piece[used..], &mut cut)?;
            used += taken.used;
            match taken.moved {
                Moved::ToNext => self.judge()?,
                Moved::PastValue => {
                    self.finish()?;
                    return Ok(Came::PastValue { used });
                }
            }
        }
        if self.is_at_nil(shapes) {
            return Ok(Came::ToNil { used });
        }
        Ok(Came::ToEnd)
    }

    /// Whether the number of an interface is expected.
    #[inline(always)]
    fn is_at_nil<S: Shapes>(&self, shapes: &S) -> bool
        ensures { MatchBool result (IsAtNil (S.table shapes.now) self.now) (IsNotAtNil (S.table shapes.now) self.now) }
    {
        match self.state.expected {
            Next::Number(NextNumber::Part { id }) => {
                matches!(shapes.basic_of(id), Some(Basic::Interface))
            }
            _ => false,
        }
    }

    /// Takes the number 0 of an interface, which is nil, or stands for what fills it.
    pub(crate) fn take_nil<S: Shapes>(&mut self, shapes: &S) -> Result<Advance, Stop>
        requires has_read { IsReachedSomewhere (S.table shapes.now) B.building.received self.old }
        requires room { self.old.taken + 1 ≤ self.old.length }
        requires at_nil { IsAtNil (S.table shapes.now) self.old }
        requires clear { IsClear (S.table shapes.now) self.old }
        ensures came { PieceAnswers (S.table shapes.now) B.building.received self.old self.new (0 ∷ []) result }
        ensures clear { IfOk result (λ _. IsClear (S.table shapes.now) self.new) }
    {
        self.judge()?;
        let moved = self.take_zero(shapes)?;
        match moved {
            Moved::ToNext => self.judge()?,
            Moved::PastValue => self.finish()?,
        }
        Ok(Advance { used: 1, moved })
    }

    /// Takes the number 0.
    #[inline(always)]
    fn take_zero<S: Shapes>(&mut self, shapes: &S) -> Result<Moved, Stop>
        requires before { IsBefore (S.table shapes.now) B.building.received self.old self.old.state.expected (0 ∷ []) }
        requires at_nil { IsAtNil (S.table shapes.now) self.old }
        requires clear { IsClear (S.table shapes.now) self.old }
        ensures taken { BytesAnswers (S.table shapes.now) B.building.received self.old self.new (0 ∷ []) result }
        ensures clear { IfOk result (λ _. self.new.start ≡ self.new.taken) }
    {
        match self.state.expected {
            Next::Number(item) => {
                self.taken += 1;
                self.take_whole_number(shapes, item, 0)
            }
            _ => unreachable!(),
        }
    }
}
