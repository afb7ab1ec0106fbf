//! The reader of a body.

ghost use Rattle.std.specs.Prelude.{◌≡◌, ℕ, [], IfOk, IfErr, OnErr, Err, List, min};
ghost use Rattle.gob_types.specs.declared.id.TypeId.{TypeId};
ghost use Rattle.gob_types.specs.Table.{Table};
ghost use Rattle.gob_types.specs.Ready.{IsReady};
ghost use Rattle.gob_read.specs.Calls.UnderWay.{HasReadBody, HasEnded, FitsTable, PushGives, PushStops};
ghost use Rattle.gob_read.specs.Calls.UnderWay.{PushStopsHonestly};
ghost use Rattle.gob_read.specs.Held.{IsHeld};

use crate::builder::Builder;
use crate::next::Moved;
use crate::run::Run;
use crate::stop::Stop;
use gob_num::Memory;
use gob_types::{Shapes, TypeId};
use std::alloc::Global;

/// How far a push came.
#[derive(Drop)]
pub enum Progress<O: Drop> {
    /// The whole piece was taken, and the body goes on behind it.
    More,
    /// The value is whole, and the announced length ends with it.
    Done {
        /// What the builder made of the value.
        out: O,
        /// How many bytes of the piece were taken.
        used: usize,
    },
}

/// A reader of one body, from behind its type number on, in pieces of any lengths.
pub struct BodyReader<B: Builder> {
    pub(crate) run: Option<Run<B>>,
}

// Not derived, so that a drop is one call in the proofs of what owns one.
impl<B: Builder> Drop for BodyReader<B> {
    fn drop(self) {
        let BodyReader { run: _ } = self;
    }
}

impl<B: Builder> BodyReader<B> {
    /// A reader of a value of the type. `length` bytes are announced for it and its tag, and none of its parts may
    /// be deeper than `depth`, or than the builder takes.
    pub fn new(alloc: Global, id: TypeId, length: u64, depth: u64) -> Result<BodyReader<B>, Memory>
        ensures { IfOk result (λ reader. (T : Table) → IsReady T id
            → HasReadBody B.building T id (min depth B.DEPTH) length reader []) }
    {
        let run = Run::new(alloc, id, length, depth.min(B::DEPTH))?;
        Ok(BodyReader { run: Some(run) })
    }

    /// Reads the next piece. `Memory` and refusals end the reader, as the end of the body does; a refusal comes in
    /// the call that brings the last of the bytes that show it. Its place is honest: where a number is refused, the
    /// bytes before it begin a value of the type, in the grammar without limits, and those up to its end begin none;
    /// where a part is too deep, those before it begin only values that are too deep.
    pub fn push<S: Shapes>(
        &mut self,
        _alloc: Global,
        shapes: &S,
        piece: &[u8],
    ) -> Result<Progress<B::Out>, Stop>
        requires { FitsTable B.building (S.table shapes.now) self.old }
        ensures given { IfOk result (PushGives B.building (S.table shapes.now) self.old self.new piece.now) }
        ensures refused { IfErr result (PushStops B.building (S.table shapes.now) self.old piece.now) }
        ensures honest { IfErr result (PushStopsHonestly B.building (S.table shapes.now) self.old piece.now) }
        ensures failed { HasEnded self.old → result ≡ Err Stop.Failed }
        ensures ended { OnErr result (HasEnded self.new) }
    {
        let Some(mut run) = self.run.take() else {
            return Err(Stop::Failed);
        };
        run.state.begin(shapes);
        let room = run.length - run.taken;
        let count = room.min(piece.len() as u64) as usize;
        match run.take_piece(shapes, &piece[..count]) {
            Ok(advance) => match advance.moved {
                Moved::ToNext => {
                    self.run = Some(run);
                    Ok(Progress::More)
                }
                Moved::PastValue => {
                    let builder = run.into_builder();
                    Ok(Progress::Done {
                        out: builder.take(),
                        used: advance.used,
                    })
                }
            },
            Err(stop) => Err(stop),
        }
    }

    /// How much is held of the value: each part from its first byte on, and the raw bytes that the builder stores.
    /// It is at most the number of bytes taken, and 0 once the reader has ended.
    pub fn held(&self) -> u64
        ensures held { (T : Table) (t : TypeId) (limit announced : ℕ) (z : List ℕ)
            → HasReadBody B.building T t limit announced self.now z → IsHeld T t B.STORES z result }
        ensures ended { HasEnded self.now → result ≡ 0 }
    {
        match &self.run {
            Some(run) => run.held(),
            None => 0,
        }
    }
}
