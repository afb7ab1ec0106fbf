//! A body read up to the numbers of interfaces, which are left to the caller.
//!
//! A number of an interface is 0 where it is nil. Where a value stands in the interface, a reader of the body as it
//! would be with nil there is told of 0 in its place:
//!
//! ```text
//! 01 02 01 │ 09 "main.Wrap" .. │ 01 08 00     a struct with an interface in its second field
//! push_to_nil    Nil { used: 3 }
//! fill           the caller has read what stands in the interface
//! push_to_nil    Done, with the last three bytes
//! ```

ghost use Rattle.std.specs.Prelude.{◌≡◌, ℕ, ◌+◌, ◌^◌, ◌<◌, [], ◌∷◌, IfOk, IfErr, OnErr, Err, List, length};
ghost use Rattle.gob_types.specs.declared.id.TypeId.{TypeId};
ghost use Rattle.gob_types.specs.Table.{Table};
ghost use Rattle.gob_read.specs.Calls.UnderWay.{HasReadBody, HasEnded, FitsTable, PushGives, PushStops};
ghost use Rattle.gob_read.specs.Calls.UnderWay.{PushStopsHonestly};
ghost use Rattle.gob_read.specs.Calls.UpToNil.{NoNilBegun, ReachedGives, IsBeforeNil, IsBeforeNilIn, HasRoom};
ghost use Rattle.gob_read.specs.Calls.UpToNil.{IsNilDepth};
ghost use Rattle.gob_read.specs.Machine.Nil.{IsNoInterface};

use crate::builder::Builder;
use crate::next::Moved;
use crate::reader::{BodyReader, Progress};
use crate::stop::Stop;
use crate::to_nil::Came;
use gob_types::Shapes;
use std::alloc::Global;

/// How far a push came that stops before the numbers of interfaces.
#[derive(Drop)]
pub enum Reached<O: Drop> {
    /// The whole piece was taken, and the body goes on behind it.
    More,
    /// The number of an interface comes next: 0 where it is nil, or where its value is left out.
    Nil {
        /// How many bytes of the piece were taken.
        used: usize,
    },
    /// The value is whole, and the announced length ends with it.
    Done {
        /// What the builder made of the value.
        out: O,
        /// How many bytes of the piece were taken.
        used: usize,
    },
}

impl<B: Builder> BodyReader<B> {
    /// Announces anew how many bytes are left of the body, behind those that were taken.
    pub fn announce(&mut self, left: u64)
        ensures read { (T : Table) (t : TypeId) (limit announced : ℕ) (z : List ℕ) → length z + left < 2 ^ 64
            → HasReadBody B.building T t limit announced self.old z
            → HasReadBody B.building T t limit (length z + left) self.new z }
        ensures room { (T : Table) (t : TypeId) (limit announced : ℕ) (z : List ℕ) → length z + left < 2 ^ 64 → 0 < left
            → HasReadBody B.building T t limit announced self.old z → HasRoom B.building T self.new }
        ensures clear { (T : Table) → NoNilBegun T self.old → NoNilBegun T self.new }
        ensures at_nil { (T : Table) → IsBeforeNil T self.old → IsBeforeNil T self.new }
        ensures ended { HasEnded self.old → HasEnded self.new }
    {
        if let Some(run) = &mut self.run {
            run.length = run.taken.saturating_add(left);
        }
    }

    /// Reads the next piece as [`push`](BodyReader::push) does, but for the numbers of interfaces: it stops before one,
    /// which is left to [`fill`](BodyReader::fill), so that no interface is refused. It may go past nils among elements
    /// that the builder needn't be told of.
    pub fn push_to_nil<S: Shapes>(
        &mut self,
        _alloc: Global,
        shapes: &S,
        piece: &[u8],
    ) -> Result<Reached<B::Out>, Stop>
        requires fits { FitsTable B.building (S.table shapes.now) self.old }
        requires clear { NoNilBegun (S.table shapes.now) self.old }
        ensures given { IfOk result (ReachedGives B.building (S.table shapes.now) self.old self.new piece.now) }
        ensures refused { IfErr result (PushStops B.building (S.table shapes.now) self.old piece.now) }
        ensures honest { IfErr result (PushStopsHonestly B.building (S.table shapes.now) self.old piece.now) }
        ensures no_interface { IfErr result IsNoInterface }
        ensures at_nil { IfOk result (λ prefix. IsBeforeNilIn (S.table shapes.now) self.new prefix) }
        ensures clear { NoNilBegun (S.table shapes.now) self.new }
        ensures failed { HasEnded self.old → result ≡ Err Stop.Failed }
        ensures ended { OnErr result (HasEnded self.new) }
    {
        let Some(mut run) = self.run.take() else {
            return Err(Stop::Failed);
        };
        run.state.begin(shapes);
        let room = run.length - run.taken;
        let count = room.min(piece.len() as u64) as usize;
        match run.take_to_nil(shapes, &piece[..count]) {
            Ok(Came::ToEnd) => {
                self.run = Some(run);
                Ok(Reached::More)
            }
            Ok(Came::ToNil { used }) => {
                self.run = Some(run);
                Ok(Reached::Nil { used })
            }
            Ok(Came::PastValue { used }) => {
                let builder = run.into_builder();
                Ok(Reached::Done {
                    out: builder.take(),
                    used,
                })
            }
            Err(stop) => Err(stop),
        }
    }

    /// The depth of the interface whose number comes next. A value in it is one deeper.
    pub fn depth_of_nil(&self) -> u64
        ensures { (T : Table) → IsBeforeNil T self.now → IsNilDepth B.building T self.now result }
    {
        match &self.run {
            Some(run) => run.depth_now(),
            None => 0,
        }
    }

    /// Takes the number 0 of the interface that comes next, which is nil, or whose value is left out. It is a push of
    /// this one byte.
    pub fn fill<S: Shapes>(&mut self, _alloc: Global, shapes: &S) -> Result<Progress<B::Out>, Stop>
        requires fits { FitsTable B.building (S.table shapes.now) self.old }
        requires clear { NoNilBegun (S.table shapes.now) self.old }
        requires at_nil { IsBeforeNil (S.table shapes.now) self.old }
        requires room { HasRoom B.building (S.table shapes.now) self.old }
        ensures given { IfOk result (PushGives B.building (S.table shapes.now) self.old self.new (0 ∷ [])) }
        ensures refused { IfErr result (PushStops B.building (S.table shapes.now) self.old (0 ∷ [])) }
        ensures clear { NoNilBegun (S.table shapes.now) self.new }
        ensures ended { OnErr result (HasEnded self.new) }
    {
        let Some(mut run) = self.run.take() else {
            return Err(Stop::Failed);
        };
        match run.take_nil(shapes) {
            Ok(advance) => match advance.moved {
                Moved::ToNext => {
                    self.run = Some(run);
                    Ok(Progress::More)
                }
                Moved::PastValue => {
                    let builder = run.into_builder();
                    Ok(Progress::Done {
                        out: builder.take(),
                        used: advance.used,
                    })
                }
            },
            Err(stop) => Err(stop),
        }
    }
}
