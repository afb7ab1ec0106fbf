//! How far into an item a reader is.

ghost use Rattle.std.specs.Prelude.{◌≡◌, ◌<◌, length};
ghost use Rattle.gob_stream.specs.Bounds.{no_deeper};
ghost use Rattle.gob_stream.specs.Machine.ReadParts.{IsWithinItem, StageAnswers};

use crate::body::{DescriptionStage, ValueStage};
use crate::count::CountStage;
use crate::fault::Fault;
use crate::item::Item;
use crate::limits::Limits;
use crate::type_number::TypeNumberStage;
use gob_read::Builder;
use gob_types::Table;
use std::alloc::Global;

/// A part of the stream, by the offsets of its first byte and of what follows it.
#[derive(Clone, Copy)]
pub struct Extent {
    /// Where it begins.
    pub begin: u64,
    /// Where it ends.
    pub end: u64,
}

/// What a step is taken in. The types of the stream aren't part of it, since a step adds to them.
#[derive(Clone, Copy)]
pub(crate) struct Around {
    /// Where memory comes from.
    pub(crate) alloc: Global,
    /// The limits of the stream.
    pub(crate) limits: Limits,
    /// How many bytes of the stream were taken.
    pub(crate) taken: u64,
}

/// What a reader of items expects.
#[derive(Drop)]
pub(crate) enum Stage<B: Builder> {
    /// The count of an item.
    Count(CountStage),
    /// The type number.
    TypeNumber(TypeNumberStage),
    /// A value.
    Value(ValueStage<B>),
    /// A description.
    Description(DescriptionStage),
    /// Nothing more, since there was a fault.
    Failed,
}

/// What became of the front of a piece.
#[derive(Drop)]
pub(crate) struct Stepped<B: Builder> {
    /// How many bytes of the piece were taken.
    pub(crate) used: usize,
    /// What is expected behind them.
    pub(crate) stage: Stage<B>,
    /// The item that is whole with them.
    pub(crate) item: Option<Item<B::Out>>,
}

impl<B: Builder> Stage<B> {
    /// Takes some bytes of what is expected from the front of the piece.
    pub(crate) fn take(
        self,
        around: &Around,
        table: &mut Table,
        piece: &[u8],
    ) -> Result<Stepped<B>, Fault>
        requires has_read { IsWithinItem B.building (no_deeper B.DEPTH around.now.limits)
            table.old around.now.taken self }
        requires some { 0 < length piece.now }
        ensures { StageAnswers B.building (no_deeper B.DEPTH around.now.limits) table.old around.now.taken self
            piece.now table.new result }
    {
        // its contract says that an offset up to the limit, and a count behind it, don't wrap
        let _most = around.limits.stream();
        match self {
            Stage::Count(count) => count.take(around, piece),
            Stage::TypeNumber(type_number) => type_number.take(around, table, piece),
            Stage::Value(value) => value.take(around, table, piece),
            Stage::Description(description) => description.take(around, table, piece),
            // behind a fault nothing is read
            Stage::Failed => unreachable!(),
        }
    }
}
