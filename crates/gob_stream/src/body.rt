//! What follows the type number of a body: a value, or the description of a type.

ghost use Rattle.std.specs.Prelude.{◌≡◌, ℕ, List, []};
ghost use Rattle.gob_types.specs.Base.{base_table, wire_type};
ghost use Rattle.gob_types.specs.Defined.{types, Admits};
ghost use Rattle.gob_value.specs.View.{view};
ghost use Rattle.gob_value.specs.Fits.{Fits};
ghost use Rattle.gob_read.specs.Calls.Reader.{ReaderHasRead};
ghost use Rattle.gob_read.specs.Calls.Builders.{tree_building};
ghost use Rattle.gob_stream.specs.Machine.HasRead.{size};
ghost use Rattle.gob_stream.specs.Machine.ReadParts.{IsBodyUnderWay, ReadsValueIn, ReadsDescription, StopsWithin};
ghost use Rattle.gob_stream.specs.Machine.ReadParts.{fault_behind, DefineAnswers, HasWireType};
ghost use Rattle.gob_read.specs.Calls.UnderWay.{under_way};

use crate::count::{CountStage, refusal};
use crate::denial::define_admitted;
use crate::fault::Fault;
use crate::item::Item;
use crate::stage::{Around, Extent, Stage, Stepped};
use gob_read::{BodyReader, Builder, Progress, Stop, TreeBuilder};
use gob_types::{Denial, Table, TypeId};
use gob_value::{Value, shape_from};
use std::alloc::Global;

/// How far into a value a reader is.
#[derive(Drop)]
pub(crate) struct ValueStage<B: Builder> {
    /// The id of its type.
    pub(crate) id: TypeId,
    /// The body behind the type number.
    pub(crate) rest: Extent,
    /// What reads it.
    pub(crate) reader: BodyReader<B>,
}

/// How far into a description a reader is.
#[derive(Drop)]
pub(crate) struct DescriptionStage {
    /// The id that is defined.
    pub(crate) id: TypeId,
    /// The body behind the type number.
    pub(crate) rest: Extent,
    /// What reads it.
    pub(crate) reader: BodyReader<TreeBuilder>,
}

impl<B: Builder> ValueStage<B> {
    /// Takes bytes of the value from the front of the piece.
    pub(crate) fn take(
        self,
        around: &Around,
        table: &Table,
        piece: &[u8],
    ) -> Result<Stepped<B>, Fault>
        requires { IsBodyUnderWay (types table.now) self.id self.rest B.building self.reader }
        ensures { (limit : ℕ) (z : List ℕ)
            → ReaderHasRead (types table.now) self.id limit (size self.rest) B.building.received
            (under_way self.reader) z
            → ReadsValueIn B.building (types table.now) self.id limit self.rest z piece.now result }
    {
        let ValueStage {
            id,
            rest,
            mut reader,
        } = self;
        match reader.push(around.alloc, table, piece) {
            Ok(Progress::More) => Ok(Stepped {
                used: piece.len(),
                stage: Stage::Value(ValueStage { id, rest, reader }),
                item: None,
            }),
            Ok(Progress::Done { out, used }) => Ok(Stepped {
                used,
                stage: next_count(rest),
                item: Some(Item::Put { id, value: out }),
            }),
            Err(stop) => Err(fault_of_stop(rest.begin, stop)),
        }
    }
}

impl DescriptionStage {
    /// Takes bytes of the description from the front of the piece, and where it is whole, defines the type.
    pub(crate) fn take<B: Builder>(
        self,
        around: &Around,
        table: &mut Table,
        piece: &[u8],
    ) -> Result<Stepped<B>, Fault>
        requires has_read { IsBodyUnderWay (types table.old) wire_type self.rest tree_building self.reader }
        requires admitted { Admits table.old self.id }
        requires keeps { HasWireType (types table.old) }
        ensures { (limit : ℕ) (z : List ℕ) → ReaderHasRead (types table.old) wire_type limit (size self.rest)
            tree_building.received (under_way self.reader) z
            → ReadsDescription table.old self.id limit self.rest z piece.now table.new result }
    {
        let DescriptionStage {
            id,
            rest,
            mut reader,
        } = self;
        match reader.push(around.alloc, table, piece) {
            Ok(Progress::More) => Ok(Stepped {
                used: piece.len(),
                stage: Stage::Description(DescriptionStage { id, rest, reader }),
                item: None,
            }),
            Ok(Progress::Done { out, used }) => match define(around.alloc, table, id, &out) {
                Ok(()) => Ok(Stepped {
                    used,
                    stage: next_count(rest),
                    item: Some(Item::Define { id, described: out }),
                }),
                Err(denial) => Err(Fault::of(denial, rest.begin, rest.end)),
            },
            Err(stop) => Err(fault_of_stop(rest.begin, stop)),
        }
    }
}

// The count of the item behind the body that ends there.
fn next_count<B: Builder>(rest: Extent) -> Stage<B>
    ensures { result ≡ Stage.Count (record { begin = rest.end; number = [] }) }
{
    Stage::Count(CountStage::new(rest.end))
}

// Defines the type as it is described.
fn define(alloc: Global, table: &mut Table, id: TypeId, described: &Value) -> Result<(), Denial>
    requires fits { Fits base_table wire_type (view described.now) }
    requires admitted { Admits table.old id }
    ensures { DefineAnswers id (view described.now) table.old table.new result }
{
    let shape = shape_from(alloc, id, described)?;
    define_admitted(alloc, table, id, shape)
}

// What stopped the reader of what begins at this offset of the stream.
fn fault_of_stop(begin: u64, stop: Stop) -> Fault
    requires { StopsWithin begin stop }
    ensures { result ≡ fault_behind begin stop }
{
    match stop {
        Stop::Refused {
            place,
            seen,
            reason,
        } => Fault::Refused(refusal(begin + place, begin + seen, reason)),
        Stop::Memory => Fault::Memory,
        Stop::Failed => Fault::Failed,
    }
}
