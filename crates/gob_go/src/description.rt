//! Descriptions of types, in an item or in front of a value that an interface holds.

ghost use Rattle.std.specs.Prelude.{◌≡◌, ℕ, ◌+◌, ◌-◌, ◌≤◌, List, [], IfOk, MatchResult};
ghost use Rattle.gob_types.specs.Base.{base_table, wire_type};
ghost use Rattle.gob_types.specs.Defined.{types, Admits};
ghost use Rattle.gob_value.specs.View.{view};
ghost use Rattle.gob_value.specs.Fits.{Fits};
ghost use Rattle.gob_read.specs.Calls.Reader.{ReaderHasRead};
ghost use Rattle.gob_read.specs.Calls.Builders.{tree_building};
ghost use Rattle.gob_read.specs.Calls.UnderWay.{under_way};
ghost use Rattle.gob_stream.specs.Bounds.{within_trees};
ghost use Rattle.gob_stream.specs.Machine.HasRead.{size};
ghost use Rattle.gob_stream.specs.Machine.ReadParts.{IsBodyUnderWay, StopsWithin, fault_behind, HasWireType, AreTypes};
ghost use Rattle.gob_go.specs.Machine.Parts.{DefineAnswers, ReadsDescription, BeginsDescription};

use crate::around::Around;
use crate::filled::Definition;
use gob_read::{BodyReader, Progress, Stop, TreeBuilder};
use gob_stream::{Extent, Fault, define_admitted, judge_id, refusal};
use gob_types::{Denial, Table, TypeId};
use gob_value::{Value, shape_from_loosely};
use std::alloc::Global;

/// How far into a description a reader is.
#[derive(Drop)]
pub(crate) struct DescriptionStage {
    /// The id that is defined.
    pub(crate) id: TypeId,
    /// The segment behind the type number.
    pub(crate) rest: Extent,
    /// What reads it.
    pub(crate) reader: BodyReader<TreeBuilder>,
}

/// What became of the front of a piece.
#[derive(Drop)]
pub(crate) enum Described {
    /// The whole piece was taken, and the description goes on.
    More(DescriptionStage),
    /// The type is defined, and its segment ends.
    Whole {
        /// What was defined.
        definition: Definition,
        /// How many bytes of the piece were taken.
        used: usize,
    },
}

impl DescriptionStage {
    /// Before the description of the type, whose number stands at the place.
    pub(crate) fn begin(
        around: &Around,
        table: &Table,
        place: u64,
        end: u64,
        id: TypeId,
    ) -> Result<DescriptionStage, Fault>
        requires known { AreTypes (within_trees around.now.limits) table.now }
        requires order { around.now.taken ≤ end }
        ensures { BeginsDescription (within_trees around.now.limits) table.now place around.now.taken end id result }
    {
        let begin = around.taken;
        if let Err(reason) = judge_id(table, id) {
            return Err(Fault::Refused(refusal(place, begin, reason)));
        }
        let depth = around.depth();
        match BodyReader::new(around.alloc, TypeId::WIRE_TYPE, end - begin, depth) {
            Ok(reader) => Ok(DescriptionStage {
                id,
                rest: Extent { begin, end },
                reader,
            }),
            Err(_) => Err(Fault::Memory),
        }
    }

    /// Takes bytes of the description from the front of the piece, and where it is whole, defines the type.
    pub(crate) fn take(
        self,
        around: &Around,
        table: &mut Table,
        piece: &[u8],
    ) -> Result<Described, Fault>
        requires has_read { IsBodyUnderWay (types table.old) wire_type self.rest tree_building self.reader }
        requires admitted { Admits table.old self.id }
        requires keeps { HasWireType (types table.old) }
        ensures { (limit : ℕ) (z : List ℕ) → ReaderHasRead (types table.old) wire_type limit (size self.rest)
            tree_building.received (under_way self.reader) z
            → ReadsDescription table.old self.id limit self.rest z piece.now table.new result }
    {
        let DescriptionStage {
            id,
            rest,
            mut reader,
        } = self;
        match reader.push(around.alloc, table, piece) {
            Ok(Progress::More) => Ok(Described::More(DescriptionStage { id, rest, reader })),
            Ok(Progress::Done { out, used }) => match define(around.alloc, table, id, &out) {
                Ok(()) => Ok(Described::Whole {
                    definition: Definition { id, described: out },
                    used,
                }),
                Err(denial) => Err(Fault::of(denial, rest.begin, rest.end)),
            },
            Err(stop) => Err(fault_of_stop(rest.begin, stop)),
        }
    }
}

// Defines the type as it is described.
fn define(alloc: Global, table: &mut Table, id: TypeId, described: &Value) -> Result<(), Denial>
    requires fits { Fits base_table wire_type (view described.now) }
    requires admitted { Admits table.old id }
    ensures { DefineAnswers id (view described.now) table.old table.new result }
{
    let shape = shape_from_loosely(alloc, id, described)?;
    define_admitted(alloc, table, id, shape)
}

/// What stopped the reader of what begins at this offset of the stream.
pub(crate) fn fault_of_stop(begin: u64, stop: Stop) -> Fault
    requires { StopsWithin begin stop }
    ensures { result ≡ fault_behind begin stop }
{
    match stop {
        Stop::Refused {
            place,
            seen,
            reason,
        } => Fault::Refused(refusal(begin + place, begin + seen, reason)),
        Stop::Memory => Fault::Memory,
        Stop::Failed => Fault::Failed,
    }
}
