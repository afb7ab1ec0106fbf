//! What stands behind the name in an interface: definitions, and the concrete type.

ghost use Rattle.std.specs.Prelude.{◌≡◌, ◌+◌, ◌<◌, ◌≤◌, [], length};
ghost use Rattle.gob_stream.specs.Bounds.{within_trees};
ghost use Rattle.gob_go.specs.Machine.Held.{IsBehindNumber, HeldNumberSteps};
ghost use Rattle.gob_go.specs.Machine.Stages.{IsInPut, PartAnswers, IsNumberOf, negative};
ghost use Rattle.gob_num.specs.Unsigned.{IsUnsigned};
ghost use Rattle.gob_types.specs.Defined.{types};
ghost use Rattle.gob_go.specs.Machine.HasRead.{no_end};
ghost use Rattle.gob_go.specs.Machine.Parts.{ConcreteType, HeldBehind, used_of_described, end_around};
ghost use Rattle.gob_go.specs.declared.part.PutPart.TheVariants as part;

use crate::around::Around;
use crate::description::{Described, DescriptionStage};
use crate::inner_count::InnerCount;
use crate::levels::Levels;
use crate::next_count::NextCount;
use crate::number::{NumberStage, NumberTaken};
use crate::part::{PartTaken, PutPart};
use gob_num::to_signed;
use gob_stream::{Extent, Fault, judge_type};
use gob_types::{Table, TypeId};

/// How far into the number behind a name a reader is, or behind a definition there.
#[derive(Drop)]
pub(crate) struct HeldTypeNumber {
    /// The number.
    pub(crate) number: NumberStage,
}

/// How far into a description in front of the concrete type a reader is.
#[derive(Drop)]
pub(crate) struct HeldDescription {
    /// The description.
    pub(crate) description: DescriptionStage,
}

impl HeldTypeNumber {
    /// Before the number that begins behind the bytes taken, in a segment that ends there.
    pub(crate) fn new(around: &Around, end: u64) -> HeldTypeNumber
        ensures { result.number ≡ record { rest = record { begin = around.now.taken; end = end }; number = [] } }
    {
        HeldTypeNumber {
            number: NumberStage::within(around.taken, end),
        }
    }

    /// Takes bytes of the number from the front of the piece, and where it is whole and below 0, those of the
    /// description behind it.
    pub(crate) fn take(
        self,
        levels: &mut Levels,
        around: &Around,
        table: &mut Table,
        piece: &[u8],
    ) -> Result<PartTaken, Fault>
        requires has_read { IsInPut around.now.keeps (within_trees around.now.limits) table.old around.now.taken
            levels.old (part.TypeNumber self) }
        ensures { PartAnswers around.now.keeps (within_trees around.now.limits) table.old table.new levels.old
            levels.new (part.TypeNumber self) piece.now result }
    {
        let HeldTypeNumber { mut number } = self;
        // its contract says that no stream is so long that the sum wraps
        let _most = around.limits.stream();
        match number.take(around, piece)? {
            NumberTaken::More => Ok(PartTaken::more(
                piece.len(),
                PutPart::TypeNumber(HeldTypeNumber { number }),
            )),
            NumberTaken::Whole {
                number: whole,
                used,
            } => {
                let behind = around.behind(used);
                let taken = begin_held(levels, &behind, table, number.rest, whole, &piece[used..])?;
                Ok(taken.behind(used))
            }
        }
    }
}

// Takes the first bytes of what follows the number behind a name. The extent begins with the number.
fn begin_held(
    levels: &mut Levels,
    around: &Around,
    table: &mut Table,
    rest: Extent,
    number: u64,
    piece: &[u8],
) -> Result<PartTaken, Fault>
    requires { IsBehindNumber around.now.keeps (within_trees around.now.limits) table.old around.now.taken
        levels.old rest (IsUnsigned number) }
    ensures { HeldNumberSteps around.now.keeps (within_trees around.now.limits) table.old table.new around.now.taken
        levels.old levels.new rest (IsUnsigned number) piece.now result }
{
    let signed = to_signed(number);
    let id = TypeId(signed.unsigned_abs());
    if signed < 0 {
        return begin_definition(levels, around, table, rest, id, piece);
    }
    let count = concrete_type(around, table, rest.begin, rest.end, id)?;
    Ok(PartTaken::more(0, PutPart::InnerCount(count)))
}

// Takes the first bytes of the description of the type, whose number begins the extent.
fn begin_definition(
    levels: &mut Levels,
    around: &Around,
    table: &mut Table,
    rest: Extent,
    id: TypeId,
    piece: &[u8],
) -> Result<PartTaken, Fault>
    requires { IsBehindNumber around.now.keeps (within_trees around.now.limits) table.old around.now.taken
        levels.old rest (IsNumberOf negative id) }
    ensures { HeldNumberSteps around.now.keeps (within_trees around.now.limits) table.old table.new around.now.taken
        levels.old levels.new rest (IsNumberOf negative id) piece.now result }
{
    // its contract says that no stream is so long that a count ends its numbers
    let _most = around.limits.stream();
    let description = DescriptionStage::begin(around, table, rest.begin, rest.end, id)?;
    let described = description.take(around, table, piece)?;
    behind_held(levels, around, piece, described)
}

// The count of a value of the concrete type, whose number stands at the place.
fn concrete_type(
    around: &Around,
    table: &Table,
    place: u64,
    end: u64,
    id: TypeId,
) -> Result<InnerCount, Fault>
    requires { around.now.taken ≤ end }
    ensures { ConcreteType (types table.now) place around.now.taken end id result }
{
    if let Err(denial) = judge_type(around.alloc, table, id) {
        return Err(Fault::of(denial, place, around.taken));
    }
    around.goes_on(end)?;
    Ok(InnerCount {
        id,
        number: NumberStage::within(around.taken, end),
    })
}

impl HeldDescription {
    /// Takes bytes of the description from the front of the piece, and where it is whole, defines the type.
    pub(crate) fn take(
        self,
        levels: &mut Levels,
        around: &Around,
        table: &mut Table,
        piece: &[u8],
    ) -> Result<PartTaken, Fault>
        requires has_read { IsInPut around.now.keeps (within_trees around.now.limits) table.old around.now.taken
            levels.old (part.Description self) }
        ensures { PartAnswers around.now.keeps (within_trees around.now.limits) table.old table.new levels.old
            levels.new (part.Description self) piece.now result }
    {
        // its contract says that no stream is so long that a count ends its numbers
        let _most = around.limits.stream();
        let described = self.description.take(around, table, piece)?;
        behind_held(levels, around, piece, described)
    }
}

// What comes next behind what was taken of the description: more of it, or the count of the next segment.
fn behind_held(
    levels: &mut Levels,
    around: &Around,
    piece: &[u8],
    described: Described,
) -> Result<PartTaken, Fault>
    requires fits { around.now.taken + used_of_described described < no_end }
    requires order { around.now.taken + used_of_described described ≤ end_around levels.old }
    ensures { HeldBehind levels.old levels.new around.now.taken (length piece.now) described result }
{
    match described {
        Described::More(description) => Ok(PartTaken::more(
            piece.len(),
            PutPart::Description(HeldDescription { description }),
        )),
        Described::Whole { definition, used } => {
            let definitions = &mut levels.innermost.held.definitions;
            if definitions.push(definition).is_err() {
                return Err(Fault::Memory);
            }
            let count = NextCount::new(&around.behind(used), levels)?;
            Ok(PartTaken::more(used, PutPart::NextCount(count)))
        }
    }
}
