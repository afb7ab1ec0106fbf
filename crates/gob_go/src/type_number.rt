//! The type number at which the body of an item begins.

ghost use Rattle.std.specs.Prelude.{◌≡◌, ℕ, ◌≤◌, ◌<◌, ◌++◌, [], List, length};
ghost use Rattle.gob_stream.specs.Bounds.{within_trees};
ghost use Rattle.gob_go.specs.Machine.Stages.{IsWithinItem, StageAnswers, IsAtBody, BodySteps, IsNumberOf};
ghost use Rattle.gob_go.specs.Machine.Stages.{negative, positive};
ghost use Rattle.gob_num.specs.Unsigned.{IsUnsigned};
ghost use Rattle.gob_go.specs.declared.stage.Stage.TheVariants as stage;

use crate::around::Around;
use crate::definition::behind_description;
use crate::description::DescriptionStage;
use crate::levels::Levels;
use crate::number::{NumberStage, NumberTaken};
use crate::put::behind_part;
use crate::stage::{Stage, Stepped};
use gob_num::to_signed;
use gob_stream::{Extent, Fault, judge_type};
use gob_types::{Table, TypeId};

/// How far into the type number of a body a reader is.
#[derive(Drop)]
pub(crate) struct TypeNumberStage {
    /// The type number, in the body.
    pub(crate) number: NumberStage,
}

impl TypeNumberStage {
    /// Before the first byte of the body.
    pub(crate) fn new(body: Extent) -> TypeNumberStage
        ensures { result.number ≡ record { rest = body; number = [] } }
    {
        TypeNumberStage {
            number: NumberStage::within(body.begin, body.end),
        }
    }

    /// Takes bytes of the type number from the front of the piece, and where it is whole, those of what follows it.
    pub(crate) fn take(
        self,
        around: &Around,
        table: &mut Table,
        piece: &[u8],
    ) -> Result<Stepped, Fault>
        requires has_read { IsWithinItem around.now.keeps (within_trees around.now.limits) table.old around.now.taken
            (stage.TypeNumber self) }
        ensures { StageAnswers around.now.keeps (within_trees around.now.limits) table.old table.new
            (stage.TypeNumber self) piece.now result }
    {
        let TypeNumberStage { mut number } = self;
        // its contract says that no stream is so long that the sum wraps
        let _most = around.limits.stream();
        match number.take(around, piece)? {
            NumberTaken::More => Ok(Stepped::more(
                piece.len(),
                Stage::TypeNumber(TypeNumberStage { number }),
            )),
            NumberTaken::Whole {
                number: whole,
                used,
            } => {
                let behind = around.behind(used);
                let stepped = begin_body(&behind, table, number.rest, whole, &piece[used..])?;
                Ok(stepped.behind(used))
            }
        }
    }
}

// Takes the first bytes of what follows the number at which the body begins.
fn begin_body(
    around: &Around,
    table: &mut Table,
    body: Extent,
    number: u64,
    piece: &[u8],
) -> Result<Stepped, Fault>
    requires { IsAtBody (within_trees around.now.limits) table.old around.now.taken body (IsUnsigned number) }
    ensures { BodySteps around.now.keeps (within_trees around.now.limits) table.old table.new around.now.taken body
        (IsUnsigned number) piece.now result }
{
    let signed = to_signed(number);
    let id = TypeId(signed.unsigned_abs());
    if signed < 0 {
        return begin_definition(around, table, body, id, piece);
    }
    begin_put(around, table, body, id, piece)
}

// Takes the first bytes of the description of the type, whose number begins the body.
fn begin_definition(
    around: &Around,
    table: &mut Table,
    body: Extent,
    id: TypeId,
    piece: &[u8],
) -> Result<Stepped, Fault>
    requires { IsAtBody (within_trees around.now.limits) table.old around.now.taken body (IsNumberOf negative id) }
    ensures { BodySteps around.now.keeps (within_trees around.now.limits) table.old table.new around.now.taken body
        (IsNumberOf negative id) piece.now result }
{
    // its contract says that no stream is so long that the sum wraps
    let _most = around.limits.stream();
    let description = DescriptionStage::begin(around, table, body.begin, body.end, id)?;
    let described = description.take(around, table, piece)?;
    Ok(behind_description(around, piece, described))
}

// Takes the first bytes of a value of the type, whose number begins the body.
fn begin_put(
    around: &Around,
    table: &mut Table,
    body: Extent,
    id: TypeId,
    piece: &[u8],
) -> Result<Stepped, Fault>
    requires { IsAtBody (within_trees around.now.limits) table.old around.now.taken body (IsNumberOf positive id) }
    ensures { BodySteps around.now.keeps (within_trees around.now.limits) table.old table.new around.now.taken body
        (IsNumberOf positive id) piece.now result }
{
    // its contract says that no stream is so long that the sum wraps
    let _most = around.limits.stream();
    if let Err(denial) = judge_type(around.alloc, table, id) {
        return Err(Fault::of(denial, body.begin, around.taken));
    }
    let left = around.limits.item() - (body.end - body.begin);
    let mut levels = Levels::new(around, id, body.end, left)?;
    let taken = levels.take_value(around, table, piece)?;
    Ok(behind_part(levels, around, taken))
}
