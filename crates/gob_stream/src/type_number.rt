//! The type number at which a body begins.

ghost use Rattle.std.specs.Prelude.{◌≡◌, ℕ, ◌+◌, ◌<◌, ◌≤◌, ◌++◌, List, length, pos, negsuc};
ghost use Rattle.gob_num.specs.Signed.{IsSigned};
ghost use Rattle.gob_num.specs.Unsigned.{IsUnsigned, IsUnsignedPrefix};
ghost use Rattle.gob_types.specs.Defined.{types};
ghost use Rattle.gob_stream.specs.Bounds.{greatest_stream, no_deeper};
ghost use Rattle.gob_stream.specs.Machine.HasRead.{IsCount, IsRest};
ghost use Rattle.gob_stream.specs.declared.stage.Extent.{Extent};
ghost use Rattle.gob_stream.specs.Machine.ReadParts.{AreTypes, GoesOnIn, HasBodyCount, StepsOn, StageTakesOn};

use crate::body::{DescriptionStage, ValueStage};
use crate::count::refusal;
use crate::denial::{judge_id, judge_type};
use crate::fault::Fault;
use crate::stage::{Around, Extent, Stage, Stepped};
use gob_num::{Number, Taken, to_signed};
use gob_read::{BodyReader, Builder};
use gob_types::{Reason, Table, TypeId};

/// How far into the type number of a body a reader is.
#[derive(Drop)]
pub(crate) struct TypeNumberStage {
    /// The body, with which the type number begins.
    pub(crate) body: Extent,
    /// The type number, as far as its bytes came.
    pub(crate) number: Number,
}

impl TypeNumberStage {
    /// Takes bytes of the type number from the front of the piece, and where it is whole, those of what follows it.
    pub(crate) fn take<B: Builder>(
        self,
        around: &Around,
        table: &mut Table,
        piece: &[u8],
    ) -> Result<Stepped<B>, Fault>
        requires known { AreTypes around.now.limits table.old }
        requires counted { HasBodyCount (no_deeper B.DEPTH around.now.limits) self.body }
        requires begin { self.body.begin + length self.number ≡ around.now.taken }
        requires room { around.now.taken < self.body.end }
        requires end { self.body.end ≤ greatest_stream }
        requires prefix { IsUnsignedPrefix self.number }
        requires some { 0 < length piece.now }
        ensures { let L = no_deeper B.DEPTH around.now.limits in (offset m : ℕ) (c : List ℕ)
            → IsCount L offset m c self.body
            → StageTakesOn B.building L table.old offset (c ++ self.number) piece.now 1 table.new result }
    {
        let TypeNumberStage { body, mut number } = self;
        let room = (body.end - around.taken).min(piece.len() as u64) as usize;
        match number.take(&piece[..room]) {
            Taken::More => prefix_of_type_number(body, around.taken, number, room),
            // The body goes on in this call, also where the piece ends here: if it has nothing behind its type number,
            // no further byte of the item comes, and it is refused with the last one of that number.
            Taken::Whole { number, used } => {
                let rest = Extent {
                    begin: around.taken + used as u64,
                    end: body.end,
                };
                match prefix_of_body(around, table, body.begin, rest, number, &piece[used..]) {
                    Ok(stepped) => Ok(Stepped {
                        used: used + stepped.used,
                        stage: stepped.stage,
                        item: stepped.item,
                    }),
                    Err(fault) => Err(fault),
                }
            }
            Taken::BadHead => Err(Fault::Refused(refusal(
                body.begin,
                body.begin + 1,
                Reason::BadHead,
            ))),
            Taken::NotMinimal => Err(Fault::Refused(refusal(
                body.begin,
                body.begin + 2,
                Reason::NotMinimal,
            ))),
        }
    }
}

// The first bytes of a type number, of which so many stand in the piece: it goes on where the body does.
fn prefix_of_type_number<B: Builder>(
    body: Extent,
    taken: u64,
    number: Number,
    used: usize,
) -> Result<Stepped<B>, Fault>
    requires within { taken + used ≤ body.end }
    requires end { body.end ≤ greatest_stream }
    ensures { GoesOnIn body (taken + used) number used result }
{
    if taken + used as u64 == body.end {
        return Err(Fault::Refused(refusal(body.end, body.end, Reason::Short)));
    }
    Ok(Stepped {
        used,
        stage: Stage::TypeNumber(TypeNumberStage { body, number }),
        item: None,
    })
}

// Takes the first bytes of what follows the type number, which stands at the place.
fn prefix_of_body<B: Builder>(
    around: &Around,
    table: &mut Table,
    place: u64,
    rest: Extent,
    number: u64,
    piece: &[u8],
) -> Result<Stepped<B>, Fault>
    requires known { AreTypes around.now.limits table.old }
    requires order { rest.begin ≤ rest.end }
    requires end { rest.end ≤ greatest_stream }
    ensures { let L = no_deeper B.DEPTH around.now.limits in (offset m : ℕ) (c a : List ℕ) (body : Extent)
        → IsCount L offset m c body → body.begin ≡ place → IsUnsigned number a → IsRest body a rest
        → StepsOn B.building L table.old offset (c ++ a) piece.now table.new result }
{
    let number = to_signed(number);
    let id = TypeId(number.unsigned_abs());
    if number < 0 {
        return prefix_of_description(around, table, place, rest, id, piece);
    }
    prefix_of_value(around, table, place, rest, id, piece)
}

// Takes the first bytes of the description of the type whose number stands at the place.
fn prefix_of_description<B: Builder>(
    around: &Around,
    table: &mut Table,
    place: u64,
    rest: Extent,
    id: TypeId,
    piece: &[u8],
) -> Result<Stepped<B>, Fault>
    requires known { AreTypes around.now.limits table.old }
    requires order { rest.begin ≤ rest.end }
    ensures { let L = no_deeper B.DEPTH around.now.limits in (offset m n : ℕ) (c a : List ℕ) (body : Extent)
        → IsCount L offset m c body → body.begin ≡ place
        → id.0 ≡ n + 1 → IsSigned (negsuc n) a → IsRest body a rest
        → StepsOn B.building L table.old offset (c ++ a) piece.now table.new result }
{
    if let Err(reason) = judge_id(table, id) {
        return Err(Fault::Refused(refusal(place, rest.begin, reason)));
    }
    let depth = around.limits.depth();
    let depth = depth.min(B::DEPTH);
    match BodyReader::new(
        around.alloc,
        TypeId::WIRE_TYPE,
        rest.end - rest.begin,
        depth,
    ) {
        Ok(reader) => DescriptionStage { id, rest, reader }.take(around, table, piece),
        Err(_) => Err(Fault::Memory),
    }
}

// Takes the first bytes of a value of the type whose number stands at the place.
fn prefix_of_value<B: Builder>(
    around: &Around,
    table: &Table,
    place: u64,
    rest: Extent,
    id: TypeId,
    piece: &[u8],
) -> Result<Stepped<B>, Fault>
    requires { rest.begin ≤ rest.end }
    ensures { let L = no_deeper B.DEPTH around.now.limits in (offset m : ℕ) (c a : List ℕ) (body : Extent)
        → IsCount L offset m c body → body.begin ≡ place
        → IsSigned (pos id.0) a → IsRest body a rest
        → StepsOn B.building L table.now offset (c ++ a) piece.now table.now result }
{
    if let Err(denial) = judge_type(around.alloc, table, id) {
        return Err(Fault::of(denial, place, rest.begin));
    }
    match BodyReader::new(
        around.alloc,
        id,
        rest.end - rest.begin,
        around.limits.depth(),
    ) {
        Ok(reader) => ValueStage { id, rest, reader }.take(around, table, piece),
        Err(_) => Err(Fault::Memory),
    }
}
