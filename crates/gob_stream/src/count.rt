//! The count at which an item begins.

ghost use Rattle.std.specs.Prelude.{◌≡◌, ◌+◌, ◌≤◌, [], length};
ghost use Rattle.gob_num.specs.Unsigned.{IsUnsignedPrefix};
ghost use Rattle.gob_types.specs.declared.reason.Reason.TheVariants as reason;
ghost use Rattle.gob_stream.specs.Bounds.{greatest_stream};
ghost use Rattle.gob_stream.specs.Refusing.{refuses};
ghost use Rattle.gob_stream.specs.Machine.ReadParts.{CountAnswers, JudgesCount};
ghost use Rattle.gob_stream.specs.declared.fault.Fault.TheVariants as fault;

use crate::fault::{Fault, Refusal};
use crate::limits::Limits;
use crate::stage::{Around, Extent, Stage, Stepped};
use crate::type_number::TypeNumberStage;
use gob_num::{Number, Taken};
use gob_read::Builder;
use gob_types::Reason;

/// How far into the count of an item a reader is.
#[derive(Drop)]
pub(crate) struct CountStage {
    /// Where the item begins.
    pub(crate) begin: u64,
    /// The count, as far as its bytes came.
    pub(crate) number: Number,
}

impl CountStage {
    /// Before the first byte of the item that begins there.
    pub(crate) fn new(begin: u64) -> CountStage
        ensures { result ≡ record { begin = begin; number = [] } }
    {
        CountStage {
            begin,
            number: Number::new(),
        }
    }

    /// Takes bytes of the count from the front of the piece.
    pub(crate) fn take<B: Builder>(self, around: &Around, piece: &[u8]) -> Result<Stepped<B>, Fault>
        requires offset { self.begin ≤ greatest_stream }
        requires taken { around.now.taken ≡ self.begin + length self.number }
        requires prefix { IsUnsignedPrefix self.number }
        ensures { CountAnswers around.now.limits self.begin self.number piece.now result }
    {
        let CountStage { begin, mut number } = self;
        match number.take(piece) {
            Taken::More => Ok(Stepped {
                used: piece.len(),
                stage: Stage::Count(CountStage { begin, number }),
                item: None,
            }),
            Taken::Whole {
                number: count,
                used,
            } => match body_of(&around.limits, begin, around.taken + used as u64, count) {
                Ok(body) => Ok(Stepped {
                    used,
                    stage: Stage::TypeNumber(TypeNumberStage { body, number }),
                    item: None,
                }),
                Err(refusal) => Err(Fault::Refused(refusal)),
            },
            Taken::BadHead => Err(Fault::Refused(refusal(begin, begin + 1, Reason::BadHead))),
            Taken::NotMinimal => Err(Fault::Refused(refusal(begin, begin + 2, Reason::NotMinimal))),
        }
    }
}

/// The body of so many bytes behind the count from `begin` to `end`, where the limits allow the item.
pub fn body_of(limits: &Limits, begin: u64, end: u64, count: u64) -> Result<Extent, Refusal>
    ensures { JudgesCount limits.now begin end count result }
{
    let stream = limits.stream();
    if count > limits.item() {
        return Err(refusal(begin, end, Reason::ItemTooLong));
    }
    if end > stream || count > stream - end {
        return Err(refusal(begin, end, Reason::StreamTooLong));
    }
    if count == 0 {
        return Err(refusal(end, end, Reason::Short));
    }
    Ok(Extent {
        begin: end,
        end: end + count,
    })
}

/// A refusal of what stands at the place, shown by so many bytes of the stream.
pub fn refusal(place: u64, seen: u64, reason: Reason) -> Refusal
    ensures { result ≡ refuses place seen reason }
{
    Refusal {
        place,
        seen,
        reason,
    }
}

/// The fault of a stream whose bytes come to their end at this offset, where more were to come.
pub fn ended(offset: u64) -> Fault
    ensures { result ≡ fault.Refused (refuses offset offset reason.Ended) }
{
    Fault::Refused(refusal(offset, offset, Reason::Ended))
}
