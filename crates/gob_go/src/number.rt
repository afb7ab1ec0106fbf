//! Numbers that stand in a segment.

ghost use Rattle.std.specs.Prelude.{◌≡◌, ◌+◌, ◌<◌, ◌≤◌, ◌^◌, ◌-◌, [], ◌++◌, length, min};
ghost use Rattle.gob_num.specs.Unsigned.{IsUnsignedPrefix};
ghost use Rattle.gob_stream.specs.Refusing.{refuses};
ghost use Rattle.gob_stream.specs.declared.fault.Fault.TheVariants as fault;
ghost use Rattle.gob_go.specs.Machine.HasRead.{no_end};
ghost use Rattle.gob_go.specs.Machine.Parts.{NumberAnswers};

use crate::around::Around;
use gob_num::{Number, Taken};
use gob_stream::{Extent, Fault, refusal};
use gob_types::Reason;

/// How far into a number a reader is.
#[derive(Drop)]
pub(crate) struct NumberStage {
    /// The segment from the first byte of the number on. It ends nowhere for a count that stands in none.
    pub(crate) rest: Extent,
    /// The number, as far as its bytes came.
    pub(crate) number: Number,
}

/// What became of the front of a piece.
#[derive(Clone, Copy)]
pub(crate) enum NumberTaken {
    /// The whole piece was taken, and the number goes on.
    More,
    /// The number is whole.
    Whole {
        /// The number.
        number: u64,
        /// How many bytes of the piece were taken.
        used: usize,
    },
}

impl NumberStage {
    /// Before the first byte of the number that begins there, in a segment that ends there.
    pub(crate) fn within(begin: u64, end: u64) -> NumberStage
        ensures { result ≡ record { rest = record { begin = begin; end = end }; number = [] } }
    {
        NumberStage {
            rest: Extent { begin, end },
            number: Number::new(),
        }
    }

    /// Before the first byte of a count that stands in no segment.
    pub(crate) fn of_count(begin: u64) -> NumberStage
        ensures { result ≡ record { rest = record { begin = begin; end = no_end }; number = [] } }
    {
        NumberStage::within(begin, u64::MAX)
    }

    /// Takes bytes of the number from the front of the piece.
    pub(crate) fn take(&mut self, around: &Around, piece: &[u8]) -> Result<NumberTaken, Fault>
        requires taken { around.now.taken ≡ self.old.rest.begin + length self.old.number }
        requires room { around.now.taken < self.old.rest.end }
        requires prefix { IsUnsignedPrefix self.old.number }
        ensures answers { NumberAnswers self.old self.new piece.now result }
        ensures rest { self.new.rest ≡ self.old.rest }
    {
        let Extent { begin, end } = self.rest;
        let room = around.room(end, piece);
        match self.number.take(&piece[..room]) {
            Taken::More => {
                around.behind(room).goes_on(end)?;
                Ok(NumberTaken::More)
            }
            Taken::Whole { number, used } => Ok(NumberTaken::Whole { number, used }),
            Taken::BadHead => Err(refused(begin, 1, Reason::BadHead)),
            Taken::NotMinimal => Err(refused(begin, 2, Reason::NotMinimal)),
        }
    }
}

// The fault at a number, which so many bytes of it show.
fn refused(begin: u64, shown: u64, reason: Reason) -> Fault
    requires { begin + shown < 2 ^ 64 }
    ensures { result ≡ fault.Refused (refuses begin (begin + shown) reason) }
{
    Fault::Refused(refusal(begin, begin + shown, reason))
}
