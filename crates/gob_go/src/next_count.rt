//! The count of the segment behind a definition.

ghost use Rattle.std.specs.Prelude.{◌≡◌, ◌+◌, ◌^◌, ◌<◌, ◌≤◌, []};
ghost use Rattle.gob_stream.specs.Bounds.{within_trees};
ghost use Rattle.gob_go.specs.Machine.Stages.{IsInPut, IsInPutOfSome, PartAnswers};
ghost use Rattle.gob_types.specs.Defined.{Defined};
ghost use Rattle.gob_go.specs.Machine.Parts.{LiesWithin, ItemHasRoom, BeginsSegment, CountBegins, end_around};
ghost use Rattle.gob_go.specs.declared.part.PutPart.TheVariants as part;

use crate::around::Around;
use crate::held::HeldTypeNumber;
use crate::levels::Levels;
use crate::number::{NumberStage, NumberTaken};
use crate::part::{PartTaken, PutPart};
use gob_stream::{Fault, refusal};
use gob_types::Reason;

/// How far into the count of the innermost value's next segment a reader is.
#[derive(Drop)]
pub(crate) struct NextCount {
    /// The count, in the open segment of the value around, or in none for that of an item.
    pub(crate) number: NumberStage,
}

impl NextCount {
    /// Before the count, behind a definition.
    pub(crate) fn new(around: &Around, levels: &Levels) -> Result<NextCount, Fault>
        requires { around.now.taken ≤ end_around levels.now }
        ensures { CountBegins levels.now around.now.taken result }
    {
        let end = levels.end_around();
        around.goes_on(end)?;
        Ok(NextCount {
            number: NumberStage::within(around.taken, end),
        })
    }

    /// Takes bytes of the count from the front of the piece.
    pub(crate) fn take(
        self,
        levels: &mut Levels,
        around: &Around,
        piece: &[u8],
    ) -> Result<PartTaken, Fault>
        requires { IsInPutOfSome around.now.keeps (within_trees around.now.limits) around.now.taken levels.old
            (part.NextCount self) }
        ensures { (d : Defined)
            → IsInPut around.now.keeps (within_trees around.now.limits) d around.now.taken levels.old
            (part.NextCount self)
            → PartAnswers around.now.keeps (within_trees around.now.limits) d d levels.old levels.new
            (part.NextCount self) piece.now result }
    {
        let NextCount { mut number } = self;
        // its contract says that no stream is so long that a count ends its numbers
        let _most = around.limits.stream();
        match number.take(around, piece)? {
            NumberTaken::More => Ok(PartTaken::more(
                piece.len(),
                PutPart::NextCount(NextCount { number }),
            )),
            NumberTaken::Whole {
                number: count,
                used,
            } => {
                let behind = around.behind(used);
                levels.begin_segment(&behind, number.rest.begin, count)?;
                let end = levels.innermost.end;
                behind.goes_on(end)?;
                let number = HeldTypeNumber::new(&behind, end);
                Ok(PartTaken::more(used, PutPart::TypeNumber(number)))
            }
        }
    }
}

impl Levels {
    // Where the open segment of the value around ends. That of an item stands in none.
    fn end_around(&self) -> u64
        ensures { result ≡ end_around self.now }
    {
        match self.outer.last() {
            Some(outer) => outer.end,
            None => u64::MAX,
        }
    }

    // Begins the innermost value's next segment of so many bytes behind its count, which stands at the place.
    fn begin_segment(&mut self, around: &Around, place: u64, count: u64) -> Result<(), Fault>
        requires { around.now.taken ≤ end_around self.old }
        ensures { BeginsSegment around.now.limits around.now.taken place count self.old self.new result }
    {
        let Some(_outer) = self.outer.last() else {
            return self.begin_item_segment(around, place, count);
        };
        let end = self.end_around();
        within(around, end, place, count)?;
        self.innermost.end = around.taken + count;
        Ok(())
    }

    // Begins that of an item, where the innermost value is the item's own.
    fn begin_item_segment(&mut self, around: &Around, place: u64, count: u64) -> Result<(), Fault>
        requires { self.old.outer.items ≡ [] }
        ensures { BeginsSegment around.now.limits around.now.taken place count self.old self.new result }
    {
        // its contract says that no stream is so long that the sum wraps
        let _most = around.limits.stream();
        of_item(around, self.left, place, count)?;
        self.left -= count;
        self.innermost.end = around.taken + count;
        Ok(())
    }
}

/// Whether a segment of so many bytes behind its count, which stands at the place, lies within one that ends there.
pub(crate) fn within(around: &Around, end: u64, place: u64, count: u64) -> Result<(), Fault>
    requires { around.now.taken ≤ end }
    ensures { LiesWithin around.now.taken end place count result }
{
    if count > end - around.taken {
        return Err(Fault::Refused(refusal(place, around.taken, Reason::ItemTooLong)));
    }
    Ok(())
}

/// Whether an item may have a segment of so many bytes behind its count, which stands at the place, where this is left
/// for it.
pub(crate) fn of_item(around: &Around, left: u64, place: u64, count: u64) -> Result<(), Fault>
    ensures { ItemHasRoom around.now.limits around.now.taken left place count result }
{
    let end = around.taken;
    let stream = around.limits.stream();
    if count > left {
        return Err(Fault::Refused(refusal(place, end, Reason::ItemTooLong)));
    }
    if end > stream || count > stream - end {
        return Err(Fault::Refused(refusal(place, end, Reason::StreamTooLong)));
    }
    Ok(())
}
