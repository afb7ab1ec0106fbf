//! The number of an interface, and the name of the concrete type of what it holds.

ghost use Rattle.std.specs.Prelude.{◌≡◌, []};
ghost use Rattle.gob_stream.specs.Bounds.{within_trees};
ghost use Rattle.gob_go.specs.Machine.Stages.{IsInPut, PartAnswers, IsInPutOfSome};
ghost use Rattle.gob_types.specs.Defined.{Defined};
ghost use Rattle.gob_go.specs.declared.part.PutPart.TheVariants as part;

use crate::around::Around;
use crate::held::HeldTypeNumber;
use crate::level::HeldFront;
use crate::levels::Levels;
use crate::number::{NumberStage, NumberTaken};
use crate::part::{PartTaken, PutPart};
use gob_stream::Fault;
use gob_types::Table;

/// How far into the number of an interface a reader is: 0 where it is nil, or else the length of a name.
#[derive(Drop)]
pub(crate) struct NameLength {
    /// The number.
    pub(crate) number: NumberStage,
}

/// How far into a name a reader is. What came of it is in the innermost level.
#[derive(Clone, Copy)]
pub(crate) struct Name {
    /// How many bytes of it are to come, one at least.
    pub(crate) left: u64,
}

impl NameLength {
    /// Before the number of the interface that the innermost value has behind the bytes taken.
    pub(crate) fn new(around: &Around, levels: &Levels) -> NameLength
        ensures { result.number
            ≡ record { rest = record { begin = around.now.taken; end = levels.now.innermost.end }; number = [] } }
    {
        NameLength {
            number: NumberStage::within(around.taken, levels.innermost.end),
        }
    }

    /// Takes bytes of the number from the front of the piece.
    pub(crate) fn take(
        self,
        levels: &mut Levels,
        around: &Around,
        table: &Table,
        piece: &[u8],
    ) -> Result<PartTaken, Fault>
        requires has_read { IsInPut around.now.keeps (within_trees around.now.limits) table.now around.now.taken
            levels.old (part.NameLength self) }
        ensures { PartAnswers around.now.keeps (within_trees around.now.limits) table.now table.now levels.old
            levels.new (part.NameLength self) piece.now result }
    {
        let NameLength { mut number } = self;
        // what ends within it is a number of 64 bits
        let _most = around.limits.stream();
        match number.take(around, piece)? {
            NumberTaken::More => Ok(PartTaken::more(
                piece.len(),
                PutPart::NameLength(NameLength { number }),
            )),
            NumberTaken::Whole { number: 0, used } => {
                let goes = levels.fill(&around.behind(used), table)?;
                Ok(PartTaken::behind_value(used, goes))
            }
            NumberTaken::Whole { number: left, used } => {
                around.behind(used).goes_on(levels.innermost.end)?;
                levels.innermost.held = HeldFront::new(around.alloc);
                Ok(PartTaken::more(used, PutPart::Name(Name { left })))
            }
        }
    }
}

impl Name {
    /// Takes bytes of the name from the front of the piece.
    pub(crate) fn take(
        self,
        levels: &mut Levels,
        around: &Around,
        piece: &[u8],
    ) -> Result<PartTaken, Fault>
        requires { IsInPutOfSome around.now.keeps (within_trees around.now.limits) around.now.taken levels.old
            (part.Name self) }
        ensures { (d : Defined)
            → IsInPut around.now.keeps (within_trees around.now.limits) d around.now.taken levels.old (part.Name self)
            → PartAnswers around.now.keeps (within_trees around.now.limits) d d levels.old levels.new
            (part.Name self) piece.now result }
    {
        // what ends within it is a number of 64 bits
        let _most = around.limits.stream();
        let level = &mut levels.innermost;
        let room = around.room(level.end, piece);
        let used = self.left.min(room as u64) as usize;
        if level.held.name.extend_from_slice(&piece[..used]).is_err() {
            return Err(Fault::Memory);
        }
        let behind = around.behind(used);
        behind.goes_on(level.end)?;
        let left = self.left - used as u64;
        if left > 0 {
            return Ok(PartTaken::more(used, PutPart::Name(Name { left })));
        }
        let number = HeldTypeNumber::new(&behind, level.end);
        Ok(PartTaken::more(used, PutPart::TypeNumber(number)))
    }
}
