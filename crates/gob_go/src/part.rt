//! How far into the item of a value a reader is.

ghost use Rattle.std.specs.Prelude.{◌≡◌, ◌+◌, ◌^◌, ◌<◌, Some, None};
ghost use Rattle.gob_stream.specs.Bounds.{within_trees};
ghost use Rattle.gob_go.specs.Machine.Stages.{IsInPut, PartAnswers};
ghost use Rattle.gob_go.specs.Machine.Stages.{behind_value};

use crate::around::Around;
use crate::held::{HeldDescription, HeldTypeNumber};
use crate::inner_count::InnerCount;
use crate::levels::{Goes, Levels};
use crate::name::{Name, NameLength};
use crate::next_count::NextCount;
use gob_stream::Fault;
use gob_types::Table;

/// What comes next in the innermost value.
#[derive(Drop)]
pub(crate) enum PutPart {
    /// More of its skeleton.
    Value,
    /// The number of an interface: nil, or the length of a name.
    NameLength(NameLength),
    /// A name.
    Name(Name),
    /// The number behind a name: the concrete type, or a definition.
    TypeNumber(HeldTypeNumber),
    /// The description of a definition.
    Description(HeldDescription),
    /// The count of the segment behind a definition.
    NextCount(NextCount),
    /// The count of the first segment of a value of the concrete type.
    InnerCount(InnerCount),
}

/// What became of the front of a piece.
#[derive(Drop)]
pub(crate) struct PartTaken {
    /// How many bytes of the piece were taken.
    pub(crate) used: usize,
    /// What comes next. None where the item is whole.
    pub(crate) next: Option<PutPart>,
}

impl PartTaken {
    /// So many bytes were taken, and this comes next.
    pub(crate) fn more(used: usize, part: PutPart) -> PartTaken
        ensures { result ≡ record { used = used; next = Some part } }
    {
        PartTaken {
            used,
            next: Some(part),
        }
    }

    /// So many bytes were taken, behind a value.
    pub(crate) fn behind_value(used: usize, goes: Goes) -> PartTaken
        ensures { result ≡ record { used = used; next = behind_value goes } }
    {
        match goes {
            Goes::On => PartTaken::more(used, PutPart::Value),
            Goes::ToEnd => PartTaken { used, next: None },
        }
    }

    /// With so many bytes before them.
    pub(crate) fn behind(self, used: usize) -> PartTaken
        requires { used + self.used < 2 ^ 64 }
        ensures { result ≡ record { used = used + self.used; next = self.next } }
    {
        let PartTaken { used: more, next } = self;
        PartTaken {
            used: used + more,
            next,
        }
    }
}

impl PutPart {
    /// Takes bytes of what comes next from the front of the piece, one at least where it has any.
    pub(crate) fn take(
        self,
        levels: &mut Levels,
        around: &Around,
        table: &mut Table,
        piece: &[u8],
    ) -> Result<PartTaken, Fault>
        requires has_read { IsInPut around.now.keeps (within_trees around.now.limits) table.old around.now.taken
            levels.old self }
        ensures { PartAnswers around.now.keeps (within_trees around.now.limits) table.old table.new levels.old
            levels.new self piece.now result }
    {
        match self {
            PutPart::Value => levels.take_value(around, table, piece),
            PutPart::NameLength(length) => length.take(levels, around, table, piece),
            PutPart::Name(name) => name.take(levels, around, piece),
            PutPart::TypeNumber(number) => number.take(levels, around, table, piece),
            PutPart::Description(description) => description.take(levels, around, table, piece),
            PutPart::NextCount(count) => count.take(levels, around, piece),
            PutPart::InnerCount(count) => count.take(levels, around, table, piece),
        }
    }
}
