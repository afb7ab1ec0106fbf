//! Which items of a stream are explained.

ghost use Rattle.std.specs.Prelude.{MatchBool};
ghost use Rattle.gob_why.specs.Explain.{IsRefusedChosen};

/// Which items are explained.
#[derive(Clone, Copy, Debug, PartialEq, Eq)]
pub enum Explained {
    /// All, and of one that is refused what stands before the refused bytes.
    All,
    /// The one that is refused, alone.
    Fault,
    /// The one around the byte at this offset of the stream, alone.
    At(u64),
}

impl Explained {
    /// Whether the item is explained that is refused and begins at this offset.
    pub(crate) fn has_refused(self, begin: u64) -> bool
        ensures { MatchBool result (IsRefusedChosen self begin) (¬ IsRefusedChosen self begin) }
    {
        match self {
            Explained::All | Explained::Fault => true,
            Explained::At(offset) => begin <= offset,
        }
    }
}
