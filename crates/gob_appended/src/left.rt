//! How much of what comes is given as it is.

ghost use Rattle.std.specs.Prelude.{◌≡◌, ◌<◌, ◌≤◌, true};
ghost use Rattle.gob_appended.specs.Left.{Covers, goes_on, part_of, without};

/// How much of what comes is given as it is, before an item is to begin.
#[derive(Clone, Copy)]
pub(crate) enum Left {
    /// So many bytes.
    Bytes(u128),
    /// All.
    All,
}

impl Left {
    /// Whether any is.
    pub(crate) fn goes_on(self) -> bool
        ensures { result ≡ goes_on (part_of self) }
    {
        match self {
            Left::Bytes(count) => count > 0,
            Left::All => true,
        }
    }

    /// How many of so many bytes are.
    pub(crate) fn of(self, most: usize) -> usize
        ensures few { result ≤ most }
        ensures covered { Covers (part_of self) result }
        ensures some { goes_on (part_of self) ≡ true → 0 < most → 0 < result }
    {
        match self {
            Left::Bytes(count) if count < most as u128 => count as usize,
            _ => most,
        }
    }

    /// What is left behind so many bytes of it.
    pub(crate) fn without(self, count: usize) -> Left
        requires { Covers (part_of self) count }
        ensures { part_of result ≡ without (part_of self) count }
    {
        match self {
            Left::Bytes(left) => Left::Bytes(left - count as u128),
            Left::All => Left::All,
        }
    }
}
