//! How large parts are.

ghost use Rattle.std.specs.Prelude.{◌≡◌, true, false};
ghost use Rattle.gob_split.specs.Split.{HasRoom, IsDone, StreamPart};
ghost use Rattle.gob_split.specs.Machine.Cutting.{CountsPart};

use crate::cutter::Filling;

/// Where a part ends: with the first value with which it has as much, or more.
#[derive(Clone, Copy, Debug, PartialEq, Eq)]
pub enum PartSize {
    /// So many bytes, with those of the definitions in front.
    Bytes(u64),
    /// So many values.
    Values(u64),
}

impl PartSize {
    // Whether a part with so much in it is done.
    pub(crate) fn is_done(self, filling: Filling) -> bool
        ensures done { result ≡ true → (p : StreamPart) → CountsPart filling p → IsDone self (Some p) }
        ensures room { result ≡ false → (p : StreamPart) → CountsPart filling p → HasRoom self p }
    {
        if !filling.ends_with_value {
            return false;
        }
        match self {
            PartSize::Bytes(most) => filling.bytes >= most,
            PartSize::Values(most) => filling.values >= most,
        }
    }
}
