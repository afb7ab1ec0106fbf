//! What is left out.

ghost use Rattle.std.specs.Prelude.{◌≡◌};
ghost use Rattle.gob_salvage.specs.Salvage.{gap_length};

use gob_types::Reason;

/// Bytes that are left out. Offsets are those of the bytes that were given, from 0.
#[derive(Clone, Copy, Debug, PartialEq, Eq)]
pub struct Gap {
    /// The offset of the first of them.
    pub begin: u64,
    /// The offset behind the last of them.
    pub end: u64,
    /// Why no item that continues what was kept begins there.
    pub reason: Reason,
    /// The offset of the first byte that is refused.
    pub place: u64,
    /// Whether they are a definition that is kept already, in the very same bytes, so that nothing is lost with them.
    pub is_repeated: bool,
}

impl Gap {
    /// How many bytes they are.
    pub fn length(&self) -> u64
        ensures { result ≡ gap_length self.now }
    {
        self.end.saturating_sub(self.begin)
    }
}
