//! Why a reader stops.

use gob_num::Memory;
use gob_types::Reason;

/// Why a reader gives no value. It has ended then, and answers [`Stop::Failed`] from there on.
#[derive(Clone, Copy, Debug, PartialEq, Eq)]
pub enum Stop {
    /// The bytes are no value of the type.
    Refused {
        /// The offset of the first refused byte, from the first byte that the reader was given.
        place: u64,
        /// How many bytes, from there on too, show the refusal.
        seen: u64,
        /// What is wrong with them.
        reason: Reason,
    },
    /// The allocator refused to let something grow.
    Memory,
    /// The reader has ended before.
    Failed,
}

impl From<Memory> for Stop {
    ghost use Rattle.std.specs.Prelude.{◌≡◌};
    ghost use Rattle.gob_read.specs.declared.stop.Stop.TheVariants as stop;

    ghost from_gives = { λ _ given. given ≡ stop.Memory };

    fn from(_: Memory) -> Stop {
        Stop::Memory
    }
}
