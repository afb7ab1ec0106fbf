//! Why nodes say no value.

use gob_num::Memory;
use std::alloc::AllocError;

/// Why nodes say no value of a type, or no definition.
#[derive(Clone, Copy, Debug, PartialEq, Eq)]
pub enum NodesFault {
    /// What this node says can't stand there, or is wanting: its number among the nodes, from 0.
    Wrong(usize),
    /// No memory was had.
    Memory,
}

impl From<AllocError> for NodesFault {
    ghost use Rattle.std.specs.Prelude.{◌≡◌};
    ghost use Rattle.gob_nodes.specs.declared.fault.NodesFault.TheVariants.{Memory};

    ghost from_gives = { λ _ fault. fault ≡ Memory };

    fn from(_: AllocError) -> NodesFault {
        NodesFault::Memory
    }
}

impl From<Memory> for NodesFault {
    ghost use Rattle.std.specs.Prelude.{◌≡◌};
    ghost use Rattle.gob_nodes.specs.declared.fault.NodesFault.TheVariants.{Memory};

    ghost from_gives = { λ _ fault. fault ≡ Memory };

    fn from(_: Memory) -> NodesFault {
        NodesFault::Memory
    }
}
