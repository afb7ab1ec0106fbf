//! Why an item isn't written.

use gob_nodes::NodesFault;
use gob_stream::WriteFault;
use gob_types::Reason;
use std::fmt;

/// Why an item isn't written. Display writes a line without a line feed.
#[derive(Clone, Copy)]
pub enum ItemFault {
    /// The nodes say no value of the type, or no definition: at the node of this number, from 0. The writer is as
    /// before.
    Nodes(u64),
    /// The item doesn't continue the stream. The writer is as before.
    Refused(Reason),
    /// No memory was had. Nothing of the item is written. The writer is as before, or writes no more: then it answers
    /// `Failed` from here on where an item is whole.
    Memory,
    /// There was no memory before for what was to be written, and the writer writes no more.
    Failed,
}

impl fmt::Display for ItemFault {
    fn fmt<W: fmt::Write>(&self, f: &mut fmt::Formatter<W>) -> fmt::Result {
        match self {
            ItemFault::Nodes(node) => {
                write!(f, "gob: node {node}: another node of the item is due")
            }
            ItemFault::Refused(reason) => {
                let number = reason.number();
                write!(f, "gob: refused {number} {reason}")
            }
            ItemFault::Memory => f.write_str("gob: out of memory"),
            ItemFault::Failed => f.write_str("gob: out of memory before"),
        }
    }
}

impl From<NodesFault> for ItemFault {
    ghost use Rattle.std.specs.Prelude.{◌≡◌};
    ghost use Rattle.gob_item_writer.specs.Faults.{of_nodes};

    ghost from_gives = { λ given fault. fault ≡ of_nodes given };

    fn from(fault: NodesFault) -> ItemFault {
        match fault {
            NodesFault::Wrong(node) => ItemFault::Nodes(node as u64),
            NodesFault::Memory => ItemFault::Memory,
        }
    }
}

impl From<WriteFault> for ItemFault {
    ghost use Rattle.std.specs.Prelude.{◌≡◌};
    ghost use Rattle.gob_item_writer.specs.Faults.{of_writing};

    ghost from_gives = { λ given fault. fault ≡ of_writing given };

    // A write into memory fails for want of it.
    fn from(fault: WriteFault) -> ItemFault {
        match fault {
            WriteFault::Refused(reason) => ItemFault::Refused(reason),
            WriteFault::Write | WriteFault::Memory => ItemFault::Memory,
            WriteFault::Failed => ItemFault::Failed,
        }
    }
}
