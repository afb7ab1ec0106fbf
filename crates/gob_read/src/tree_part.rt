//! Open parts of a value that is built.

ghost use Rattle.std.specs.Prelude.{◌≡◌, OnOk};
ghost use Rattle.gob_value.specs.View.{view};
ghost use Rattle.gob_read.specs.Machine.Built.{opened_part, closed, added_part, with_bytes, with_number};
ghost use Rattle.gob_read.specs.Leaf.{raw_tree};
ghost use Rattle.gob_read.specs.Machine.Built as built;
ghost use Rattle.gob_read.specs.Machine.Stack.{part_view};

use crate::event::{GroupKind, RawKind};
use gob_num::Memory;
use gob_value::Value;
use std::alloc::Global;

/// A part that has begun and not ended, with what is in it so far. What may not be in it is passed over.
#[derive(Drop)]
pub(crate) enum TreePart {
    Raw(RawKind, Vec<u8>),
    Many(Vec<Value>),
    /// The key waits for its element.
    Pairs(Vec<(Value, Value)>, Option<Value>),
    /// The number waits for its part.
    Fields(Vec<(u64, Value)>, Option<u64>),
}

impl TreePart {
    /// A group that has nothing in it.
    pub(crate) fn group(alloc: Global, kind: GroupKind) -> TreePart
        ensures { part_view result ≡ opened_part kind }
    {
        match kind {
            GroupKind::Many => TreePart::Many(Vec::new(alloc)),
            GroupKind::Pairs => TreePart::Pairs(Vec::new(alloc), None),
            GroupKind::Fields => TreePart::Fields(Vec::new(alloc), None),
        }
    }

    /// Adds a whole part.
    pub(crate) fn add(&mut self, value: Value) -> Result<(), Memory>
        ensures { OnOk result (part_view self.new ≡ added_part (part_view self.old) (view value)) }
    {
        match self {
            TreePart::Raw(_, _) => {}
            TreePart::Many(parts) => parts.push(value)?,
            TreePart::Pairs(parts, waiting) => match waiting.take() {
                None => *waiting = Some(value),
                Some(key) => parts.push((key, value))?,
            },
            TreePart::Fields(parts, waiting) => {
                if let Some(number) = waiting.take() {
                    parts.push((number, value))?;
                }
            }
        }
        Ok(())
    }

    /// Adds raw bytes.
    pub(crate) fn add_bytes(&mut self, more: &[u8]) -> Result<(), Memory>
        ensures { OnOk result (part_view self.new ≡ with_bytes (part_view self.old) more.now) }
    {
        if let TreePart::Raw(_, bytes) = self {
            bytes.extend_from_slice(more)?;
        }
        Ok(())
    }

    /// Takes the number of the next part.
    pub(crate) fn name(&mut self, number: u64)
        ensures { part_view self.new ≡ with_number (part_view self.old) number }
    {
        if let TreePart::Fields(_, waiting) = self {
            *waiting = Some(number);
        }
    }

    /// The part's value, at its end.
    pub(crate) fn close(self) -> Value
        ensures { view result ≡ closed (part_view self) }
    {
        match self {
            TreePart::Raw(RawKind::Bytes, bytes) => Value::Bytes(bytes),
            TreePart::Raw(RawKind::Str, bytes) => Value::Str(bytes),
            TreePart::Raw(RawKind::Opaque, bytes) => Value::Opaque(bytes),
            TreePart::Many(parts) => Value::Many(parts),
            TreePart::Pairs(parts, _) => Value::Pairs(parts),
            TreePart::Fields(parts, _) => Value::Fields(parts),
        }
    }
}
