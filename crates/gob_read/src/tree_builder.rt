//! Building the tree of a value.

ghost use Rattle.std.specs.Prelude.{◌≡◌, ◌+◌, ◌^◌, ◌<◌};
ghost use Rattle.gob_value.specs.View.{view};
ghost use Rattle.gob_read.specs.Leaf.{number_tree};

use crate::builder::{Builder, Stores};
use crate::event::{GroupKind, RawKind};
use crate::tree_part::TreePart;
use crate::tree_stack::TreeStack;
use gob_num::{Memory, to_signed};
use gob_types::Basic;
use gob_value::Value;
use std::alloc::Global;

/// A [`Builder`] that makes a [`Value`]. It keeps the open parts on a stack of its own, so that a deep value
/// takes no more of the machine's stack than a flat one.
pub struct TreeBuilder {
    alloc: Global,
    work: TreeStack,
    held: u64,
}

// Not derived, so that a drop is one call in the proofs of what owns one.
impl Drop for TreeBuilder {
    fn drop(self) {
        let TreeBuilder {
            alloc: _,
            work: _,
            held: _,
        } = self;
    }
}

/// The value of a part of a basic type, by its numbers.
fn basic_value(kind: Basic, first: u64, second: u64) -> Value
    ensures { view result ≡ number_tree kind first second }
{
    match kind {
        Basic::Bool => Value::Bool(first == 1),
        Basic::Int => Value::Int(to_signed(first)),
        Basic::Uint => Value::Uint(first),
        Basic::Float => Value::Float(first),
        Basic::Complex => Value::Complex(first, second),
        Basic::Bytes | Basic::Str | Basic::Interface => Value::Nil,
    }
}

#[tactic(auto, using(crate::proofs::Events::CountLaws::counting))]
impl Builder for TreeBuilder {
    type Out = Value;

    ghost use Rattle.gob_read.specs.Calls.Builders.{tree_building};
    ghost use Rattle.gob_read.specs.declared.builder.Stores.TheVariants.{PartsAndRaw};

    ghost DEPTH = { 1000 };

    const DEPTH: u64 = 1000;

    ghost STORES = { PartsAndRaw };

    const STORES: Stores = Stores::PartsAndRaw;

    ghost building = { tree_building };

    fn fresh(alloc: Global) -> Result<Self, Memory> {
        Ok(TreeBuilder {
            alloc,
            work: TreeStack::new(alloc),
            held: 0,
        })
    }

    fn number(&mut self, kind: Basic, first: u64, second: u64) -> Result<(), Memory> {
        self.held += 1;
        self.work.put(basic_value(kind, first, second))?;
        Ok(())
    }

    fn raw_start(&mut self, kind: RawKind) -> Result<(), Memory> {
        self.held += 1;
        self.work.begin(TreePart::Raw(kind, Vec::new(self.alloc)))?;
        Ok(())
    }

    fn raw_more(&mut self, bytes: &[u8]) -> Result<(), Memory> {
        self.held += bytes.len() as u64;
        self.work.add_bytes(bytes)?;
        Ok(())
    }

    fn enter(&mut self, kind: GroupKind) -> Result<(), Memory> {
        self.held += 1;
        self.work.begin(TreePart::group(self.alloc, kind))?;
        Ok(())
    }

    fn field(&mut self, number: u64) -> Result<(), Memory> {
        self.work.name(number);
        Ok(())
    }

    fn leave(&mut self) -> Result<(), Memory> {
        self.work.leave()?;
        Ok(())
    }

    fn may_skip(&self) -> bool {
        false
    }

    fn held(&self) -> u64 {
        self.held
    }

    fn take(self) -> Value {
        let TreeBuilder {
            alloc: _,
            work,
            held: _,
        } = self;
        work.into_value()
    }
}
