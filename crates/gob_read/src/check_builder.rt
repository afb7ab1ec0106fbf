//! Counting the parts of a value, and keeping nothing else.

ghost use Rattle.std.specs.Prelude.{◌≡◌, ℕ, ◌+◌, ◌^◌, ◌<◌};

use crate::builder::{Builder, Stores};
use crate::event::{GroupKind, RawKind};
use gob_num::Memory;
use gob_types::Basic;
use std::alloc::Global;

/// How much there is in a value. Both together are its weight.
#[derive(Clone, Copy, Debug, PartialEq, Eq)]
pub struct Counts {
    /// The parts of the value, itself included.
    pub nodes: u64,
    /// The bytes of its byte strings, texts and opaque parts.
    pub raw: u64,
}

/// A [`Builder`] that counts the parts and raw bytes of a value. It takes no memory.
#[derive(Drop)]
pub struct CheckBuilder {
    counts: Counts,
}

impl CheckBuilder {
    fn count_part(&mut self)
        requires { self.old.counts.nodes + 1 < 2 ^ 64 }
        ensures parts { self.new.counts.nodes ≡ self.old.counts.nodes + 1 }
        ensures raw { self.new.counts.raw ≡ self.old.counts.raw }
    {
        self.counts.nodes += 1;
    }
}

#[tactic(auto, using(crate::proofs::Events::CountLaws::counting))]
impl Builder for CheckBuilder {
    type Out = Counts;

    ghost use Rattle.gob_read.specs.Calls.Builders.{check_building};
    ghost use Rattle.gob_read.specs.declared.builder.Stores.TheVariants.{Parts};

    ghost DEPTH = { 65536 };

    const DEPTH: u64 = 65536;

    ghost STORES = { Parts };

    const STORES: Stores = Stores::Parts;

    ghost building = { check_building };

    fn fresh(_alloc: Global) -> Result<Self, Memory> {
        Ok(CheckBuilder {
            counts: Counts { nodes: 0, raw: 0 },
        })
    }

    fn number(&mut self, _kind: Basic, _first: u64, _second: u64) -> Result<(), Memory> {
        self.count_part();
        Ok(())
    }

    fn raw_start(&mut self, _kind: RawKind) -> Result<(), Memory> {
        self.count_part();
        Ok(())
    }

    fn raw_more(&mut self, bytes: &[u8]) -> Result<(), Memory> {
        self.counts.raw += bytes.len() as u64;
        Ok(())
    }

    fn enter(&mut self, _kind: GroupKind) -> Result<(), Memory> {
        self.count_part();
        Ok(())
    }

    fn field(&mut self, _number: u64) -> Result<(), Memory> {
        Ok(())
    }

    fn leave(&mut self) -> Result<(), Memory> {
        Ok(())
    }

    fn may_skip(&self) -> bool {
        false
    }

    fn held(&self) -> u64 {
        self.counts.nodes
    }

    fn take(self) -> Counts {
        self.counts
    }
}
