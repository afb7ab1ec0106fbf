//! Keeping nothing of a value.

ghost use Rattle.std.specs.Prelude.{ℕ};

use crate::builder::{Builder, Stores};
use crate::event::{GroupKind, RawKind};
use gob_num::Memory;
use gob_types::Basic;
use std::alloc::Global;

/// A [`Builder`] that keeps nothing of a value, not even counts. It takes no memory. A reader of one goes over the
/// elements of a list, and the entries of a map, that stand whole in a piece without telling them.
#[derive(Drop)]
pub struct SkipBuilder {}

impl Builder for SkipBuilder {
    type Out = ();

    ghost use Rattle.gob_read.specs.Calls.Builders.{skip_building};
    ghost use Rattle.gob_read.specs.declared.builder.Stores.TheVariants.{Nothing};

    ghost DEPTH = { 65536 };

    const DEPTH: u64 = 65536;

    ghost STORES = { Nothing };

    const STORES: Stores = Stores::Nothing;

    ghost building = { skip_building };

    fn fresh(_alloc: Global) -> Result<Self, Memory> {
        Ok(SkipBuilder {})
    }

    fn number(&mut self, _kind: Basic, _first: u64, _second: u64) -> Result<(), Memory> {
        Ok(())
    }

    fn raw_start(&mut self, _kind: RawKind) -> Result<(), Memory> {
        Ok(())
    }

    fn raw_more(&mut self, _bytes: &[u8]) -> Result<(), Memory> {
        Ok(())
    }

    fn enter(&mut self, _kind: GroupKind) -> Result<(), Memory> {
        Ok(())
    }

    fn field(&mut self, _number: u64) -> Result<(), Memory> {
        Ok(())
    }

    fn leave(&mut self) -> Result<(), Memory> {
        Ok(())
    }

    fn may_skip(&self) -> bool {
        true
    }

    fn held(&self) -> u64 {
        0
    }

    fn take(self) {}
}
