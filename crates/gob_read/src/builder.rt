//! What is made of a value that is told.

ghost use Rattle.std.specs.Prelude.{◌≡◌, ℕ, List, [], OnOk, IfOk, IsTrue};
ghost use Rattle.gob_value.specs.Tree.{Tree};
ghost use Rattle.gob_read.specs.Event as event;
ghost use Rattle.gob_read.specs.Event.{Event, HasEvents};
ghost use Rattle.gob_read.specs.Building.{Building, MayTakeEvent, TakesEvent, IsComplete};
ghost use Rattle.gob_read.specs.Weight.{parts_told, raw_told};
ghost use Rattle.gob_read.specs.Held.{held_of};
ghost use Rattle.gob_read.specs.declared.builder.Stores.{Stores};

use crate::event::{GroupKind, RawKind};
use gob_num::Memory;
use gob_types::Basic;
use std::alloc::Global;

/// What a builder keeps of what it is told.
#[derive(Clone, Copy, Debug, PartialEq, Eq)]
pub enum Stores {
    /// The parts and their raw bytes.
    PartsAndRaw,
    /// The parts, or how many there are.
    Parts,
    /// Nothing, not even counts.
    Nothing,
}

/// Makes something of a value of which it is told part by part, in the order of the first bytes.
///
/// An event is a call of `number`, `raw_start`, `raw_more`, `enter`, `field` or `leave`. It may come where the list
/// of all events so far stays well formed with it, and their parts and raw bytes together are fewer than 2^64
/// (docs/LIBRARY.md, Events). After [`Memory`] nothing is said of the builder, which can then only be dropped.
pub trait Builder: Drop {
    /// What is made of a value.
    type Out: Drop;

    ghost DEPTH: { ℕ };

    /// The depth of the deepest value that may be told.
    const DEPTH: u64;

    ghost STORES: { Stores };

    /// What is kept of the parts that are told.
    const STORES: Stores;

    // The events that the builder has received, and the value that its product stands for.
    ghost building: { Building Self Self.Out DEPTH };

    /// A builder that was told of no part yet.
    fn fresh(alloc: Global) -> Result<Self, Memory>
        ensures { IfOk result (λ builder. building.received builder []) };

    /// One whole part of a basic type whose parts are no raw bytes. For a float and a complex number these are the
    /// patterns, else the first is the unsigned number as spelled. A number that isn't used is 0.
    fn number(&mut self, kind: Basic, first: u64, second: u64) -> Result<(), Memory>
        requires { MayTakeEvent building.received self.old (event.number kind first second) }
        ensures { OnOk result (TakesEvent building.received self.old self.new (event.number kind first second)) };

    /// A part of raw bytes begins.
    fn raw_start(&mut self, kind: RawKind) -> Result<(), Memory>
        requires { MayTakeEvent building.received self.old (event.raw_start kind) }
        ensures { OnOk result (TakesEvent building.received self.old self.new (event.raw_start kind)) };

    /// These bytes follow in it.
    fn raw_more(&mut self, bytes: &[u8]) -> Result<(), Memory>
        requires { MayTakeEvent building.received self.old (event.raw_more bytes.now) }
        ensures { OnOk result (TakesEvent building.received self.old self.new (event.raw_more bytes.now)) };

    /// A part that has parts begins.
    fn enter(&mut self, kind: GroupKind) -> Result<(), Memory>
        requires { MayTakeEvent building.received self.old (event.enter kind) }
        ensures { OnOk result (TakesEvent building.received self.old self.new (event.enter kind)) };

    /// The number of the next part of the open struct.
    fn field(&mut self, number: u64) -> Result<(), Memory>
        requires { MayTakeEvent building.received self.old (event.field number) }
        ensures { OnOk result (TakesEvent building.received self.old self.new (event.field number)) };

    /// The open part ends.
    fn leave(&mut self) -> Result<(), Memory>
        requires { MayTakeEvent building.received self.old event.leave }
        ensures { OnOk result (TakesEvent building.received self.old self.new event.leave) };

    /// Whether the builder makes the same of whatever it is told, so that parts may be left untold.
    fn may_skip(&self) -> bool
        ensures { IsTrue result → (us : List Event) → building.received self.now us };

    /// How much is kept of the parts told: the parts and the raw bytes, the parts, or nothing.
    fn held(&self) -> u64
        ensures { (us : List Event) → building.received self.now us
            → result ≡ held_of STORES (parts_told us) (raw_told us) };

    /// What was made of the whole value that was told.
    fn take(self) -> Self::Out
        requires { IsComplete building.received self }
        ensures { (us : List Event) (v : Tree) → building.received self us → HasEvents v us → building.means result v };
}
