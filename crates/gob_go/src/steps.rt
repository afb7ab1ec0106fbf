//! The session of streams of Go's encoder, as a reader asks it.

use crate::item::GoItem;
use crate::session::GoSession;
use gob_num::Memory;
use gob_stream::{
    Advance, Awaited, Fault, Limits, Passed, ReaderOf, Steps, Whole, awaited_value, whole_value,
};
use gob_types::Table;
use std::alloc::Global;

/// A reader of one stream of Go's encoder, from its first byte on. Where an item is refused, its definitions in front
/// of that place are among the types of [`ReaderOf::table`].
pub type GoReader = ReaderOf<GoSession>;

impl Steps for GoSession {
    ghost use Rattle.gob_filled.specs.Stream.{FilledItem};
    ghost use Rattle.gob_go.specs.GoStepping.{go_stepping};

    type Item = GoItem;

    ghost Told = { FilledItem };

    ghost stepping = { go_stepping };

    fn begin(alloc: Global, limits: Limits) -> Result<GoSession, Memory> {
        GoSession::new(alloc, limits)
    }

    fn step(&mut self, alloc: Global, piece: &[u8]) -> Result<Advance<GoItem>, Fault> {
        self.step(alloc, piece)
    }

    fn finish(&mut self) -> Result<(), Fault> {
        self.finish()
    }

    // What comes at once of an item is its first segment.
    fn awaited(&self, piece: &[u8]) -> Option<Awaited> {
        if !self.is_between() {
            return None;
        }
        awaited_value(&self.types, &self.limits, self.taken, piece)
    }

    #[inline(always)]
    fn whole_value<'a>(&self, piece: &'a [u8]) -> Option<Whole<'a>> {
        if !self.is_between() {
            return None;
        }
        whole_value(&self.types, &self.limits, self.taken, piece)
    }

    fn pass(&mut self, item: &[u8]) {
        self.go_past(item);
    }

    fn pass_values(&mut self, piece: &[u8]) -> Passed {
        self.pass_values(piece)
    }

    #[inline(always)]
    fn has_failed(&self) -> bool {
        self.has_failed()
    }

    fn fail(&mut self) {
        self.fail();
    }

    fn table(&self) -> &Table {
        self.table()
    }

    fn limits(&self) -> Limits {
        self.limits()
    }
}
