//! The session of the format, as a reader asks it.

use crate::fault::Fault;
use crate::item::Item;
use crate::limits::Limits;
use crate::session::{Advance, Session};
use crate::steps::Steps;
use crate::values::Passed;
use crate::whole::{Awaited, Whole};
use gob_num::Memory;
use gob_read::Builder;
use gob_types::Table;
use std::alloc::Global;

impl<B: Builder> Steps for Session<B> {
    ghost use Rattle.gob_stream.specs.Item.{StreamItem};
    ghost use Rattle.gob_stream.specs.StrictStepping.{strict_stepping};

    type Item = Item<B::Out>;

    ghost Told = { StreamItem };

    ghost stepping = { strict_stepping B.building };

    fn begin(alloc: Global, limits: Limits) -> Result<Session<B>, Memory> {
        Session::new(alloc, limits)
    }

    fn step(&mut self, alloc: Global, piece: &[u8]) -> Result<Advance<Item<B::Out>>, Fault> {
        self.step(alloc, piece)
    }

    fn finish(&mut self) -> Result<(), Fault> {
        self.finish()
    }

    fn awaited(&self, piece: &[u8]) -> Option<Awaited> {
        self.awaited(piece)
    }

    #[inline(always)]
    fn whole_value<'a>(&self, piece: &'a [u8]) -> Option<Whole<'a>> {
        self.whole_value(piece)
    }

    fn pass(&mut self, item: &[u8]) {
        self.pass(item.len());
    }

    fn pass_values(&mut self, piece: &[u8]) -> Passed {
        self.pass_values(piece)
    }

    #[inline(always)]
    fn has_failed(&self) -> bool {
        self.has_failed()
    }

    fn fail(&mut self) {
        self.fail();
    }

    fn table(&self) -> &Table {
        self.table()
    }

    fn limits(&self) -> Limits {
        self.limits()
    }
}
