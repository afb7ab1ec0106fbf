//! Elements and entries that stand whole in a piece, gone over without being told.

ghost use Rattle.std.specs.Prelude.{◌≡◌, List};
ghost use Rattle.gob_read.specs.Machine.Running.{IsBefore};
ghost use Rattle.gob_read.specs.Machine.BasicParts.{IsInList, IsInMap, TakesBasicParts};
ghost use Rattle.gob_read.specs.Event.{Event};

use crate::builder::Builder;
use crate::frame::Frame;
use crate::next::{Moved, Next, NextNumber};
use crate::run::{Advance, Run};
use gob_types::{Shapes, TypeId};
use gob_value::{whole_elements, whole_entries};

impl<B: Builder> Run<B> {
    /// Goes at once over the parts of the innermost open list or map that stand whole in the piece, where the builder
    /// needn't be told, if the expected one is the next of them and no byte of it was taken before. Where there are
    /// none, nothing is done. Where one of them doesn't stand whole it says so, `cut`: then the piece isn't tried
    /// again, so that each byte of it is looked at twice at most.
    #[inline(always)]
    pub(crate) fn skip_parts<S: Shapes>(
        &mut self,
        shapes: &S,
        id: TypeId,
        rest: &[u8],
        cut: &mut bool,
    ) -> Advance
        requires { IsBefore (S.table shapes.now) B.building.received self.old
            (Next.Number (NextNumber.Part id)) rest.now }
        ensures { TakesBasicParts (S.table shapes.now) B.building.received self.old self.new rest.now result }
    {
        if *cut || self.start != self.taken || !self.state.builder.may_skip() {
            return Advance::NONE;
        }
        match self.state.stack.innermost() {
            Some(Frame::Many { elem, left }) => self.skip_elements(shapes, elem, left, rest, cut),
            Some(Frame::Key { key, elem, left }) => {
                self.skip_entries(shapes, key, elem, left, rest, cut)
            }
            _ => Advance::NONE,
        }
    }

    /// Goes over the elements that stand whole, but for the last one of the list, since the list ends with it.
    #[inline(never)]
    fn skip_elements<S: Shapes>(
        &mut self,
        shapes: &S,
        elem: TypeId,
        left: u64,
        rest: &[u8],
        cut: &mut bool,
    ) -> Advance
        requires before { IsBefore (S.table shapes.now) B.building.received self.old
            (Next.Number (NextNumber.Part elem)) rest.now }
        requires inside { IsInList elem left self.old.state.stack }
        requires untold { (us : List Event) → B.building.received self.old.state.builder us }
        requires fresh { self.old.start ≡ self.old.taken }
        ensures { TakesBasicParts (S.table shapes.now) B.building.received self.old self.new rest.now result }
    {
        let depth = self.depth - self.state.stack.depth();
        let elements = whole_elements(shapes, elem, left, rest, depth);
        *cut = elements.count < left;
        if elements.end == 0 {
            return Advance::NONE;
        }
        self.state.stack.replace(Frame::Many {
            elem,
            left: left - elements.count,
        });
        self.taken += elements.end as u64;
        self.start = self.taken;
        Advance {
            used: elements.end,
            moved: Moved::ToNext,
        }
    }

    /// Goes over the entries that stand whole, but for the last one of the map.
    #[inline(never)]
    fn skip_entries<S: Shapes>(
        &mut self,
        shapes: &S,
        key: TypeId,
        elem: TypeId,
        left: u64,
        rest: &[u8],
        cut: &mut bool,
    ) -> Advance
        requires before { IsBefore (S.table shapes.now) B.building.received self.old
            (Next.Number (NextNumber.Part key)) rest.now }
        requires inside { IsInMap key elem left self.old.state.stack }
        requires untold { (us : List Event) → B.building.received self.old.state.builder us }
        requires fresh { self.old.start ≡ self.old.taken }
        ensures { TakesBasicParts (S.table shapes.now) B.building.received self.old self.new rest.now result }
    {
        let depth = self.depth - self.state.stack.depth();
        let entries = whole_entries(shapes, key, elem, left, rest, depth);
        *cut = entries.count < left;
        if entries.end == 0 {
            return Advance::NONE;
        }
        self.state.stack.replace(Frame::Key {
            key,
            elem,
            left: left - entries.count,
        });
        self.taken += entries.end as u64;
        self.start = self.taken;
        Advance {
            used: entries.end,
            moved: Moved::ToNext,
        }
    }
}
