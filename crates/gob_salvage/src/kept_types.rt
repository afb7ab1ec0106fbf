//! The types of the values that were kept.

ghost use Rattle.std.specs.Prelude.{[], List, IsTrue, OnOk};
ghost use Rattle.gob_filled.specs.Stream.{FilledItem};
ghost use Rattle.gob_salvage.specs.Evidence.{AllDefine, HasValue};
ghost use Rattle.gob_salvage.specs.Searching.{AreNoted, NotesItemOf, NotesItemsOf};

use crate::frame::frame_at;
use gob_num::Memory;
use gob_stream::Limits;
use gob_types::TypeId;
use indexmap::IndexSet;
use std::alloc::Global;

/// The types of the values that were kept.
pub(crate) struct KeptTypes {
    ids: IndexSet<u64>,
    // Whether a value was kept.
    any: bool,
}

// Not derived, so that a drop is one call in the proofs of what owns one.
impl Drop for KeptTypes {
    fn drop(self) {
        let KeptTypes { ids: _, any: _ } = self;
    }
}

impl KeptTypes {
    /// No value was kept yet.
    pub(crate) fn new(alloc: Global) -> KeptTypes
        ensures { AreNoted result [] }
    {
        KeptTypes {
            ids: IndexSet::new(alloc),
            any: false,
        }
    }

    /// Whether no value was kept.
    pub(crate) fn is_empty(&self) -> bool
        ensures { IsTrue result → (kept : List FilledItem) → AreNoted self.now kept → AllDefine kept }
    {
        !self.any
    }

    /// Whether a value of the type was kept.
    pub(crate) fn has(&self, id: TypeId) -> bool
        ensures { IsTrue result → (kept : List FilledItem) → AreNoted self.now kept → HasValue kept id.0 }
    {
        self.ids.contains(&id.0)
    }

    /// Notes the type of the item that the bytes are, if it is a value.
    pub(crate) fn note_item(&mut self, limits: &Limits, item: &[u8]) -> Result<(), Memory>
        ensures { OnOk result (NotesItemOf item.now self.old self.new) }
    {
        match frame_at(limits, item, 0) {
            Some(frame) if frame.number < 0 => Ok(()),
            Some(frame) => {
                self.any = true;
                self.ids.insert(frame.number as u64)?;
                Ok(())
            }
            None => {
                self.any = true;
                Ok(())
            }
        }
    }

    /// Notes the types of the items of values that the bytes are, one behind another, and that define nothing.
    pub(crate) fn note_values(&mut self, limits: &Limits, values: &[u8]) -> Result<(), Memory>
        ensures { OnOk result (NotesItemsOf values.now self.old self.new) }
    {
        self.any = true;
        let mut last = -1;
        let mut at = 0;
        'values: for _ in 0..values.len() {
            let Some(frame) = frame_at(limits, values, at) else {
                return Ok(());
            };
            if frame.number != last && frame.number >= 0 {
                self.ids.insert(frame.number as u64)?;
                last = frame.number;
            }
            at = frame.end;
        }
        Ok(())
    }
}
