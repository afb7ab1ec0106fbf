//! What is kept of a stream while it is read.

ghost use Rattle.std.specs.Prelude.{◌≡◌, ◌++◌, [], MatchBool, OnOk};
ghost use Rattle.gob_types.specs.Defined.{types};
ghost use Rattle.gob_explain.specs.Putting.{PutsMore};
ghost use Rattle.gob_why.specs.Explain.{IsChosen};
ghost use Rattle.gob_why.specs.Machine.Keeping.{EndsItem, ExplainsEnd, GoesOn};

use crate::explained::Explained;
use gob_explain::{LinesOut, push_first_bytes};
use gob_go::GoItem;
use gob_json::TextOut;
use gob_num::Memory;
use gob_types::{Table, TypeId};
use std::alloc::Global;
use std::collections::BTreeMap;

/// What is kept: little of what is whole, and all of the item under way.
pub(crate) struct Kept {
    /// The bytes of the item under way, and behind a refusal also those that were read and not taken.
    pub(crate) item: Vec<u8>,
    /// The offset at which that item begins.
    pub(crate) begin: u64,
    /// How many items stand before it.
    pub(crate) items: u64,
    /// How many values of each type there were, by its id.
    pub(crate) values: BTreeMap<u64, u64>,
    /// Which items are explained. None: none is.
    pub(crate) explained: Option<Explained>,
}

// Not derived, so that a drop is one call in the proofs of what owns one.
impl Drop for Kept {
    fn drop(self) {
        let Kept {
            item: _,
            begin: _,
            items: _,
            values: _,
            explained: _,
        } = self;
    }
}

impl Kept {
    /// Nothing.
    pub(crate) fn new(alloc: Global, explained: Option<Explained>) -> Kept
        ensures item { result.item.items ≡ [] }
        ensures begin { result.begin ≡ 0 }
        ensures items { result.items ≡ 0 }
        ensures explained { result.explained ≡ explained }
    {
        Kept {
            item: Vec::new(alloc),
            begin: 0,
            items: 0,
            values: BTreeMap::new(alloc),
            explained,
        }
    }

    /// Keeps bytes of the item under way.
    pub(crate) fn keep(&mut self, bytes: &[u8]) -> Result<(), Memory>
        ensures item { OnOk result (self.new.item.items ≡ self.old.item.items ++ bytes.now) }
        ensures begin { self.new.begin ≡ self.old.begin }
        ensures items { self.new.items ≡ self.old.items }
        ensures explained { self.new.explained ≡ self.old.explained }
    {
        Ok(self.item.extend_from_slice(bytes)?)
    }

    /// Keeps bytes of the item under way, or where they end it, goes on to the next.
    pub(crate) fn go_on<O: TextOut>(
        &mut self,
        alloc: Global,
        table: &Table,
        item: &Option<GoItem>,
        bytes: &[u8],
        lines: &mut LinesOut<O>,
    ) -> Result<(), Memory>
        ensures put { PutsMore O.puts lines.old.out lines.old.fault lines.new.out lines.new.fault
            (GoesOn self.old.explained (types table.now) item.now self.old.item.items self.old.begin bytes.now
            self.new.item.items self.new.begin result) }
        ensures items { self.new.items ≡ self.old.items }
        ensures explained { self.new.explained ≡ self.old.explained }
    {
        match item {
            None => self.keep(bytes),
            Some(GoItem::Define { .. }) => self.end_item(alloc, table, bytes, lines),
            Some(GoItem::Put { id, .. }) => self.pass_value(alloc, table, *id, bytes, lines),
        }
    }

    /// Goes past a value of this type, whose item ends with these bytes.
    pub(crate) fn pass_value<O: TextOut>(
        &mut self,
        alloc: Global,
        table: &Table,
        id: TypeId,
        bytes: &[u8],
        lines: &mut LinesOut<O>,
    ) -> Result<(), Memory>
        ensures put { PutsMore O.puts lines.old.out lines.old.fault lines.new.out lines.new.fault
            (EndsItem self.old.explained (types table.now) self.old.item.items self.old.begin bytes.now
            self.new.item.items self.new.begin result) }
        ensures items { self.new.items ≡ self.old.items }
        ensures explained { self.new.explained ≡ self.old.explained }
    {
        self.count_value(id)?;
        self.end_item(alloc, table, bytes, lines)
    }

    // Counts a value of this type.
    fn count_value(&mut self, id: TypeId) -> Result<(), Memory>
        ensures item { self.new.item ≡ self.old.item }
        ensures begin { self.new.begin ≡ self.old.begin }
        ensures items { self.new.items ≡ self.old.items }
        ensures explained { self.new.explained ≡ self.old.explained }
    {
        let count = self.values.entry(id.0)?.or_insert(0);
        *count = count.saturating_add(1);
        Ok(())
    }

    // Goes on to the next item, behind the last bytes of this one, and explains it where that is asked for.
    fn end_item<O: TextOut>(
        &mut self,
        alloc: Global,
        table: &Table,
        bytes: &[u8],
        lines: &mut LinesOut<O>,
    ) -> Result<(), Memory>
        ensures put { PutsMore O.puts lines.old.out lines.old.fault lines.new.out lines.new.fault
            (EndsItem self.old.explained (types table.now) self.old.item.items self.old.begin bytes.now
            self.new.item.items self.new.begin result) }
        ensures items { self.new.items ≡ self.old.items }
        ensures explained { self.new.explained ≡ self.old.explained }
    {
        let size = (self.item.len() as u64).saturating_add(bytes.len() as u64);
        self.explain_end(alloc, table, bytes, size, lines)?;
        self.begin = self.begin.saturating_add(size);
        self.item.clear();
        Ok(())
    }

    // Explains the item that ends with these bytes and has so many with them, where that is asked for.
    fn explain_end<O: TextOut>(
        &mut self,
        alloc: Global,
        table: &Table,
        bytes: &[u8],
        size: u64,
        lines: &mut LinesOut<O>,
    ) -> Result<(), Memory>
        ensures put { PutsMore O.puts lines.old.out lines.old.fault lines.new.out lines.new.fault
            (ExplainsEnd self.old.explained (types table.now) self.old.begin (self.old.item.items ++ bytes.now) size
            result) }
        ensures begin { self.new.begin ≡ self.old.begin }
        ensures items { self.new.items ≡ self.old.items }
        ensures explained { self.new.explained ≡ self.old.explained }
    {
        if !self.is_chosen(size) {
            return Ok(());
        }
        self.keep(bytes)?;
        push_first_bytes(alloc, table, self.item.as_slice(), self.begin, lines);
        Ok(())
    }

    // Whether the item is explained that is whole with so many bytes.
    fn is_chosen(&self, size: u64) -> bool
        ensures { MatchBool result (IsChosen self.now.explained self.now.begin size)
            (¬ IsChosen self.now.explained self.now.begin size) }
    {
        match self.explained {
            None | Some(Explained::Fault) => false,
            Some(Explained::All) => true,
            Some(Explained::At(offset)) => self.begin <= offset && offset - self.begin < size,
        }
    }
}
