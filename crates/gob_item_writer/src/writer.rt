//! A writer of items that are given as nodes.

ghost use Rattle.std.specs.Prelude.{◌≡◌, ℕ, List, [], IfErr, IfOk};
ghost use Rattle.gob_num.specs.Unsigned.{AreBytes};
ghost use Rattle.gob_types.specs.Base.{base_table};
ghost use Rattle.gob_types.specs.Defined.{types};
ghost use Rattle.gob_types.specs.Definable.{IsDefinable};
ghost use Rattle.gob_types.specs.Table as known;
ghost use Rattle.gob_value.specs.Described.{described};
ghost use Rattle.gob_stream.specs.Bounds.{within_trees};
ghost use Rattle.gob_filled.specs.Filled.{Filled, SpellsFilled};
ghost use Rattle.gob_filled.specs.Stream.{FilledItem, defining, putting};
ghost use Rattle.gob_filled_writer.specs.Writing.{HasFailed, HasWritten as HasWrittenItems};
ghost use Rattle.gob_item_writer.specs.Writing.{DefineAnswers, HasWritten, IsOfType, PutAnswers};
ghost use Rattle.gob_item_writer.specs.Writing.{SaysTooMuch, StaysFailed, WritesItem, WritesNothing, waiting};

use crate::fault::ItemFault;
use gob_filled_writer::FilledWriter;
use gob_nodes::{Nodes, shape_of_nodes, size_of_bytes, spell_nodes};
use gob_num::Memory;
use gob_stream::{Limits, Output, WriteFault, judge_type};
use gob_types::{Reason, Shape, Table, TypeId};
use std::alloc::Global;
use std::mem::replace;

/// A writer of one stream of Go's encoder, each of whose items is given as nodes. What it writes waits until it is
/// taken.
pub struct ItemWriter {
    // Its types are those by which values are read.
    stream: FilledWriter,
    // Its limits, of which that for depth is no greater than 1000.
    limits: Limits,
    // What is written, without what was taken.
    waiting: Vec<u8>,
}

// Not derived, so that a drop is one call in the proofs of what owns one.
impl Drop for ItemWriter {
    fn drop(self) {
        let ItemWriter {
            stream: _,
            limits: _,
            waiting: _,
        } = self;
    }
}

impl ItemWriter {
    /// A writer that has written nothing, and keeps to these limits. No value may be deeper than `limits.depth()` or
    /// than 1000.
    pub fn new(alloc: Global, limits: Limits) -> Result<ItemWriter, Memory>
        ensures nothing { IfOk result (λ writer. HasWritten writer [] [] base_table) }
        ensures limits { IfOk result (λ writer. writer.stream.limits ≡ limits) }
        ensures waits { IfOk result (λ writer. waiting writer ≡ []) }
    {
        Ok(ItemWriter {
            stream: FilledWriter::new(alloc, limits)?,
            limits: limits.up_to(Limits::GREATEST_DEPTH),
            waiting: Vec::new(alloc),
        })
    }

    /// Writes the definition of the type that the nodes say. `ItemFault` says what each fault leaves.
    pub fn define(&mut self, alloc: Global, id: TypeId, given: Nodes<'_>) -> Result<(), ItemFault>
        ensures defines { (items : List FilledItem) (bytes : List ℕ) (T : known.Table)
            → HasWritten self.old items bytes T
            → DefineAnswers self.old self.new items bytes T id given.entry.nodes.now given.entry.bytes.now result }
        ensures stays { HasFailed self.old.stream → StaysFailed self.old self.new result }
    {
        self.admit(given, true)?;
        let shape = shape_of_nodes(alloc, given)?;
        Ok(self.write_definition(alloc, id, shape)?)
    }

    /// Writes the value of the type that the nodes say, with what its interfaces hold. `ItemFault` says what each fault
    /// leaves.
    pub fn put(&mut self, alloc: Global, id: TypeId, given: Nodes<'_>) -> Result<(), ItemFault>
        ensures puts { (items : List FilledItem) (bytes : List ℕ) (T : known.Table)
            → HasWritten self.old items bytes T
            → PutAnswers self.old self.new items bytes T id given.entry.nodes.now given.entry.bytes.now result }
        ensures stays { HasFailed self.old.stream → StaysFailed self.old self.new result }
    {
        judge(alloc, self.stream.table(), id)?;
        self.admit(given, false)?;
        let mut body = Vec::new(alloc);
        let depth = self.limits.depth();
        spell_nodes(alloc, self.stream.table(), id, depth, given, &mut body)?;
        Ok(self.write_value(alloc, id, &body)?)
    }

    /// What is written and waits to be taken.
    pub fn waiting(&self) -> &[u8]
        ensures { result.now ≡ waiting self.now }
    {
        self.waiting.as_slice()
    }

    /// Takes what waits.
    pub fn pass(&mut self)
        ensures taken { waiting self.new ≡ [] }
        ensures stream { self.new.stream ≡ self.old.stream }
        ensures limits { self.new.limits ≡ self.old.limits }
    {
        self.waiting.clear();
    }

    // Whether the nodes say no more bytes than an item may have.
    fn admit(&self, given: Nodes<'_>, defines: bool) -> Result<(), WriteFault>
        ensures { IfErr result (λ f. (f ≡ WriteFault.Refused Reason.ItemTooLong)
            × SaysTooMuch self.now defines given.entry.nodes.now) }
    {
        if size_of_bytes(given.nodes, defines) > self.limits.item() {
            return Err(WriteFault::Refused(Reason::ItemTooLong));
        }
        Ok(())
    }

    // Writes the definition of the type by its shape.
    fn write_definition(
        &mut self,
        alloc: Global,
        id: TypeId,
        shape: Shape,
    ) -> Result<(), WriteFault>
        requires { IsDefinable shape }
        ensures writes { (items : List FilledItem) (bytes : List ℕ) (T : known.Table)
            → HasWrittenItems self.old.stream items bytes T
            → WritesItem self.old self.new items bytes T (defining id (described id shape)) result }
        ensures stays { HasFailed self.old.stream → WritesNothing self.old self.new result }
    {
        let before = self.waiting.len();
        let mut output = Output::new(replace(&mut self.waiting, Vec::new(alloc)));
        let answer = self.stream.define(alloc, &mut output, id, shape);
        self.waiting = output.into_inner();
        if answer.is_err() {
            self.waiting.truncate(before);
        }
        answer
    }

    // Writes the value of the type by its bytes.
    fn write_value(&mut self, alloc: Global, id: TypeId, body: &[u8]) -> Result<(), WriteFault>
        ensures writes { (items : List FilledItem) (bytes : List ℕ) (T : known.Table) (value : Filled)
            → HasWrittenItems self.old.stream items bytes T → let L = within_trees self.old.stream.limits in
            SpellsFilled base_table L T id L.depth value body.now T
            → WritesItem self.old self.new items bytes T (putting id value) result }
        ensures stays { HasFailed self.old.stream → WritesNothing self.old self.new result }
        ensures holds { AreBytes body.now }
    {
        let before = self.waiting.len();
        let mut output = Output::new(replace(&mut self.waiting, Vec::new(alloc)));
        let answer = self.stream.put(alloc, &mut output, id, body);
        self.waiting = output.into_inner();
        if answer.is_err() {
            self.waiting.truncate(before);
        }
        answer
    }
}

// Whether values of the type may come now.
fn judge(alloc: Global, table: &Table, id: TypeId) -> Result<(), WriteFault>
    ensures { IfErr result (IsOfType (types table.now) id) }
{
    Ok(judge_type(alloc, table, id)?)
}
