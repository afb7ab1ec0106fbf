//! Writing a stream item by item.

ghost use Rattle.std.specs.Prelude.{◌≡◌, ◌+◌, ◌^◌, ◌<◌, ◌++◌, ℕ, List, [], Err, IfOk, length};
ghost use Rattle.gob_types.specs.Base.{base_table};
ghost use Rattle.gob_types.specs.Definable.{IsDefinable};
ghost use Rattle.gob_types.specs.Table as known;
ghost use Rattle.gob_value.specs.Described.{described};
ghost use Rattle.gob_filled.specs.Filled.{Filled, SpellsFilled};
ghost use Rattle.gob_filled.specs.Stream.{FilledItem, defining, putting};
ghost use Rattle.gob_stream.specs.Bounds.{within_trees};
ghost use Rattle.gob_stream.specs.Calls.Ends.{failed_writes, writer_of};
ghost use Rattle.gob_stream.specs.Calls.Writing.{CountsWriterFaults};
ghost use Rattle.gob_filled_writer.specs.Writing.{HasFailed, HasWritten, SendAnswers, WriteAnswers};
ghost use Rattle.gob_filled_writer.specs.Writing.{limits_of, table_of};

use crate::head::{item_head, spell_description};
use gob_num::Memory;
use gob_stream::{Limits, Output, WriteFault, define_admitted, judge_type};
use gob_types::{Shape, Table, TypeId};
use std::alloc::Global;
use std::io::Write;

/// A writer of one stream of Go's encoder, from its first byte on. Each item goes out whole or not at all, unless a
/// write fails. No value is deeper than the lesser of the limit for depth and 1000, where what an interface holds lies
/// one deeper than the interface.
pub struct FilledWriter {
    limits: Limits,
    // The types of the stream so far.
    types: Table,
    // How many bytes of it are out.
    offset: u64,
    // Whether a write failed.
    failed: bool,
}

// Not derived, so that a drop is one call in the proofs of what owns one.
impl Drop for FilledWriter {
    fn drop(self) {
        let FilledWriter {
            limits: _,
            types: _,
            offset: _,
            failed: _,
        } = self;
    }
}

impl FilledWriter {
    /// A writer that has written nothing, and keeps to these limits.
    pub fn new(alloc: Global, limits: Limits) -> Result<FilledWriter, Memory>
        ensures nothing { IfOk result (λ writer. HasWritten writer [] [] base_table) }
        ensures limits { IfOk result (λ writer. limits_of writer ≡ limits) }
    {
        let types = Table::new(alloc, limits.types())?;
        Ok(FilledWriter {
            limits,
            types,
            offset: 0,
            failed: false,
        })
    }

    /// The types that the stream has defined so far.
    pub fn table(&self) -> &Table
        ensures { result.now ≡ table_of self.now }
    {
        &self.types
    }

    /// Writes the definition of a type, by its shape, of which it makes the description. Refused, in this order: an id
    /// below 64 or above 2147483647 as `ReservedType`, one that is defined already as `DefinedTwice`, a definition
    /// beyond the limit for types as `TooManyTypes`, a description that is deeper than the limit as `TooDeep`, an item
    /// whose count is above the limit for items as `ItemTooLong`, and one that would end beyond the limit for the
    /// stream as `StreamTooLong`. The type needn't be ready. (docs/FORMAT.md, Refusals, the writer's order.)
    pub fn define<W: Write>(
        &mut self,
        alloc: Global,
        output: &mut Output<W>,
        id: TypeId,
        shape: Shape,
    ) -> Result<(), WriteFault>
        requires { IsDefinable shape }
        ensures writes { (items : List FilledItem) (bytes : List ℕ) (T : known.Table)
            → HasWritten self.old items bytes T → WriteAnswers (within_trees (limits_of self.old)) self.old self.new
            items bytes T (defining id (described id shape)) (W.contents (writer_of output.old))
            (W.contents (writer_of output.new)) result }
        ensures stays { HasFailed self.old
            → (result ≡ Err WriteFault.Failed) × (self.new ≡ self.old) × (output.new ≡ output.old) }
        ensures counted { CountsWriterFaults (failed_writes output.old) (failed_writes output.new) result }
    {
        if self.failed {
            return Err(WriteFault::Failed);
        }
        let limits = self.limits.up_to(Limits::GREATEST_DEPTH);
        let description = spell_description(alloc, &self.types, limits, id, &shape)?;
        let number = -(id.0 as i64);
        let head = item_head(alloc, limits, self.offset, number, &description)?;
        define_admitted(alloc, &mut self.types, id, shape)?;
        self.send(output, &head, &description)
    }

    /// Writes a value of a type by its bytes, which spell it behind the number of its type and define nothing. Refused,
    /// in this order: a type that leads to one that isn't defined, or is 24, as `UndefinedType`, one that leads to an
    /// array without finite values as `Bottomless`, an item whose count is above the limit for items as `ItemTooLong`,
    /// and one that would end beyond the limit for the stream as `StreamTooLong`. (docs/FORMAT.md, Refusals, the
    /// writer's order.)
    pub fn put<W: Write>(
        &mut self,
        alloc: Global,
        output: &mut Output<W>,
        id: TypeId,
        body: &[u8],
    ) -> Result<(), WriteFault>
        ensures writes { (items : List FilledItem) (bytes : List ℕ) (T : known.Table) (value : Filled)
            → HasWritten self.old items bytes T → let L = within_trees (limits_of self.old) in
            SpellsFilled base_table L T id L.depth value body.now T → WriteAnswers L self.old self.new items bytes T
            (putting id value) (W.contents (writer_of output.old)) (W.contents (writer_of output.new)) result }
        ensures stays { HasFailed self.old
            → (result ≡ Err WriteFault.Failed) × (self.new ≡ self.old) × (output.new ≡ output.old) }
        ensures counted { CountsWriterFaults (failed_writes output.old) (failed_writes output.new) result }
    {
        if self.failed {
            return Err(WriteFault::Failed);
        }
        judge_type(alloc, &self.types, id)?;
        let limits = self.limits.up_to(Limits::GREATEST_DEPTH);
        let head = item_head(alloc, limits, self.offset, id.0 as i64, body)?;
        self.send(output, &head, body)
    }

    // Sends the bytes of an item, and behind them the rest of its bytes. It counts as a failed write until the last of
    // them is out.
    fn send<W: Write>(
        &mut self,
        output: &mut Output<W>,
        head: &[u8],
        rest: &[u8],
    ) -> Result<(), WriteFault>
        requires { self.old.offset + length (head.now ++ rest.now) < 2 ^ 64 }
        ensures sends { SendAnswers self.old self.new (head.now ++ rest.now)
            (W.contents (writer_of output.old)) (W.contents (writer_of output.new)) result }
        ensures counted { CountsWriterFaults (failed_writes output.old) (failed_writes output.new) result }
    {
        self.failed = true;
        output.send_all(head)?;
        output.send_all(rest)?;
        self.failed = false;
        self.offset += (head.len() + rest.len()) as u64;
        Ok(())
    }
}
