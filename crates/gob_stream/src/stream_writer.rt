//! Writing a stream item by item.

ghost use Rattle.std.specs.Prelude.{◌≡◌, IfOk};
ghost use Rattle.gob_value.specs.Tree.{Tree};
ghost use Rattle.gob_value.specs.View.{view};
ghost use Rattle.gob_stream.specs.Bounds.{within_trees};
ghost use Rattle.gob_stream.specs.Calls.Ends.{writer_of};
ghost use Rattle.gob_stream.specs.Item.{defines, puts, item_view};
ghost use Rattle.gob_stream.specs.Calls.Writing.{IsNew, WritesNext, WriteAnswers, WriteEffects};
ghost use Rattle.gob_stream.specs.Calls.Writing.{IsSpelling, IsSpelledAs, writer_limits, writer_table, writer_types};

use crate::denial::define_admitted;
use crate::fault::WriteFault;
use crate::item::Item;
use crate::item_bytes::{begin_item, spell_definition, spell_head, spell_value};
use crate::limits::Limits;
use crate::output::Output;
use crate::write_place::WritePlace;
use gob_num::Memory;
use gob_types::{Table, TypeId};
use gob_value::Value;
use std::alloc::Global;
use std::io::Write;
use std::marker::Model;

/// A writer of one stream, from its first byte on. Each item goes out whole or not at all, unless a write fails.
/// Values as trees are no deeper than the lesser of the limit for depth and 1000.
pub struct StreamWriter {
    limits: Limits,
    // The types of the stream so far.
    types: Table,
    place: WritePlace,
    // Where the body of an item is spelled, and then the item, both without a spelling that the caller has: kept from
    // one item to the next.
    body: Vec<u8>,
    item: Vec<u8>,
}

// Not derived, so that a drop is one call in the proofs of what owns one.
impl Drop for StreamWriter {
    fn drop(self) {
        let StreamWriter {
            limits: _,
            types: _,
            place: _,
            body: _,
            item: _,
        } = self;
    }
}

impl Model for StreamWriter {
    ghost use Rattle.std.specs.Coded.{codes};
    ghost use Rattle.gob_stream.specs.Machine.WriterState.{WriterState};
    ghost use Rattle.gob_stream.specs.Calls.Writing.{IsUsableWriter};

    ghost Value = { WriterState };

    ghost coded = { Prim.hlevel codes };

    ghost view = { λ writer. record { limits = writer.limits; types = writer.types; place = writer.place } };

    // It has written some items, or a write failed.
    ghost invariant = { λ writer. IsUsableWriter (record {
      limits = writer.limits;
      types = writer.types;
      place = writer.place;
    }) };
}

impl StreamWriter {
    /// A writer that has written nothing, and keeps to these limits.
    pub fn new(alloc: Global, limits: Limits) -> Result<StreamWriter, Memory>
        ensures { IfOk result (λ writer. IsNew writer limits) }
    {
        let types = Table::new(alloc, limits.types())?;
        Ok(StreamWriter {
            limits,
            types,
            place: WritePlace {
                offset: 0,
                failed: false,
            },
            body: Vec::new(alloc),
            item: Vec::new(alloc),
        })
    }

    /// The types that the stream has defined so far.
    pub fn table(&self) -> &Table
        ensures { result.now ≡ writer_table self.now }
    {
        &self.types
    }

    /// Writes the definition of a type, by its description, a value of type 16. Refused, in this order: an id below
    /// 64 or above 2147483647 as `ReservedType`, one that is defined already as `DefinedTwice`, a definition beyond
    /// the limit for types as `TooManyTypes`, a description that is deeper than the limit as `TooDeep`, one that isn't
    /// a value of type 16 as `DoesNotFit`, one that describes no shape for this id as `KindCount`, `WrongId`,
    /// `BadReference` or `BadLength`, an item whose count is above the limit for items as `ItemTooLong`, and one that
    /// would end beyond the limit for the stream as `StreamTooLong`. The type needn't be ready. `WriteFault` says what
    /// each fault leaves. (docs/FORMAT.md, Refusals, the writer's order.)
    pub fn define<W: Write>(
        &mut self,
        alloc: Global,
        output: &mut Output<W>,
        id: TypeId,
        described: &Value,
    ) -> Result<(), WriteFault>
        ensures { WriteAnswers (within_trees (writer_limits self.old)) self.old self.new
            (defines id (view described.now)) W.contents output.old output.new result }
    {
        if self.place.failed {
            return Err(WriteFault::Failed);
        }
        let limits = self.limits.up_to(Limits::GREATEST_DEPTH);
        let shape = spell_definition(alloc, &self.types, &limits, id, described, &mut self.body)?;
        begin_item(
            alloc,
            &limits,
            self.place.offset,
            &self.body,
            &[],
            &mut self.item,
        )?;
        define_admitted(alloc, &mut self.types, id, shape)?;
        self.place.send(output, &self.item, &[])
    }

    /// Writes a value of a type. Refused, in this order: a type that leads to one that isn't defined, or is 24, as
    /// `UndefinedType`, one that leads to an array without finite values as `Bottomless`, a value that is deeper than
    /// the limit as `TooDeep`, a value that isn't one of the type as `DoesNotFit`, an item whose count is above the
    /// limit for items as `ItemTooLong`, and one that would end beyond the limit for the stream as `StreamTooLong`.
    /// `WriteFault` says what each fault leaves. (docs/FORMAT.md, Refusals, the writer's order.)
    pub fn put<W: Write>(
        &mut self,
        alloc: Global,
        output: &mut Output<W>,
        id: TypeId,
        value: &Value,
    ) -> Result<(), WriteFault>
        ensures { WriteAnswers (within_trees (writer_limits self.old)) self.old self.new
            (puts id (view value.now)) W.contents output.old output.new result }
    {
        if self.place.failed {
            return Err(WriteFault::Failed);
        }
        let limits = self.limits.up_to(Limits::GREATEST_DEPTH);
        spell_value(alloc, &self.types, &limits, id, value, &mut self.body)?;
        begin_item(
            alloc,
            &limits,
            self.place.offset,
            &self.body,
            &[],
            &mut self.item,
        )?;
        self.place.send(output, &self.item, &[])
    }

    /// Writes a value of a type by its spelling. These are the bytes of the value alone: the tag is written before
    /// them where the type is no struct. Where the type is ready, they must spell a value of it that is no deeper than
    /// the limit, which may be 65536 here. Refused, in this order: a type that leads to one that isn't defined, or is
    /// 24, as `UndefinedType`, one that leads to an array without finite values as `Bottomless`, an item whose count
    /// is above the limit for items as `ItemTooLong`, and one that would end beyond the limit for the stream as
    /// `StreamTooLong`. `WriteFault` says what each fault leaves. (docs/FORMAT.md, Refusals, the writer's order.)
    /// No copy of the spelling is made: it goes out as it stands, behind a write of what comes before it in the item.
    pub fn put_spelled<W: Write>(
        &mut self,
        alloc: Global,
        output: &mut Output<W>,
        id: TypeId,
        spelling: &[u8],
    ) -> Result<(), WriteFault>
        requires { IsSpelling (writer_limits self.old) (writer_types self.old) id spelling.now }
        ensures writes { (v : Tree) → IsSpelledAs (writer_limits self.old) (writer_types self.old) id spelling.now v
            → WritesNext (writer_limits self.old) self.old self.new (puts id v)
            (W.contents (writer_of output.old)) (W.contents (writer_of output.new)) result }
        ensures effects { WriteEffects self.old self.new W.contents output.old output.new result }
    {
        if self.place.failed {
            return Err(WriteFault::Failed);
        }
        spell_head(alloc, &self.types, id, &mut self.body)?;
        begin_item(
            alloc,
            &self.limits,
            self.place.offset,
            &self.body,
            spelling,
            &mut self.item,
        )?;
        self.place.send(output, &self.item, spelling)
    }

    /// Writes an item.
    pub(crate) fn write_item<W: Write>(
        &mut self,
        alloc: Global,
        output: &mut Output<W>,
        item: &Item<Value>,
    ) -> Result<(), WriteFault>
        ensures { WriteAnswers (within_trees (writer_limits self.old)) self.old self.new
            (item_view item.now) W.contents output.old output.new result }
    {
        match item {
            Item::Define { id, described } => self.define(alloc, output, *id, described),
            Item::Put { id, value } => self.put(alloc, output, *id, value),
        }
    }
}
