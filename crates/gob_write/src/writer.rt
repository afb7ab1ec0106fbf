//! A writer of the stream of values that plain JSON says.

ghost use Rattle.std.specs.Prelude.{◌≡◌, ℕ, List, [], Option, IfOk};
ghost use Rattle.std.specs.Option.{option_map};
ghost use Rattle.gob_types.specs.Base.{base_table};
ghost use Rattle.gob_types.specs.Table as known;
ghost use Rattle.gob_value.specs.View.{view};
ghost use Rattle.gob_stream.specs.Bounds.{within_trees};
ghost use Rattle.gob_stream.specs.Item.{StreamItem, defines};
ghost use Rattle.gob_stream.specs.Calls.Ends.{failed_writes, writer_of};
ghost use Rattle.gob_stream.specs.Calls.Writing.{CountsWriterFaults, WriteAnswers, writer_limits, writer_types};
ghost use Rattle.gob_make.specs.Tells.{SaysPlain};
ghost use Rattle.gob_write.specs.Faults.{CountsWrites, IsNoRead, writing_result};
ghost use Rattle.gob_write.specs.Place.{IsPlaceIn};
ghost use Rattle.gob_write.specs.Says.{HasWrittenTexts, IsWithinTrees, Saying, TextAnswers, of_values};

use crate::fault::LinesFault;
use crate::place::Place;
use gob_lines::LineFault;
use gob_make::{Making, read_plain};
use gob_num::Memory;
use gob_stream::{Limits, Output, StreamWriter, WriteFault};
use gob_types::TypeId;
use gob_value::Value;
use json::Scratch;
use std::alloc::Global;
use std::io::Write;
use std::str;

/// A writer of the stream of definitions and the values that texts of plain JSON say, from its first item on.
pub(crate) struct PlainWriter {
    // Its types are those by which a text is read.
    writer: StreamWriter,
    scratch: Scratch,
    making: Making,
    // How many members were left out.
    left_out: u64,
}

// Not derived, so that a drop is one call in the proofs of what owns one.
impl Drop for PlainWriter {
    fn drop(self) {
        let PlainWriter {
            writer: _,
            scratch: _,
            making: _,
            left_out: _,
        } = self;
    }
}

impl PlainWriter {
    /// A writer that has written nothing, and keeps to these limits.
    pub(crate) fn new(alloc: Global, limits: Limits, making: Making) -> Result<PlainWriter, Memory>
        ensures { IfOk result (λ writer.
            HasWrittenTexts (of_values making (within_trees limits)) writer [] [] base_table) }
    {
        Ok(PlainWriter {
            writer: StreamWriter::new(alloc, limits.up_to(Limits::GREATEST_DEPTH))?,
            scratch: Scratch::new(alloc),
            making,
            left_out: 0,
        })
    }

    /// How many members were left out, which no field has.
    pub(crate) fn left_out(&self) -> u64 {
        self.left_out
    }

    /// Writes the definition of a type, which has this description.
    pub(crate) fn write_definition<W: Write>(
        &mut self,
        alloc: Global,
        id: TypeId,
        described: &Value,
        output: &mut Output<W>,
    ) -> Result<(), WriteFault>
        ensures answers { WriteAnswers (within_trees (writer_limits self.old.writer)) self.old.writer self.new.writer
            (defines id (view described.now)) W.contents output.old output.new result }
        ensures making { self.new.making ≡ self.old.making }
    {
        self.writer.define(alloc, output, id, described)
    }

    /// Writes the value that the text says, which begins at this place, if it says one.
    pub(crate) fn write<W: Write>(
        &mut self,
        alloc: Global,
        text: &[u8],
        start: Place,
        output: &mut Output<W>,
    ) -> Result<(), LinesFault>
        ensures says { (S : Saying) (items : List StreamItem) (bytes : List ℕ) (T : known.Table)
            → IsWithinTrees S → HasWrittenTexts S self.old items bytes T
            → TextAnswers S self.new items bytes T text.now start
            (W.contents (writer_of output.old)) (W.contents (writer_of output.new)) result }
        ensures counted { CountsWrites (failed_writes output.old) (failed_writes output.new) result }
        ensures unread { IsNoRead result }
    {
        match self.said(alloc, text) {
            Ok(Some(value)) => {
                let written = self.writer.put(alloc, output, self.making.id, &value);
                told(written, value_place(text, start).line)
            }
            Ok(None) => Ok(()),
            Err(LineFault::Wrong(wrong)) => Err(LinesFault::wrong_in(alloc, start, text, wrong)),
            Err(LineFault::Memory) => Err(LinesFault::Memory),
        }
    }

    // What the text says.
    fn said(&mut self, alloc: Global, text: &[u8]) -> Result<Option<Value>, LineFault>
        ensures said { IfOk result (λ found. SaysPlain self.old.making.lenient (writer_types self.old.writer)
            self.old.making.id text.now (option_map view found)) }
        ensures writer { self.new.writer ≡ self.old.writer }
        ensures making { self.new.making ≡ self.old.making }
    {
        match str::from_utf8(text) {
            Ok(text) => read_plain(
                alloc,
                self.writer.table(),
                self.making,
                text,
                &mut self.scratch,
                &mut self.left_out,
            ),
            Err(error) => Err(LineFault::no_text(alloc, error.valid_up_to())),
        }
    }
}

/// The place of the value in a text that begins at this one, which is behind the white space in front.
fn value_place(text: &[u8], start: Place) -> Place
    ensures { IsPlaceIn start text.now result.line result.column }
{
    let mut place = start;
    'blanks: for byte in text {
        if !matches!(*byte, b' ' | b'\t' | b'\r' | b'\n') {
            return place;
        }
        place = place.next(*byte);
    }
    place
}

/// What writing the item of this line answers, where the writer answered this.
pub(crate) fn told(written: Result<(), WriteFault>, line: u64) -> Result<(), LinesFault>
    ensures told { result ≡ writing_result line written }
    ensures counted { (failures failures' : ℕ) → CountsWriterFaults failures failures' written
        → CountsWrites failures failures' result }
    ensures unread { IsNoRead result }
{
    match written {
        Ok(()) => Ok(()),
        Err(WriteFault::Refused(reason)) => Err(LinesFault::Refused { line, reason }),
        Err(WriteFault::Write) => Err(LinesFault::Write),
        // The run ends at the first write that fails, so none failed before.
        Err(WriteFault::Memory) | Err(WriteFault::Failed) => Err(LinesFault::Memory),
    }
}
