//! The run that writes the stream of lines that `show` and `show --go` print.

ghost use Rattle.std.specs.Prelude.{◌≡◌, ℕ, Bool, List, [], Option, Some, IfErr, IfOk, OnOk, false};
ghost use Rattle.std.specs.Io.KnownBytes.{Appends};
ghost use Rattle.std.specs.Str.{IsUtf8};
ghost use Rattle.json.specs.Lex.{tokens};
ghost use Rattle.gob_types.specs.Base.{base_table};
ghost use Rattle.gob_types.specs.Table as known;
ghost use Rattle.gob_types.specs.declared.id.TypeId.{TypeId};
ghost use Rattle.gob_types.specs.declared.kind.Shape.{Shape};
ghost use Rattle.gob_stream.specs.Bounds.{Bounds, within_trees};
ghost use Rattle.gob_stream.specs.Calls.Ends.{failed_reads, failed_writes, is_unflushed, reader_of, writer_of};
ghost use Rattle.gob_stream.specs.Calls.Writing.{CountsWriterFaults};
ghost use Rattle.gob_filled.specs.Stream.{FilledItem};
ghost use Rattle.gob_filled_writer.specs.Writing.{types_of};
ghost use Rattle.gob_lines.specs.Complete.{SaysDefinition};
ghost use Rattle.gob_lines.specs.Reads.{IsWrong};
ghost use Rattle.gob_go_lines.specs.Lines.{SaysPut, Tells};
ghost use Rattle.gob_write.specs.Faults.{CountsAllWrites, CountsReads, CountsWrites, IsNoRead};
ghost use Rattle.gob_write.specs.Exact.{exact_lines};
ghost use Rattle.gob_write.specs.Grammar.{RunAnswers};
ghost use Rattle.gob_write.specs.Shown.{DefinesDefinable, FilledLineAnswers, HasWrittenFilled, WritesFilledSaid};
ghost use Rattle.gob_write.specs.Shown.{filled_lines, form_of};

use crate::fault::LinesFault;
use crate::lines::next_line;
use crate::run::end_lines;
use crate::writer::told;
use gob_filled_writer::FilledWriter;
use gob_go_lines::{Form, GoLine, read_go_line};
use gob_lines::LineFault;
use gob_num::Memory;
use gob_stream::{Input, Limits, Output, Waiting, WriteFault, judge_type};
use json::Scratch;
use std::alloc::Global;
use std::io::{Read, Write};
use std::str;

/// Which lines a run takes.
#[derive(Clone, Copy, Debug, PartialEq, Eq)]
pub struct ShownLines {
    /// The most bytes that a line may have, with its line feed.
    pub most: u64,
    /// Whether interfaces may hold values, as `show --go` prints them. Else each is nil.
    pub holds: bool,
}

/// Writes the stream of the items that the lines say, as `show` prints them, or `show --go`, and nothing else, and ends
/// with a flush. A line without tokens says none. Ok exactly where all lines say items that continue one another.
/// Before a fault is answered the items of the lines before are written. What it takes in memory grows with the types
/// and the longest line alone.
pub fn run_write<R: Read, W: Write>(
    alloc: Global,
    input: &mut Input<R>,
    output: &mut Output<W>,
    limits: Limits,
    lines: ShownLines,
) -> Result<(), LinesFault>
    ensures written { (bytes : List ℕ) → R.remaining (reader_of input.old) ≡ Some bytes
        → RunAnswers (filled_lines lines.holds (within_trees limits)) lines.most bytes
        (W.contents (writer_of output.old)) (W.contents (writer_of output.new)) result }
    ensures exact { (bytes : List ℕ) → R.remaining (reader_of input.old) ≡ Some bytes → lines.holds ≡ false
        → RunAnswers (exact_lines (within_trees limits)) lines.most bytes
        (W.contents (writer_of output.old)) (W.contents (writer_of output.new)) result }
    ensures reads { CountsReads (failed_reads input.old) (failed_reads input.new) result }
    ensures writes { CountsAllWrites (failed_writes output.old) (failed_writes output.new) result }
    ensures flushed { OnOk result (is_unflushed output.new ≡ false) }
{
    let mut writer = ShownWriter::new(alloc, limits, lines.holds)?;
    let answer = write_shown(alloc, &mut writer, input, output, lines.most);
    end_lines(answer, output)
}

// Writes the items of the lines.
fn write_shown<R: Read, W: Write>(
    alloc: Global,
    writer: &mut ShownWriter,
    input: &mut Input<R>,
    output: &mut Output<W>,
    most: u64,
) -> Result<(), LinesFault>
    ensures written { (H : Bool) (L : Bounds) (start : Option (List ℕ)) (bytes : List ℕ)
        → HasWrittenFilled H L writer.old [] [] base_table → Appends start (W.contents (writer_of output.old)) []
        → R.remaining (reader_of input.old) ≡ Some bytes
        → RunAnswers (filled_lines H L) most bytes start (W.contents (writer_of output.new)) result }
    ensures reads { CountsReads (failed_reads input.old) (failed_reads input.new) result }
    ensures writes { CountsWrites (failed_writes output.old) (failed_writes output.new) result }
{
    let mut waiting = Waiting::new(alloc)?;
    for number in 0..u64::MAX {
        let count = next_line(input, &mut waiting, output, most, number + 1)?;
        if count == 0 {
            return Ok(());
        }
        writer.write(alloc, &waiting.bytes()[..count], number + 1, output)?;
        waiting.pass(count);
    }
    // No more lines can be counted.
    Err(LinesFault::Memory)
}

/// A writer of the stream that lines say, from its first line on.
pub(crate) struct ShownWriter {
    // Its types are those by which a line is read.
    writer: FilledWriter,
    scratch: Scratch,
    form: Form,
}

// Not derived, so that a drop is one call in the proofs of what owns one.
impl Drop for ShownWriter {
    fn drop(self) {
        let ShownWriter {
            writer: _,
            scratch: _,
            form: _,
        } = self;
    }
}

impl ShownWriter {
    /// A writer that has written nothing, and keeps to these limits. `holds` says whether interfaces may hold values.
    pub(crate) fn new(alloc: Global, limits: Limits, holds: bool) -> Result<ShownWriter, Memory>
        ensures { IfOk result (λ writer. HasWrittenFilled holds (within_trees limits) writer [] [] base_table) }
    {
        Ok(ShownWriter {
            writer: FilledWriter::new(alloc, limits)?,
            scratch: Scratch::new(alloc),
            form: Form {
                depth: limits.up_to(Limits::GREATEST_DEPTH).depth(),
                holds,
            },
        })
    }

    /// Writes the item that the line of this number says, if it says one.
    pub(crate) fn write<W: Write>(
        &mut self,
        alloc: Global,
        line: &[u8],
        number: u64,
        output: &mut Output<W>,
    ) -> Result<(), LinesFault>
        ensures says { (H : Bool) (L : Bounds) (items : List FilledItem) (bytes : List ℕ) (T : known.Table)
            → HasWrittenFilled H L self.old items bytes T
            → FilledLineAnswers H L self.new items bytes T line.now number
            (W.contents (writer_of output.old)) (W.contents (writer_of output.new)) result }
        ensures counted { CountsWrites (failed_writes output.old) (failed_writes output.new) result }
        ensures unread { IsNoRead result }
    {
        match self.said(alloc, line) {
            Ok(said) => told(self.write_said(alloc, said, output), number),
            Err(LineFault::Wrong(wrong)) => Err(LinesFault::wrong(alloc, number, wrong)),
            Err(LineFault::Memory) => Err(LinesFault::Memory),
        }
    }

    // What the line says.
    fn said(&mut self, alloc: Global, line: &[u8]) -> Result<GoLine, LineFault>
        ensures said { IfOk result (λ said. let form = form_of self.old in
            Tells (types_of self.old.writer) form.holds form.depth line.now said) }
        ensures none { IfErr result (λ fault. IsWrong fault → IsUtf8 line.now → (id : TypeId) (body : List ℕ)
            → let form = form_of self.old in
            SaysPut (types_of self.old.writer) form.holds form.depth (tokens line.now) id body → ⊥) }
        ensures undefined { IfErr result (λ fault. IsWrong fault → IsUtf8 line.now → (id : TypeId) (s : Shape)
            → SaysDefinition (tokens line.now) id s → ⊥) }
        ensures writer { self.new.writer ≡ self.old.writer }
        ensures form { self.new.form ≡ self.old.form }
    {
        match str::from_utf8(line) {
            Ok(text) => read_go_line(
                alloc,
                self.writer.table(),
                self.form,
                text,
                &mut self.scratch,
            ),
            Err(error) => Err(LineFault::no_text(alloc, error.valid_up_to())),
        }
    }

    // Writes what a line says.
    fn write_said<W: Write>(
        &mut self,
        alloc: Global,
        said: GoLine,
        output: &mut Output<W>,
    ) -> Result<(), WriteFault>
        requires { DefinesDefinable said }
        ensures says { (H : Bool) (L : Bounds) (line : List ℕ) (items : List FilledItem) (bytes : List ℕ)
            (T : known.Table) → HasWrittenFilled H L self.old items bytes T → Tells T H L.depth line said
            → WritesFilledSaid H L self.new items bytes T line
            (W.contents (writer_of output.old)) (W.contents (writer_of output.new)) result }
        ensures counted { CountsWriterFaults (failed_writes output.old) (failed_writes output.new) result }
    {
        match said {
            GoLine::Empty => Ok(()),
            GoLine::Define { id, shape } => self.writer.define(alloc, output, id, shape),
            GoLine::Put { id, body } => self.writer.put(alloc, output, id, &body),
            GoLine::Unready { id } => match judge_type(alloc, self.writer.table(), id) {
                Err(denial) => Err(denial.into()),
                // The type isn't ready, so it is refused.
                Ok(()) => Err(WriteFault::Failed),
            },
        }
    }
}
