//! The run that writes the stream of the values that plain JSON says.

ghost use Rattle.std.specs.Prelude.{◌≡◌, ℕ, Bool, List, [], Option, Some, OnOk, false};
ghost use Rattle.std.specs.Io.KnownBytes.{Appends};
ghost use Rattle.gob_types.specs.Base.{base_table};
ghost use Rattle.gob_stream.specs.Bounds.{Bounds, within_trees};
ghost use Rattle.gob_stream.specs.Calls.Ends.{failed_reads, failed_writes, is_unflushed, reader_of, writer_of};
ghost use Rattle.gob_write.specs.Faults.{CountsAllWrites, CountsReads, CountsWrites, IsNoRead};
ghost use Rattle.gob_write.specs.Grammar.{RunAnswers};
ghost use Rattle.gob_write.specs.Making.{FrontAnswers, MakeAnswers, ending, of_plain};
ghost use Rattle.gob_write.specs.Running.{WriteTextsAnswers};
ghost use Rattle.gob_write.specs.Says.{HasWrittenTexts, IsWithinTrees, Saying};
ghost use Rattle.gob_write.specs.Shown.{filled_lines};
ghost use Rattle.gob_write.specs.declared.types.Types.{Types as Made};

use crate::fault::LinesFault;
use crate::place::Place;
use crate::texts::next_text;
use crate::types::{Definition, Types};
use crate::writer::{PlainWriter, told};
use gob_make::Making;
use gob_stream::{Input, Limits, Output, Waiting};
use std::alloc::Global;
use std::io::{Read, Write};

/// Writes the definitions of the types, in order, and behind them the values of the wanted type that plain JSON says,
/// and nothing else, ends with a flush, and answers how many members were left out, which no field has. The values
/// stand one behind another, on a line or on several; each is written once its last byte is read. Ok only where all of
/// the input says values that the stream goes on with. Before a fault is answered the values before it are written. A
/// definition that continues no stream is refused at line 0. No value may have more bytes than `most`, with the white
/// space in front. What it takes in memory grows with the types and the longest value alone.
pub fn run_make<R: Read, W: Write>(
    alloc: Global,
    types: &Types,
    input: &mut Input<R>,
    output: &mut Output<W>,
    limits: Limits,
    most: u64,
) -> Result<u64, LinesFault>
    ensures written { (bytes : List ℕ) → R.remaining (reader_of input.old) ≡ Some bytes
        → MakeAnswers (within_trees limits) types.now most bytes (W.contents (writer_of output.old))
        (W.contents (writer_of output.new)) (ending result) }
    ensures reads { CountsReads (failed_reads input.old) (failed_reads input.new) result }
    ensures writes { CountsAllWrites (failed_writes output.old) (failed_writes output.new) result }
    ensures flushed { OnOk result (is_unflushed output.new ≡ false) }
{
    let making = Making {
        id: types.id,
        depth: limits.up_to(Limits::GREATEST_DEPTH).depth(),
        zeros: limits.item(),
        lenient: types.lenient,
    };
    let mut writer = PlainWriter::new(alloc, limits, making)?;
    let answer = write_made(alloc, types, &mut writer, input, output, most);
    end_lines(answer, output)?;
    Ok(writer.left_out())
}

/// Flushes behind what was written, unless a write failed. The first fault is answered.
pub(crate) fn end_lines<W: Write>(
    answer: Result<(), LinesFault>,
    output: &mut Output<W>,
) -> Result<(), LinesFault>
    ensures made { (L : Bounds) (types : Made) (most : ℕ) (bytes : List ℕ) (old : Option (List ℕ))
        → MakeAnswers L types most bytes old (W.contents (writer_of output.old)) answer
        → MakeAnswers L types most bytes old (W.contents (writer_of output.new)) result }
    ensures shown { (H : Bool) (L : Bounds) (most : ℕ) (bytes : List ℕ) (old : Option (List ℕ))
        → RunAnswers (filled_lines H L) most bytes old (W.contents (writer_of output.old)) answer
        → RunAnswers (filled_lines H L) most bytes old (W.contents (writer_of output.new)) result }
    ensures reads { (failures failures' : ℕ) → CountsReads failures failures' answer
        → CountsReads failures failures' result }
    ensures writes { (failures : ℕ) → CountsWrites failures (failed_writes output.old) answer
        → CountsAllWrites failures (failed_writes output.new) result }
    ensures flushed { OnOk result (is_unflushed output.new ≡ false) }
{
    if matches!(answer, Err(LinesFault::Write)) {
        return answer;
    }
    let flushed = output.flush();
    match answer {
        Ok(()) if flushed.is_err() => Err(LinesFault::Write),
        _ => answer,
    }
}

// Writes the definitions, and behind them the values.
fn write_made<R: Read, W: Write>(
    alloc: Global,
    types: &Types,
    writer: &mut PlainWriter,
    input: &mut Input<R>,
    output: &mut Output<W>,
    most: u64,
) -> Result<(), LinesFault>
    ensures written { (K : Bounds) (bytes : List ℕ)
        → HasWrittenTexts (of_plain (within_trees K) types.now) writer.old [] [] base_table
        → R.remaining (reader_of input.old) ≡ Some bytes
        → MakeAnswers (within_trees K) types.now most bytes (W.contents (writer_of output.old))
        (W.contents (writer_of output.new)) result }
    ensures reads { CountsReads (failed_reads input.old) (failed_reads input.new) result }
    ensures writes { CountsWrites (failed_writes output.old) (failed_writes output.new) result }
{
    write_definitions(alloc, &types.definitions, writer, output)?;
    write_texts(alloc, writer, input, output, most)
}

// Writes the definitions.
fn write_definitions<W: Write>(
    alloc: Global,
    definitions: &[Definition],
    writer: &mut PlainWriter,
    output: &mut Output<W>,
) -> Result<(), LinesFault>
    ensures written { (S : Saying) → IsWithinTrees S → HasWrittenTexts S writer.old [] [] base_table
        → FrontAnswers S definitions.now writer.new (W.contents (writer_of output.old))
        (W.contents (writer_of output.new)) result }
    ensures writes { CountsWrites (failed_writes output.old) (failed_writes output.new) result }
    ensures unread { IsNoRead result }
{
    for definition in definitions {
        let written = writer.write_definition(alloc, definition.id, &definition.described, output);
        told(written, 0)?;
    }
    Ok(())
}

// Writes the values that the texts of the input say.
fn write_texts<R: Read, W: Write>(
    alloc: Global,
    writer: &mut PlainWriter,
    input: &mut Input<R>,
    output: &mut Output<W>,
    most: u64,
) -> Result<(), LinesFault>
    ensures written { (S : Saying) (start : Option (List ℕ)) (bytes : List ℕ) → IsWithinTrees S
        → HasWrittenTexts S writer.old S.items S.bytes S.table
        → Appends start (W.contents (writer_of output.old)) S.bytes
        → R.remaining (reader_of input.old) ≡ Some bytes
        → WriteTextsAnswers S most bytes start (W.contents (writer_of output.new)) result }
    ensures reads { CountsReads (failed_reads input.old) (failed_reads input.new) result }
    ensures writes { CountsWrites (failed_writes output.old) (failed_writes output.new) result }
{
    let mut waiting = Waiting::new(alloc)?;
    let mut place = Place::first();
    'texts: for _ in 0..u64::MAX {
        let count = next_text(input, &mut waiting, output, most, place.line)?;
        if count == 0 {
            return Ok(());
        }
        let text = &waiting.bytes()[..count];
        writer.write(alloc, text, place, output)?;
        place = place.behind(text);
        waiting.pass(count);
    }
    // No more texts can be counted.
    Err(LinesFault::Memory)
}
