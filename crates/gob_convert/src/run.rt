//! The run that writes the stream of the values of another, received as values of a wanted type.

ghost use Rattle.std.specs.Prelude.{◌≡◌, ◌≢◌, ◌<◌, ◌⊎◌, ℕ, List, [], Option, Some, length, IfErr, IfSome, OnErr, OnOk};
ghost use Rattle.std.specs.Io.KnownBytes.{Appends, Keeps};
ghost use Rattle.gob_types.specs.Defined.{types};
ghost use Rattle.gob_types.specs.Ready.{IsReady};
ghost use Rattle.gob_types.specs.Table.{Table as Types};
ghost use Rattle.gob_types.specs.declared.id.TypeId.{TypeId as Id};
ghost use Rattle.gob_stream.specs.Bounds.{within_trees};
ghost use Rattle.gob_stream.specs.Calls.Ends.{failed_reads, failed_writes, reader_of, writer_of};
ghost use Rattle.gob_stream.specs.Stepping.{StandsBy};
ghost use Rattle.gob_filled.specs.Stream.{FilledItem};
ghost use Rattle.gob_go.specs.Calls.Reader.{HasReadFrom, session_of, waits_in};
ghost use Rattle.gob_go.specs.Calls.Session.{limits_of};
ghost use Rattle.gob_go.specs.GoStepping.{go_stepping};
ghost use Rattle.gob_go_writer.specs.Calls.Writer.{HasPut, limits_of as writer_limits, types_of};
ghost use Rattle.gob_join.specs.Renaming.{IsRenaming};
ghost use Rattle.gob_left_out.specs.Tally.{TallyRow};
ghost use Rattle.gob_tool.specs.Ending.{CountsOnlyWrites};
ghost use Rattle.gob_tool.specs.Showing.{CountsReadFaults, CountsWriteFaults, IsFlushedSince};
ghost use Rattle.gob_tool.specs.Taking.{CountsTakeReads};
ghost use Rattle.gob_convert.specs.Faults.{EndsConversion, IsAmongRenames, IsBefore, OfRun};
ghost use Rattle.gob_convert.specs.Running.{ConvertAnswers, ConvertsBehind};
ghost use Rattle.gob_convert.specs.Machine.Converting.{AreValues, ConvertsItem, ConvertsNext, ConvertsSo};
ghost use Rattle.gob_convert.specs.Machine.Converting.{IsLastGiven, IsPutStop};
ghost use Rattle.gob_convert.specs.Machine.Converting.{Knows, KnowsOn, KnowsSo, KnowsSome, ids_of};
ghost use Rattle.gob_convert.specs.Machine.Wanted.{IsTarget};

use crate::conversion::{Conversion, GivenValue};
use crate::fault::ConvertFault;
use crate::options::ConvertOptions;
use crate::wanted::{Front, Target, put_wanted};
use gob_go::{GoItem, GoReader};
use gob_left_out::Tally;
use gob_stream::{Input, Output};
use gob_tool::{ToolFault, flush_before_waiting};
use gob_types::Table;
use std::alloc::Global;
use std::io::{Read, Write};

/// Writes the stream of what is received of each value of a stream of Go's encoder as a value of the wanted type, which
/// is that of the first value of `wanted`, a stream of its own: the definitions in front of that value, as they are
/// there, and then the values, in order, under that type's id. What interfaces of a value hold goes along where they
/// are received, under ids of the stream that is written, in which the definitions that it needs stand in items of
/// their own in front of the value. A field of the wanted type takes what the stream has under the name that the
/// renames say; what is written has the names of the wanted type, and a clash is told by those of the stream.
///
/// `wanted` is read whole first: where it is refused the answer is `ToolFault::Wanted`, and without a value
/// `ToolFault::NoWantedType`. The renames are judged by the types that stand in front of its first value: where one
/// doesn't fit, the answer is [`ConvertFault::Misfits`]. The input isn't read then, and nothing is written.
///
/// Ok exactly at the end of a whole stream of values that match; where a value doesn't, [`ConvertFault::Clash`] says
/// where, why and which value. Where no field may be left out, Ok says that none of any value was, and the run stops
/// before the first value that has a field which isn't wanted: `ToolFault::LeftOut` tells it and the value's number.
/// Before a fault the definitions and the values before it are written; at `ToolFault::Write` a prefix of them may be.
/// What these values leave out is added to `left_out`, at any answer. The run ends with a flush. What is written keeps
/// to the limits too: where it would not, the answer is [`ConvertFault::Full`]. Memory grows with the types, the largest
/// item and the fields that are left out. No value may be deeper than `limits.depth()` or than 1000; what an interface
/// holds is one deeper than the interface.
pub fn run_convert<Q: Read, R: Read, W: Write>(
    alloc: Global,
    options: &ConvertOptions<'_>,
    wanted: &mut Input<Q>,
    input: &mut Input<R>,
    output: &mut Output<W>,
    left_out: &mut Tally,
) -> Result<(), ConvertFault>
    ensures converted { (wanted_bytes bytes : List ℕ) → Q.remaining (reader_of wanted.old) ≡ Some wanted_bytes
        → R.remaining (reader_of input.old) ≡ Some bytes
        → ConvertAnswers options.now.renames.now options.now.all (within_trees options.now.limits) wanted_bytes bytes
        (Q.remaining (reader_of wanted.new)) (R.remaining (reader_of input.new))
        (W.contents (writer_of output.old)) (W.contents (writer_of output.new)) left_out.old left_out.new result }
    ensures among { IfErr result (IsAmongRenames (length options.now.renames.now)) }
    ensures unread { IfErr result (λ fault. IsBefore fault → input.new ≡ input.old) }
    ensures reads { OfRun (CountsTakeReads (failed_reads wanted.old) (failed_reads wanted.new)
        (failed_reads input.old) (failed_reads input.new)) result }
    ensures writes { OfRun (CountsWriteFaults (failed_writes output.old) (failed_writes output.new)) result }
    ensures flushed { (output.new ≡ output.old) ⊎ IsFlushedSince (failed_writes output.old) output.new }
{
    let mut front = Front::new(alloc, options.limits)?;
    let target = put_wanted(alloc, options, wanted, &mut front)?;
    let answer = convert_out(alloc, &target, front, input, output, left_out);
    drop(target);
    end_conversion(answer, output)
}

/// Flushes behind what was written, unless a write failed. The first fault is answered.
pub(crate) fn end_conversion<W: Write>(
    answer: Result<(), ConvertFault>,
    output: &mut Output<W>,
) -> Result<(), ConvertFault>
    requires { IfErr answer (λ fault. ¬ IsBefore fault) }
    ensures ends { EndsConversion answer result }
    ensures bytes { Keeps (W.contents (writer_of output.old)) (W.contents (writer_of output.new)) }
    ensures writes { (failures : ℕ) → OfRun (CountsOnlyWrites failures (failed_writes output.old)) answer
        → OfRun (CountsWriteFaults failures (failed_writes output.new)) result }
    ensures flushed { (failures : ℕ) → OfRun (CountsOnlyWrites failures (failed_writes output.old)) answer
        → IsFlushedSince failures output.new }
{
    if matches!(answer, Err(ConvertFault::Run(ToolFault::Write))) {
        return answer;
    }
    let flushed = output.flush();
    match answer {
        Ok(()) if flushed.is_err() => Err(ConvertFault::Run(ToolFault::Write)),
        _ => answer,
    }
}

// Writes the definitions, and behind them what is received.
fn convert_out<R: Read, W: Write>(
    alloc: Global,
    target: &Target,
    front: Front,
    input: &mut Input<R>,
    output: &mut Output<W>,
    left_out: &mut Tally,
) -> Result<(), ConvertFault>
    requires { IsTarget front target.now }
    ensures converted { (items : List FilledItem) (bytes : List ℕ) → HasPut front.writer items front.bytes.items
        → R.remaining (reader_of input.old) ≡ Some bytes
        → ConvertsBehind target.now.all (within_trees (writer_limits front.writer)) bytes
        (R.remaining (reader_of input.new)) items (types target.now.table) target.now.id
        (W.contents (writer_of output.old)) (W.contents (writer_of output.new)) left_out.old left_out.new result }
    ensures own { IfErr result (λ fault. ¬ IsBefore fault) }
    ensures reads { OfRun (CountsReadFaults (failed_reads input.old) (failed_reads input.new)) result }
    ensures writes { OfRun (CountsOnlyWrites (failed_writes output.old) (failed_writes output.new)) result }
{
    output.send_all(front.bytes())?;
    let writer = front.into_writer();
    let mut reader = GoReader::new(alloc, writer.limits())?;
    let mut conversion = Conversion::new(alloc, writer, reader.table())?;
    std::mem::swap(&mut conversion.left_out, left_out);
    let answer = convert_items(alloc, input, &mut reader, target, &mut conversion, output);
    std::mem::swap(&mut conversion.left_out, left_out);
    answer
}

// Reads the items and converts them, one by one.
fn convert_items<R: Read, W: Write>(
    alloc: Global,
    input: &mut Input<R>,
    reader: &mut GoReader,
    target: &Target,
    conversion: &mut Conversion,
    output: &mut Output<W>,
) -> Result<(), ConvertFault>
    requires new { HasReadFrom reader.old (R.remaining (reader_of input.old)) (R.remaining (reader_of input.old)) [] }
    requires stands { StandsBy go_stepping (session_of reader.old) }
    requires known { (T U : Types) (u : Id) → Knows T U u conversion.old }
    requires none { (T U : Types) → IsRenaming (ids_of conversion.old) T U }
    requires ready { IsReady (types target.now.table) target.now.id }
    requires fits { AreValues (types target.now.table) target.now.id (types_of conversion.old.writer) }
    requires limits { writer_limits conversion.old.writer ≡ limits_of (session_of reader.old) }
    ensures converted { (items : List FilledItem) (out bytes : List ℕ) (start : Option (List ℕ))
        → HasPut conversion.old.writer items out → Appends start (W.contents (writer_of output.old)) out
        → R.remaining (reader_of input.old) ≡ Some bytes
        → ConvertsBehind target.now.all (within_trees (limits_of (session_of reader.old))) bytes
        (R.remaining (reader_of input.new)) items (types target.now.table) target.now.id start
        (W.contents (writer_of output.new)) conversion.old.left_out conversion.new.left_out result }
    ensures own { IfErr result (λ fault. ¬ IsBefore fault) }
    ensures reads { OfRun (CountsReadFaults (failed_reads input.old) (failed_reads input.new)) result }
    ensures writes { OfRun (CountsOnlyWrites (failed_writes output.old) (failed_writes output.new)) result }
{
    'items: while reader.fill(input)? {
        convert_next(alloc, reader, target, conversion, output)?;
    }
    Ok(())
}

// Takes some of the bytes that wait, and converts the item that is whole with them.
fn convert_next<W: Write>(
    alloc: Global,
    reader: &mut GoReader,
    target: &Target,
    conversion: &mut Conversion,
    output: &mut Output<W>,
) -> Result<(), ConvertFault>
    requires some { 0 < length (waits_in reader.old) }
    requires knows { KnowsSome reader.old conversion.old (types target.now.table) target.now.id }
    requires ready { IsReady (types target.now.table) target.now.id }
    ensures converted { (read now start : Option (List ℕ)) (items : List FilledItem) (out : List ℕ)
        (told : List TallyRow)
        → ConvertsSo target.now.all reader.old read now conversion.old (types target.now.table) target.now.id items out
        start (W.contents (writer_of output.old)) told
        → ConvertsNext target.now.all reader.new read now conversion.new (types target.now.table) target.now.id items
        out start (W.contents (writer_of output.new)) told result }
    ensures knows { (read now : Option (List ℕ))
        → KnowsSo reader.old read now conversion.old (types target.now.table) target.now.id
        → OnOk result (KnowsOn reader.old reader.new read now conversion.new (types target.now.table) target.now.id) }
    ensures limits { limits_of (session_of reader.new) ≡ limits_of (session_of reader.old) }
    ensures own { IfErr result (λ fault. ¬ IsBefore fault) }
    ensures unread { IfErr result (λ fault. fault ≢ ConvertFault.Run ToolFault.Read) }
    ensures writes { OfRun (CountsOnlyWrites (failed_writes output.old) (failed_writes output.new)) result }
{
    let step = reader.step(alloc)?;
    let mut text = Vec::new(alloc);
    convert_item(
        alloc,
        step.item,
        reader.table(),
        target,
        conversion,
        &mut text,
    )?;
    output.send_all(&text)?;
    flush_before_waiting(reader, output)?;
    Ok(())
}

/// Converts what a step gave.
pub(crate) fn convert_item(
    alloc: Global,
    item: Option<GoItem>,
    table: &Table,
    target: &Target,
    conversion: &mut Conversion,
    text: &mut Vec<u8>,
) -> Result<(), ConvertFault>
    requires known { IfSome item (λ _. Knows (types table.now) (types target.now.table) target.now.id conversion.old) }
    requires last { IfSome item (IsLastGiven (types table.now)) }
    requires ready { IsReady (types target.now.table) target.now.id }
    ensures known { OnOk result (IfSome item (λ _. Knows (types table.now) (types target.now.table) target.now.id
        conversion.new)) }
    ensures converted { ConvertsItem target.now.all item conversion.old conversion.new text.old.items text.new.items
        (types table.now) (types target.now.table) target.now.id result }
    ensures fault { IfErr result IsPutStop }
    ensures kept { OnErr result (conversion.new.left_out ≡ conversion.old.left_out) }
    ensures limits { writer_limits conversion.new.writer ≡ writer_limits conversion.old.writer }
{
    match item {
        Some(GoItem::Put { id, value }) => {
            conversion.put(alloc, GivenValue { id, value }, table, target, text)
        }
        _ => Ok(()),
    }
}
