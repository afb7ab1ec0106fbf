//! The run that prints the stream of the values of another, received as values of a wanted type.

ghost use Rattle.std.specs.Prelude.{◌≡◌, ◌≢◌, ◌<◌, ◌⊎◌, ℕ, List, [], Option, Some, length, IfErr, OnOk};
ghost use Rattle.gob_types.specs.Defined.{types};
ghost use Rattle.gob_types.specs.Ready.{IsReady};
ghost use Rattle.gob_types.specs.Table.{Table as Types};
ghost use Rattle.gob_types.specs.declared.id.TypeId.{TypeId as Id};
ghost use Rattle.gob_stream.specs.Bounds.{within_trees};
ghost use Rattle.gob_stream.specs.Calls.Ends.{failed_reads, failed_writes, reader_of, writer_of};
ghost use Rattle.gob_stream.specs.Stepping.{StandsBy};
ghost use Rattle.gob_filled.specs.Stream.{FilledItem};
ghost use Rattle.gob_go.specs.Calls.Reader.{HasReadFrom, session_of, waits_in};
ghost use Rattle.gob_go.specs.Calls.Session.{limits_of};
ghost use Rattle.gob_go.specs.GoStepping.{go_stepping};
ghost use Rattle.gob_go_writer.specs.Calls.Writer.{HasPut, limits_of as writer_limits, types_of};
ghost use Rattle.gob_join.specs.Renaming.{IsRenaming};
ghost use Rattle.gob_left_out.specs.Tally.{TallyRow};
ghost use Rattle.gob_tool.specs.Ending.{CountsOnlyWrites};
ghost use Rattle.gob_tool.specs.Showing.{CountsReadFaults, CountsWriteFaults, IsFlushedSince};
ghost use Rattle.gob_tool.specs.Taking.{CountsTakeReads};
ghost use Rattle.gob_convert.specs.Faults.{IsAmongRenames, IsBefore, OfRun};
ghost use Rattle.gob_convert.specs.Printing.{TakeGoAnswers};
ghost use Rattle.gob_convert.specs.Machine.Converting.{AreValues, ConvertsSo, Knows, KnowsOn, KnowsSo, KnowsSome};
ghost use Rattle.gob_convert.specs.Machine.Converting.{ids_of};
ghost use Rattle.gob_convert.specs.Machine.Printing.{HasShown, TakesBehind, TakesNext};
ghost use Rattle.gob_convert.specs.Machine.Wanted.{IsTarget};

use crate::conversion::Conversion;
use crate::fault::ConvertFault;
use crate::options::ConvertOptions;
use crate::run::{convert_item, end_conversion};
use crate::shown::show_piece;
use crate::wanted::{Front, Target, put_wanted};
use gob_go::{GoReader, GoSession};
use gob_left_out::Tally;
use gob_stream::{Input, Output};
use gob_tool::{ToolFault, flush_before_waiting};
use std::alloc::Global;
use std::io::{Read, Write};

/// Prints the stream that [`run_convert`](crate::run_convert) writes of these, in the lines that
/// [`run_show_go`](gob_tool::run_show_go) writes of it, and answers as that run does: `ToolFault::Write` where the
/// lines don't go out, and `ToolFault::Memory` also where no memory was had for them. Before these two a prefix of the
/// lines is written, and before any other fault the lines of all that would be. Memory grows with the types, the
/// largest item and the fields that are left out.
pub fn run_take_go<Q: Read, R: Read, W: Write>(
    alloc: Global,
    options: &ConvertOptions<'_>,
    wanted: &mut Input<Q>,
    input: &mut Input<R>,
    output: &mut Output<W>,
    left_out: &mut Tally,
) -> Result<(), ConvertFault>
    ensures taken { (wanted_bytes bytes : List ℕ) → Q.remaining (reader_of wanted.old) ≡ Some wanted_bytes
        → R.remaining (reader_of input.old) ≡ Some bytes
        → TakeGoAnswers options.now.renames.now options.now.all (within_trees options.now.limits) wanted_bytes bytes
        (Q.remaining (reader_of wanted.new)) (R.remaining (reader_of input.new))
        (W.contents (writer_of output.old)) (W.contents (writer_of output.new)) left_out.old left_out.new result }
    ensures among { IfErr result (IsAmongRenames (length options.now.renames.now)) }
    ensures unread { IfErr result (λ fault. IsBefore fault → input.new ≡ input.old) }
    ensures reads { OfRun (CountsTakeReads (failed_reads wanted.old) (failed_reads wanted.new)
        (failed_reads input.old) (failed_reads input.new)) result }
    ensures writes { OfRun (CountsWriteFaults (failed_writes output.old) (failed_writes output.new)) result }
    ensures flushed { (output.new ≡ output.old) ⊎ IsFlushedSince (failed_writes output.old) output.new }
{
    let mut front = Front::new(alloc, options.limits)?;
    let target = put_wanted(alloc, options, wanted, &mut front)?;
    let answer = take_out(alloc, &target, front, input, output, left_out);
    drop(target);
    end_conversion(answer, output)
}

// What converts the values of a stream, and reads what is written of them.
struct Taking {
    conversion: Conversion,
    shown: GoSession,
}

// Not derived, so that a drop is one call in the proofs of what owns one.
impl Drop for Taking {
    fn drop(self) {
        let Taking {
            conversion: _,
            shown: _,
        } = self;
    }
}

// Prints the definitions, and behind them what is received.
fn take_out<R: Read, W: Write>(
    alloc: Global,
    target: &Target,
    front: Front,
    input: &mut Input<R>,
    output: &mut Output<W>,
    left_out: &mut Tally,
) -> Result<(), ConvertFault>
    requires { IsTarget front target.now }
    ensures taken { (items : List FilledItem) (bytes : List ℕ) → HasPut front.writer items front.bytes.items
        → R.remaining (reader_of input.old) ≡ Some bytes
        → TakesBehind target.now.all (within_trees (writer_limits front.writer)) bytes
        (R.remaining (reader_of input.new)) items (types target.now.table) target.now.id
        (W.contents (writer_of output.old)) (W.contents (writer_of output.new)) left_out.old left_out.new result }
    ensures own { IfErr result (λ fault. ¬ IsBefore fault) }
    ensures reads { OfRun (CountsReadFaults (failed_reads input.old) (failed_reads input.new)) result }
    ensures writes { OfRun (CountsOnlyWrites (failed_writes output.old) (failed_writes output.new)) result }
{
    let mut reader = GoReader::new(alloc, front.limits())?;
    let mut shown = GoSession::new(alloc, front.limits())?;
    show_piece(alloc, &mut shown, front.bytes(), output)?;
    let writer = front.into_writer();
    let conversion = Conversion::new(alloc, writer, reader.table())?;
    let mut taking = Taking { conversion, shown };
    std::mem::swap(&mut taking.conversion.left_out, left_out);
    let answer = take_items(alloc, input, &mut reader, target, &mut taking, output);
    std::mem::swap(&mut taking.conversion.left_out, left_out);
    answer
}

// Reads the items, and converts them and prints what is written, one by one.
fn take_items<R: Read, W: Write>(
    alloc: Global,
    input: &mut Input<R>,
    reader: &mut GoReader,
    target: &Target,
    taking: &mut Taking,
    output: &mut Output<W>,
) -> Result<(), ConvertFault>
    requires new { HasReadFrom reader.old (R.remaining (reader_of input.old)) (R.remaining (reader_of input.old)) [] }
    requires stands { StandsBy go_stepping (session_of reader.old) }
    requires known { (T U : Types) (u : Id) → Knows T U u taking.old.conversion }
    requires none { (T U : Types) → IsRenaming (ids_of taking.old.conversion) T U }
    requires ready { IsReady (types target.now.table) target.now.id }
    requires fits { AreValues (types target.now.table) target.now.id (types_of taking.old.conversion.writer) }
    requires limits { writer_limits taking.old.conversion.writer ≡ limits_of (session_of reader.old) }
    requires shown { limits_of taking.old.shown ≡ limits_of (session_of reader.old) }
    ensures taken { (items : List FilledItem) (out bytes : List ℕ) (start : Option (List ℕ))
        → HasPut taking.old.conversion.writer items out
        → HasShown taking.old.shown out start (W.contents (writer_of output.old))
        → R.remaining (reader_of input.old) ≡ Some bytes
        → TakesBehind target.now.all (within_trees (limits_of (session_of reader.old))) bytes
        (R.remaining (reader_of input.new)) items (types target.now.table) target.now.id start
        (W.contents (writer_of output.new)) taking.old.conversion.left_out taking.new.conversion.left_out result }
    ensures own { IfErr result (λ fault. ¬ IsBefore fault) }
    ensures reads { OfRun (CountsReadFaults (failed_reads input.old) (failed_reads input.new)) result }
    ensures writes { OfRun (CountsOnlyWrites (failed_writes output.old) (failed_writes output.new)) result }
{
    'items: while reader.fill(input)? {
        take_next(alloc, reader, target, taking, output)?;
    }
    Ok(())
}

// Takes some of the bytes that wait, converts the item that is whole with them, and prints what is written.
fn take_next<W: Write>(
    alloc: Global,
    reader: &mut GoReader,
    target: &Target,
    taking: &mut Taking,
    output: &mut Output<W>,
) -> Result<(), ConvertFault>
    requires some { 0 < length (waits_in reader.old) }
    requires knows { KnowsSome reader.old taking.old.conversion (types target.now.table) target.now.id }
    requires ready { IsReady (types target.now.table) target.now.id }
    requires shown { limits_of taking.old.shown ≡ limits_of (session_of reader.old) }
    ensures taken { (read now start : Option (List ℕ)) (items : List FilledItem) (out stream : List ℕ)
        (told : List TallyRow)
        → ConvertsSo target.now.all reader.old read now taking.old.conversion (types target.now.table) target.now.id
        items out (Some []) (Some stream) told
        → HasShown taking.old.shown stream start (W.contents (writer_of output.old))
        → TakesNext target.now.all reader.new read now taking.new.conversion taking.new.shown (types target.now.table)
        target.now.id items out start (W.contents (writer_of output.new)) told result }
    ensures knows { (read now : Option (List ℕ))
        → KnowsSo reader.old read now taking.old.conversion (types target.now.table) target.now.id
        → OnOk result (KnowsOn reader.old reader.new read now taking.new.conversion (types target.now.table)
        target.now.id) }
    ensures limits { limits_of (session_of reader.new) ≡ limits_of (session_of reader.old) }
    ensures shown { limits_of taking.new.shown ≡ limits_of taking.old.shown }
    ensures own { IfErr result (λ fault. ¬ IsBefore fault) }
    ensures unread { IfErr result (λ fault. fault ≢ ConvertFault.Run ToolFault.Read) }
    ensures writes { OfRun (CountsOnlyWrites (failed_writes output.old) (failed_writes output.new)) result }
{
    let step = reader.step(alloc)?;
    let mut text = Vec::new(alloc);
    let conversion = &mut taking.conversion;
    convert_item(
        alloc,
        step.item,
        reader.table(),
        target,
        conversion,
        &mut text,
    )?;
    show_piece(alloc, &mut taking.shown, &text, output)?;
    flush_before_waiting(reader, output)?;
    Ok(())
}
