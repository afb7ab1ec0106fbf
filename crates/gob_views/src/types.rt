//! The run that writes the types of a stream as Go source.

ghost use Rattle.std.specs.Prelude.{◌≡◌, ◌≢◌, ◌<◌, ◌++◌, [], ℕ, List, length, Option, Some, IfErr, IfOk, IfSome, OnOk};
ghost use Rattle.gob_types.specs.Defined.{types};
ghost use Rattle.gob_go.specs.Calls.Reader.{HasReadFrom, session_of, waits_in};
ghost use Rattle.gob_go.specs.Calls.Session.{limits_of};
ghost use Rattle.gob_stream.specs.Bounds.{within_trees};
ghost use Rattle.gob_stream.specs.Calls.Ends.{failed_reads, failed_writes, reader_of, writer_of};
ghost use Rattle.gob_stream.specs.Reading.{CountsReads};
ghost use Rattle.gob_tool.specs.Ending.{CountsOnlyWrites};
ghost use Rattle.gob_tool.specs.Showing.{CountsReadFaults, CountsWriteFaults, IsFlushedSince};
ghost use Rattle.gob_views.specs.Machine.Gathered.{GathersAll, GathersNext, GathersSo, IsEmpty, ItemGiven};
ghost use Rattle.gob_views.specs.Machine.Gathered.{WaitsWhole, gathered_text};
ghost use Rattle.gob_views.specs.Sending.{SendsText};
ghost use Rattle.gob_views.specs.Types.{TypesAnswers};

use crate::gathered::Gathered;
use gob_go::{GoItem, GoReader};
use gob_num::Memory;
use gob_source::{named_source_of, program_of};
use gob_stream::{Fault, Input, Limits, Output};
use gob_tool::{ToolFault, end_run};
use gob_types::{Table, TypeId};
use gob_value::is_whole;
use std::alloc::Global;
use std::io::{Read, Write};

/// A file of Go source.
#[derive(Clone, Copy)]
pub enum SourceForm {
    /// The types.
    Types,
    /// A program that prints each value of a stream.
    Program,
}

/// Reads a stream of Go's encoder to its end, and then writes the types that it defines as a file of this form, in
/// order, those in front of what an interface holds too, each with the names under which it fills interfaces, and ends
/// with a flush. Ok exactly at the end of a whole stream. Where the stream is refused, the types of the items before
/// that are written before the fault is answered; where a read fails or memory is wanting, nothing is, and at
/// `ToolFault::Write` a prefix may be. What it takes in memory grows with the types, their names and the largest item
/// alone. No value may be deeper than `limits.depth()` or than 1000; what an interface holds is one deeper than the
/// interface.
pub fn run_types<R: Read, W: Write>(
    alloc: Global,
    input: &mut Input<R>,
    output: &mut Output<W>,
    limits: Limits,
    form: SourceForm,
) -> Result<(), ToolFault>
    ensures written { (bytes : List ℕ) → R.remaining (reader_of input.old) ≡ Some bytes
        → TypesAnswers form (within_trees limits) bytes (R.remaining (reader_of input.new))
        (W.contents (writer_of output.old)) (W.contents (writer_of output.new)) result }
    ensures reads { CountsReadFaults (failed_reads input.old) (failed_reads input.new) result }
    ensures writes { CountsWriteFaults (failed_writes output.old) (failed_writes output.new) result }
    ensures flushed { IsFlushedSince (failed_writes output.old) output.new }
{
    end_run(write_types(alloc, input, output, limits, form), output)
}

/// Writes the source.
fn write_types<R: Read, W: Write>(
    alloc: Global,
    input: &mut Input<R>,
    output: &mut Output<W>,
    limits: Limits,
    form: SourceForm,
) -> Result<(), ToolFault>
    ensures written { (bytes : List ℕ) → R.remaining (reader_of input.old) ≡ Some bytes
        → TypesAnswers form (within_trees limits) bytes (R.remaining (reader_of input.new))
        (W.contents (writer_of output.old)) (W.contents (writer_of output.new)) result }
    ensures reads { CountsReadFaults (failed_reads input.old) (failed_reads input.new) result }
    ensures writes { CountsOnlyWrites (failed_writes output.old) (failed_writes output.new) result }
{
    let mut reader = GoReader::new(alloc, limits)?;
    let mut gathered = Gathered::new(alloc);
    match gather_types(alloc, input, &mut reader, &mut gathered) {
        Ok(()) => send_source(alloc, reader.table(), &gathered, form, output),
        Err(Fault::Refused(refusal)) => {
            send_source(alloc, reader.table(), &gathered, form, output)?;
            Err(ToolFault::Refused(refusal))
        }
        Err(fault) => Err(ToolFault::from(fault)),
    }
}

/// Sends the source of what was gathered.
fn send_source<W: Write>(
    alloc: Global,
    table: &Table,
    gathered: &Gathered,
    form: SourceForm,
    output: &mut Output<W>,
) -> Result<(), ToolFault>
    ensures sent { SendsText (W.contents (writer_of output.old)) (W.contents (writer_of output.new))
        (gathered_text form (types table.now) gathered.now) result }
    ensures writes { CountsOnlyWrites (failed_writes output.old) (failed_writes output.new) result }
{
    let source = source_text(alloc, table, gathered, form)?;
    Ok(output.send_all(&source)?)
}

/// Makes it.
fn source_text(
    alloc: Global,
    table: &Table,
    gathered: &Gathered,
    form: SourceForm,
) -> Result<Vec<u8>, Memory>
    ensures { IfOk result (λ text. text.items ≡ gathered_text form (types table.now) gathered.now) }
{
    let names = gathered.names.as_slice();
    match form {
        SourceForm::Types => Ok(named_source_of(alloc, table, &gathered.ids, names)?),
        SourceForm::Program => {
            let values = gathered.values.as_slice();
            Ok(program_of(alloc, table, &gathered.ids, names, values)?)
        }
    }
}

/// Reads a stream to its end or to a fault, and gathers what its items say.
fn gather_types<R: Read>(
    alloc: Global,
    input: &mut Input<R>,
    reader: &mut GoReader,
    gathered: &mut Gathered,
) -> Result<(), Fault>
    requires new { HasReadFrom reader.old (R.remaining (reader_of input.old)) (R.remaining (reader_of input.old)) [] }
    requires empty { IsEmpty gathered.old }
    ensures gathered { (bytes : List ℕ) → R.remaining (reader_of input.old) ≡ Some bytes
        → GathersAll (within_trees (limits_of (session_of reader.old))) reader.new bytes
        (R.remaining (reader_of input.new)) gathered.new result }
    ensures counted { CountsReads (failed_reads input.old) (failed_reads input.new) result }
{
    'items: while reader.more(input)? {
        gather_next(alloc, reader, gathered)?;
    }
    Ok(())
}

/// Takes some of the bytes that wait: an item of a value that stands whole, whose interfaces hold nothing, or else one
/// item at the most. Gathers what it says.
fn gather_next(alloc: Global, reader: &mut GoReader, gathered: &mut Gathered) -> Result<(), Fault>
    requires { 0 < length (waits_in reader.old) }
    ensures gathered { (read now : Option (List ℕ)) → GathersSo reader.old read now gathered.old
        → GathersNext reader.old reader.new read now gathered.new result }
    ensures unread { IfErr result (λ fault. fault ≢ Fault.Read) }
    ensures limits { limits_of (session_of reader.new) ≡ limits_of (session_of reader.old) }
{
    if let Some(value) = waiting_value(reader) {
        reader.pass(value.used);
        return Ok(gathered.keep_type(value.id)?);
    }
    let step = reader.step(alloc)?;
    let kept = keep_item(alloc, &step.item, gathered);
    drop(step);
    Ok(kept?)
}

/// The item of a value that waits as a whole, and in which no interface holds another.
#[derive(Clone, Copy)]
struct WaitingValue {
    /// The id of its type.
    id: TypeId,
    /// How many bytes are in it.
    used: usize,
}

/// Such an item. None says nothing of what waits.
fn waiting_value(reader: &GoReader) -> Option<WaitingValue>
    ensures { IfSome result (λ value. WaitsWhole reader.now value.id value.used) }
{
    let whole = reader.whole()?;
    let depth = reader.limits().depth().min(Limits::GREATEST_DEPTH);
    if !is_whole(reader.table(), whole.id, whole.body, depth) {
        return None;
    }
    Some(WaitingValue {
        id: whole.id,
        used: whole.used,
    })
}

/// Gathers what a step gave.
fn keep_item(alloc: Global, item: &Option<GoItem>, gathered: &mut Gathered) -> Result<(), Memory>
    ensures { OnOk result (ItemGiven item.now gathered.old gathered.new) }
{
    if let Some(item) = item {
        gathered.keep(alloc, item)?;
    }
    Ok(())
}
