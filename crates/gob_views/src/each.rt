//! The run that prints a line for each part of the lists and maps of a stream, while their items are read.

ghost use Rattle.std.specs.Prelude.{◌≡◌, ◌+◌, ◌<◌, ◌++◌, ℕ, List, Option, Some, false, true, length};
ghost use Rattle.std.specs.Prelude.{IfOk, IfSome, OnOk};
ghost use Rattle.gob_types.specs.Defined.{types};
ghost use Rattle.gob_types.specs.Ready.{HasFieldOf, Names};
ghost use Rattle.gob_types.specs.Machine.Walk.{AddsAll};
ghost use Rattle.gob_stream.specs.Bounds.{within_trees};
ghost use Rattle.gob_stream.specs.Calls.Ends.{failed_reads, failed_writes, reader_of, writer_of};
ghost use Rattle.gob_filled.specs.Stream.{FilledItem};
ghost use Rattle.gob_go.specs.Calls.Reader.{HasReadFrom, session_of, waits_in};
ghost use Rattle.gob_go.specs.Calls.Session.{IsBetweenItems, limits_of, types_of};
ghost use Rattle.gob_go.specs.GoStepping.{go_stepping};
ghost use Rattle.gob_tool.specs.Ending.{CountsOnlyWrites};
ghost use Rattle.gob_tool.specs.Showing.{CountsReadFaults, CountsWriteFaults, IsFlushedSince};
ghost use Rattle.gob_views.specs.Each.{EachAnswers};
ghost use Rattle.gob_views.specs.Machine.PartStream.{CountsOnlyReads, FillsTexts, HasBegunParts};
ghost use Rattle.gob_views.specs.Machine.PartStream.{HasReadSomeOf, IsBare, IsInterface, PartsBegin, WritesLines};
ghost use Rattle.gob_views.specs.Values.{IsChosen};
ghost use Rattle.gob_words.specs.Words.{text_of};

use crate::body_lines::{PartsAhead, parts_behind_tag};
use crate::part_stream::{BegunParts, print_value};
use crate::value_line::{ValueLines, is_chosen};
use gob_go::GoReader;
use gob_num::Memory;
use gob_stream::{Input, Limits, Output};
use gob_tool::{MOST_GATHERED, ToolFault, end_run, flush_before_waiting, write_next_texts};
use gob_types::{Basic, Field, Kind, Shapes, Table, TypeId};
use indexmap::IndexSet;
use std::alloc::Global;
use std::io::{Read, Write};

/// Writes what [`crate::run_values`] writes, where each part of a list or map stands on a line of its own; the lines of
/// a long one go out while its item is read. Before a fault is answered the lines of the values before it are written,
/// and then those of the first parts of the value under way, each of which stands whole.
pub fn run_each<R: Read, W: Write>(
    alloc: Global,
    input: &mut Input<R>,
    output: &mut Output<W>,
    limits: Limits,
    lines: ValueLines<'_>,
) -> Result<(), ToolFault>
    ensures printed { (bytes : List ℕ) → R.remaining (reader_of input.old) ≡ Some bytes
        → EachAnswers lines.entry (within_trees limits) bytes (R.remaining (reader_of input.new))
        (W.contents (writer_of output.old)) (W.contents (writer_of output.new)) result }
    ensures reads { CountsReadFaults (failed_reads input.old) (failed_reads input.new) result }
    ensures writes { CountsWriteFaults (failed_writes output.old) (failed_writes output.new) result }
    ensures flushed { IsFlushedSince (failed_writes output.old) output.new }
{
    let answer = write_each(alloc, input, output, limits, lines);
    end_run(answer, output)
}

/// Writes the lines.
fn write_each<R: Read, W: Write>(
    alloc: Global,
    input: &mut Input<R>,
    output: &mut Output<W>,
    limits: Limits,
    lines: ValueLines<'_>,
) -> Result<(), ToolFault>
    ensures printed { (bytes : List ℕ) → R.remaining (reader_of input.old) ≡ Some bytes
        → EachAnswers lines.entry (within_trees limits) bytes (R.remaining (reader_of input.new))
        (W.contents (writer_of output.old)) (W.contents (writer_of output.new)) result }
    ensures reads { CountsReadFaults (failed_reads input.old) (failed_reads input.new) result }
    ensures writes { CountsOnlyWrites (failed_writes output.old) (failed_writes output.new) result }
{
    let mut reader = GoReader::new(alloc, limits)?;
    let mut gathered = Vec::new(alloc);
    'items: while reader.more(input)? {
        reader = write_next(alloc, reader, &mut gathered, input, output, lines)?;
        flush_before_waiting(&reader, output)?;
    }
    Ok(())
}

/// Writes the lines of the value whose item waits in part, where its parts are printed while it is read, or else of
/// what is whole with some of the bytes to come. Bytes wait.
fn write_next<R: Read, W: Write>(
    alloc: Global,
    reader: GoReader,
    gathered: &mut Vec<u8>,
    input: &mut Input<R>,
    output: &mut Output<W>,
    lines: ValueLines<'_>,
) -> Result<GoReader, ToolFault>
    requires some { 0 < length (waits_in reader) }
    requires so_far { HasReadSomeOf go_stepping reader (R.remaining (reader_of input.old)) }
    ensures written { (read : Option (List ℕ)) (given : List FilledItem)
        → HasReadFrom reader read (R.remaining (reader_of input.old)) given
        → WritesLines lines.entry reader read (R.remaining (reader_of input.new)) given
        (W.contents (writer_of output.old)) (W.contents (writer_of output.new)) result }
    ensures limits { IfOk result (λ next. limits_of (session_of next) ≡ limits_of (session_of reader)) }
    ensures reads { CountsOnlyReads (failed_reads input.old) (failed_reads input.new) result }
    ensures writes { CountsOnlyWrites (failed_writes output.old) (failed_writes output.new) result }
{
    if let Some(begun) = begun_parts(alloc, &reader, lines)? {
        return print_value(alloc, reader, begun, input, output, lines);
    }
    let mut reader = reader;
    fill_texts(alloc, &mut reader, gathered, input, output, lines)?;
    Ok(reader)
}

/// Reads until an item of a value waits as a whole, or bytes that go by a step, and writes the lines of what is whole
/// with some of them. Bytes wait.
fn fill_texts<R: Read, W: Write>(
    alloc: Global,
    reader: &mut GoReader,
    gathered: &mut Vec<u8>,
    input: &mut Input<R>,
    output: &mut Output<W>,
    lines: ValueLines<'_>,
) -> Result<(), ToolFault>
    requires some { 0 < length (waits_in reader.old) }
    requires so_far { HasReadSomeOf go_stepping reader.old (R.remaining (reader_of input.old)) }
    ensures written { (read : Option (List ℕ)) (given : List FilledItem)
        → HasReadFrom reader.old read (R.remaining (reader_of input.old)) given
        → FillsTexts lines.entry reader.old reader.new read (R.remaining (reader_of input.new)) given
        (W.contents (writer_of output.old)) (W.contents (writer_of output.new)) result }
    ensures limits { limits_of (session_of reader.new) ≡ limits_of (session_of reader.old) }
    ensures reads { CountsOnlyReads (failed_reads input.old) (failed_reads input.new) result }
    ensures writes { CountsOnlyWrites (failed_writes output.old) (failed_writes output.new) result }
{
    if !reader.fill(input)? {
        // bytes wait, so the input hasn't ended between two items, and this isn't reached
        return Err(ToolFault::Memory);
    }
    write_next_texts(alloc, reader, &lines, gathered, output)
}

/// The parts of the value whose item waits in part, where they are to be printed while it is read: it is long, its type
/// is chosen, each of them stands on a line of its own, and no interface stands in it. None says nothing of what waits.
fn begun_parts(
    alloc: Global,
    reader: &GoReader,
    lines: ValueLines<'_>,
) -> Result<Option<BegunParts>, Memory>
    ensures between { IfOk result (λ found. IfSome found (λ begun. IsBetweenItems (session_of reader.now))) }
    ensures begun { IfOk result (λ found. IfSome found (λ begun. (behind : List ℕ)
        → HasBegunParts lines.entry (within_trees (limits_of (session_of reader.now)))
        (types_of (session_of reader.now)) begun (waits_in reader.now ++ behind))) }
{
    if !lines.each {
        return Ok(None);
    }
    let Some(awaited) = reader.awaited() else {
        return Ok(None);
    };
    if awaited.size <= MOST_GATHERED as u64 {
        return Ok(None);
    }
    let Some(depth) = parts_depth(reader.limits()) else {
        return Ok(None);
    };
    let table = reader.table();
    let Some(parts) = parts_ahead(table, awaited.id, awaited.head, reader.bytes()) else {
        return Ok(None);
    };
    if !is_chosen_bare(alloc, table, awaited.id, lines.only)? {
        return Ok(None);
    }
    Ok(Some(BegunParts {
        id: awaited.id,
        depth,
        parts,
    }))
}

/// How deep the parts of a value may be, as deep as values are kept. None where none may be.
fn parts_depth(limits: Limits) -> Option<u64>
    ensures { IfSome result (λ depth. depth + 1 ≡ (within_trees limits).depth) }
{
    limits.depth().min(Limits::GREATEST_DEPTH).checked_sub(1)
}

/// Whether values of the type are printed, and no interface stands in one. False says nothing of interfaces.
fn is_chosen_bare(
    alloc: Global,
    table: &Table,
    id: TypeId,
    only: Option<&str>,
) -> Result<bool, Memory>
    ensures { IfOk result (λ is. is ≡ true → IsChosen (text_of only.entry) (types table.now) id
        × IsBare (types table.now) id) }
{
    if !is_chosen(only, table, id) {
        return Ok(false);
    }
    let leads = leads_to_interface(alloc, table, id)?;
    Ok(!leads)
}

/// The parts of a list or a map of this type whose item begins with these bytes, its body behind the head. None says
/// nothing of the bytes.
fn parts_ahead(table: &Table, id: TypeId, head: usize, bytes: &[u8]) -> Option<PartsAhead>
    ensures { IfSome result (PartsBegin (types table.now) id head bytes.now) }
{
    if head > bytes.len() {
        return None;
    }
    let in_body = parts_behind_tag(table, id, &bytes[head..])?;
    Some(PartsAhead {
        parts: in_body.parts,
        count: in_body.count,
        begin: head + in_body.begin,
    })
}

/// Whether an interface may stand in a value of the type.
fn leads_to_interface(alloc: Global, table: &Table, id: TypeId) -> Result<bool, Memory>
    ensures { IfOk result (λ leads. leads ≡ false → IsBare (types table.now) id) }
{
    let mut met = IndexSet::new(alloc);
    meet(&mut met, id)?;
    let mut next = 0;
    'types: while next < met.len() {
        let at = met.as_slice()[next];
        next += 1;
        let Some(shape) = table.shape_of(at) else {
            continue;
        };
        if is_interface(&shape.kind) {
            return Ok(true);
        }
        meet_names(&mut met, &shape.kind)?;
    }
    Ok(false)
}

/// Whether values of this kind may hold others.
fn is_interface(kind: &Kind) -> bool
    ensures { result ≡ false → ¬ IsInterface kind.now }
{
    matches!(kind, Kind::Basic(Basic::Interface))
}

/// Meets the types that a kind names.
fn meet_names(met: &mut IndexSet<TypeId>, kind: &Kind) -> Result<(), Memory>
    ensures { OnOk result (AddsAll met.old.keys met.new.keys (Names kind.now)) }
{
    match kind {
        Kind::Array { elem, .. } => meet(met, *elem),
        Kind::Slice { elem } => meet(met, *elem),
        Kind::Map { key, elem } => {
            meet(met, *key)?;
            meet(met, *elem)
        }
        Kind::Struct { fields } => meet_fields(met, fields.as_slice()),
        Kind::Basic(_) | Kind::Opaque(_) => Ok(()),
    }
}

/// Meets the types of fields.
fn meet_fields(met: &mut IndexSet<TypeId>, fields: &[Field]) -> Result<(), Memory>
    ensures { OnOk result (AddsAll met.old.keys met.new.keys (HasFieldOf fields.now)) }
{
    for field in fields {
        meet(met, field.id)?;
    }
    Ok(())
}

/// Meets a type, unless it was met.
fn meet(met: &mut IndexSet<TypeId>, id: TypeId) -> Result<(), Memory>
    ensures { OnOk result (AddsAll met.old.keys met.new.keys (λ u. id ≡ u)) }
{
    met.insert_full(id)?;
    Ok(())
}
