//! The run that takes a stream into the joined one.

ghost use Rattle.std.specs.Prelude.{◌≡◌, ◌≢◌, ◌<◌, ℕ, List, [], length, IfErr, OnOk, Option, Some};
ghost use Rattle.gob_types.specs.Defined.{types};
ghost use Rattle.gob_types.specs.Table.{Table as Types};
ghost use Rattle.gob_stream.specs.Bounds.{within_trees};
ghost use Rattle.gob_stream.specs.Calls.Ends.{failed_reads, failed_writes, reader_of, writer_of};
ghost use Rattle.gob_filled.specs.Stream.{FilledItem};
ghost use Rattle.gob_go.specs.Calls.Reader.{HasReadFrom, session_of, waits_in};
ghost use Rattle.gob_go.specs.Calls.Session.{limits_of};
ghost use Rattle.gob_go_writer.specs.Calls.Writer.{HasPut, limits_of as writer_limits};
ghost use Rattle.gob_join.specs.Faults.{CountsJoinReads, CountsJoinWrites};
ghost use Rattle.gob_join.specs.Joining.{JoinAnswers};
ghost use Rattle.gob_join.specs.Renaming.{IsRenaming, among};
ghost use Rattle.gob_join.specs.Machine.Joining.{JoinsAll, JoinsNext, JoinsSo, ReadsOn, ReadsSo, TakesStep};

use crate::fault::TakeFault;
use crate::join_fault::JoinFault;
use crate::taking::{KnownTypes, take_item};
use gob_go::{GoItem, GoReader};
use gob_go_writer::GoWriter;
use gob_stream::{Input, Limits, Output};
use gob_types::Table;
use std::alloc::Global;
use std::io::{Read, Write};

/// Takes the values of a stream of Go's encoder, in order, into the stream that the writer writes: each as it was, but
/// under ids of that stream, behind the definitions that it needs. Ok only at the end of a whole stream, all of whose
/// values are then taken in. Where the stream is refused, the values of the items before are taken in. Behind any other
/// fault those of some first items are, whole, or behind a failed write a prefix of their bytes. The fault is `Read` or
/// `Write` exactly where a read or a write failed. What it takes in memory grows with the types and the largest item
/// alone. No value may be deeper than `limits.depth()` or than 1000; what an interface holds is one deeper than the
/// interface.
pub fn join_file<R: Read, W: Write>(
    alloc: Global,
    input: &mut Input<R>,
    writer: &mut GoWriter,
    output: &mut Output<W>,
    limits: Limits,
) -> Result<(), JoinFault>
    ensures joined { (before : List FilledItem) (out bytes : List ℕ) → HasPut writer.old before out
        → R.remaining (reader_of input.old) ≡ Some bytes
        → JoinAnswers (within_trees limits) bytes (R.remaining (reader_of input.new)) writer.new before out
        (W.contents (writer_of output.old)) (W.contents (writer_of output.new)) result }
    ensures limits { writer_limits writer.new ≡ writer_limits writer.old }
    ensures reads { CountsJoinReads (failed_reads input.old) (failed_reads input.new) result }
    ensures writes { CountsJoinWrites (failed_writes output.old) (failed_writes output.new) result }
{
    let mut reader = GoReader::new(alloc, limits)?;
    let mut known = KnownTypes::new(alloc, reader.table())?;
    join_items(alloc, input, &mut reader, &mut known, writer, output)
}

// Reads the items and takes them in, one by one.
fn join_items<R: Read, W: Write>(
    alloc: Global,
    input: &mut Input<R>,
    reader: &mut GoReader,
    known: &mut KnownTypes,
    writer: &mut GoWriter,
    output: &mut Output<W>,
) -> Result<(), JoinFault>
    requires new { HasReadFrom reader.old (R.remaining (reader_of input.old)) (R.remaining (reader_of input.old)) [] }
    requires none { (T U : Types) → IsRenaming (among known.old.renaming) T U }
    ensures joined { (before : List FilledItem) (out : List ℕ) → HasPut writer.old before out
        → JoinsAll reader.new (R.remaining (reader_of input.old)) (R.remaining (reader_of input.new)) writer.new before
        out (W.contents (writer_of output.old)) (W.contents (writer_of output.new)) result }
    ensures limits { limits_of (session_of reader.new) ≡ limits_of (session_of reader.old) }
    ensures kept { writer_limits writer.new ≡ writer_limits writer.old }
    ensures reads { CountsJoinReads (failed_reads input.old) (failed_reads input.new) result }
    ensures writes { CountsJoinWrites (failed_writes output.old) (failed_writes output.new) result }
{
    'items: while reader.more(input)? {
        join_next(alloc, reader, known, writer, output)?;
    }
    Ok(())
}

// Takes some of the bytes that wait, and takes in the item that is whole with them.
fn join_next<W: Write>(
    alloc: Global,
    reader: &mut GoReader,
    known: &mut KnownTypes,
    writer: &mut GoWriter,
    output: &mut Output<W>,
) -> Result<(), JoinFault>
    requires { 0 < length (waits_in reader.old) }
    ensures joined { (read now : Option (List ℕ)) (before : List FilledItem) (out : List ℕ) (start : Option (List ℕ))
        → JoinsSo reader.old read now writer.old before out (among known.old.renaming) start
        (W.contents (writer_of output.old))
        → JoinsNext reader.old reader.new read now writer.new before out (among known.new.renaming) start
        (W.contents (writer_of output.new)) result }
    ensures onward { (read now : Option (List ℕ)) → ReadsSo reader.old read now
        → OnOk result (ReadsOn reader.old reader.new read now) }
    ensures limits { limits_of (session_of reader.new) ≡ limits_of (session_of reader.old) }
    ensures kept { writer_limits writer.new ≡ writer_limits writer.old }
    ensures unread { IfErr result (λ given. given ≢ JoinFault.Read) }
    ensures writes { CountsJoinWrites (failed_writes output.old) (failed_writes output.new) result }
{
    let step = reader.step(alloc)?;
    let mut text = Vec::new(alloc);
    take_step(alloc, step.item, reader.table(), known, writer, &mut text)?;
    output.send_all(&text)?;
    Ok(())
}

// Takes in what a step gave.
fn take_step(
    alloc: Global,
    item: Option<GoItem>,
    table: &Table,
    known: &mut KnownTypes,
    writer: &mut GoWriter,
    text: &mut Vec<u8>,
) -> Result<(), TakeFault>
    ensures taken { OnOk result (TakesStep item writer.old writer.new text.old.items text.new.items (types table.now)
        (among known.old.renaming) (among known.new.renaming)) }
    ensures kept { writer_limits writer.new ≡ writer_limits writer.old }
{
    match item {
        None => Ok(()),
        Some(item) => take_item(alloc, item, table, known, writer, text),
    }
}
