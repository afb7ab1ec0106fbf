//! The parts of a value, printed while its item is read.

ghost use Rattle.std.specs.Prelude.{◌≡◌, ◌≢◌, ◌+◌, ◌<◌, ◌≤◌, ◌++◌, ◌^◌, ℕ, List, [], Option, true, IfErr, IfOk};
ghost use Rattle.std.specs.Prelude.{drop, length, OnOk};
ghost use Rattle.gob_types.specs.Defined.{types};
ghost use Rattle.gob_stream.specs.Bounds.{within_trees};
ghost use Rattle.gob_stream.specs.Calls.Ends.{failed_reads, failed_writes, reader_of, writer_of};
ghost use Rattle.gob_stream.specs.Calls.ReaderOf.{HasReadBy};
ghost use Rattle.gob_filled.specs.Stream.{FilledItem};
ghost use Rattle.gob_go.specs.Calls.Reader.{HasReadFrom, session_of, waits_in};
ghost use Rattle.gob_go.specs.Calls.Session.{IsBetweenItems, limits_of, table_of, taken_of, types_of};
ghost use Rattle.gob_go.specs.GoStepping.{go_stepping, passing_stepping};
ghost use Rattle.gob_tool.specs.Ending.{CountsOnlyWrites};
ghost use Rattle.gob_views.specs.Machine.PartLines.{HasParts, PrintsEach};
ghost use Rattle.gob_views.specs.Machine.PartStream.{CountsOnlyReads, HasBegunParts, HasReadSomeOf, MakesNextParts};
ghost use Rattle.gob_views.specs.Machine.PartStream.{PrintsParts, PrintsSome, PrintsValue, PrintsWhole, TakesNext};

use crate::body_lines::{PartsAhead, TypeLines, push_group, push_parts_alone};
use crate::value_line::{ValueLines, style_of, taken_of};
use gob_go::{GoReader, PassingSession};
use gob_num::Memory;
use gob_plain::Style;
use gob_stream::{Advance, Input, Output, ReaderOf};
use gob_tool::{ToolFault, flush_before_waiting};
use gob_types::{Table, TypeId};
use std::alloc::Global;
use std::io::{Read, Write};

/// A reader that keeps nothing of the item that it reads.
type PassingReader = ReaderOf<PassingSession>;

/// A value whose item has begun, and no byte of which was taken.
#[derive(Clone, Copy)]
pub(crate) struct BegunParts {
    /// Its type.
    pub(crate) id: TypeId,
    /// How deep its parts may be.
    pub(crate) depth: u64,
    /// Its parts, which begin in the item.
    pub(crate) parts: PartsAhead,
}

/// The parts that are still to be printed.
#[derive(Drop)]
struct Unprinted {
    /// Which they are, and where they begin in the bytes.
    ahead: PartsAhead,
    /// The bytes of the item that were taken and are kept.
    bytes: Vec<u8>,
    /// How many there must be before it is worth while to look for a part that stands whole in them.
    least: usize,
}

/// How the parts of a value are printed.
#[derive(Clone, Copy)]
struct PartLines<'l, 's> {
    /// The value.
    begun: BegunParts,
    /// What is printed of values.
    lines: ValueLines<'l>,
    /// How their JSON is written.
    style: Style<'s>,
}

/// Prints the parts of a value while its item is read, up to the end of the item. It takes memory for one of them, and
/// for what is read at a time.
pub(crate) fn print_value<R: Read, W: Write>(
    alloc: Global,
    reader: GoReader,
    begun: BegunParts,
    input: &mut Input<R>,
    output: &mut Output<W>,
    lines: ValueLines<'_>,
) -> Result<GoReader, ToolFault>
    requires between { IsBetweenItems (session_of reader) }
    requires begun { (behind : List ℕ) → HasBegunParts lines (within_trees (limits_of (session_of reader)))
        (types_of (session_of reader)) begun (waits_in reader ++ behind) }
    requires so_far { HasReadSomeOf go_stepping reader (R.remaining (reader_of input.old)) }
    ensures printed { (read : Option (List ℕ)) (given : List FilledItem)
        → HasReadFrom reader read (R.remaining (reader_of input.old)) given
        → PrintsValue lines.entry reader read (R.remaining (reader_of input.new)) given
        (W.contents (writer_of output.old)) (W.contents (writer_of output.new)) result }
    ensures between { IfOk result (λ next. IsBetweenItems (session_of next)) }
    ensures limits { IfOk result (λ next. limits_of (session_of next) ≡ limits_of (session_of reader)) }
    ensures reads { CountsOnlyReads (failed_reads input.old) (failed_reads input.new) result }
    ensures writes { CountsOnlyWrites (failed_writes output.old) (failed_writes output.new) result }
{
    let mut passing = into_passing(reader);
    print_parts(alloc, &mut passing, begun, input, output, lines)?;
    Ok(into_keeping(passing))
}

/// Prints them, by a reader that keeps nothing of the item.
fn print_parts<R: Read, W: Write>(
    alloc: Global,
    reader: &mut PassingReader,
    begun: BegunParts,
    input: &mut Input<R>,
    output: &mut Output<W>,
    lines: ValueLines<'_>,
) -> Result<(), ToolFault>
    requires between { IsBetweenItems (session_of reader.old) }
    requires begun { (behind : List ℕ) → HasBegunParts lines (within_trees (limits_of (session_of reader.old)))
        (types_of (session_of reader.old)) begun (waits_in reader.old ++ behind) }
    requires so_far { HasReadSomeOf passing_stepping reader.old (R.remaining (reader_of input.old)) }
    ensures printed { (read : Option (List ℕ)) (given : List FilledItem)
        → HasReadBy passing_stepping reader.old read (R.remaining (reader_of input.old)) given
        → PrintsParts lines.entry reader.old reader.new read (R.remaining (reader_of input.new)) given
        (W.contents (writer_of output.old)) (W.contents (writer_of output.new)) result }
    ensures between { OnOk result (IsBetweenItems (session_of reader.new)) }
    ensures limits { limits_of (session_of reader.new) ≡ limits_of (session_of reader.old) }
    ensures reads { CountsOnlyReads (failed_reads input.old) (failed_reads input.new) result }
    ensures writes { CountsOnlyWrites (failed_writes output.old) (failed_writes output.new) result }
{
    let taken = taken_of(alloc, lines.kinds)?;
    let how = PartLines {
        begun,
        lines,
        style: style_of(lines, &taken),
    };
    let mut left = Unprinted {
        ahead: begun.parts,
        bytes: Vec::new(alloc),
        least: 0,
    };
    let mut text = Vec::new(alloc);
    'steps: while reader.more(input)? {
        text.clear();
        let is_whole = push_next_parts(alloc, reader, how, &mut left, &mut text)?;
        output.send_all(&text)?;
        if is_whole {
            return Ok(());
        }
        flush_before_waiting(reader, output)?;
    }
    // an input that ends within the item is refused, so this isn't reached
    Err(ToolFault::Memory)
}

/// Takes some of the bytes that wait, and makes the lines of the parts that are whole with them in `text`, which is
/// empty. Whether the item is whole.
fn push_next_parts(
    alloc: Global,
    reader: &mut PassingReader,
    how: PartLines<'_, '_>,
    left: &mut Unprinted,
    text: &mut Vec<u8>,
) -> Result<bool, ToolFault>
    requires some { 0 < length (waits_in reader.old) }
    ensures made { (read now : Option (List ℕ)) (given : List FilledItem)
        → HasReadBy passing_stepping reader.old read now given
        → MakesNextParts how.entry.lines how.entry.style how.entry.begun reader.old reader.new read now given
        left.old.ahead left.new.ahead left.old.bytes.items left.new.bytes.items text.old.items text.new.items result }
    ensures between { IfOk result (λ is_whole. is_whole ≡ true → IsBetweenItems (session_of reader.new)) }
    ensures unread { IfErr result (λ fault. (fault ≢ ToolFault.Read) × (fault ≢ ToolFault.Write)) }
    ensures limits { limits_of (session_of reader.new) ≡ limits_of (session_of reader.old) }
{
    let is_whole = take_bytes(alloc, reader, &mut left.bytes)?;
    push_parts_whole(alloc, reader.table(), how, is_whole, left, text)?;
    Ok(is_whole)
}

/// Takes some of the bytes that wait, and appends them. Whether the item is whole with them.
fn take_bytes(
    alloc: Global,
    reader: &mut PassingReader,
    bytes: &mut Vec<u8>,
) -> Result<bool, ToolFault>
    requires some { 0 < length (waits_in reader.old) }
    ensures taken { (read now : Option (List ℕ)) (given : List FilledItem)
        → HasReadBy passing_stepping reader.old read now given
        → TakesNext reader.old reader.new read now given bytes.old.items bytes.new.items result }
    ensures between { IfOk result (λ is_whole. is_whole ≡ true → IsBetweenItems (session_of reader.new)) }
    ensures unread { IfErr result (λ fault. (fault ≢ ToolFault.Read) × (fault ≢ ToolFault.Write)) }
    ensures limits { limits_of (session_of reader.new) ≡ limits_of (session_of reader.old) }
{
    let before = bytes.len();
    bytes
        .extend_from_slice(reader.bytes())
        .map_err(Memory::from)?;
    let Advance { used, item } = reader.step(alloc)?;
    bytes.truncate(before.saturating_add(used));
    Ok(item.is_some())
}

/// Appends the lines of the parts that stand whole in the bytes, and of all where the item is whole.
fn push_parts_whole(
    alloc: Global,
    table: &Table,
    how: PartLines<'_, '_>,
    is_whole: bool,
    left: &mut Unprinted,
    text: &mut Vec<u8>,
) -> Result<(), Memory>
    ensures { PrintsEach how.entry.lines how.entry.style
        → HasParts (types table.now) how.entry.begun.id left.old.ahead.parts
        → OnOk result (PrintsWhole is_whole how.entry.lines how.entry.style (types table.now) how.entry.begun.id
        how.entry.begun.depth left.old.ahead left.new.ahead left.old.bytes.items left.new.bytes.items text.old.items
        text.new.items) }
{
    let of = TypeLines {
        table,
        id: how.begun.id,
        lines: how.lines,
        style: how.style,
    };
    push_groups(alloc, &of, how.begun.depth, is_whole, left, text)?;
    if !is_whole {
        return Ok(());
    }
    if left.ahead.count == 0 {
        return Ok(());
    }
    // that no group was found says nothing of them
    push_parts_alone(alloc, &of, left.ahead.count, left.rest(), text)
}

/// Appends the lines of the parts that are found whole at the front of the bytes, and lets go of these.
fn push_groups(
    alloc: Global,
    of: &TypeLines<'_, '_, '_>,
    depth: u64,
    is_whole: bool,
    left: &mut Unprinted,
    text: &mut Vec<u8>,
) -> Result<(), Memory>
    ensures { PrintsEach of.now.lines of.now.style → HasParts (types of.now.table.now) of.now.id left.old.ahead.parts
        → OnOk result ((made : List ℕ)
        × PrintsSome of.now.lines of.now.style (types of.now.table.now) of.now.id depth left.old.ahead left.new.ahead
        left.old.bytes.items left.new.bytes.items made
        × (text.new.items ≡ text.old.items ++ made)) }
{
    if !left.is_due(is_whole) {
        return Ok(());
    }
    'groups: while let Some(group) = push_group(alloc, of, left.ahead, &left.bytes, depth, text)? {
        left.ahead.count -= group.count;
        left.ahead.begin += group.end;
    }
    left.let_go();
    Ok(())
}

impl Unprinted {
    /// Whether it is worth while to look for parts, which may stand in the bytes.
    fn is_due(&self, is_whole: bool) -> bool
        ensures { result ≡ true → self.now.ahead.begin ≤ length self.now.bytes.items }
    {
        let count = self.bytes.len();
        self.ahead.begin <= count && (is_whole || self.least <= count)
    }

    /// The bytes of the parts.
    fn rest(&self) -> &[u8]
        ensures { result.now ≡ drop self.now.ahead.begin self.now.bytes.items }
    {
        let begin = self.ahead.begin.min(self.bytes.len());
        &self.bytes[begin..]
    }

    /// Lets go of the bytes in front of the parts. It is worth while to look again when there are twice as many.
    fn let_go(&mut self)
        requires { self.old.ahead.begin ≤ length self.old.bytes.items }
        ensures bytes { self.new.bytes.items ≡ drop self.old.ahead.begin self.old.bytes.items }
        ensures begin { self.new.ahead.begin ≡ 0 }
        ensures count { self.new.ahead.count ≡ self.old.ahead.count }
        ensures parts { self.new.ahead.parts ≡ self.old.ahead.parts }
    {
        let begin = self.ahead.begin;
        let count = self.bytes.len() - begin;
        self.bytes.as_mut_slice().copy_within(begin.., 0);
        self.bytes.truncate(count);
        self.ahead.begin = 0;
        self.least = count.saturating_mul(2);
    }
}

/// The reader, between two items, as one that keeps nothing of the next.
fn into_passing(reader: GoReader) -> PassingReader
    requires between { IsBetweenItems (session_of reader) }
    ensures read { (read now : Option (List ℕ)) (given : List FilledItem) → HasReadFrom reader read now given
        → HasReadBy passing_stepping result read now given }
    ensures between { IsBetweenItems (session_of result) }
    ensures waits { waits_in result ≡ waits_in reader }
    ensures table { table_of (session_of result) ≡ table_of (session_of reader) }
    ensures taken { taken_of (session_of result) ≡ taken_of (session_of reader) }
    ensures limits { limits_of (session_of result) ≡ limits_of (session_of reader) }
{
    let (session, ahead) = reader.into_parts();
    ReaderOf::from_parts(session.into_passing(), ahead)
}

/// The reader, between two items, as one that hands out those to come.
fn into_keeping(reader: PassingReader) -> GoReader
    requires between { IsBetweenItems (session_of reader) }
    ensures read { (read now : Option (List ℕ)) (given : List FilledItem)
        → HasReadBy passing_stepping reader read now given → HasReadFrom result read now given }
    ensures between { IsBetweenItems (session_of result) }
    ensures table { table_of (session_of result) ≡ table_of (session_of reader) }
    ensures taken { taken_of (session_of result) ≡ taken_of (session_of reader) }
    ensures limits { limits_of (session_of result) ≡ limits_of (session_of reader) }
{
    let (session, ahead) = reader.into_parts();
    ReaderOf::from_parts(session.into_keeping(), ahead)
}
