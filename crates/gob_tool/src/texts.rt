//! The run that writes a text of each item of a stream.

ghost use Rattle.std.specs.Prelude.{◌≡◌, ◌≢◌, ℕ, ◌<◌, List, [], length, Option, Some, true, false, IfErr, IfOk, OnOk};
ghost use Rattle.gob_types.specs.Defined.{types};
ghost use Rattle.gob_types.specs.Table.{Table as Types};
ghost use Rattle.gob_stream.specs.Calls.Ends.{failed_reads, failed_writes, reader_of, writer_of};
ghost use Rattle.gob_stream.specs.Calls.ReaderOf.{HasReadBy, session_of, waits_in};
ghost use Rattle.gob_tool.specs.Ending.{CountsOnlyWrites};
ghost use Rattle.gob_tool.specs.Fault.{IsOfWanted};
ghost use Rattle.gob_tool.specs.Showing.{CountsReadFaults, CountsWriteFaults, IsFlushedSince};
ghost use Rattle.gob_tool.specs.Texts.{AnswersOrStops, IsStopBy, IsTextBy, TextsAnswersIn};
ghost use Rattle.gob_tool.specs.Machine.Texts.{AppendsTexts, CountsFaults, HasReadSome, SendsLarge};
ghost use Rattle.gob_tool.specs.Machine.Texts.{SendsNone, WritesNext};

use crate::end::{end_run, flush_before_waiting};
use crate::fault::ToolFault;
use crate::text_steps::{EachAlone, TextSteps};
use gob_num::Memory;
use gob_stream::{Input, Limits, Output, ReaderOf, Steps, WriteFault};
use gob_types::Table;
use std::alloc::Global;
use std::io::{Read, Write};

/// So many bytes of texts go out before more are made: as many as the program's buffer has, past which they then go.
pub const MOST_GATHERED: usize = 65536;

/// What makes the texts of the items that a session of the type `S` reads.
pub trait ItemTexts<S: Steps> {
    ghost use Rattle.std.specs.Prelude.{◌≡◌, ℕ, List, [], IfOk, MatchOption, OnOk};
    ghost use Rattle.gob_types.specs.Defined.{types};
    ghost use Rattle.gob_types.specs.Table.{Table};
    ghost use Rattle.gob_types.specs.declared.id.TypeId.{TypeId};
    ghost use Rattle.gob_filled.specs.Filled.{Filled};
    ghost use Rattle.gob_stream.specs.Calls.Ends.{failed_writes, writer_of};
    ghost use Rattle.gob_tool.specs.Texts.{IsGiven, IsWholeText, SendsWhole};

    /// The text is that of what a session handed out, where the types behind it are those of the table.
    ghost of_item: { Self → Table → S.Item → List ℕ → Type 0 };

    /// It is that of a value of the type that waited as a whole, and defines nothing.
    ghost of_value: { Self → Table → TypeId → Filled → List ℕ → Type 0 };

    /// Makes the text of an item of a stream, by the types behind it, in `text`, which is empty.
    fn push_item(
        &self,
        alloc: Global,
        item: S::Item,
        table: &Table,
        text: &mut Vec<u8>,
    ) -> Result<(), Memory>
        requires of_stream { IsGiven S.stepping (types table.now) item }
        requires empty { text.old.items ≡ [] }
        ensures { OnOk result (of_item self.now (types table.now) item text.new.items) };

    /// Makes the text of the item of a value that waits in front as a whole, and defines nothing, in `text`, which
    /// is empty, and answers how many bytes the item has. None says nothing of what waits, and leaves `text` empty.
    fn push_whole(
        &self,
        alloc: Global,
        reader: &ReaderOf<S>,
        text: &mut Vec<u8>,
    ) -> Result<Option<usize>, Memory>
        requires { text.old.items ≡ [] }
        ensures { IfOk result (λ found. MatchOption found (text.new.items ≡ [])
            (λ used. IsWholeText S.stepping (of_value self.now) reader.now used text.new.items)) };

    /// Sends the text of such an item, where it is so large that it had better not be made first. None says nothing of
    /// what waits, and nothing was sent: so where each text is made before it goes out, and where no memory was had.
    fn send_whole<W: Write>(
        &self,
        alloc: Global,
        reader: &ReaderOf<S>,
        output: &mut Output<W>,
    ) -> Option<Sent>
        ensures { SendsWhole S.stepping (of_value self.now) reader.now (failed_writes output.old)
            (failed_writes output.new) (W.contents (writer_of output.old)) (W.contents (writer_of output.new))
            result }
    {
        None
    }
}

/// An item whose text was sent.
#[derive(Drop)]
pub struct Sent {
    /// How many bytes the item has.
    pub used: usize,
    /// Whether all of its text went out; else a prefix of it did.
    pub sent: Result<(), WriteFault>,
}

/// Writes the text of each item of a stream, in the grammar of the session `S`, and nothing else, and ends with a
/// flush. Ok exactly at the end of a whole stream. Before a fault is answered the texts of the items before it are
/// written; at `ToolFault::Write` a prefix of them may be. A flush that fails is that fault where no other came before
/// it. What it takes in memory grows with the types and the largest item alone. No value may be deeper than
/// `limits.depth()`, or than the session goes.
pub fn run_texts<S: Steps, R: Read, W: Write, M: ItemTexts<S>>(
    alloc: Global,
    input: &mut Input<R>,
    output: &mut Output<W>,
    limits: Limits,
    texts: &M,
) -> Result<(), ToolFault>
    ensures written { (bytes : List ℕ) → R.remaining (reader_of input.old) ≡ Some bytes
        → TextsAnswersIn S.stepping.grammar (IsTextBy S.stepping (M.of_item texts.now) (M.of_value texts.now))
        (S.stepping.within limits) bytes (R.remaining (reader_of input.new))
        (W.contents (writer_of output.old)) (W.contents (writer_of output.new)) result }
    ensures reads { CountsReadFaults (failed_reads input.old) (failed_reads input.new) result }
    ensures writes { CountsWriteFaults (failed_writes output.old) (failed_writes output.new) result }
    ensures flushed { IsFlushedSince (failed_writes output.old) output.new }
{
    let alone = EachAlone { texts };
    let answer = write_items::<S, R, W, EachAlone<'_, M>>(alloc, input, output, limits, &alone, ());
    end_run(answer, output)
}

/// Writes the texts. `kept` is what is kept before the first item.
pub(crate) fn write_items<S: Steps, R: Read, W: Write, M: TextSteps<S>>(
    alloc: Global,
    input: &mut Input<R>,
    output: &mut Output<W>,
    limits: Limits,
    texts: &M,
    mut kept: M::Kept,
) -> Result<(), ToolFault>
    requires fits { (T : Types) → M.fits texts.now kept T }
    ensures written { (bytes : List ℕ) → R.remaining (reader_of input.old) ≡ Some bytes
        → AnswersOrStops S.stepping.grammar (IsTextBy S.stepping (M.of_item texts.now) (M.of_value texts.now))
        (IsStopBy S.stepping (M.stops texts.now)) (S.stepping.within limits) bytes
        (R.remaining (reader_of input.new)) (W.contents (writer_of output.old)) (W.contents (writer_of output.new))
        result }
    ensures reads { CountsReadFaults (failed_reads input.old) (failed_reads input.new) result }
    ensures own { IfErr result (λ fault. IsOfWanted fault → ⊥) }
    ensures writes { CountsOnlyWrites (failed_writes output.old) (failed_writes output.new) result }
{
    let mut reader = ReaderOf::<S>::new(alloc, limits)?;
    let mut gathered = Vec::new(alloc);
    'items: while reader.fill(input)? {
        write_next(alloc, &mut reader, texts, &mut kept, &mut gathered, output)?;
        flush_before_waiting(&reader, output)?;
    }
    Ok(())
}

/// Takes some of the bytes that wait, and writes the texts of the items that are whole with them. `gathered` is room
/// for those that are made. Before a fault is answered the texts of the items before it are written; at
/// `ToolFault::Write` a prefix of them may be. After a fault of the reader each call that may fail answers it.
pub fn write_next_texts<S: Steps, W: Write, M: ItemTexts<S>>(
    alloc: Global,
    reader: &mut ReaderOf<S>,
    texts: &M,
    gathered: &mut Vec<u8>,
    output: &mut Output<W>,
) -> Result<(), ToolFault>
    requires some { 0 < length (waits_in reader.old) }
    requires so_far { HasReadSome S.stepping reader.old }
    ensures written { (read now : Option (List ℕ)) (given : List S.Told)
        → HasReadBy S.stepping reader.old read now given
        → WritesNext S.stepping (IsTextBy S.stepping (M.of_item texts.now) (M.of_value texts.now))
        (IsStopBy S.stepping (λ T given fault. ⊥)) reader.old reader.new read now given
        (W.contents (writer_of output.old)) (W.contents (writer_of output.new)) result }
    ensures unread { IfErr result (λ fault. fault ≢ ToolFault.Read) }
    ensures limits { S.stepping.limits (session_of reader.new) ≡ S.stepping.limits (session_of reader.old) }
    ensures writes { CountsOnlyWrites (failed_writes output.old) (failed_writes output.new) result }
{
    let alone = EachAlone { texts };
    write_next(alloc, reader, &alone, &mut (), gathered, output)
}

/// Takes some of the bytes that wait, and writes the texts of the items that are whole with them. `gathered` is for
/// those that are made; others go out while they are made.
fn write_next<S: Steps, W: Write, M: TextSteps<S>>(
    alloc: Global,
    reader: &mut ReaderOf<S>,
    texts: &M,
    kept: &mut M::Kept,
    gathered: &mut Vec<u8>,
    output: &mut Output<W>,
) -> Result<(), ToolFault>
    requires some { 0 < length (waits_in reader.old) }
    requires so_far { HasReadSome S.stepping reader.old }
    requires fits { M.fits texts.now kept.old (types (S.stepping.table (session_of reader.old))) }
    ensures written { (read now : Option (List ℕ)) (given : List S.Told)
        → HasReadBy S.stepping reader.old read now given
        → WritesNext S.stepping (IsTextBy S.stepping (M.of_item texts.now) (M.of_value texts.now))
        (IsStopBy S.stepping (M.stops texts.now)) reader.old reader.new read now given
        (W.contents (writer_of output.old)) (W.contents (writer_of output.new)) result }
    ensures fits { OnOk result (M.fits texts.now kept.new (types (S.stepping.table (session_of reader.new)))) }
    ensures unread { IfErr result (λ fault. fault ≢ ToolFault.Read) }
    ensures own { IfErr result (λ fault. IsOfWanted fault → ⊥) }
    ensures limits { S.stepping.limits (session_of reader.new) ≡ S.stepping.limits (session_of reader.old) }
    ensures writes { CountsOnlyWrites (failed_writes output.old) (failed_writes output.new) result }
{
    if send_large(alloc, reader, texts, kept, output)? {
        return Ok(());
    }
    write_gathered(alloc, reader, texts, kept, gathered, output)
}

/// Writes the text of the item of a value that waits as a whole, if there is one whose text can be sent, and goes past
/// it. False where there is none; nothing has changed then but what is kept.
fn send_large<S: Steps, W: Write, M: TextSteps<S>>(
    alloc: Global,
    reader: &mut ReaderOf<S>,
    texts: &M,
    kept: &mut M::Kept,
    output: &mut Output<W>,
) -> Result<bool, WriteFault>
    requires { M.fits texts.now kept.old (types (S.stepping.table (session_of reader.old))) }
    ensures sent { (read now : Option (List ℕ)) (given : List S.Told) → HasReadBy S.stepping reader.old read now given
        → SendsLarge S.stepping (IsTextBy S.stepping (M.of_item texts.now) (M.of_value texts.now)) reader.old reader.new
        read now given (W.contents (writer_of output.old)) (W.contents (writer_of output.new)) result }
    ensures fits { M.fits texts.now kept.new (types (S.stepping.table (session_of reader.new))) }
    ensures same { SendsNone reader.old reader.new (failed_writes output.old) (failed_writes output.new)
        (W.contents (writer_of output.old)) (W.contents (writer_of output.new)) result }
    ensures limits { S.stepping.limits (session_of reader.new) ≡ S.stepping.limits (session_of reader.old) }
    ensures fault { IfErr result (λ fault. fault ≡ WriteFault.Write) }
    ensures counted { CountsFaults (failed_writes output.old) (failed_writes output.new) result }
{
    let Some(Sent { used, sent }) = texts.send_whole(alloc, reader, kept, output) else {
        return Ok(false);
    };
    reader.pass(used);
    sent?;
    Ok(true)
}

/// Takes some of the bytes that wait, and writes the texts of the items that are whole with them, which are made in
/// `gathered` before they go out together. Those before a fault go out before it is answered.
fn write_gathered<S: Steps, W: Write, M: TextSteps<S>>(
    alloc: Global,
    reader: &mut ReaderOf<S>,
    texts: &M,
    kept: &mut M::Kept,
    gathered: &mut Vec<u8>,
    output: &mut Output<W>,
) -> Result<(), ToolFault>
    requires some { 0 < length (waits_in reader.old) }
    requires so_far { HasReadSome S.stepping reader.old }
    requires fits { M.fits texts.now kept.old (types (S.stepping.table (session_of reader.old))) }
    ensures written { (read now : Option (List ℕ)) (given : List S.Told)
        → HasReadBy S.stepping reader.old read now given
        → WritesNext S.stepping (IsTextBy S.stepping (M.of_item texts.now) (M.of_value texts.now))
        (IsStopBy S.stepping (M.stops texts.now)) reader.old reader.new read now given
        (W.contents (writer_of output.old)) (W.contents (writer_of output.new)) result }
    ensures fits { OnOk result (M.fits texts.now kept.new (types (S.stepping.table (session_of reader.new)))) }
    ensures unread { IfErr result (λ fault. fault ≢ ToolFault.Read) }
    ensures own { IfErr result (λ fault. IsOfWanted fault → ⊥) }
    ensures limits { S.stepping.limits (session_of reader.new) ≡ S.stepping.limits (session_of reader.old) }
    ensures writes { CountsOnlyWrites (failed_writes output.old) (failed_writes output.new) result }
{
    gathered.clear();
    match pass_texts(alloc, reader, texts, kept, gathered) {
        Ok(false) => write_step(alloc, reader, texts, kept, gathered, output),
        Ok(true) => Ok(output.send_all(gathered)?),
        Err(memory) => {
            output.send_all(gathered)?;
            Err(ToolFault::from(memory))
        }
    }
}

/// Goes past the items of values that wait as a whole, one behind another, and define nothing, and appends their texts,
/// until enough bytes are gathered. Whether there was one; else nothing has changed but what is
/// kept. After [`Memory`] the texts of the items that were passed stand there.
fn pass_texts<S: Steps, M: TextSteps<S>>(
    alloc: Global,
    reader: &mut ReaderOf<S>,
    texts: &M,
    kept: &mut M::Kept,
    gathered: &mut Vec<u8>,
) -> Result<bool, Memory>
    requires so_far { HasReadSome S.stepping reader.old }
    requires fits { M.fits texts.now kept.old (types (S.stepping.table (session_of reader.old))) }
    ensures passed { (read now : Option (List ℕ)) (given : List S.Told) → HasReadBy S.stepping reader.old read now given
        → AppendsTexts S.stepping (IsTextBy S.stepping (M.of_item texts.now) (M.of_value texts.now)) reader.old
        reader.new read now given gathered.old.items gathered.new.items }
    ensures fits { M.fits texts.now kept.new (types (S.stepping.table (session_of reader.new))) }
    ensures onward { IfOk result (λ passed. passed ≡ true
        → S.stepping.taken (session_of reader.old) < S.stepping.taken (session_of reader.new)) }
    ensures none { IfOk result (λ passed. passed ≡ false
        → (reader.new ≡ reader.old) × (gathered.new.items ≡ gathered.old.items)) }
    ensures limits { S.stepping.limits (session_of reader.new) ≡ S.stepping.limits (session_of reader.old) }
{
    let mut room = Vec::new(alloc);
    let mut passed = false;
    'items: while gathered.len() < MOST_GATHERED {
        room.clear();
        let Some(used) = texts.whole_text(alloc, reader, kept, &mut room)? else {
            break;
        };
        gathered.extend_from_slice(&room)?;
        reader.pass(used);
        passed = true;
    }
    Ok(passed)
}

/// Takes some of the bytes that wait by a step, and writes the text of the item that is whole with them, which is made
/// in `text`, which is empty.
fn write_step<S: Steps, W: Write, M: TextSteps<S>>(
    alloc: Global,
    reader: &mut ReaderOf<S>,
    texts: &M,
    kept: &mut M::Kept,
    text: &mut Vec<u8>,
    output: &mut Output<W>,
) -> Result<(), ToolFault>
    requires some { 0 < length (waits_in reader.old) }
    requires so_far { HasReadSome S.stepping reader.old }
    requires fits { M.fits texts.now kept.old (types (S.stepping.table (session_of reader.old))) }
    requires empty { text.old.items ≡ [] }
    ensures written { (read now : Option (List ℕ)) (given : List S.Told)
        → HasReadBy S.stepping reader.old read now given
        → WritesNext S.stepping (IsTextBy S.stepping (M.of_item texts.now) (M.of_value texts.now))
        (IsStopBy S.stepping (M.stops texts.now)) reader.old reader.new read now given
        (W.contents (writer_of output.old)) (W.contents (writer_of output.new)) result }
    ensures fits { OnOk result (M.fits texts.now kept.new (types (S.stepping.table (session_of reader.new)))) }
    ensures unread { IfErr result (λ fault. fault ≢ ToolFault.Read) }
    ensures own { IfErr result (λ fault. IsOfWanted fault → ⊥) }
    ensures limits { S.stepping.limits (session_of reader.new) ≡ S.stepping.limits (session_of reader.old) }
    ensures writes { CountsOnlyWrites (failed_writes output.old) (failed_writes output.new) result }
{
    texts.step_text(alloc, reader, kept, text)?;
    output.send_all(text)?;
    Ok(())
}
