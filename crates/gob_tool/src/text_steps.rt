//! What a run over a stream asks of what makes its texts.

ghost use Rattle.std.specs.Prelude.{◌≡◌};
ghost use Rattle.gob_types.specs.Defined.{types};

use crate::fault::ToolFault;
use crate::texts::{ItemTexts, Sent};
use gob_num::Memory;
use gob_stream::{Advance, Output, ReaderOf, Steps};
use std::alloc::Global;
use std::io::Write;

/// What makes the texts of the items that a session of the type `S` reads, one behind another. It may keep something
/// from one item to the next, and stop the run at an item, by a fault of its own.
pub(crate) trait TextSteps<S: Steps> {
    ghost use Rattle.std.specs.Prelude.{◌≡◌, ◌≢◌, ◌<◌, ℕ, List, [], Option, IfErr, IfOk, MatchOption, OnOk, length};
    ghost use Rattle.gob_types.specs.Defined.{types};
    ghost use Rattle.gob_types.specs.Table.{Table};
    ghost use Rattle.gob_types.specs.declared.id.TypeId.{TypeId};
    ghost use Rattle.gob_filled.specs.Filled.{Filled};
    ghost use Rattle.gob_stream.specs.Calls.Ends.{failed_writes, writer_of};
    ghost use Rattle.gob_stream.specs.Calls.ReaderOf.{HasReadBy, session_of, waits_in};
    ghost use Rattle.gob_tool.specs.Ending.{CountsOnlyWrites};
    ghost use Rattle.gob_tool.specs.Fault.{IsOfWanted};
    ghost use Rattle.gob_tool.specs.Machine.Texts.{HasReadSome, MakesNext};
    ghost use Rattle.gob_tool.specs.Texts.{IsStopBy, IsTextBy, IsWholeText, SendsWhole};
    ghost use Rattle.gob_tool.specs.declared.fault.ToolFault.{ToolFault};

    /// What is kept from one item to the next.
    type Kept: Drop;

    /// The text is that of what a session handed out, where the types behind it are those of the table.
    ghost of_item: { Self → Table → S.Item → List ℕ → Type 0 };

    /// It is that of a value of the type that waited as a whole, and defines nothing.
    ghost of_value: { Self → Table → TypeId → Filled → List ℕ → Type 0 };

    /// The fault stops the run at what a session handed out.
    ghost stops: { Self → Table → S.Item → ToolFault → Type 0 } = { λ steps T given fault. ⊥ };

    /// What is kept is of items behind which the types are those of the table.
    ghost fits: { Self → Self.Kept → Table → Type 0 } = { λ steps kept T. Unit {0} };

    /// Takes some of the bytes that wait by a step, and makes in `text`, which is empty, the text of the item that is
    /// whole with them.
    fn step_text(
        &self,
        alloc: Global,
        reader: &mut ReaderOf<S>,
        kept: &mut Self::Kept,
        text: &mut Vec<u8>,
    ) -> Result<(), ToolFault>
        requires some { 0 < length (waits_in reader.old) }
        requires so_far { HasReadSome S.stepping reader.old }
        requires fits { fits self.now kept.old (types (S.stepping.table (session_of reader.old))) }
        requires empty { text.old.items ≡ [] }
        ensures made { (read now : Option (List ℕ)) (given : List S.Told)
            → HasReadBy S.stepping reader.old read now given
            → MakesNext S.stepping (IsTextBy S.stepping (of_item self.now) (of_value self.now))
            (IsStopBy S.stepping (stops self.now)) reader.old reader.new read now given text.new.items result }
        ensures fits { OnOk result (fits self.now kept.new (types (S.stepping.table (session_of reader.new)))) }
        ensures unread { IfErr result (λ fault. fault ≢ ToolFault.Read) }
        ensures own { IfErr result (λ fault. IsOfWanted fault → ⊥) }
        ensures unwritten { (failures : ℕ) → CountsOnlyWrites failures failures result }
        ensures limits { S.stepping.limits (session_of reader.new) ≡ S.stepping.limits (session_of reader.old) };

    /// Makes the text of the item of a value that waits in front as a whole, and defines nothing, in `text`, which
    /// is empty, and answers how many bytes the item has. None says nothing of what waits, and leaves `text` empty.
    fn whole_text(
        &self,
        alloc: Global,
        reader: &ReaderOf<S>,
        kept: &mut Self::Kept,
        text: &mut Vec<u8>,
    ) -> Result<Option<usize>, Memory>
        requires fits { fits self.now kept.old (types (S.stepping.table (session_of reader.now))) }
        requires empty { text.old.items ≡ [] }
        ensures made { IfOk result (λ found. MatchOption found (text.new.items ≡ [])
            (λ used. IsWholeText S.stepping (of_value self.now) reader.now used text.new.items)) }
        ensures fits { fits self.now kept.new (types (S.stepping.table (session_of reader.now))) }
    {
        Ok(None)
    }

    /// Sends the text of such an item. None says nothing of what waits, and nothing was sent.
    fn send_whole<W: Write>(
        &self,
        alloc: Global,
        reader: &ReaderOf<S>,
        kept: &mut Self::Kept,
        output: &mut Output<W>,
    ) -> Option<Sent>
        requires { fits self.now kept.old (types (S.stepping.table (session_of reader.now))) }
        ensures sent { SendsWhole S.stepping (of_value self.now) reader.now (failed_writes output.old)
            (failed_writes output.new) (W.contents (writer_of output.old)) (W.contents (writer_of output.new)) result }
        ensures fits { fits self.now kept.new (types (S.stepping.table (session_of reader.now))) };
}

/// The texts of items, each of which is made by itself.
#[derive(Drop)]
pub(crate) struct EachAlone<'a, M> {
    pub(crate) texts: &'a M,
}

impl<S: Steps, M: ItemTexts<S>> TextSteps<S> for EachAlone<'_, M> {
    type Kept = ();

    ghost of_item = { λ alone. M.of_item alone.texts.now };

    ghost of_value = { λ alone. M.of_value alone.texts.now };

    fn step_text(
        &self,
        alloc: Global,
        reader: &mut ReaderOf<S>,
        _kept: &mut (),
        text: &mut Vec<u8>,
    ) -> Result<(), ToolFault> {
        let Advance { item, .. } = reader.step(alloc)?;
        let Some(item) = item else {
            return Ok(());
        };
        self.texts.push_item(alloc, item, reader.table(), text)?;
        Ok(())
    }

    fn whole_text(
        &self,
        alloc: Global,
        reader: &ReaderOf<S>,
        _kept: &mut (),
        text: &mut Vec<u8>,
    ) -> Result<Option<usize>, Memory> {
        self.texts.push_whole(alloc, reader, text)
    }

    fn send_whole<W: Write>(
        &self,
        alloc: Global,
        reader: &ReaderOf<S>,
        _kept: &mut (),
        output: &mut Output<W>,
    ) -> Option<Sent> {
        self.texts.send_whole(alloc, reader, output)
    }
}
