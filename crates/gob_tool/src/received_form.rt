//! In which form received values go out: as lines, or as items of a stream.

ghost use Rattle.std.specs.Prelude.{◌≡◌, ◌^◌, ◌<◌, ◌≤◌, [], OnOk};
ghost use Rattle.gob_num.specs.Spelled.{Appends};
ghost use Rattle.gob_types.specs.Base.{base_table};
ghost use Rattle.gob_types.specs.Defined.{types};
ghost use Rattle.gob_value.specs.Top.{SpellsTop};
ghost use Rattle.gob_value.specs.View.{view};
ghost use Rattle.gob_value.specs.Whole.{IsWhole};
ghost use Rattle.gob_value.specs.Within.{FitsWithin};
ghost use Rattle.gob_stream.specs.Bounds.{greatest_depth};
ghost use Rattle.gob_stream.specs.Calls.Ends.{failed_writes, writer_of};
ghost use Rattle.gob_stream.specs.Calls.Writing.{CountsWriterFaults};
ghost use Rattle.gob_stream.specs.Item.{defines, puts};
ghost use Rattle.gob_tool.specs.Machine.Received.{Says, SendsReceived, text_in_front};
ghost use Rattle.gob_tool.specs.Machine.Rewritten.{IsLastOfStream, SpellsItem};
ghost use Rattle.gob_tool.specs.Sending.{Sends};

use crate::item_line::{given_line, send_item};
use crate::receiver::Receiver;
use crate::tidied::{push_content, send_content, spell_fitting};
use gob_num::Memory;
use gob_stream::{Item, Output, WriteFault};
use gob_types::{Table, TypeId};
use gob_value::{Value, has_structs};
use std::alloc::Global;
use std::io::Write;

/// In which form a received value goes out.
#[derive(Clone, Copy)]
pub(crate) enum ReceivedForm {
    /// As its line of JSON.
    Line,
    /// As an item of a stream, behind definitions.
    Item,
}

impl ReceivedForm {
    /// Sends what stands in front of all values, where `definitions` are those of a stream.
    pub(crate) fn begin<W: Write>(
        self,
        definitions: &[u8],
        output: &mut Output<W>,
    ) -> Result<(), WriteFault>
        ensures sent { Sends (W.contents (writer_of output.old)) (W.contents (writer_of output.new))
            (text_in_front self definitions.now) result }
        ensures counted { CountsWriterFaults (failed_writes output.old) (failed_writes output.new) result }
    {
        match self {
            ReceivedForm::Line => Ok(()),
            ReceivedForm::Item => output.send_all(definitions),
        }
    }
}

impl<const MOST: usize> Receiver<'_, MOST> {
    /// Makes the text of a received value in `text`, which is empty.
    pub(crate) fn push(&self, alloc: Global, value: Value, text: &mut Vec<u8>) -> Result<(), Memory>
        requires number { self.now.wanted_id.0 < 2 ^ 63 }
        requires fits { FitsWithin (types self.now.wanted.now) self.now.wanted_id greatest_depth (view value) }
        requires empty { text.old.items ≡ [] }
        ensures { OnOk result (Says self.now.form (types self.now.wanted.now) self.now.wanted_id (view value)
            text.new.items) }
    {
        match self.form {
            ReceivedForm::Line => push_line(alloc, self.wanted, self.wanted_id, value, text),
            ReceivedForm::Item => {
                let pushed = push_put(alloc, self.wanted, self.wanted_id, &value, text);
                drop(value);
                pushed
            }
        }
    }

    /// Sends the text of the received value that the body spells. None: no memory was had, and nothing was sent.
    pub(crate) fn send<W: Write>(
        &self,
        alloc: Global,
        body: &[u8],
        depth: u64,
        output: &mut Output<W>,
    ) -> Option<Result<(), WriteFault>>
        requires number { self.now.wanted_id.0 < 2 ^ 63 }
        requires depth { depth ≤ greatest_depth }
        requires whole { IsWhole (types self.now.wanted.now) self.now.wanted_id depth body.now }
        ensures { SendsReceived self.now.form (types self.now.wanted.now) self.now.wanted_id depth body.now
            (failed_writes output.old) (failed_writes output.new) (W.contents (writer_of output.old))
            (W.contents (writer_of output.new)) result }
    {
        match self.form {
            ReceivedForm::Line => {
                Some(send_item(self.wanted, self.wanted_id, body, depth, output))
            }
            ReceivedForm::Item => send_content(alloc, self.wanted_id.0 as i64, body, output),
        }
    }
}

/// Makes the line of a value in `text`, which is empty.
fn push_line(
    alloc: Global,
    table: &Table,
    id: TypeId,
    value: Value,
    text: &mut Vec<u8>,
) -> Result<(), Memory>
    requires { text.old.items ≡ [] }
    ensures { OnOk result (Says ReceivedForm.Line (types table.now) id (view value) text.new.items) }
{
    let item = Some(Item::Put { id, value });
    let made = given_line(alloc, &item, table, text);
    drop(item);
    made
}

/// Makes the item of a value in `text`, which is empty.
fn push_put(
    alloc: Global,
    table: &Table,
    id: TypeId,
    value: &Value,
    text: &mut Vec<u8>,
) -> Result<(), Memory>
    requires number { id.0 < 2 ^ 63 }
    requires fits { FitsWithin (types table.now) id greatest_depth (view value.now) }
    requires empty { text.old.items ≡ [] }
    ensures { OnOk result (SpellsItem (types table.now) (puts id (view value.now)) text.new.items) }
{
    let mut content = Vec::new(alloc);
    spell_top(alloc, table, id, value, &mut content)?;
    push_content(alloc, id.0 as i64, &content, text)
}

/// Spells a value in `content`, which is empty, behind its tag where it isn't a struct.
fn spell_top(
    alloc: Global,
    table: &Table,
    id: TypeId,
    value: &Value,
    content: &mut Vec<u8>,
) -> Result<(), Memory>
    requires fits { FitsWithin (types table.now) id greatest_depth (view value.now) }
    requires empty { content.old.items ≡ [] }
    ensures { OnOk result (SpellsTop (types table.now) id (view value.now) content.new.items) }
{
    if has_structs(table, id) {
        return spell_fitting(alloc, table, id, value, content);
    }
    content.push(0)?;
    spell_fitting(alloc, table, id, value, content)
}

/// Appends the item of a definition, the last of a stream behind which the types are those of the table.
pub(crate) fn push_definition(
    alloc: Global,
    table: &Table,
    id: TypeId,
    described: &Value,
    definitions: &mut Vec<u8>,
) -> Result<(), Memory>
    requires { IsLastOfStream (types table.now) (defines id (view described.now)) }
    ensures { OnOk result (Appends (SpellsItem base_table (defines id (view described.now))) definitions.old.items
        definitions.new.items) }
{
    let mut content = Vec::new(alloc);
    spell_fitting(alloc, table, TypeId::WIRE_TYPE, described, &mut content)?;
    let mut item = Vec::new(alloc);
    push_content(alloc, -(id.0 as i64), &content, &mut item)?;
    definitions.extend_from_slice(&item)?;
    Ok(())
}
