//! The texts of values that are received as values of a wanted type.

ghost use Rattle.std.specs.Prelude.{◌≡◌, ◌^◌, ◌<◌, ◌∷◌, [], IfErr, OnOk, Some};
ghost use Rattle.gob_types.specs.Defined.{types};
ghost use Rattle.gob_types.specs.Ready.{IsReady};
ghost use Rattle.gob_stream.specs.Item.{item_view};
ghost use Rattle.gob_tool.specs.Machine.Receiver.{Clashes, KeepsKnown, KeepsMatch, ReceivesNone, StaysKnown};
ghost use Rattle.gob_tool.specs.Machine.Receiver.{is_received_of_item, is_received_of_value};
ghost use Rattle.gob_tool.specs.Machine.Taken.{AreSent};

use crate::fault::ToolFault;
use crate::item_line::{line_depth, whole_item};
use crate::receiver::{LastMatch, Receiver};
use crate::text_steps::TextSteps;
use crate::texts::Sent;
use gob_match::MatchFault;
use gob_read::TreeBuilder;
use gob_stream::{Advance, Item, Output, Session, StreamReader};
use gob_types::Table;
use gob_value::Value;
use std::alloc::Global;
use std::io::Write;

impl<const MOST: usize> TextSteps<Session<TreeBuilder>> for Receiver<'_, MOST> {
    type Kept = LastMatch;

    ghost of_item = { λ receiver. is_received_of_item receiver.form (types receiver.wanted.now) receiver.wanted_id };

    ghost of_value = { λ receiver. is_received_of_value receiver.form (types receiver.wanted.now) receiver.wanted_id };

    ghost stops = { λ receiver. Clashes (types receiver.wanted.now) receiver.wanted_id };

    ghost fits = { λ receiver. KeepsMatch (types receiver.wanted.now) receiver.wanted_id };

    fn step_text(
        &self,
        alloc: Global,
        reader: &mut StreamReader<TreeBuilder>,
        kept: &mut LastMatch,
        text: &mut Vec<u8>,
    ) -> Result<(), ToolFault> {
        let Advance { item, .. } = reader.step(alloc)?;
        let Some(item) = item else {
            return Ok(());
        };
        let made = push_received(alloc, &item, reader.table(), self, kept, text);
        drop(item);
        Ok(made?)
    }

    fn send_whole<W: Write>(
        &self,
        alloc: Global,
        reader: &StreamReader<TreeBuilder>,
        kept: &mut LastMatch,
        output: &mut Output<W>,
    ) -> Option<Sent> {
        let depth = line_depth(reader);
        let item = whole_item(reader, depth, MOST)?;
        if !self.receive_whole(alloc, reader.table(), &item, depth, kept) {
            return None;
        }
        let sent = self.send(alloc, &kept.room, depth, output)?;
        Some(Sent {
            used: item.used,
            sent,
        })
    }
}

/// Makes in `text`, which is empty, the text of what is received of an item, if it is a value. `stream` has the types
/// behind it.
fn push_received<const MOST: usize>(
    alloc: Global,
    item: &Item<Value>,
    stream: &Table,
    receiver: &Receiver<'_, MOST>,
    kept: &mut LastMatch,
    text: &mut Vec<u8>,
) -> Result<(), MatchFault>
    requires sent { AreSent (types stream.now) (item_view item.now ∷ []) }
    requires known { StaysKnown (types stream.now) (types receiver.now.wanted.now) receiver.now.wanted_id kept.old
        (Some item.now) }
    requires ready { IsReady (types receiver.now.wanted.now) receiver.now.wanted_id }
    requires number { receiver.now.wanted_id.0 < 2 ^ 63 }
    requires empty { text.old.items ≡ [] }
    ensures made { OnOk result (is_received_of_item receiver.now.form (types receiver.now.wanted.now)
        receiver.now.wanted_id (types stream.now) item.now text.new.items) }
    ensures known { OnOk result (KeepsKnown (types stream.now) (types receiver.now.wanted.now) receiver.now.wanted_id
        kept.new) }
    ensures fault { IfErr result (ReceivesNone (types receiver.now.wanted.now) receiver.now.wanted_id
        (types stream.now) item.now) }
{
    match item {
        Item::Define { .. } => {
            kept.forget();
            Ok(())
        }
        Item::Put { id, value } => {
            let value = receiver.receive(alloc, stream, *id, value, kept)?;
            let pushed = receiver.push(alloc, value, text);
            Ok(pushed?)
        }
    }
}
