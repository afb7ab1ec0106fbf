//! The definitions of a stream, without its values.

ghost use Rattle.std.specs.Prelude.{◌≡◌, ◌≤◌, ◌++◌, ℕ, List, Some, OnOk, length};
ghost use Rattle.gob_stream.specs.Bounds.{within_trees};
ghost use Rattle.gob_stream.specs.Calls.Ends.{failed_reads, reader_of};
ghost use Rattle.gob_tool.specs.Showing.{CountsReadFaults};
ghost use Rattle.gob_split.specs.Definitions.{DefinitionsAnswers};
ghost use Rattle.gob_split.specs.Machine.Items.{text_in};

use crate::item_text::ItemText;
use crate::next_text::take_next;
use gob_go::GoReader;
use gob_num::Memory;
use gob_stream::{Input, Limits};
use gob_tool::ToolFault;
use std::alloc::Global;
use std::io::Read;

/// Appends the definitions of a stream of Go's encoder to `defining`, each once and in order, as items: a definition
/// that stands in a value stands in an item of its own. What is appended is a stream that defines the types of the
/// input, and has no value.
///
/// Ok exactly at the end of a whole stream. Where the stream is refused, the definitions of the items before are
/// appended. What it takes in memory grows with the types and the largest item alone; `ToolFault::Memory` also comes at
/// an item of 2^60 bytes or more. No value may be deeper than `limits.depth()` or than 1000; what an interface holds is
/// one deeper than the interface.
pub fn push_definitions<R: Read>(
    alloc: Global,
    input: &mut Input<R>,
    defining: &mut Vec<u8>,
    limits: Limits,
) -> Result<(), ToolFault>
    ensures defined { (bytes : List ℕ) → R.remaining (reader_of input.old) ≡ Some bytes
        → DefinitionsAnswers (within_trees limits) bytes (R.remaining (reader_of input.new)) defining.old.items
        defining.new.items result }
    ensures reads { CountsReadFaults (failed_reads input.old) (failed_reads input.new) result }
{
    let mut reader = GoReader::new(alloc, limits)?;
    let mut text = ItemText {
        bytes: Vec::new(alloc),
        definitions: 0,
    };
    'items: while reader.fill(input)? {
        if !take_next(alloc, &mut reader, &mut text)? {
            continue;
        }
        push_first(defining, &text)?;
    }
    Ok(())
}

// Appends those of the text of an item.
fn push_first(defining: &mut Vec<u8>, text: &ItemText) -> Result<(), Memory>
    requires { text.now.definitions ≤ length text.now.bytes.items }
    ensures { OnOk result (defining.new.items ≡ defining.old.items ++ (text_in text.now).definitions) }
{
    Ok(defining.extend_from_slice(&text.bytes[..text.definitions])?)
}
