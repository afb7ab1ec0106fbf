//! The JSON of an item.

ghost use Rattle.std.specs.Prelude.{◌≡◌, ◌≤◌, [], IfOk, string_bytes};
ghost use Rattle.json.specs.Tree.{json_tokens};
ghost use Rattle.serde_json.specs.Data.{Data};
ghost use Rattle.serde_json.specs.Written.{outline, compact_text};
ghost use Rattle.gob_types.specs.declared.id.TypeId.{TypeId};
ghost use Rattle.gob_types.specs.Defined.{types};
ghost use Rattle.gob_value.specs.Tree.{Tree, depth};
ghost use Rattle.gob_stream.specs.Item.{StreamItem, item_view, puts, ItemMeans};
ghost use Rattle.gob_tape.specs.Meaning.{Means};
ghost use Rattle.gob_json_writer.specs.WritesJson.{WritesJson, WritesJsonOf};
ghost use Rattle.gob_tool.specs.Line.{item_json, item_text};

use gob_json_writer::{write_definition, write_put, write_tape};
use gob_num::Memory;
use gob_stream::Item;
use gob_tape::Tape;
use gob_types::{Shapes, Table};
use gob_value::Value;
use json::Writer;
use std::alloc::{AllocError, Global};

/// The JSON of an item, compact, without a line feed: of a definition the shape that its id has in the table,
/// of a value its type and its parts, whose types the table tells. The keys of an object stand in the order of
/// their bytes. It is meant for an item of a stream and the table of that stream; for others it answers too,
/// and counts what the table doesn't have as type 0 and as the empty name.
pub fn json_of(alloc: Global, item: &Item<Value>, table: &Table) -> Result<String, Memory>
    ensures { IfOk result (λ text. string_bytes text ≡ item_text (types table.now) (item_view item.now)) }
{
    let mut out = Writer::new(Vec::new(alloc));
    write_item(alloc, item, table, &mut out)?;
    Ok(text_of(out))
}

/// The JSON of an item whose value is a tape, as [`json_of`] gives it of the value that the tape means, which is at
/// most 1000 deep, since it is written by recursion. It is written as the tape's views show it, and no value is made.
pub fn json_of_tape(alloc: Global, item: &Item<Tape>, table: &Table) -> Result<String, Memory>
    requires { (id : TypeId) (v : Tree) → ItemMeans Means item.now (puts id v) → depth v ≤ 1000 }
    ensures { IfOk result (λ text. (i : StreamItem) → ItemMeans Means item.now i
        → string_bytes text ≡ item_text (types table.now) i) }
{
    let mut out = Writer::new(Vec::new(alloc));
    write_item_of_tape(alloc, item, table, &mut out)?;
    Ok(text_of(out))
}

/// Writes the JSON of an item whose value is a tape.
fn write_item_of_tape(
    alloc: Global,
    item: &Item<Tape>,
    table: &Table,
    out: &mut Writer,
) -> Result<(), AllocError>
    ensures { WritesJsonOf result out.old out.new (ItemMeans Means item.now) (item_json (types table.now)) }
{
    match item {
        Item::Define { id, .. } => write_definition(alloc, *id, table.shape_of(*id), out),
        Item::Put { id, value } => write_tape(alloc, *id, value, table, out),
    }
}

/// The text that the writer holds.
fn text_of(out: Writer) -> String
    requires { out.before ≡ [] }
    ensures { (d : Data) → out.tokens ≡ json_tokens (outline d) → string_bytes result ≡ compact_text d }
{
    match String::from_utf8(out.into_inner()) {
        Ok(text) => text,
        Err(_) => unreachable!(),
    }
}

/// Writes the JSON of an item.
pub(crate) fn write_item<S: Shapes>(
    alloc: Global,
    item: &Item<Value>,
    table: &S,
    out: &mut Writer,
) -> Result<(), AllocError>
    ensures { WritesJson result out.old out.new (item_json (S.table table.now) (item_view item.now)) }
{
    match item {
        Item::Define { id, .. } => write_definition(alloc, *id, table.shape_of(*id), out),
        Item::Put { id, value } => write_put(alloc, *id, value, table, out),
    }
}
