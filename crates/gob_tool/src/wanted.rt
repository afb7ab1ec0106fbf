//! The type that the values of another stream are received as.

ghost use Rattle.std.specs.Prelude.{◌≡◌, ◌^◌, ◌<◌, ℕ, List, Option, Some, [], IfOk, IfSome, OnOk};
ghost use Rattle.gob_read.specs.Calls.Builders.{tree_building};
ghost use Rattle.gob_types.specs.Defined.{types};
ghost use Rattle.gob_types.specs.Ready.{IsReady};
ghost use Rattle.gob_stream.specs.Calls.Ends.{failed_reads, reader_of};
ghost use Rattle.gob_stream.specs.Bounds.{within_trees};
ghost use Rattle.gob_stream.specs.Item.{item_view};
ghost use Rattle.gob_stream.specs.Calls.Session.{limits_of, types_of};
ghost use Rattle.gob_stream.specs.Calls.Reader.{HasReadFrom, session_of};
ghost use Rattle.gob_tool.specs.Machine.Counting.{CountsCounting};
ghost use Rattle.gob_tool.specs.Machine.Taken.{CountsPiece, FindsWanted, ReadsWanted, first_type_of};
ghost use Rattle.gob_tool.specs.Machine.Taken.{views_given};
ghost use Rattle.gob_tool.specs.Machine.Taken.{FirstIsReady, Notes};
ghost use Rattle.gob_tool.specs.Machine.Rewritten.{IsLastOfStream};
ghost use Rattle.gob_tool.specs.Taking.{first_type};

use crate::fault::{ToolFault, wanted_fault};
use crate::received_form::push_definition;
use gob_num::Memory;
use gob_read::TreeBuilder;
use gob_stream::{Fault, Input, Item, StreamReader};
use gob_types::{Table, TypeId};
use gob_value::Value;
use std::alloc::Global;
use std::io::Read;

/// Reads a whole stream, by a reader that has read nothing, for the type of its first value, and appends the
/// definitions in front of that value to `definitions`. Its other items are ignored. The type stands in the reader's
/// table.
pub(crate) fn read_wanted<Q: Read>(
    alloc: Global,
    input: &mut Input<Q>,
    reader: &mut StreamReader<TreeBuilder>,
    definitions: &mut Vec<u8>,
) -> Result<TypeId, ToolFault>
    requires new { (read : Option (List ℕ)) → HasReadFrom tree_building reader.old read read [] }
    requires empty { definitions.old.items ≡ [] }
    ensures found { (bytes : List ℕ) → Q.remaining (reader_of input.old) ≡ Some bytes
        → FindsWanted (within_trees (limits_of (session_of reader.old))) bytes (Q.remaining (reader_of input.new))
        (types_of (session_of reader.new)) definitions.new.items result }
    ensures ready { IfOk result (λ id. IsReady (types_of (session_of reader.new)) id) }
    ensures number { IfOk result (λ id. id.0 < 2 ^ 63) }
    ensures reads { CountsCounting (failed_reads input.old) (failed_reads input.new) result }
{
    match read_type(alloc, input, reader, definitions) {
        Ok(Some(id)) => Ok(id),
        Ok(None) => Err(ToolFault::NoWantedType),
        Err(fault) => Err(wanted_fault(fault)),
    }
}

/// Reads the stream so. None: it has no value.
fn read_type<Q: Read>(
    alloc: Global,
    input: &mut Input<Q>,
    reader: &mut StreamReader<TreeBuilder>,
    definitions: &mut Vec<u8>,
) -> Result<Option<TypeId>, Fault>
    requires new { (read : Option (List ℕ)) → HasReadFrom tree_building reader.old read read [] }
    requires empty { definitions.old.items ≡ [] }
    ensures read { (bytes : List ℕ) → Q.remaining (reader_of input.old) ≡ Some bytes
        → ReadsWanted (within_trees (limits_of (session_of reader.old))) bytes (Q.remaining (reader_of input.new))
        (types_of (session_of reader.new)) definitions.new.items result }
    ensures ready { FirstIsReady (types_of (session_of reader.new)) result }
    ensures reads { CountsPiece (failed_reads input.old) (failed_reads input.new) result }
{
    let mut first = None;
    'steps: while reader.more(input)? {
        let step = reader.step(alloc)?;
        let noted = note(alloc, first, &step.item, reader.table(), definitions);
        drop(step);
        first = noted?;
    }
    Ok(first)
}

/// The type that is known, or else that of the item, if it is a value. Where none is known and the item is a
/// definition, that is appended to `definitions`. The types behind the item are those of the table.
fn note(
    alloc: Global,
    known: Option<TypeId>,
    item: &Option<Item<Value>>,
    table: &Table,
    definitions: &mut Vec<u8>,
) -> Result<Option<TypeId>, Memory>
    requires { IfSome item.now (λ given. IsLastOfStream (types table.now) (item_view given)) }
    ensures first { IfOk result (λ first. first ≡ first_type_of known (first_type (views_given item.now))) }
    ensures noted { OnOk result (Notes known item.now definitions.old.items definitions.new.items) }
{
    if let (None, Some(Item::Define { id, described })) = (known, item) {
        push_definition(alloc, table, *id, described, definitions)?;
    }
    Ok(first_put(known, item))
}

/// The type that is known, or else that of the item, if it is a value.
fn first_put(known: Option<TypeId>, item: &Option<Item<Value>>) -> Option<TypeId>
    ensures { result ≡ first_type_of known (first_type (views_given item.now)) }
{
    match (known, item) {
        (None, Some(Item::Put { id, .. })) => Some(*id),
        _ => known,
    }
}
