//! The JSON of items by the base table alone.

ghost use Rattle.std.specs.Prelude.{◌≤◌, IsTrue};
ghost use Rattle.gob_types.specs.declared.id.TypeId.{TypeId};
ghost use Rattle.gob_value.specs.Tree.{Tree, depth};
ghost use Rattle.gob_stream.specs.Item.{puts, ItemMeans};
ghost use Rattle.gob_tape.specs.Meaning.{Means};

use crate::streams::EVERY;
use gob_num::Memory;
use gob_stream::{Input, Item, Limits, Session, read_stream};
use gob_tape::{Tape, TapeBuilder};
use gob_tool::{json_of, json_of_tape};
use gob_types::{Table, TypeId};
use gob_value::Value;
use std::alloc::Global;
use std::test::*;

// The JSON of the items of `EVERY`. At a type that the table doesn't have, a part's name is empty.
const BASE_LINES: &str = "\
    {\"type\":1,\"value\":true}\n\
    {\"type\":2,\"value\":-9223372036854775808}\n\
    {\"type\":3,\"value\":7}\n\
    {\"type\":4,\"value\":\"4031000000000000\"}\n\
    {\"type\":7,\"value\":[\"4031000000000000\",\"0000000000000000\"]}\n\
    {\"type\":8,\"value\":null}\n\
    {\"type\":5,\"value\":\"00ff\"}\n\
    {\"type\":6,\"value\":\"go\"}\n\
    {\"type\":6,\"value\":{\"hex\":\"ff\"}}\n\
    {\"type\":16,\"value\":[[1,\"SliceT\",[[0,\"CommonType\",[[1,\"Id\",66]]],[1,\"Elem\",2]]]]}\n\
    {\"define\":65}\n\
    {\"type\":65,\"value\":[1,2]}\n\
    {\"define\":66}\n\
    {\"type\":66,\"value\":[1,-2]}\n\
    {\"define\":67}\n\
    {\"type\":67,\"value\":[[\"a\",1],[\"a\",2]]}\n\
    {\"define\":68}\n\
    {\"type\":68,\"value\":[[1,\"\",33]]}\n\
    {\"define\":69}\n\
    {\"type\":69,\"value\":{\"opaque\":\"0a0b\"}}\n";

const COMMON_TYPE: &str =
    "{\"define\":18,\"fields\":[[\"Name\",6],[\"Id\",2]],\"kind\":\"struct\",\"name\":\"CommonType\"}";

const FIELD_TYPES: &str = "{\"define\":22,\"elem\":21,\"kind\":\"slice\",\"name\":\"\"}";

// Whether the item is written as this line.
fn is_line(alloc: Global, item: &Item<Value>, table: &Table, line: &str) -> bool {
    match json_of(alloc, item, table) {
        Ok(text) => text.as_str() == line,
        Err(_) => false,
    }
}

// The first line that isn't that of its item, also where there are more or fewer items than lines.
fn wrong_line(alloc: Global, items: &[Item<Value>], table: &Table) -> Option<&'static str> {
    for (item, line) in items.iter().zip(BASE_LINES.lines()) {
        if !is_line(alloc, item, table, line) {
            return Some(line);
        }
    }
    if items.len() == 20 {
        None
    } else {
        Some("how many items")
    }
}

// The items of `EVERY`, where memory suffices.
fn every(alloc: Global) -> Vec<Item<Value>> {
    let mut items = Vec::new(alloc);
    let mut input = Input::new(EVERY);
    let _ = read_stream(alloc, &mut input, Limits::standard(), &mut items);
    items
}

// The first line that isn't that of its item of `EVERY`.
fn wrong_line_of_every(alloc: Global) -> Result<Option<&'static str>, Memory> {
    let table = Table::new(alloc, 0)?;
    let items = every(alloc);
    Ok(wrong_line(alloc, &items, &table))
}

#[test]
fn items_of_each_shape_have_lines(rt: HostRuntime) {
    let wrong = wrong_line_of_every(rt.alloc());
    assert!(rt; wrong == Ok(None), "{wrong:?}");
}

// Whether the base type has this line when it is defined.
fn is_definition(alloc: Global, id: u64, line: &str) -> Result<bool, Memory> {
    let table = Table::new(alloc, 0)?;
    let item = Item::Define {
        id: TypeId(id),
        described: Value::Nil,
    };
    Ok(is_line(alloc, &item, &table, line))
}

#[test]
fn definitions_of_base_types_have_lines(rt: HostRuntime) {
    for (id, line) in [(18u64, COMMON_TYPE), (22, FIELD_TYPES)] {
        let is_right = is_definition(rt.alloc(), id, line);
        assert!(rt; is_right == Ok(true), "{line}");
    }
}

// The items of `EVERY` with tapes for values, where memory suffices.
fn every_on_tapes(alloc: Global) -> Vec<Item<Tape>> {
    let mut items = Vec::new(alloc);
    if let Ok(mut session) = Session::<TapeBuilder>::new(alloc, Limits::standard()) {
        let _ = session.feed(alloc, EVERY, &mut items);
    }
    items
}

// Whether a value of at most the depth that JSON is made of is given.
fn is_shallow_value(item: &Item<Tape>) -> bool
    ensures { IsTrue result → (id : TypeId) (v : Tree) → ItemMeans Means item.now (puts id v) → depth v ≤ 1000 }
{
    match item {
        Item::Define { .. } => false,
        Item::Put { value, .. } => value.depth() <= 1000,
    }
}

// Whether the item is written as this line, or is a definition.
fn is_line_of_tape(alloc: Global, item: &Item<Tape>, table: &Table, line: &str) -> bool {
    if !is_shallow_value(item) {
        return line.starts_with("{\"define\":");
    }
    match json_of_tape(alloc, item, table) {
        Ok(text) => text.as_str() == line,
        Err(_) => false,
    }
}

// The first line that isn't that of its item, also where there are more or fewer items than lines.
fn wrong_line_of_tapes(alloc: Global, items: &[Item<Tape>], table: &Table) -> Option<&'static str> {
    for (item, line) in items.iter().zip(BASE_LINES.lines()) {
        if !is_line_of_tape(alloc, item, table, line) {
            return Some(line);
        }
    }
    if items.len() == 20 {
        None
    } else {
        Some("how many items")
    }
}

// The first line that isn't that of its item of `EVERY`.
fn wrong_line_of_every_tape(alloc: Global) -> Result<Option<&'static str>, Memory> {
    let table = Table::new(alloc, 0)?;
    let items = every_on_tapes(alloc);
    Ok(wrong_line_of_tapes(alloc, &items, &table))
}

#[test]
fn tapes_of_each_shape_have_lines(rt: HostRuntime) {
    let wrong = wrong_line_of_every_tape(rt.alloc());
    assert!(rt; wrong == Ok(None), "{wrong:?}");
}
