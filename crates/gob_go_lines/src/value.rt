//! A value of any type, spelled as its tokens are read: the functions call one another down the value.

ghost use Rattle.std.specs.Prelude.{◌+◌, ℕ, List, IfOk, OnOk, length};
ghost use Rattle.json.specs.Token.{Token as Lexed};
ghost use Rattle.serde_json.specs.Data.{Data, array};
ghost use Rattle.gob_types.specs.declared.basic.Basic.TheVariants as basics;
ghost use Rattle.gob_types.specs.declared.kind.Kind.TheVariants as kinds;
ghost use Rattle.gob_lines.specs.Complete.{ReadsIt};
ghost use Rattle.gob_lines.specs.Reads.{Reads};
ghost use Rattle.gob_go_lines.specs.Says.{Says, SaysAs, SaysEach, SaysFields, SaysPairs, SaysTop, items_of};
ghost use Rattle.gob_go_lines.specs.Lines.{known, PutsIt, PutsSaid, ReadsParts, SaysStruct};

use crate::held::{put_held, take_held, take_held_end, take_nil};
use crate::put::{Parts, put_array, put_basic, put_opaque, put_parts};
use gob_lines::{
    Due, LineFault, PathStep, field_from, read_uint, take_array, take_array_end, take_name,
};
use gob_num::{Memory, write_uint};
use gob_types::{Basic, Field, Kind, Shapes, Table, TypeId};
use gob_value::has_structs;
use json::Reader;
use std::alloc::Global;

/// By what values are read.
#[derive(Clone, Copy)]
pub(crate) struct Reading<'a> {
    /// The types.
    pub(crate) table: &'a Table,
    /// Whether interfaces may hold values.
    pub(crate) holds: bool,
}

/// Puts the value of this type that stands next, no part of which is deeper than `depth`, behind its tag, which a
/// struct doesn't have.
#[cycle(depth)]
pub(crate) fn put_top(
    alloc: Global,
    reading: &Reading<'_>,
    id: TypeId,
    depth: u64,
    tokens: &mut Reader<'_>,
    out: &mut Vec<u8>,
) -> Result<(), LineFault>
    ensures says { OnOk result (PutsSaid (SaysTop (known reading.now) reading.now.holds id depth) tokens.old tokens.new
        out.old.items out.new.items) }
    ensures whole { (j : Data) (b : List ℕ) (rest : List Lexed)
        → SaysTop (known reading.now) reading.now.holds id depth j b
        → Reads j tokens.old rest → PutsIt result tokens.new rest out.old.items out.new.items b }
{
    if has_structs(reading.table, id) {
        return put_value(alloc, reading, id, depth, tokens, out);
    }
    out.push(0).map_err(Memory::from)?;
    put_value(alloc, reading, id, depth, tokens, out)
}

/// Puts it without a tag.
#[cycle(depth)]
fn put_value(
    alloc: Global,
    reading: &Reading<'_>,
    id: TypeId,
    depth: u64,
    tokens: &mut Reader<'_>,
    out: &mut Vec<u8>,
) -> Result<(), LineFault>
    ensures says { OnOk result (PutsSaid (Says (known reading.now) reading.now.holds id depth) tokens.old tokens.new
        out.old.items out.new.items) }
    ensures whole { (j : Data) (b : List ℕ) (rest : List Lexed)
        → Says (known reading.now) reading.now.holds id depth j b
        → Reads j tokens.old rest → PutsIt result tokens.new rest out.old.items out.new.items b }
{
    let at = tokens.offset();
    if depth == 0 {
        return Err(LineFault::due(alloc, at, Due::Shallower));
    }
    let Some(shape) = reading.table.shape_of(id) else {
        return Err(LineFault::due(alloc, at, Due::Type));
    };
    match &shape.kind {
        Kind::Basic(Basic::Interface) => put_interface(alloc, reading, depth - 1, tokens, out),
        Kind::Basic(basic) => put_basic(alloc, reading.table, id, *basic, tokens, out),
        Kind::Opaque(_) => put_opaque(alloc, tokens, out),
        Kind::Array { elem, len } => {
            let elements = read_elements(alloc, reading, *elem, depth - 1, tokens)?;
            put_array(alloc, &elements, *len, at, out)
        }
        Kind::Slice { elem } => {
            let elements = read_elements(alloc, reading, *elem, depth - 1, tokens)?;
            put_parts(alloc, &elements, out)
        }
        Kind::Map { key, elem } => {
            let entry = Entry {
                key: *key,
                elem: *elem,
            };
            let entries = read_entries(alloc, reading, entry, depth - 1, tokens)?;
            put_parts(alloc, &entries, out)
        }
        Kind::Struct { fields } => {
            put_fields(alloc, reading, fields.as_slice(), depth - 1, tokens, out)
        }
    }
}

/// Reads an array of elements of this type.
#[cycle(depth)]
fn read_elements(
    alloc: Global,
    reading: &Reading<'_>,
    id: TypeId,
    depth: u64,
    tokens: &mut Reader<'_>,
) -> Result<Parts, LineFault>
    ensures says { IfOk result (λ parts. ReadsParts (SaysEach (known reading.now) reading.now.holds id depth)
        tokens.old tokens.new parts.count parts.bytes.items) }
    ensures whole { (js : List Data) (b : List ℕ) (rest : List Lexed)
        → SaysEach (known reading.now) reading.now.holds id depth js b
        → Reads (array (items_of js)) tokens.old rest
        → ReadsIt {B = ℕ × List ℕ} (λ parts. (parts.count, parts.bytes.items)) result tokens.new (length js, b) rest }
{
    take_array(alloc, tokens)?;
    let mut bytes = Vec::new(alloc);
    let mut count = 0;
    'elements: while !tokens.take_end_array() {
        match put_value(alloc, reading, id, depth, tokens, &mut bytes) {
            Ok(()) => count += 1,
            Err(fault) => return Err(fault.within(PathStep::Element(count))),
        }
    }
    Ok(Parts { count, bytes })
}

/// The types of the keys and the elements of a map.
#[derive(Clone, Copy)]
struct Entry {
    key: TypeId,
    elem: TypeId,
}

/// Reads an array of pairs, each of a key and an element of these types.
#[cycle(depth)]
fn read_entries(
    alloc: Global,
    reading: &Reading<'_>,
    entry: Entry,
    depth: u64,
    tokens: &mut Reader<'_>,
) -> Result<Parts, LineFault>
    ensures says { IfOk result (λ parts. ReadsParts
        (SaysPairs (known reading.now) reading.now.holds entry.key entry.elem depth) tokens.old tokens.new
        parts.count parts.bytes.items) }
    ensures whole { (js : List Data) (b : List ℕ) (rest : List Lexed)
        → SaysPairs (known reading.now) reading.now.holds entry.key entry.elem depth js b
        → Reads (array (items_of js)) tokens.old rest
        → ReadsIt {B = ℕ × List ℕ} (λ parts. (parts.count, parts.bytes.items)) result tokens.new (length js, b) rest }
{
    take_array(alloc, tokens)?;
    let mut bytes = Vec::new(alloc);
    let mut count = 0;
    'entries: while !tokens.take_end_array() {
        take_array(alloc, tokens)?;
        match put_value(alloc, reading, entry.key, depth, tokens, &mut bytes) {
            Ok(()) => {}
            Err(fault) => return Err(fault.within(PathStep::Key(count))),
        }
        match put_value(alloc, reading, entry.elem, depth, tokens, &mut bytes) {
            Ok(()) => {}
            Err(fault) => return Err(fault.within(PathStep::Value(count))),
        }
        take_array_end(alloc, tokens)?;
        count += 1;
    }
    Ok(Parts { count, bytes })
}

/// Puts the fields that are present, each of which stands as its number, its name and its value.
#[cycle(depth)]
fn put_fields(
    alloc: Global,
    reading: &Reading<'_>,
    fields: &[Field],
    depth: u64,
    tokens: &mut Reader<'_>,
    out: &mut Vec<u8>,
) -> Result<(), LineFault>
    ensures says { OnOk result (PutsSaid (SaysStruct (known reading.now) reading.now.holds fields.now depth)
        tokens.old tokens.new out.old.items out.new.items) }
    ensures whole { (js : List Data) (b : List ℕ) (rest : List Lexed)
        → SaysFields (known reading.now) reading.now.holds fields.now 0 depth js b
        → Reads (array (items_of js)) tokens.old rest
        → PutsIt result tokens.new rest out.old.items out.new.items b }
{
    take_array(alloc, tokens)?;
    let mut next = 0;
    'present: while !tokens.take_end_array() {
        take_array(alloc, tokens)?;
        let at = tokens.offset();
        let number = read_uint(alloc, tokens)?;
        let Some(field) = field_from(fields, next, number) else {
            return Err(LineFault::due(alloc, at, Due::FieldNumber));
        };
        take_name(alloc, field.name.as_bytes(), tokens)?;
        write_uint(alloc, number + 1 - next, out)?;
        match put_value(alloc, reading, field.id, depth, tokens, out) {
            Ok(()) => {}
            Err(fault) => return Err(fault.within_field(alloc, &field.name)),
        }
        take_array_end(alloc, tokens)?;
        next = number + 1;
    }
    write_uint(alloc, 0, out)?;
    Ok(())
}

/// Puts the interface that stands next: nil, or what it holds, no part of which is deeper than `depth`.
#[cycle(depth)]
fn put_interface(
    alloc: Global,
    reading: &Reading<'_>,
    depth: u64,
    tokens: &mut Reader<'_>,
    out: &mut Vec<u8>,
) -> Result<(), LineFault>
    ensures says { OnOk result (PutsSaid
        (SaysAs (known reading.now) reading.now.holds (kinds.Basic basics.Interface) (depth + 1)) tokens.old
        tokens.new out.old.items out.new.items) }
    ensures whole { (j : Data) (b : List ℕ) (rest : List Lexed)
        → SaysAs (known reading.now) reading.now.holds (kinds.Basic basics.Interface) (depth + 1) j b
        → Reads j tokens.old rest → PutsIt result tokens.new rest out.old.items out.new.items b }
{
    if take_nil(alloc, reading.holds, tokens)? {
        write_uint(alloc, 0, out)?;
        return Ok(());
    }
    let held = take_held(alloc, reading.table, tokens)?;
    let mut body = Vec::new(alloc);
    put_top(alloc, reading, held.id, depth, tokens, &mut body)?;
    take_held_end(alloc, tokens)?;
    put_held(alloc, &held, &body, out)
}
