//! A value of any type, spelled as its nodes are gone over: the functions call one another down the value.

ghost use Rattle.std.specs.Prelude.{◌<◌, ℕ, List, IfOk, OnOk};
ghost use Rattle.gob_num.specs.Unsigned.{AreBytes};
ghost use Rattle.gob_types.specs.Defined.{types};
ghost use Rattle.gob_types.specs.declared.kind.Kind.TheVariants as kinds;
ghost use Rattle.gob_go.specs.Whole.{IsFilledWhole};
ghost use Rattle.gob_nodes.specs.Calls.{PutsEnd, PutsIt, PutsSaid, PutsValue, SaysInterface, SpellsIt};
ghost use Rattle.gob_nodes.specs.Calls.{known, nodes_of, pool_of};
ghost use Rattle.gob_nodes.specs.Says.{Says, SaysAs, SaysHeld, SaysList, SaysMap, SaysOwn, SaysStruct, SaysTop};
ghost use Rattle.gob_nodes.specs.Says.{SaysValue};

use crate::fault::NodesFault;
use crate::held::{put_held, take_held};
use crate::nodes::{HELD, LIST, MAP, Nodes, STRUCT};
use crate::part::{begin_group, end_group, field_from, has_count, part_end, put_leaf, put_opaque};
use gob_num::{Memory, write_uint};
use gob_types::{Basic, Field, Kind, Shapes, Table, TypeId};
use gob_value::has_structs;
use std::alloc::Global;

/// By what a value is read.
#[derive(Clone, Copy)]
pub(crate) struct Walk<'a> {
    /// The types.
    pub(crate) table: &'a Table,
    /// The nodes and the bytes.
    pub(crate) given: Nodes<'a>,
}

/// How far a walk is.
#[derive(Clone, Copy)]
pub(crate) struct Places {
    /// The place of the next node.
    pub(crate) at: usize,
    /// Where that begins which the next interface holds.
    pub(crate) held: usize,
}

/// Appends the bytes of the value of this type that all the nodes say, behind its tag, which a struct doesn't have. No
/// part of it is deeper than `depth`: the value itself has depth 1, and what an interface holds lies one deeper. What
/// interfaces hold is of types that are ready, and stands in its place, and no definition in front of it. `Wrong` where
/// they say none.
pub fn spell_nodes(
    alloc: Global,
    table: &Table,
    id: TypeId,
    depth: u64,
    given: Nodes<'_>,
    out: &mut Vec<u8>,
) -> Result<(), NodesFault>
    ensures says { OnOk result (PutsValue
        (SaysValue (types table.now) given.entry.nodes.now given.entry.bytes.now id depth)
        out.old.items out.new.items) }
    ensures spelled { OnOk result (PutsValue (λ b. AreBytes b → IsFilledWhole (types table.now) id depth b)
        out.old.items out.new.items) }
    ensures whole { (b : List ℕ)
        → SaysValue (types table.now) given.entry.nodes.now given.entry.bytes.now id depth b
        → SpellsIt result out.old.items out.new.items b }
{
    let walk = Walk { table, given };
    let end = put_top(alloc, &walk, id, depth, 0, out)?;
    if end != given.nodes.len() {
        return Err(NodesFault::Wrong(end));
    }
    Ok(())
}

/// Puts the value of this type whose nodes begin at the place, no part of which is deeper than `depth`, behind its tag,
/// which a struct doesn't have. Answers the place behind its nodes and all that its interfaces hold.
#[cycle(depth)]
fn put_top(
    alloc: Global,
    walk: &Walk<'_>,
    id: TypeId,
    depth: u64,
    from: usize,
    out: &mut Vec<u8>,
) -> Result<usize, NodesFault>
    ensures says { IfOk result (λ end. PutsSaid (SaysTop (known walk.now) (nodes_of walk.now) (pool_of walk.now)
        id depth) from end out.old.items out.new.items) }
    ensures whole { (b : List ℕ) (end : ℕ)
        → SaysTop (known walk.now) (nodes_of walk.now) (pool_of walk.now) id depth from end b
        → PutsEnd result end out.old.items out.new.items b }
{
    if has_structs(walk.table, id) {
        return put_own(alloc, walk, id, depth, from, out);
    }
    out.push(0).map_err(Memory::from)?;
    put_own(alloc, walk, id, depth, from, out)
}

/// Puts it without a tag.
#[cycle(depth)]
fn put_own(
    alloc: Global,
    walk: &Walk<'_>,
    id: TypeId,
    depth: u64,
    from: usize,
    out: &mut Vec<u8>,
) -> Result<usize, NodesFault>
    ensures says { IfOk result (λ end. PutsSaid (SaysOwn (known walk.now) (nodes_of walk.now) (pool_of walk.now)
        id depth) from end out.old.items out.new.items) }
    ensures whole { (b : List ℕ) (end : ℕ)
        → SaysOwn (known walk.now) (nodes_of walk.now) (pool_of walk.now) id depth from end b
        → PutsEnd result end out.old.items out.new.items b }
{
    let held = part_end(&walk.given, from)?;
    let mut places = Places { at: from, held };
    put_value(alloc, walk, id, depth, &mut places, out)?;
    if places.at != held {
        return Err(NodesFault::Wrong(from));
    }
    Ok(places.held)
}

/// Puts the value of this type that stands next, no part of which is deeper than `depth`, without a tag.
#[cycle(depth)]
fn put_value(
    alloc: Global,
    walk: &Walk<'_>,
    id: TypeId,
    depth: u64,
    places: &mut Places,
    out: &mut Vec<u8>,
) -> Result<(), NodesFault>
    ensures says { OnOk result (PutsSaid (Says (known walk.now) (nodes_of walk.now) (pool_of walk.now) id depth)
        places.old places.new out.old.items out.new.items) }
    ensures whole { (b : List ℕ) (to : Places)
        → Says (known walk.now) (nodes_of walk.now) (pool_of walk.now) id depth places.old to b
        → PutsIt result places.new to out.old.items out.new.items b }
{
    let at = places.at;
    if depth == 0 {
        return Err(NodesFault::Wrong(at));
    }
    let Some(shape) = walk.table.shape_of(id) else {
        return Err(NodesFault::Wrong(at));
    };
    match &shape.kind {
        Kind::Basic(basic) => put_basic(alloc, walk, *basic, depth, places, out),
        Kind::Opaque(_) => put_opaque(alloc, &walk.given, places, out),
        Kind::Array { elem, len } => {
            has_count(&walk.given, at, *len)?;
            put_elements(alloc, walk, *elem, depth - 1, places, out)
        }
        Kind::Slice { elem } => put_elements(alloc, walk, *elem, depth - 1, places, out),
        Kind::Map { key, elem } => {
            let entry = Entry {
                key: *key,
                elem: *elem,
            };
            put_entries(alloc, walk, entry, depth - 1, places, out)
        }
        Kind::Struct { fields } => put_fields(
            alloc,
            walk,
            fields.as_slice(),
            depth - 1,
            places,
            out,
        ),
    }
}

/// Puts the value of this basic type that stands next.
#[cycle(depth)]
fn put_basic(
    alloc: Global,
    walk: &Walk<'_>,
    basic: Basic,
    depth: u64,
    places: &mut Places,
    out: &mut Vec<u8>,
) -> Result<(), NodesFault>
    requires { 0 < depth }
    ensures says { OnOk result (PutsSaid
        (SaysAs (known walk.now) (nodes_of walk.now) (pool_of walk.now) (kinds.Basic basic) depth)
        places.old places.new out.old.items out.new.items) }
    ensures whole { (b : List ℕ) (to : Places)
        → SaysAs (known walk.now) (nodes_of walk.now) (pool_of walk.now) (kinds.Basic basic) depth places.old to b
        → PutsIt result places.new to out.old.items out.new.items b }
{
    match basic {
        Basic::Interface => put_interface(alloc, walk, depth - 1, places, out),
        _ => put_leaf(alloc, &walk.given, basic, places, out),
    }
}

/// Puts the list of elements of this type that stands next.
#[cycle(depth)]
fn put_elements(
    alloc: Global,
    walk: &Walk<'_>,
    id: TypeId,
    depth: u64,
    places: &mut Places,
    out: &mut Vec<u8>,
) -> Result<(), NodesFault>
    ensures says { OnOk result ((count : ℕ) × PutsSaid
        (SaysList (known walk.now) (nodes_of walk.now) (pool_of walk.now) id depth count)
        places.old places.new out.old.items out.new.items) }
    ensures whole { (count : ℕ) (b : List ℕ) (to : Places)
        → SaysList (known walk.now) (nodes_of walk.now) (pool_of walk.now) id depth count places.old to b
        → PutsIt result places.new to out.old.items out.new.items b }
{
    let group = begin_group(&walk.given, LIST, places)?;
    write_uint(alloc, group.count, out)?;
    'elements: for _ in 0..group.count {
        put_value(alloc, walk, id, depth, places, out)?;
    }
    end_group(group, places)
}

/// The types of the keys and the elements of a map.
#[derive(Clone, Copy)]
struct Entry {
    key: TypeId,
    elem: TypeId,
}

/// Puts the map from keys to elements of these types that stands next.
#[cycle(depth)]
fn put_entries(
    alloc: Global,
    walk: &Walk<'_>,
    entry: Entry,
    depth: u64,
    places: &mut Places,
    out: &mut Vec<u8>,
) -> Result<(), NodesFault>
    ensures says { OnOk result (PutsSaid
        (SaysMap (known walk.now) (nodes_of walk.now) (pool_of walk.now) entry.key entry.elem depth)
        places.old places.new out.old.items out.new.items) }
    ensures whole { (b : List ℕ) (to : Places)
        → SaysMap (known walk.now) (nodes_of walk.now) (pool_of walk.now) entry.key entry.elem depth places.old to b
        → PutsIt result places.new to out.old.items out.new.items b }
{
    let group = begin_group(&walk.given, MAP, places)?;
    write_uint(alloc, group.count, out)?;
    'entries: for _ in 0..group.count {
        put_value(alloc, walk, entry.key, depth, places, out)?;
        put_value(alloc, walk, entry.elem, depth, places, out)?;
    }
    end_group(group, places)
}

/// Puts the struct that stands next, of which the fields are present that its nodes say.
#[cycle(depth)]
fn put_fields(
    alloc: Global,
    walk: &Walk<'_>,
    fields: &[Field],
    depth: u64,
    places: &mut Places,
    out: &mut Vec<u8>,
) -> Result<(), NodesFault>
    ensures says { OnOk result (PutsSaid
        (SaysStruct (known walk.now) (nodes_of walk.now) (pool_of walk.now) fields.now depth)
        places.old places.new out.old.items out.new.items) }
    ensures whole { (b : List ℕ) (to : Places)
        → SaysStruct (known walk.now) (nodes_of walk.now) (pool_of walk.now) fields.now depth places.old to b
        → PutsIt result places.new to out.old.items out.new.items b }
{
    let group = begin_group(&walk.given, STRUCT, places)?;
    let mut next = 0;
    'present: for _ in 0..group.count {
        let found = field_from(&walk.given, fields, next, places)?;
        write_uint(alloc, found.number + 1 - next, out)?;
        put_value(alloc, walk, found.field.id, depth, places, out)?;
        next = found.number + 1;
    }
    write_uint(alloc, 0, out)?;
    end_group(group, places)
}

/// Puts the interface that stands next: nil, or what it holds, no part of which is deeper than `depth`.
#[cycle(depth)]
fn put_interface(
    alloc: Global,
    walk: &Walk<'_>,
    depth: u64,
    places: &mut Places,
    out: &mut Vec<u8>,
) -> Result<(), NodesFault>
    ensures says { OnOk result (PutsSaid
        (SaysInterface (known walk.now) (nodes_of walk.now) (pool_of walk.now) depth)
        places.old places.new out.old.items out.new.items) }
    ensures whole { (b : List ℕ) (to : Places)
        → SaysInterface (known walk.now) (nodes_of walk.now) (pool_of walk.now) depth places.old to b
        → PutsIt result places.new to out.old.items out.new.items b }
{
    let node = walk.given.node(places.at)?;
    match node.kind {
        HELD => put_held_value(alloc, walk, depth, places, out),
        _ => put_leaf(alloc, &walk.given, Basic::Interface, places, out),
    }
}

/// Puts what the interface that stands next holds, no part of which is deeper than `depth`.
#[cycle(depth)]
fn put_held_value(
    alloc: Global,
    walk: &Walk<'_>,
    depth: u64,
    places: &mut Places,
    out: &mut Vec<u8>,
) -> Result<(), NodesFault>
    ensures says { OnOk result (PutsSaid
        (SaysHeld (known walk.now) (nodes_of walk.now) (pool_of walk.now) depth)
        places.old places.new out.old.items out.new.items) }
    ensures whole { (b : List ℕ) (to : Places)
        → SaysHeld (known walk.now) (nodes_of walk.now) (pool_of walk.now) depth places.old to b
        → PutsIt result places.new to out.old.items out.new.items b }
{
    let held = take_held(walk, places)?;
    let mut body = Vec::new(alloc);
    let end = put_top(alloc, walk, held.id, depth, places.held + 1, &mut body)?;
    put_held(alloc, held, &body, out)?;
    places.at += 1;
    places.held = end;
    Ok(())
}
