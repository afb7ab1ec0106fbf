//! The walk over a value that stands in a body, and through its interfaces: the functions call one another down the
//! value.

ghost use Rattle.std.specs.Prelude.{◌≡◌, ◌+◌, ◌<◌, ◌≤◌, ℕ, List, [], IfOk, OnOk, Some, drop, length, slice_get, ◌∷◌};
ghost use Rattle.gob_types.specs.Defined.{types};
ghost use Rattle.gob_types.specs.Table.{shape_of};
ghost use Rattle.gob_types.specs.declared.basic.Basic.TheVariants as basics;
ghost use Rattle.gob_types.specs.declared.kind.Kind.TheVariants as kinds;
ghost use Rattle.gob_stream.specs.Bounds.{greatest_depth};
ghost use Rattle.gob_go.specs.Machine.WholeFilled.{IsOfKind};
ghost use Rattle.gob_walk.specs.Event.{present};
ghost use Rattle.gob_filled_walk.specs.HeldEvent.{HasHeard, HeldEvent};
ghost use Rattle.gob_filled_walk.specs.Reads.{Reads, ReadsList, ReadsMap, ReadsStruct, ReadsTop};

use crate::held::held_at;
use crate::visitor::HeldVisitor;
use gob_types::{Basic, Field, Fields as Types, Kind, Shape, Shapes, Table, TypeId};
use gob_value::number_at;
use gob_walk::{WalkEnd, closed, next_field, walk_basic, walk_raw};

/// Tells of the value of the type that the body is, behind its tag where it isn't a struct, no deeper than `depth`, in
/// which each interface holds nothing, or a value of a type that is ready. Ok says that it is one, and that the visitor
/// was told of all of it. [`WalkEnd::NotWhole`] says nothing: where a definition stands in an interface, the body may
/// be a value all the same.
pub fn walk_filled<V: HeldVisitor>(
    table: &Table,
    id: TypeId,
    body: &[u8],
    depth: u64,
    out: &mut V,
) -> Result<(), WalkEnd<V::Fault>>
    requires { depth ≤ greatest_depth }
    ensures { OnOk result ((events : List HeldEvent) × ReadsTop (types table.now) id depth events body.now []
        × V.hears out.old out.new events) }
{
    let end = walk_top::<V>(table, id, body, 0, depth, out)?;
    if end != body.len() {
        return Err(WalkEnd::NotWhole);
    }
    Ok(())
}

// Tells of the value of the type behind its tag, which a struct doesn't have, and where it ends.
#[cycle(filled)]
fn walk_top<V: HeldVisitor>(
    table: &Table,
    id: TypeId,
    body: &[u8],
    at: usize,
    depth: u64,
    out: &mut V,
) -> Result<usize, WalkEnd<V::Fault>>
    requires depth { depth ≤ greatest_depth }
    requires place { at ≤ length body.now }
    ensures { IfOk result (λ end.
        HasHeard V.hears (ReadsTop (types table.now) id depth) out.old out.new body.now at end) }
{
    let Some(shape) = table.shape_of(id) else {
        return Err(WalkEnd::NotWhole);
    };
    if let Kind::Struct { .. } = &shape.kind {
        return walk_value::<V>(table, id, shape, body, at, depth, out);
    }
    if at >= body.len() || body[at] != 0 {
        return Err(WalkEnd::NotWhole);
    }
    walk_value::<V>(table, id, shape, body, at + 1, depth, out)
}

// Tells of the value of the type, which has this shape, that stands in the body from the place on, and where it ends.
#[cycle(filled)]
fn walk_value<V: HeldVisitor>(
    table: &Table,
    id: TypeId,
    shape: &Shape,
    body: &[u8],
    at: usize,
    depth: u64,
    out: &mut V,
) -> Result<usize, WalkEnd<V::Fault>>
    requires depth { depth ≤ greatest_depth }
    requires place { at ≤ length body.now }
    requires shape { shape_of (types table.now) id ≡ Some shape.now }
    ensures { IfOk result (λ end.
        HasHeard V.hears (Reads (types table.now) id depth) out.old out.new body.now at end) }
{
    if depth == 0 {
        return Err(WalkEnd::NotWhole);
    }
    match &shape.kind {
        Kind::Basic(Basic::Interface) => walk_interface::<V>(table, id, body, at, depth - 1, out),
        Kind::Basic(basic) => walk_basic::<V, false>(*basic, body, at, out),
        Kind::Opaque(_) => walk_raw::<V, false>(shape, body, at, out),
        Kind::Struct { fields } => walk_fields::<V>(table, fields, body, at, depth - 1, out),
        Kind::Slice { elem } => {
            let Some((count, behind)) = number_at(body, at) else {
                return Err(WalkEnd::NotWhole);
            };
            walk_elements::<V>(table, *elem, count, body, behind, depth - 1, out)
        }
        Kind::Array { elem, len } => {
            let Some((count, behind)) = number_at(body, at) else {
                return Err(WalkEnd::NotWhole);
            };
            if count != *len {
                return Err(WalkEnd::NotWhole);
            }
            walk_elements::<V>(table, *elem, count, body, behind, depth - 1, out)
        }
        Kind::Map { key, elem } => {
            let Some((count, behind)) = number_at(body, at) else {
                return Err(WalkEnd::NotWhole);
            };
            let entries = Entries {
                key: *key,
                elem: *elem,
                count,
            };
            walk_entries::<V>(table, entries, body, behind, depth - 1, out)
        }
    }
}

// Tells of so many elements, and that the list begins and ends. Ints are told at once.
#[cycle(filled)]
#[inline(always)]
fn walk_elements<V: HeldVisitor>(
    table: &Table,
    elem: TypeId,
    count: u64,
    body: &[u8],
    begin: usize,
    depth: u64,
    out: &mut V,
) -> Result<usize, WalkEnd<V::Fault>>
    requires depth { depth ≤ greatest_depth }
    requires place { begin ≤ length body.now }
    ensures { IfOk result (λ end.
        HasHeard V.hears (ReadsList (types table.now) elem depth count) out.old out.new body.now begin end) }
{
    out.list_begins()?;
    let Some(shape) = table.shape_of(elem) else {
        return Err(WalkEnd::NotWhole);
    };
    match &shape.kind {
        Kind::Basic(Basic::Int) if depth > 0 => return out.ints(count, body, begin, false),
        _ => {}
    }
    let mut at = begin;
    'elements: for index in 0..count {
        out.element(index > 0)?;
        at = walk_value::<V>(table, elem, shape, body, at, depth, out)?;
    }
    closed(out.list_ends(), at)
}

// The types of the keys and the elements of a map, and how many entries it has.
#[derive(Clone, Copy)]
struct Entries {
    key: TypeId,
    elem: TypeId,
    count: u64,
}

// Tells of the entries of a map, and that the map begins and ends.
#[cycle(filled)]
#[inline(never)]
fn walk_entries<V: HeldVisitor>(
    table: &Table,
    entries: Entries,
    body: &[u8],
    begin: usize,
    depth: u64,
    out: &mut V,
) -> Result<usize, WalkEnd<V::Fault>>
    requires depth { depth ≤ greatest_depth }
    requires place { begin ≤ length body.now }
    ensures { IfOk result (λ end. HasHeard V.hears
        (ReadsMap (types table.now) entries.key entries.elem depth entries.count) out.old out.new body.now begin end) }
{
    let Entries { key, elem, count } = entries;
    out.map_begins(key)?;
    let Some(keys) = table.shape_of(key) else {
        return Err(WalkEnd::NotWhole);
    };
    let Some(elems) = table.shape_of(elem) else {
        return Err(WalkEnd::NotWhole);
    };
    let mut at = begin;
    'pairs: for index in 0..count {
        out.entry(key, index > 0)?;
        let behind = walk_value::<V>(table, key, keys, body, at, depth, out)?;
        out.between(key)?;
        at = walk_value::<V>(table, elem, elems, body, behind, depth, out)?;
        out.entry_ends(key)?;
    }
    closed(out.map_ends(key), at)
}

// Tells of the fields of a struct that are present.
#[cycle(filled)]
#[inline(always)]
fn walk_fields<V: HeldVisitor>(
    table: &Table,
    fields: &Types,
    body: &[u8],
    begin: usize,
    depth: u64,
    out: &mut V,
) -> Result<usize, WalkEnd<V::Fault>>
    requires depth { depth ≤ greatest_depth }
    requires place { begin ≤ length body.now }
    ensures { IfOk result (λ end.
        HasHeard V.hears (ReadsStruct (types table.now) fields.now depth) out.old out.new body.now begin end) }
{
    let mut next = 0;
    let mut at = begin;
    out.struct_begins()?;
    'fields: loop {
        let Some((delta, behind)) = number_at(body, at) else {
            return Err(WalkEnd::NotWhole);
        };
        if delta == 0 {
            return closed(out.struct_ends(fields, next), behind);
        }
        let Some((number, field)) = next_field(fields, next, delta) else {
            return Err(WalkEnd::NotWhole);
        };
        tell_field::<V>(fields, next, number, field, out)?;
        at = walk_typed::<V>(table, field.id, body, behind, depth, out)?;
        out.field_ends()?;
        next = number + 1;
    }
}

// Tells that the field of this number begins. Nothing is made beforehand of fields: that pays for bytes alone that are
// known to be whole.
#[inline(always)]
fn tell_field<V: HeldVisitor>(
    types: &Types,
    next: u64,
    number: u64,
    field: &Field,
    out: &mut V,
) -> Result<(), V::Fault>
    requires { slice_get types.now number ≡ Some field.now }
    ensures { V.tells out.old out.new (present types.now next number ∷ []) result }
{
    let none: Option<V::Heads> = None;
    out.field(none.as_ref(), types, next, number, field)
}

// Tells of the value of the type that stands in the body from the place on. A basic type isn't looked up.
#[cycle(filled)]
#[inline(always)]
fn walk_typed<V: HeldVisitor>(
    table: &Table,
    id: TypeId,
    body: &[u8],
    at: usize,
    depth: u64,
    out: &mut V,
) -> Result<usize, WalkEnd<V::Fault>>
    requires depth { depth ≤ greatest_depth }
    requires place { at ≤ length body.now }
    ensures { IfOk result (λ end.
        HasHeard V.hears (Reads (types table.now) id depth) out.old out.new body.now at end) }
{
    match table.basic_of(id) {
        Some(Basic::Interface) => {}
        Some(basic) if depth > 0 => return walk_basic::<V, false>(basic, body, at, out),
        _ => {}
    }
    let Some(shape) = table.shape_of(id) else {
        return Err(WalkEnd::NotWhole);
    };
    walk_value::<V>(table, id, shape, body, at, depth, out)
}

// Tells of an interface: nil, or what it holds, which lies one deeper.
#[cycle(filled)]
#[inline(always)]
fn walk_interface<V: HeldVisitor>(
    table: &Table,
    id: TypeId,
    body: &[u8],
    at: usize,
    depth: u64,
    out: &mut V,
) -> Result<usize, WalkEnd<V::Fault>>
    requires depth { depth + 1 ≤ greatest_depth }
    requires place { at ≤ length body.now }
    requires kind { IsOfKind (types table.now) id (kinds.Basic basics.Interface) }
    ensures { IfOk result (λ end.
        HasHeard V.hears (Reads (types table.now) id (depth + 1)) out.old out.new body.now at end) }
{
    let Some(held) = held_at(table, body, at) else {
        return walk_basic::<V, false>(Basic::Interface, body, at, out);
    };
    out.held_begins(held.name, held.id)?;
    let end = walk_top::<V>(table, held.id, body, held.begin, depth, out)?;
    if end != held.end {
        return Err(WalkEnd::NotWhole);
    }
    closed(out.held_ends(), end)
}
