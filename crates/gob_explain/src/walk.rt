//! The walk over the bytes of a body, which tells a sink of their rows: those of its value, and at an interface that
//! holds something, of what fills it. It recurses as deep as the value is, at most 1000.

ghost use Rattle.std.specs.Prelude.{◌≡◌, ◌+◌, ◌≤◌, ℕ, List, [], ◌∷◌, ◌++◌, Some, length};
ghost use Rattle.gob_types.specs.Base.{wire_type};
ghost use Rattle.gob_types.specs.Defined.{types};
ghost use Rattle.gob_types.specs.declared.id.TypeId.{TypeId};
ghost use Rattle.gob_types.specs.declared.basic.Basic.TheVariants as basics;
ghost use Rattle.gob_types.specs.declared.kind.Kind.TheVariants as kind;
ghost use Rattle.gob_types.specs.declared.kind.Shape.{Shape};
ghost use Rattle.gob_types.specs.Ready.{IsReady};
ghost use Rattle.gob_types.specs.Table.{shape_of};
ghost use Rattle.gob_stream.specs.Bounds.{greatest_depth};
ghost use Rattle.gob_explain.specs.Open.{Open, a_filling, a_value, count, description, type_number};
ghost use Rattle.gob_explain.specs.Path.{PathOf};
ghost use Rattle.gob_explain.specs.declared.row.PartStep.{PartStep};
ghost use Rattle.gob_explain.specs.Machine.Walking.{BeginsAt, BeginsEachKey, BeginsEachPart, BeginsEachValue};
ghost use Rattle.gob_explain.specs.Machine.Walking.{IsValueAt, SpellsEntries, SpellsMany, SpellsOne, SpellsWhole};
ghost use Rattle.gob_explain.specs.Machine.Walking.{Walks, WalksTo};

use crate::leaf::{Numbers, walk_basic, walk_counted, walk_number, walk_raw};
use crate::row::{Awaited, PartStep, RowPart, What};
use crate::sink::RowSink;
use crate::stop::RowStop;
use gob_types::{Basic, Fields, Kind, Shapes, Table, TypeId};

/// What a walk goes over.
#[derive(Clone, Copy)]
pub(crate) struct Walk<'a> {
    /// The types of the stream.
    pub(crate) table: &'a Table,
    /// The bytes of the body behind its type number.
    pub(crate) body: &'a [u8],
    /// No part is told of that is deeper than this.
    pub(crate) most: u64,
}

// Tells of a value and the tag before it, if it has one, and where the value ends.
#[cycle(walk)]
pub(crate) fn walk_value<O: RowSink>(
    walk: &Walk<'_>,
    part: RowPart,
    at: usize,
    out: &mut O,
) -> Result<usize, RowStop<O::Fault>>
    requires most { walk.now.most ≤ greatest_depth }
    requires depth { part.depth ≤ walk.now.most + 1 }
    ensures { let T = types walk.now.table.now in (base : ℕ) (outer : List Open) (way : List PartStep)
        → base + 1 ≡ part.depth → at ≤ length walk.now.body.now → IsValueAt T part.id base outer way
        → Walks O.tells T walk.now.body.now walk.now.most part.id base [] outer at (out.old, way) out.new
        (SpellsWhole T part.id) result }
{
    if !walk.table.kept(part.id) {
        return Err(RowStop::Here(at, part.awaited()));
    }
    let Some(shape) = walk.table.shape_of(part.id) else {
        return Err(RowStop::Here(at, part.awaited()));
    };
    match &shape.kind {
        Kind::Struct { .. } => walk_part(walk, part, at, out),
        _ => {
            let tag = RowPart {
                id: part.id,
                depth: part.depth.saturating_sub(1),
            };
            let (_, behind) = walk_number(What::Tag, tag, Numbers::NONE, walk.body, at, out)?;
            walk_part(walk, part, behind, out)
        }
    }
}

// Tells of the part that begins at the place, and where it ends.
#[cycle(walk)]
fn walk_part<O: RowSink>(
    walk: &Walk<'_>,
    part: RowPart,
    at: usize,
    out: &mut O,
) -> Result<usize, RowStop<O::Fault>>
    requires most { walk.now.most ≤ greatest_depth }
    requires depth { part.depth ≤ walk.now.most + 1 }
    ensures { let T = types walk.now.table.now in (t : TypeId) (base around : ℕ) (p : List ℕ) (outer : List Open)
        (way : List PartStep) → base + around + 1 ≡ part.depth → at ≤ length walk.now.body.now
        → IsReady T part.id → BeginsAt T t base p outer part.id around way
        → Walks O.tells T walk.now.body.now walk.now.most t base p outer at (out.old, way) out.new
        (SpellsOne T part.id) result }
{
    if part.depth > walk.most {
        return Err(RowStop::Here(at, part.awaited()));
    }
    let Some(shape) = walk.table.shape_of(part.id) else {
        return Err(RowStop::Here(at, part.awaited()));
    };
    match &shape.kind {
        Kind::Basic(basic) => walk_basic_part(walk, part, *basic, at, out),
        Kind::Opaque(_) => walk_counted(part, walk.body, at, out),
        Kind::Struct { fields } => walk_fields(walk, part, fields, at, out),
        Kind::Slice { elem } => {
            let (count, behind) = walk_number(What::First, part, Numbers::ANY, walk.body, at, out)?;
            let each = RowPart {
                id: *elem,
                depth: part.depth + 1,
            };
            walk_elements(walk, each, count, behind, out)
        }
        Kind::Array { elem, len } => {
            let allowed = Numbers::only(*len);
            let (count, behind) = walk_number(What::First, part, allowed, walk.body, at, out)?;
            let each = RowPart {
                id: *elem,
                depth: part.depth + 1,
            };
            walk_elements(walk, each, count, behind, out)
        }
        Kind::Map { key, elem } => {
            let (count, behind) = walk_number(What::First, part, Numbers::ANY, walk.body, at, out)?;
            let each = Entry {
                key: *key,
                elem: *elem,
                depth: part.depth + 1,
            };
            walk_pairs(walk, each, count, behind, out)
        }
    }
}

// Tells of the part of another part to which the step leads, and where it ends.
#[cycle(walk)]
fn walk_step<O: RowSink>(
    walk: &Walk<'_>,
    step: PartStep,
    part: RowPart,
    at: usize,
    out: &mut O,
) -> Result<usize, RowStop<O::Fault>>
    requires most { walk.now.most ≤ greatest_depth }
    requires depth { part.depth ≤ walk.now.most + 1 }
    ensures { let T = types walk.now.table.now in (t : TypeId) (base around : ℕ) (p : List ℕ) (outer : List Open)
        (way : List PartStep) → base + around + 1 ≡ part.depth → at ≤ length walk.now.body.now
        → IsReady T part.id → BeginsAt T t base p outer part.id around (way ++ step ∷ [])
        → Walks O.tells T walk.now.body.now walk.now.most t base p outer at (out.old, way) out.new
        (SpellsOne T part.id) result }
{
    out.enter(step)?;
    let end = walk_part(walk, part, at, out)?;
    out.leave();
    Ok(end)
}

// Tells of so many elements, each such a part, and where they end.
#[cycle(walk)]
fn walk_elements<O: RowSink>(
    walk: &Walk<'_>,
    each: RowPart,
    count: u64,
    begin: usize,
    out: &mut O,
) -> Result<usize, RowStop<O::Fault>>
    requires most { walk.now.most ≤ greatest_depth }
    requires depth { each.depth ≤ walk.now.most + 1 }
    ensures { let T = types walk.now.table.now in (t : TypeId) (base around : ℕ) (p : List ℕ) (outer : List Open)
        (way : List PartStep) → base + around + 1 ≡ each.depth → begin ≤ length walk.now.body.now
        → IsReady T each.id → BeginsEachPart T t base p outer each.id count around way
        → Walks O.tells T walk.now.body.now walk.now.most t base p outer begin (out.old, way) out.new
        (SpellsMany T each.id count) result }
{
    let mut at = begin;
    'elements: for index in 0..count {
        at = walk_step(walk, PartStep::Element(index), each, at, out)?;
    }
    Ok(at)
}

// The types of the keys and the elements of a map, and how deep these lie.
#[derive(Clone, Copy)]
struct Entry {
    key: TypeId,
    elem: TypeId,
    depth: u64,
}

// Tells of so many pairs of a key and an element, and where they end.
#[cycle(walk)]
fn walk_pairs<O: RowSink>(
    walk: &Walk<'_>,
    each: Entry,
    count: u64,
    begin: usize,
    out: &mut O,
) -> Result<usize, RowStop<O::Fault>>
    requires most { walk.now.most ≤ greatest_depth }
    requires depth { each.depth ≤ walk.now.most + 1 }
    ensures { let T = types walk.now.table.now in (t : TypeId) (base around : ℕ) (p : List ℕ) (outer : List Open)
        (way : List PartStep) → base + around + 1 ≡ each.depth → begin ≤ length walk.now.body.now
        → IsReady T each.key → IsReady T each.elem
        → BeginsEachKey T t base p outer each.key each.elem count around way
        → BeginsEachValue T t base p outer each.key each.elem count around way
        → Walks O.tells T walk.now.body.now walk.now.most t base p outer begin (out.old, way) out.new
        (SpellsEntries T each.key each.elem count) result }
{
    let keys = RowPart {
        id: each.key,
        depth: each.depth,
    };
    let elems = RowPart {
        id: each.elem,
        depth: each.depth,
    };
    let mut at = begin;
    'pairs: for index in 0..count {
        let behind = walk_step(walk, PartStep::Key(index), keys, at, out)?;
        at = walk_step(walk, PartStep::Value(index), elems, behind, out)?;
    }
    Ok(at)
}

// Tells of the fields of a struct, and where it ends.
#[cycle(walk)]
fn walk_fields<O: RowSink>(
    walk: &Walk<'_>,
    part: RowPart,
    fields: &Fields,
    begin: usize,
    out: &mut O,
) -> Result<usize, RowStop<O::Fault>>
    requires most { walk.now.most ≤ greatest_depth }
    requires depth { part.depth ≤ walk.now.most }
    ensures { let T = types walk.now.table.now in (t : TypeId) (base around : ℕ) (p : List ℕ) (outer : List Open)
        (way : List PartStep) (s : Shape) → base + around + 1 ≡ part.depth → begin ≤ length walk.now.body.now
        → IsReady T part.id → shape_of T part.id ≡ Some s → s.kind ≡ kind.Struct fields.now
        → BeginsAt T t base p outer part.id around way
        → Walks O.tells T walk.now.body.now walk.now.most t base p outer begin (out.old, way) out.new
        (SpellsOne T part.id) result }
{
    let mut next = 0;
    let mut at = begin;
    'fields: loop {
        let allowed = Numbers {
            least: 0,
            most: fields.count().saturating_sub(next),
        };
        let (delta, behind) = walk_number(What::Delta, part, allowed, walk.body, at, out)?;
        if delta == 0 {
            return Ok(behind);
        }
        let number = next + delta - 1;
        let Some(field) = fields.get(number) else {
            return Err(RowStop::Here(at, part.awaited()));
        };
        let step = PartStep::Field {
            of: part.id,
            number,
        };
        let inner = RowPart {
            id: field.id,
            depth: part.depth + 1,
        };
        at = walk_step(walk, step, inner, behind, out)?;
        next = number + 1;
    }
}

// Tells of a part of this basic type, which may be an interface, and where it ends.
#[cycle(walk)]
fn walk_basic_part<O: RowSink>(
    walk: &Walk<'_>,
    part: RowPart,
    basic: Basic,
    at: usize,
    out: &mut O,
) -> Result<usize, RowStop<O::Fault>>
    requires most { walk.now.most ≤ greatest_depth }
    requires depth { part.depth ≤ walk.now.most }
    ensures { let T = types walk.now.table.now in (t : TypeId) (base around : ℕ) (p : List ℕ) (outer : List Open)
        (way : List PartStep) (s : Shape) → base + around + 1 ≡ part.depth → at ≤ length walk.now.body.now
        → BeginsAt T t base p outer part.id around way → shape_of T part.id ≡ Some s → s.kind ≡ kind.Basic basic
        → Walks O.tells T walk.now.body.now walk.now.most t base p outer at (out.old, way) out.new
        (SpellsOne T part.id) result }
{
    match basic {
        Basic::Interface => walk_interface(walk, part, at, out),
        _ => walk_basic(part, basic, walk.body, at, out),
    }
}

// Tells of an interface and of what fills it, if anything does, and where it ends.
#[cycle(walk)]
fn walk_interface<O: RowSink>(
    walk: &Walk<'_>,
    part: RowPart,
    at: usize,
    out: &mut O,
) -> Result<usize, RowStop<O::Fault>>
    requires most { walk.now.most ≤ greatest_depth }
    requires depth { part.depth ≤ walk.now.most }
    ensures { let T = types walk.now.table.now in (t : TypeId) (base around : ℕ) (p : List ℕ) (outer : List Open)
        (way : List PartStep) (s : Shape) → base + around + 1 ≡ part.depth → at ≤ length walk.now.body.now
        → BeginsAt T t base p outer part.id around way → shape_of T part.id ≡ Some s
        → s.kind ≡ kind.Basic basics.Interface
        → Walks O.tells T walk.now.body.now walk.now.most t base p outer at (out.old, way) out.new
        (SpellsOne T part.id) result }
{
    let (length, behind) = walk_number(What::First, part, Numbers::ANY, walk.body, at, out)?;
    if length == 0 {
        return Ok(behind);
    }
    let filling = RowPart {
        id: part.id,
        depth: part.depth + 1,
    };
    if filling.depth > walk.most {
        return Err(RowStop::Here(behind, filling.awaited()));
    }
    let named = walk_raw(filling, length, walk.body, behind, out)?;
    walk_filling(walk, filling, named, out)
}

// Tells of a filling behind its name, and where it ends.
#[cycle(walk)]
fn walk_filling<O: RowSink>(
    walk: &Walk<'_>,
    filling: RowPart,
    begin: usize,
    out: &mut O,
) -> Result<usize, RowStop<O::Fault>>
    requires most { walk.now.most ≤ greatest_depth }
    requires depth { filling.depth ≤ walk.now.most }
    ensures { let T = types walk.now.table.now in (t : TypeId) (base : ℕ) (p : List ℕ) (outer : List Open)
        (way : List PartStep) → begin ≤ length walk.now.body.now → PathOf T (a_value t base p ∷ outer) way
        → WalksTo O.tells T walk.now.body.now walk.now.most
        (a_filling filling.id filling.depth type_number ∷ (a_value t base p ∷ outer)) begin (out.old, way) out.new
        (a_value t base (p ++ 0 ∷ []) ∷ outer) result }
{
    let mut at = begin;
    // each definition takes a byte at least
    'definitions: for least in begin..walk.body.len() {
        let (number, behind) = walk_number(
            What::TypeNumber,
            filling,
            Numbers::ANY,
            walk.body,
            at,
            out,
        )?;
        let sign = number % 2;
        if sign == 0 {
            return walk_held(walk, TypeId(number / 2), filling, behind, out);
        }
        at = walk_definition(walk, filling, behind, out)?;
    }
    Err(RowStop::Here(
        at,
        Awaited {
            what: What::TypeNumber,
            id: filling.id,
            most: u64::MAX,
        },
    ))
}

// Tells of a description in a filling and of the count of the segment behind it, and where that ends.
#[cycle(walk)]
fn walk_definition<O: RowSink>(
    walk: &Walk<'_>,
    filling: RowPart,
    at: usize,
    out: &mut O,
) -> Result<usize, RowStop<O::Fault>>
    requires most { walk.now.most ≤ greatest_depth }
    requires depth { filling.depth ≤ walk.now.most }
    ensures { let T = types walk.now.table.now in (outer : List Open) (way : List PartStep)
        → at ≤ length walk.now.body.now → PathOf T outer way
        → WalksTo O.tells T walk.now.body.now walk.now.most
        (a_value wire_type filling.depth [] ∷ (a_filling filling.id filling.depth description ∷ outer))
        at (out.old, way) out.new (a_filling filling.id filling.depth type_number ∷ outer) result }
{
    let behind = walk_inside(walk, TypeId::WIRE_TYPE, filling, at, out)?;
    let (_, end) = walk_number(What::Segment, filling, Numbers::ANY, walk.body, behind, out)?;
    Ok(end)
}

// Tells of the count and the value of what is held, of this type, and where it ends.
#[cycle(walk)]
fn walk_held<O: RowSink>(
    walk: &Walk<'_>,
    id: TypeId,
    filling: RowPart,
    at: usize,
    out: &mut O,
) -> Result<usize, RowStop<O::Fault>>
    requires most { walk.now.most ≤ greatest_depth }
    requires depth { filling.depth ≤ walk.now.most }
    ensures { let T = types walk.now.table.now in (t : TypeId) (base : ℕ) (p : List ℕ) (outer : List Open)
        (way : List PartStep) → at ≤ length walk.now.body.now → PathOf T (a_value t base p ∷ outer) way
        → WalksTo O.tells T walk.now.body.now walk.now.most
        (a_filling filling.id filling.depth (count id) ∷ (a_value t base p ∷ outer)) at (out.old, way) out.new
        (a_value t base (p ++ 0 ∷ []) ∷ outer) result }
{
    let (_, begin) = walk_number(What::Segment, filling, Numbers::ANY, walk.body, at, out)?;
    walk_inside(walk, id, filling, begin, out)
}

// Tells of a value of this type in a filling, or of a description, and where it ends.
#[cycle(walk)]
fn walk_inside<O: RowSink>(
    walk: &Walk<'_>,
    id: TypeId,
    filling: RowPart,
    at: usize,
    out: &mut O,
) -> Result<usize, RowStop<O::Fault>>
    requires most { walk.now.most ≤ greatest_depth }
    requires depth { filling.depth ≤ walk.now.most }
    ensures { let T = types walk.now.table.now in (outer : List Open) (way : List PartStep)
        → at ≤ length walk.now.body.now → PathOf T outer way
        → Walks O.tells T walk.now.body.now walk.now.most id filling.depth [] outer at (out.old, way) out.new
        (SpellsWhole T id) result }
{
    out.enter(PartStep::Held(id))?;
    let part = RowPart {
        id,
        depth: filling.depth + 1,
    };
    let end = walk_value(walk, part, at, out)?;
    out.leave();
    Ok(end)
}
