//! The walk over a value that stands in a body: the functions call one another down the value.

ghost use Rattle.std.specs.Prelude.{◌≡◌, ◌^◌, ◌-◌, ◌<◌, ◌≤◌, ◌∷◌, ◌++◌, [], List, ℕ, IfOk, Some};
ghost use Rattle.std.specs.Prelude.{IfSome, drop, false, length, slice_get};
ghost use Rattle.gob_types.specs.declared.id.TypeId.{TypeId};
ghost use Rattle.gob_types.specs.declared.kind.Kind.{Kind as AKind};
ghost use Rattle.gob_types.specs.declared.kind.Kind.TheVariants as kind;
ghost use Rattle.gob_types.specs.Table.{shape_of};
ghost use Rattle.gob_value.specs.Tree.{Tree, Trees, Pairs, Fields, pair_count, tree_count};
ghost use Rattle.gob_value.specs.Machine.Begins.{BeginsEach, BeginsField, BeginsFields, BeginsKind, BeginsPairs};
ghost use Rattle.gob_walk.specs.Standing.{BeginsElements, BeginsEntries, BeginsEntry, BeginsPair};
ghost use Rattle.gob_walk.specs.Standing.{BeginsPresent, EndsAt, HoldsValue};
ghost use Rattle.gob_walk.specs.Event.{elements_told, entries_told, entry_told, field_ends, fields_told, list_begins};
ghost use Rattle.gob_walk.specs.Event.{map_begins, present, struct_begins, value_told};
ghost use Rattle.gob_walk.specs.Told.{Reaches, Sends};

use crate::basic::{walk_basic, walk_raw};
use crate::number::{next_field, number_at};
use crate::visitor::Visitor;
use crate::walk_end::{WalkEnd, closed};
use gob_types::{Basic, Field, Fields as Types, Kind, Shape, Shapes, TypeId};

/// Tells of the value of a type of this shape that stands in the body from the place on, and where it ends. It calls
/// itself as deep as the value is. Where the bytes are known to be whole, each number is taken as it stands; else it is
/// looked at whether one does.
// value: basic | opaque | struct | count elements | count pairs
#[cycle(walk)]
pub(crate) fn walk_value<S: Shapes, V: Visitor, const KNOWN: bool>(
    shapes: &S,
    shape: &Shape,
    heads: Option<&V::Heads>,
    body: &[u8],
    at: usize,
    depth: u64,
    out: &mut V,
) -> Result<usize, WalkEnd<V::Fault>>
    requires depth { depth ≤ 1000 }
    requires place { at ≤ length body.now }
    requires heads { IfSome heads (λ h. V.heads_of shape.now.kind h.now) }
    ensures sent { (t : TypeId) (v : Tree) (rest : List ℕ) → shape_of (S.table shapes.now) t ≡ Some shape.now
        → HoldsValue (S.table shapes.now) t depth v (drop at body.now) rest → Sends (Reaches V.tells) out.old out.new
        (value_told (S.table shapes.now) t v) body.now rest result }
    ensures stands { IfOk result (λ end.
        EndsAt KNOWN (BeginsKind (S.table shapes.now) false shape.now.kind depth) body.now at end) }
{
    if depth == 0 {
        return Err(WalkEnd::NotWhole);
    }
    match &shape.kind {
        Kind::Basic(basic) => walk_basic::<V, KNOWN>(*basic, body, at, out),
        Kind::Opaque(_) => walk_raw::<V, KNOWN>(shape, body, at, out),
        Kind::Struct { fields } => {
            walk_fields::<S, V, KNOWN>(shapes, fields, heads, body, at, depth - 1, out)
        }
        Kind::Slice { elem } => {
            let Some((count, behind)) = number_at::<KNOWN>(body, at) else {
                return Err(WalkEnd::NotWhole);
            };
            walk_elements::<S, V, KNOWN>(shapes, *elem, count, body, behind, depth - 1, out)
        }
        Kind::Array { elem, len } => {
            let Some((count, behind)) = number_at::<KNOWN>(body, at) else {
                return Err(WalkEnd::NotWhole);
            };
            if count != *len {
                return Err(WalkEnd::NotWhole);
            }
            walk_elements::<S, V, KNOWN>(shapes, *elem, count, body, behind, depth - 1, out)
        }
        Kind::Map { key, elem } => {
            let Some((count, behind)) = number_at::<KNOWN>(body, at) else {
                return Err(WalkEnd::NotWhole);
            };
            walk_pairs::<S, V, KNOWN>(shapes, *key, *elem, count, body, behind, depth - 1, out)
        }
    }
}

// Tells of a value that is a part of another, without a call where its kind is basic.
// part: value
#[cycle(walk)]
#[inline(always)]
fn walk_part<S: Shapes, V: Visitor, const KNOWN: bool>(
    shapes: &S,
    shape: &Shape,
    heads: Option<&V::Heads>,
    body: &[u8],
    at: usize,
    depth: u64,
    out: &mut V,
) -> Result<usize, WalkEnd<V::Fault>>
    requires depth { depth ≤ 1000 }
    requires place { at ≤ length body.now }
    requires heads { IfSome heads (λ h. V.heads_of shape.now.kind h.now) }
    ensures sent { (t : TypeId) (v : Tree) (rest : List ℕ) → shape_of (S.table shapes.now) t ≡ Some shape.now
        → HoldsValue (S.table shapes.now) t depth v (drop at body.now) rest → Sends (Reaches V.tells) out.old out.new
        (value_told (S.table shapes.now) t v) body.now rest result }
    ensures stands { IfOk result (λ end.
        EndsAt KNOWN (BeginsKind (S.table shapes.now) false shape.now.kind depth) body.now at end) }
{
    match &shape.kind {
        Kind::Basic(basic) if depth > 0 => walk_basic::<V, KNOWN>(*basic, body, at, out),
        _ => walk_value::<S, V, KNOWN>(shapes, shape, heads, body, at, depth, out),
    }
}

// Tells of so many elements, and that the list begins and ends.
// elements: value*
#[cycle(walk)]
#[inline(always)]
fn walk_elements<S: Shapes, V: Visitor, const KNOWN: bool>(
    shapes: &S,
    elem: TypeId,
    count: u64,
    body: &[u8],
    begin: usize,
    depth: u64,
    out: &mut V,
) -> Result<usize, WalkEnd<V::Fault>>
    requires depth { depth ≤ 1000 }
    requires place { begin ≤ length body.now }
    ensures sent { (vs : Trees) (rest : List ℕ)
        → BeginsElements (S.table shapes.now) elem depth vs (drop begin body.now) rest → tree_count vs ≡ count
        → Sends (Reaches V.tells) out.old out.new
        (list_begins ∷ elements_told false (S.table shapes.now) elem vs) body.now rest result }
    ensures stands { IfOk result (λ end.
        EndsAt KNOWN (BeginsEach (S.table shapes.now) false elem depth count) body.now begin end) }
{
    out.list_begins()?;
    if count == 0 {
        return closed(out.list_ends(), begin);
    }
    let Some(shape) = shapes.shape_of(elem) else {
        return Err(WalkEnd::NotWhole);
    };
    match &shape.kind {
        Kind::Basic(Basic::Int) if depth > 0 => return out.ints(count, body, begin, KNOWN),
        _ => {}
    }
    let made = V::heads(&shape.kind, count, KNOWN);
    let heads = made.as_ref();
    let mut at = begin;
    'elements: for index in 0..count {
        out.element(index > 0)?;
        at = walk_part::<S, V, KNOWN>(shapes, shape, heads, body, at, depth, out)?;
    }
    closed(out.list_ends(), at)
}

// Tells of so many pairs of a key and an element, and that the map begins and ends.
// pairs: pair*
#[cycle(walk)]
#[inline(never)]
fn walk_pairs<S: Shapes, V: Visitor, const KNOWN: bool>(
    shapes: &S,
    key: TypeId,
    elem: TypeId,
    count: u64,
    body: &[u8],
    begin: usize,
    depth: u64,
    out: &mut V,
) -> Result<usize, WalkEnd<V::Fault>>
    requires depth { depth ≤ 1000 }
    requires place { begin ≤ length body.now }
    ensures sent { (ps : Pairs) (rest : List ℕ)
        → BeginsEntries (S.table shapes.now) key elem depth ps (drop begin body.now) rest → pair_count ps ≡ count
        → Sends (Reaches V.tells) out.old out.new
        (map_begins key ∷ entries_told false (S.table shapes.now) key elem ps) body.now rest result }
    ensures stands { IfOk result (λ end.
        EndsAt KNOWN (BeginsPairs (S.table shapes.now) false key elem depth count) body.now begin end) }
{
    out.map_begins(key)?;
    if count == 0 {
        return closed(out.map_ends(key), begin);
    }
    let Some(keys) = shapes.shape_of(key) else {
        return Err(WalkEnd::NotWhole);
    };
    let Some(elems) = shapes.shape_of(elem) else {
        return Err(WalkEnd::NotWhole);
    };
    let made = V::heads(&elems.kind, count, KNOWN);
    let heads = made.as_ref();
    let mut at = begin;
    'pairs: for index in 0..count {
        out.entry(key, index > 0)?;
        at = walk_pair::<S, V, KNOWN>(shapes, key, keys, elems, heads, body, at, depth, out)?;
    }
    closed(out.map_ends(key), at)
}

// Tells of a key and the element behind it.
// pair: value value
#[cycle(walk)]
#[inline(always)]
fn walk_pair<S: Shapes, V: Visitor, const KNOWN: bool>(
    shapes: &S,
    id: TypeId,
    key: &Shape,
    elem: &Shape,
    heads: Option<&V::Heads>,
    body: &[u8],
    at: usize,
    depth: u64,
    out: &mut V,
) -> Result<usize, WalkEnd<V::Fault>>
    requires depth { depth ≤ 1000 }
    requires place { at ≤ length body.now }
    requires heads { IfSome heads (λ h. V.heads_of elem.now.kind h.now) }
    ensures sent { (e : TypeId) (x v : Tree) (rest : List ℕ) → shape_of (S.table shapes.now) id ≡ Some key.now
        → shape_of (S.table shapes.now) e ≡ Some elem.now
        → BeginsEntry (S.table shapes.now) id e depth x v (drop at body.now) rest
        → Sends (Reaches V.tells) out.old out.new (entry_told (S.table shapes.now) id e x v) body.now rest result }
    ensures stands { IfOk result (λ end.
        EndsAt KNOWN (BeginsPair (S.table shapes.now) key.now.kind elem.now.kind depth) body.now at end) }
{
    let behind = walk_part::<S, V, KNOWN>(shapes, key, no_heads::<V>(heads), body, at, depth, out)?;
    out.between(id)?;
    let end = walk_part::<S, V, KNOWN>(shapes, elem, heads, body, behind, depth, out)?;
    closed(out.entry_ends(id), end)
}

// Tells of the fields of a struct that are present.
// struct: (delta value)* 0
#[cycle(walk)]
#[inline(always)]
fn walk_fields<S: Shapes, V: Visitor, const KNOWN: bool>(
    shapes: &S,
    types: &Types,
    heads: Option<&V::Heads>,
    body: &[u8],
    begin: usize,
    depth: u64,
    out: &mut V,
) -> Result<usize, WalkEnd<V::Fault>>
    requires depth { depth ≤ 1000 }
    requires place { begin ≤ length body.now }
    requires heads { IfSome heads (λ h. V.heads_of (kind.Struct types.now) h.now) }
    ensures sent { (fs : Fields) (rest : List ℕ)
        → BeginsPresent (S.table shapes.now) types.now 0 depth fs (drop begin body.now) rest
        → Sends (Reaches V.tells) out.old out.new
        (struct_begins ∷ fields_told (S.table shapes.now) types.now 0 fs) body.now rest result }
    ensures stands { IfOk result (λ end.
        EndsAt KNOWN (BeginsFields (S.table shapes.now) false types.now 0 depth) body.now begin end) }
{
    let none = no_heads::<V>(heads);
    let mut next = 0;
    let mut at = begin;
    out.struct_begins()?;
    'fields: loop {
        let Some((delta, behind)) = number_at::<KNOWN>(body, at) else {
            return Err(WalkEnd::NotWhole);
        };
        if delta == 0 {
            return closed(out.struct_ends(types, next), behind);
        }
        let Some((number, field)) = next_field(types, next, delta) else {
            return Err(WalkEnd::NotWhole);
        };
        tell_field::<V, KNOWN>(heads, types, next, number, field, out)?;
        at = walk_field::<S, V, KNOWN>(shapes, field.id, none, body, behind, depth, out)?;
        next = number + 1;
    }
}

// Nothing that is made once of fields. It lives as long as what is given.
#[inline(always)]
fn no_heads<V: Visitor>(_heads: Option<&V::Heads>) -> Option<&V::Heads>
    ensures { (k : AKind) → IfSome result (λ h. V.heads_of k h.now) }
{
    None
}

// Tells that the field of this number begins. What is made once of the fields is made for bytes that are known to be
// whole alone: of any other it isn't asked at each field whether it is there.
#[inline(always)]
fn tell_field<V: Visitor, const KNOWN: bool>(
    heads: Option<&V::Heads>,
    types: &Types,
    next: u64,
    number: u64,
    field: &Field,
    out: &mut V,
) -> Result<(), V::Fault>
    requires heads { IfSome heads (λ h. V.heads_of (kind.Struct types.now) h.now) }
    requires field { slice_get types.now number ≡ Some field.now }
    ensures { V.tells out.old out.new (present types.now next number ∷ []) result }
{
    if KNOWN {
        return out.field(heads, types, next, number, field);
    }
    out.field(no_heads::<V>(heads), types, next, number, field)
}

// Tells of a field's value, and that the field ends.
#[cycle(walk)]
#[inline(always)]
fn walk_field<S: Shapes, V: Visitor, const KNOWN: bool>(
    shapes: &S,
    id: TypeId,
    none: Option<&V::Heads>,
    body: &[u8],
    at: usize,
    depth: u64,
    out: &mut V,
) -> Result<usize, WalkEnd<V::Fault>>
    requires depth { depth ≤ 1000 }
    requires place { at ≤ length body.now }
    requires none { (k : AKind) → IfSome none (λ h. V.heads_of k h.now) }
    ensures sent { (v : Tree) (rest : List ℕ) → HoldsValue (S.table shapes.now) id depth v (drop at body.now) rest
        → Sends (Reaches V.tells) out.old out.new
        (value_told (S.table shapes.now) id v ++ field_ends ∷ []) body.now rest result }
    ensures stands { IfOk result (λ end.
        EndsAt KNOWN (BeginsField (S.table shapes.now) false id depth) body.now at end) }
{
    let end = walk_typed::<S, V, KNOWN>(shapes, id, none, body, at, depth, out)?;
    closed(out.field_ends(), end)
}

// Tells of the value of the type that stands in the body from the place on. A basic type isn't looked up.
// typed: value
#[cycle(walk)]
#[inline(always)]
fn walk_typed<S: Shapes, V: Visitor, const KNOWN: bool>(
    shapes: &S,
    id: TypeId,
    none: Option<&V::Heads>,
    body: &[u8],
    at: usize,
    depth: u64,
    out: &mut V,
) -> Result<usize, WalkEnd<V::Fault>>
    requires depth { depth ≤ 1000 }
    requires place { at ≤ length body.now }
    requires none { (k : AKind) → IfSome none (λ h. V.heads_of k h.now) }
    ensures sent { (v : Tree) (rest : List ℕ) → HoldsValue (S.table shapes.now) id depth v (drop at body.now) rest
        → Sends (Reaches V.tells) out.old out.new (value_told (S.table shapes.now) id v)
        body.now rest result }
    ensures stands { IfOk result (λ end.
        EndsAt KNOWN (BeginsField (S.table shapes.now) false id depth) body.now at end) }
{
    match shapes.basic_of(id) {
        Some(basic) if depth > 0 => walk_basic::<V, KNOWN>(basic, body, at, out),
        _ => match shapes.shape_of(id) {
            Some(shape) => walk_value::<S, V, KNOWN>(shapes, shape, none, body, at, depth, out),
            None => Err(WalkEnd::NotWhole),
        },
    }
}
