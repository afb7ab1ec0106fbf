//! Whether bytes are a whole value whose interfaces may hold others. Nothing is kept of it, and no memory is taken. It
//! recurses as deep as the value is, at most 1000.

ghost use Rattle.std.specs.Prelude.{◌≡◌, pos, ◌+◌, ◌<◌, ◌≤◌, ℕ, List, IsTrue, IfSome, drop, length};
ghost use Rattle.gob_num.specs.Unsigned.{IsUnsigned};
ghost use Rattle.gob_num.specs.Signed.{IsSigned};
ghost use Rattle.gob_types.specs.Defined.{types};
ghost use Rattle.gob_types.specs.declared.basic.Basic.TheVariants as basics;
ghost use Rattle.gob_types.specs.declared.kind.Kind.TheVariants as kinds;
ghost use Rattle.gob_value.specs.Machine.Begins.{HoldsBetween};
ghost use Rattle.gob_stream.specs.Body.{MayPut};
ghost use Rattle.gob_stream.specs.Bounds.{greatest_depth};
ghost use Rattle.gob_go.specs.Whole.{IsFilledWhole};
ghost use Rattle.gob_go.specs.Machine.WholeFilled.{BeginsFilled, BeginsFilledEach, BeginsFilledFields};
ghost use Rattle.gob_go.specs.Machine.WholeFilled.{BeginsFilledPairs, BeginsFilledTop, IsOfKind};

use gob_num::to_signed;
use gob_types::{Basic, Fields, Kind, Shapes, Table, TypeId};
use gob_value::{field_number, number_at, whole_elements};

/// Whether the bytes are a value of the type, behind its tag where it isn't a struct, no deeper than `depth`, in which
/// each interface holds nothing, or a value of a type that is ready. It takes no memory. A false says nothing: where a
/// definition stands in an interface, the bytes may be a value all the same.
pub fn is_filled_whole(table: &Table, id: TypeId, body: &[u8], depth: u64) -> bool
    requires { depth ≤ greatest_depth }
    ensures { IsTrue result → IsFilledWhole (types table.now) id depth body.now }
{
    match top_end(table, id, body, 0, depth) {
        Some(end) => end == body.len(),
        None => false,
    }
}

// Where the value of the type ends that stands in the body from the place on, behind its tag where it isn't a struct.
#[cycle(filled)]
fn top_end(table: &Table, id: TypeId, body: &[u8], at: usize, depth: u64) -> Option<usize>
    requires depth { depth ≤ greatest_depth }
    requires place { at ≤ length body.now }
    ensures { IfSome result (λ end. HoldsBetween (BeginsFilledTop (types table.now) id depth) body.now at end) }
{
    let shape = table.shape_of(id)?;
    if let Kind::Struct { .. } = &shape.kind {
        return value_end(table, id, &shape.kind, body, at, depth);
    }
    if at >= body.len() || body[at] != 0 {
        return None;
    }
    value_end(table, id, &shape.kind, body, at + 1, depth)
}

// Where the value of the type, which is of this kind, ends that stands in the body from the place on.
#[cycle(filled)]
fn value_end(
    table: &Table,
    id: TypeId,
    kind: &Kind,
    body: &[u8],
    at: usize,
    depth: u64,
) -> Option<usize>
    requires depth { depth ≤ greatest_depth }
    requires place { at ≤ length body.now }
    requires kind { IsOfKind (types table.now) id kind.now }
    ensures { IfSome result (λ end. HoldsBetween (BeginsFilled (types table.now) id depth) body.now at end) }
{
    if depth == 0 {
        return None;
    }
    match kind {
        Kind::Basic(Basic::Interface) => interface_end(table, id, body, at, depth - 1),
        Kind::Basic(_) => leaf_end(table, id, body, at),
        Kind::Opaque(_) => leaf_end(table, id, body, at),
        Kind::Struct { fields } => fields_end(table, fields, body, at, depth - 1),
        Kind::Slice { elem } => {
            let (count, behind) = number_at(body, at)?;
            elements_end(table, *elem, count, body, behind, depth - 1)
        }
        Kind::Array { elem, len } => {
            let (count, behind) = number_at(body, at)?;
            if count != *len {
                return None;
            }
            elements_end(table, *elem, count, body, behind, depth - 1)
        }
        Kind::Map { key, elem } => {
            let (count, behind) = number_at(body, at)?;
            let entries = Entries {
                key: *key,
                elem: *elem,
                count,
            };
            entries_end(table, entries, body, behind, depth - 1)
        }
    }
}

// Where so many elements end.
#[cycle(filled)]
fn elements_end(
    table: &Table,
    elem: TypeId,
    count: u64,
    body: &[u8],
    begin: usize,
    depth: u64,
) -> Option<usize>
    requires depth { depth ≤ greatest_depth }
    requires place { begin ≤ length body.now }
    ensures { IfSome result (λ end.
        HoldsBetween (BeginsFilledEach (types table.now) elem depth count) body.now begin end) }
{
    let shape = table.shape_of(elem)?;
    match &shape.kind {
        Kind::Basic(Basic::Interface) => {}
        Kind::Basic(_) => return leaves_end(table, elem, count, body, begin, depth),
        _ => {}
    }
    let mut at = begin;
    'elements: for _ in 0..count {
        at = value_end(table, elem, &shape.kind, body, at, depth)?;
    }
    Some(at)
}

// The types of the keys and the elements of a map, and how many entries it has.
#[derive(Clone, Copy)]
struct Entries {
    key: TypeId,
    elem: TypeId,
    count: u64,
}

// Where the entries of a map end, each a key and an element.
#[cycle(filled)]
fn entries_end(
    table: &Table,
    entries: Entries,
    body: &[u8],
    begin: usize,
    depth: u64,
) -> Option<usize>
    requires depth { depth ≤ greatest_depth }
    requires place { begin ≤ length body.now }
    ensures { IfSome result (λ end. HoldsBetween
        (BeginsFilledPairs (types table.now) entries.key entries.elem depth entries.count) body.now begin end) }
{
    let Entries { key, elem, count } = entries;
    let keys = table.shape_of(key)?;
    let elems = table.shape_of(elem)?;
    let mut at = begin;
    'pairs: for _ in 0..count {
        let behind = value_end(table, key, &keys.kind, body, at, depth)?;
        at = value_end(table, elem, &elems.kind, body, behind, depth)?;
    }
    Some(at)
}

// Where the fields of a struct end.
#[cycle(filled)]
fn fields_end(
    table: &Table,
    fields: &Fields,
    body: &[u8],
    begin: usize,
    depth: u64,
) -> Option<usize>
    requires depth { depth ≤ greatest_depth }
    requires place { begin ≤ length body.now }
    ensures { IfSome result (λ end.
        HoldsBetween (BeginsFilledFields (types table.now) fields.now 0 depth) body.now begin end) }
{
    let mut next = 0;
    let mut at = begin;
    'fields: loop {
        let (delta, behind) = number_at(body, at)?;
        if delta == 0 {
            return Some(behind);
        }
        let number = field_number(next, delta)?;
        let field = fields.get(number)?;
        let shape = table.shape_of(field.id)?;
        at = value_end(table, field.id, &shape.kind, body, behind, depth)?;
        next = number + 1;
    }
}

// Where an interface ends: nil, or a name, the number of a type that is ready, and a value of it behind the count of
// its bytes, no deeper than `depth`.
#[cycle(filled)]
fn interface_end(table: &Table, id: TypeId, body: &[u8], at: usize, depth: u64) -> Option<usize>
    requires depth { depth + 1 ≤ greatest_depth }
    requires place { at ≤ length body.now }
    requires kind { IsOfKind (types table.now) id (kinds.Basic basics.Interface) }
    ensures { IfSome result (λ end. HoldsBetween (BeginsFilled (types table.now) id (depth + 1)) body.now at end) }
{
    let (size, name) = number_at(body, at)?;
    if size == 0 {
        return leaf_end(table, id, body, at);
    }
    let (number, counted) = number_at(body, place_behind(body, name, size)?)?;
    let held = held_type(table, number)?;
    let (size, inner) = number_at(body, counted)?;
    let last = place_behind(body, inner, size)?;
    match top_end(table, held, body, inner, depth) {
        Some(end) if end == last => Some(end),
        _ => None,
    }
}

/// The type whose number this is, where values of it may stand in interfaces.
pub fn held_type(table: &Table, number: u64) -> Option<TypeId>
    ensures number { IfSome result (λ id. (bytes : List ℕ) → IsUnsigned number bytes → IsSigned (pos id.0) bytes) }
    ensures may { IfSome result (λ id. MayPut (types table.now) id) }
{
    let number = to_signed(number);
    if number < 0 {
        return None;
    }
    let id = TypeId(number as u64);
    if id.0 == TypeId::GOB_ENCODER_TYPE.0 || !table.kept(id) {
        return None;
    }
    Some(id)
}

// The place behind so many bytes from this place on, where the body has them.
fn place_behind(body: &[u8], at: usize, size: u64) -> Option<usize>
    requires { at ≤ length body.now }
    ensures behind { IfSome result (λ end. end ≡ at + size) }
    ensures inside { IfSome result (λ end. end ≤ length body.now) }
{
    if size > (body.len() - at) as u64 {
        return None;
    }
    Some(at + size as usize)
}

// Where the value of the type, one without parts, ends that stands in the body from the place on.
fn leaf_end(table: &Table, id: TypeId, body: &[u8], at: usize) -> Option<usize>
    requires { at ≤ length body.now }
    ensures { IfSome result (λ end. (limit : ℕ) → 0 < limit
        → HoldsBetween (BeginsFilled (types table.now) id limit) body.now at end) }
{
    let found = whole_elements(table, id, 1, &body[at..], 1);
    if found.count == 0 {
        return None;
    }
    Some(at + found.end)
}

// Where so many such values end.
fn leaves_end(
    table: &Table,
    elem: TypeId,
    count: u64,
    body: &[u8],
    begin: usize,
    depth: u64,
) -> Option<usize>
    requires { begin ≤ length body.now }
    ensures { IfSome result (λ end.
        HoldsBetween (BeginsFilledEach (types table.now) elem depth count) body.now begin end) }
{
    let found = whole_elements(table, elem, count, &body[begin..], depth);
    if found.count < count {
        return None;
    }
    Some(begin + found.end)
}
