//! The walk over the bytes of a value that makes those of its tidy form. It recurses as deep as the value is, at most
//! 1000.

ghost use Rattle.std.specs.Prelude.{◌≡◌, ◌≤◌, [], IfOk, IfSome, IsTrue, length};
ghost use Rattle.gob_value.specs.Machine.Begins.{HoldsBetween};
ghost use Rattle.gob_tidy.specs.SameNil.{MovesNils};
ghost use Rattle.gob_tidy.specs.TidiedWhole.{TidiesWhole};
ghost use Rattle.gob_tidy.specs.Machine.Tidying.{Admits, GivesEach, GivesFields, GivesList, GivesMap, GivesTop};
ghost use Rattle.gob_tidy.specs.Machine.Tidying.{GivesValue, HasNils, IsForm, IsLeaf};

use crate::dropped::dropped_end;
use crate::part::{Form, Part, copy_each, copy_number, put_number, put_place, put_tag, zero_end};
use gob_num::Memory;
use gob_types::{Basic, Fields, Kind, Shapes, TypeId};
use gob_value::{field_number, has_structs, number_at};
use std::alloc::Global;
use std::mem;

// How deep a value may be that is looked at: each level is a call within a call.
const MOST_DEPTH: u64 = 1000;

/// Makes in `tidied` the bytes of the tidy form of the value that `body` spells; each stands behind its tag where it
/// isn't a struct. Ok(true) says that `body` spells a value of the type, no deeper than `depth`, and that these are the
/// bytes. Ok(false) says nothing: there may be no such value, or one that is deeper than 1000.
///
/// [`Memory`] comes where `tidied` can't have room for as many bytes as `body` has. They are enough, since no tidy form
/// is longer than the value. What `tidied` holds then, or behind Ok(false), is of no use.
pub fn tidy_whole<S: Shapes>(
    alloc: Global,
    shapes: &S,
    id: TypeId,
    body: &[u8],
    depth: u64,
    tidied: &mut Vec<u8>,
) -> Result<bool, Memory>
    ensures { IfOk result (λ found. IsTrue found
        → TidiesWhole (S.table shapes.now) id depth body.now tidied.new.items) }
{
    let whole = Part {
        body,
        nils: &[],
        at: 0,
        depth: depth.min(MOST_DEPTH),
    };
    let mut form = form_in(alloc, tidied);
    let found = tidy_form(alloc, shapes, id, whole, &mut form);
    let Form { bytes, places } = form;
    *tidied = bytes;
    drop(places);
    found
}

/// Makes in `tidied` the bytes of the tidy form of the value that `body` spells, as [`tidy_whole`] does, and tells
/// where nils of the value stand in its form: those that stand behind so many bytes of `body`, in the order of their
/// places. A nil that an element or a field of a kept part is stays there. None says nothing: there may be no such
/// value or nil, or the value is deeper than 1000.
///
/// [`Memory`] comes where `tidied` can't have room for as many bytes as `body` has. What it holds then, or behind None,
/// is of no use.
pub fn tidy_with_nils<S: Shapes>(
    alloc: Global,
    shapes: &S,
    id: TypeId,
    body: &[u8],
    nils: &[u64],
    tidied: &mut Vec<u8>,
) -> Result<Option<Vec<u64>>, Memory>
    ensures { IfOk result (λ found. IfSome found (λ moved.
        MovesNils (S.table shapes.now) id 1000 body.now tidied.new.items nils.now moved.items)) }
{
    let whole = Part {
        body,
        nils,
        at: 0,
        depth: MOST_DEPTH,
    };
    let mut form = form_in(alloc, tidied);
    let found = tidy_form(alloc, shapes, id, whole, &mut form);
    let Form { bytes, places } = form;
    *tidied = bytes;
    if found? && places.len() == nils.len() {
        return Ok(Some(places));
    }
    Ok(None)
}

// A tidy form of nothing yet, in the room of the vector.
fn form_in(alloc: Global, room: &mut Vec<u8>) -> Form
    ensures { result.places.items ≡ [] }
{
    Form {
        bytes: mem::replace(room, Vec::new(alloc)),
        places: Vec::new(alloc),
    }
}

// Makes the tidy form of the value that the body spells behind its tag, where it isn't a struct, and tells whether the
// body does.
fn tidy_form<S: Shapes>(
    alloc: Global,
    shapes: &S,
    id: TypeId,
    whole: Part<'_>,
    form: &mut Form,
) -> Result<bool, Memory>
    requires depth { whole.depth ≤ 1000 }
    requires start { whole.at ≡ 0 }
    requires none { form.old.places.items ≡ [] }
    ensures { IfOk result (λ found. IsTrue found → IsForm (S.table shapes.now) id whole.entry.depth whole.entry.body.now
        whole.entry.nils.now form.new) }
{
    form.bytes.clear();
    form.bytes.reserve(whole.body.len())?;
    match tidy_top(alloc, shapes, id, whole, form) {
        Some(end) => Ok(end == whole.body.len()),
        None => Ok(false),
    }
}

// Tidies the value that stands in the body behind its tag, where it isn't a struct, and tells where it ends.
fn tidy_top<S: Shapes>(
    alloc: Global,
    shapes: &S,
    id: TypeId,
    whole: Part<'_>,
    form: &mut Form,
) -> Option<usize>
    requires depth { whole.depth ≤ 1000 }
    requires start { whole.at ≡ 0 }
    ensures { IfSome result (λ end.
        HoldsBetween (GivesTop (S.table shapes.now) id whole.entry.depth (length whole.entry.body.now)
        whole.entry.nils.now form.old form.new) whole.entry.body.now 0 end) }
{
    if has_structs(shapes, id) {
        return tidy_value(alloc, shapes, id, whole, form);
    }
    let at = zero_end(whole.body, 0)?;
    put_tag(&mut form.bytes)?;
    let value = Part {
        body: whole.body,
        nils: whole.nils,
        at,
        depth: whole.depth,
    };
    tidy_value(alloc, shapes, id, value, form)
}

// Tidies the value of the type that stands there, and tells where it ends.
#[cycle(tidy_whole)]
fn tidy_value<S: Shapes>(
    alloc: Global,
    shapes: &S,
    id: TypeId,
    part: Part<'_>,
    form: &mut Form,
) -> Option<usize>
    requires depth { part.depth ≤ 1000 }
    requires place { part.at ≤ length part.body.now }
    ensures { IfSome result (λ end.
        HoldsBetween (GivesValue (S.table shapes.now) id part.entry.depth
        (length part.entry.body.now) part.entry.nils.now form.old form.new)
        part.entry.body.now part.entry.at end) }
{
    if part.depth == 0 {
        return None;
    }
    let inside = Part {
        body: part.body,
        nils: part.nils,
        at: part.at,
        depth: part.depth - 1,
    };
    let shape = shapes.shape_of(id)?;
    match &shape.kind {
        Kind::Basic(Basic::Interface) => tidy_nil(shapes, id, part, form),
        Kind::Basic(_) | Kind::Opaque(_) => copy_each(shapes, id, 1, part, &mut form.bytes),
        Kind::Slice { elem } => tidy_list(alloc, shapes, *elem, None, inside, form),
        Kind::Array { elem, len } => tidy_list(alloc, shapes, *elem, Some(*len), inside, form),
        Kind::Map { key, elem } => tidy_map(alloc, shapes, *key, *elem, inside, form),
        Kind::Struct { fields } => tidy_fields(alloc, shapes, fields, inside, form),
    }
}

// Copies the nil that stands there, and tells where it ends.
fn tidy_nil<S: Shapes>(shapes: &S, id: TypeId, part: Part<'_>, form: &mut Form) -> Option<usize>
    requires nil { HasNils (S.table shapes.now) id }
    requires place { part.at ≤ length part.body.now }
    ensures { IfSome result (λ end.
        HoldsBetween (GivesValue (S.table shapes.now) id part.entry.depth (length part.entry.body.now)
        part.entry.nils.now form.old form.new) part.entry.body.now part.entry.at end) }
{
    put_place(part, form)?;
    copy_each(shapes, id, 1, part, &mut form.bytes)
}

// Tidies the elements of a list behind their count, which is this one where the list is an array.
#[cycle(tidy_whole)]
fn tidy_list<S: Shapes>(
    alloc: Global,
    shapes: &S,
    elem: TypeId,
    size: Option<u64>,
    part: Part<'_>,
    form: &mut Form,
) -> Option<usize>
    requires depth { part.depth ≤ 1000 }
    requires place { part.at ≤ length part.body.now }
    ensures { IfSome result (λ end.
        HoldsBetween (GivesList (S.table shapes.now) elem size part.entry.depth
        (length part.entry.body.now) part.entry.nils.now form.old form.new)
        part.entry.body.now part.entry.at end) }
{
    let (count, begin) = copy_number(alloc, part, &mut form.bytes)?;
    if !admits(size, count) {
        return None;
    }
    let first = Part {
        body: part.body,
        nils: part.nils,
        at: begin,
        depth: part.depth,
    };
    tidy_each(alloc, shapes, elem, count, first, form)
}

// Tidies so many elements.
#[cycle(tidy_whole)]
fn tidy_each<S: Shapes>(
    alloc: Global,
    shapes: &S,
    elem: TypeId,
    count: u64,
    part: Part<'_>,
    form: &mut Form,
) -> Option<usize>
    requires depth { part.depth ≤ 1000 }
    requires place { part.at ≤ length part.body.now }
    ensures { IfSome result (λ end.
        HoldsBetween (GivesEach (S.table shapes.now) elem count part.entry.depth
        (length part.entry.body.now) part.entry.nils.now form.old form.new)
        part.entry.body.now part.entry.at end) }
{
    let shape = shapes.shape_of(elem)?;
    if is_leaf(&shape.kind) {
        return copy_each(shapes, elem, count, part, &mut form.bytes);
    }
    let mut at = part.at;
    'elements: for _ in 0..count {
        let next = Part {
            body: part.body,
            nils: part.nils,
            at,
            depth: part.depth,
        };
        at = tidy_value(alloc, shapes, elem, next, form)?;
    }
    Some(at)
}

// Tidies the keys and the elements of a map behind their count.
#[cycle(tidy_whole)]
fn tidy_map<S: Shapes>(
    alloc: Global,
    shapes: &S,
    key: TypeId,
    elem: TypeId,
    part: Part<'_>,
    form: &mut Form,
) -> Option<usize>
    requires depth { part.depth ≤ 1000 }
    requires place { part.at ≤ length part.body.now }
    ensures { IfSome result (λ end.
        HoldsBetween (GivesMap (S.table shapes.now) key elem part.entry.depth
        (length part.entry.body.now) part.entry.nils.now form.old form.new)
        part.entry.body.now part.entry.at end) }
{
    let (count, begin) = copy_number(alloc, part, &mut form.bytes)?;
    let mut at = begin;
    'entries: for _ in 0..count {
        let first = Part {
            body: part.body,
            nils: part.nils,
            at,
            depth: part.depth,
        };
        let behind = tidy_value(alloc, shapes, key, first, form)?;
        let second = Part {
            body: part.body,
            nils: part.nils,
            at: behind,
            depth: part.depth,
        };
        at = tidy_value(alloc, shapes, elem, second, form)?;
    }
    Some(at)
}

// Tidies the fields of a struct: those that are dropped are gone past, and each other one stands behind its delta from
// the last that was kept.
#[cycle(tidy_whole)]
fn tidy_fields<S: Shapes>(
    alloc: Global,
    shapes: &S,
    types: &Fields,
    part: Part<'_>,
    form: &mut Form,
) -> Option<usize>
    requires depth { part.depth ≤ 1000 }
    requires place { part.at ≤ length part.body.now }
    ensures { IfSome result (λ end.
        HoldsBetween (GivesFields (S.table shapes.now) types.now 0 0 part.entry.depth
        (length part.entry.body.now) part.entry.nils.now form.old form.new)
        part.entry.body.now part.entry.at end) }
{
    let mut at = part.at;
    let mut next = 0;
    let mut kept = 0;
    'fields: loop {
        let (delta, behind) = number_at(part.body, at)?;
        if delta == 0 {
            put_number(alloc, 0, &mut form.bytes)?;
            return Some(behind);
        }
        if part.depth == 0 {
            return None;
        }
        let number = field_number(next, delta)?;
        let field = types.get(number)?;
        let shape = shapes.shape_of(field.id)?;
        next = number + 1;
        if let Some(end) = dropped_end(&shape.kind, part.body, behind) {
            at = end;
            continue 'fields;
        }
        put_number(alloc, next - kept, &mut form.bytes)?;
        let value = Part {
            body: part.body,
            nils: part.nils,
            at: behind,
            depth: part.depth,
        };
        at = tidy_value(alloc, shapes, field.id, value, form)?;
        kept = next;
    }
}

// Whether a list that has so many elements, where it is an array, may have this many.
fn admits(size: Option<u64>, count: u64) -> bool
    ensures { IsTrue result → Admits size count }
{
    match size {
        Some(size) => count == size,
        None => true,
    }
}

// Whether the values of the kind have no parts, and are no nils, whose places may be asked for.
fn is_leaf(kind: &Kind) -> bool
    ensures { IsTrue result → IsLeaf kind.now }
{
    match kind {
        Kind::Basic(Basic::Interface) => false,
        Kind::Basic(_) | Kind::Opaque(_) => true,
        _ => false,
    }
}
