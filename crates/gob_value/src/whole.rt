//! Whether bytes are a whole value, or one that is its own tidy form. Nothing is kept of it, and no memory is taken. It
//! recurses as deep as the value is, at most 1000.

ghost use Rattle.std.specs.Prelude.{◌≡◌, ◌+◌, ◌<◌, ◌≤◌, ◌≢◌, Bool, false, IsTrue, IfSome, length};
ghost use Rattle.std.specs.Prelude.{drop, slice_get};
ghost use Rattle.gob_types.specs.Table.{Table, shape_of};
ghost use Rattle.gob_types.specs.declared.kind.Kind.TheVariants as kind;
ghost use Rattle.gob_types.specs.declared.id.TypeId.{TypeId};
ghost use Rattle.gob_types.specs.declared.kind.Shape.{Shape};
ghost use Rattle.gob_value.specs.Whole.{IsWhole, IsTidyWhole};
ghost use Rattle.gob_value.specs.Machine.Begins.{IsWholeSo, HoldsNumbers, HoldsBetween};
ghost use Rattle.gob_value.specs.Machine.Begins.{BeginsKind, BeginsEach};
ghost use Rattle.gob_value.specs.Machine.Begins.{BeginsPairs, BeginsFields, BeginsField, BeginsRaw, BeginsKept};
ghost use Rattle.gob_value.specs.Whole.{IsWholeBetween};
ghost use Rattle.gob_value.specs.Machine.Begins.{BeginsTop};

use crate::number::{field_number, number_at, number_end};
use gob_num::uints_end;
use gob_types::{Basic, Fields, Kind, Shapes, TypeId};

// How deep a value may be that is looked at: each level is a call within a call.
pub(crate) const MOST_DEPTH: u64 = 1000;

/// Whether the bytes are a value of the type, behind its tag where it isn't a struct, no deeper than `depth`. It takes
/// no memory. A false says nothing: what is deeper than 1000 may be a value all the same.
pub fn is_whole<S: Shapes>(shapes: &S, id: TypeId, body: &[u8], depth: u64) -> bool
    ensures { IsTrue result → IsWhole (S.table shapes.now) id depth body.now }
{
    is_whole_so::<S, false>(shapes, id, body, depth)
}

/// Whether the bytes are a value of the type that is its own tidy form, behind its tag where it isn't a struct, no
/// deeper than `depth`: no struct in it has a field that [`tidy`](crate::tidy) drops. It takes no memory. A false says
/// nothing, as that of [`is_whole`] does.
pub fn is_tidy_whole<S: Shapes>(shapes: &S, id: TypeId, body: &[u8], depth: u64) -> bool
    ensures { IsTrue result → IsTidyWhole (S.table shapes.now) id depth body.now }
{
    is_whole_so::<S, true>(shapes, id, body, depth)
}

/// Where a value of the kind ends that stands in the bytes from the place on, behind its tag where it isn't a struct,
/// no deeper than `depth`. It takes no memory. None says nothing: what is deeper than 1000 may be a value all the same.
#[inline(always)]
pub fn whole_end<S: Shapes>(
    shapes: &S,
    kind: &Kind,
    bytes: &[u8],
    at: usize,
    depth: u64,
) -> Option<usize>
    ensures { IfSome result (λ end. IsWholeBetween (S.table shapes.now) kind.now depth bytes.now at end) }
{
    top_end::<S, false>(shapes, kind, bytes, at, depth)
}

// Whether the bytes are a value of the type, which is its own tidy form where `TIDY` asks for one.
fn is_whole_so<S: Shapes, const TIDY: bool>(shapes: &S, id: TypeId, body: &[u8], depth: u64) -> bool
    ensures { IsTrue result → IsWholeSo (S.table shapes.now) TIDY id depth body.now }
{
    let Some(shape) = shapes.shape_of(id) else {
        return false;
    };
    match top_end::<S, TIDY>(shapes, &shape.kind, body, 0, depth) {
        Some(end) => end == body.len(),
        None => false,
    }
}

// Where a value of the kind ends that stands in the body from the place on, behind its tag where it isn't a struct. The
// fields of a struct are looked at without a call, since most items are small structs.
#[inline(always)]
fn top_end<S: Shapes, const TIDY: bool>(
    shapes: &S,
    kind: &Kind,
    body: &[u8],
    at: usize,
    depth: u64,
) -> Option<usize>
    ensures { IfSome result (λ end. HoldsBetween (BeginsTop (S.table shapes.now) TIDY kind.now depth) body.now at end) }
{
    let most = depth.min(MOST_DEPTH);
    if most == 0 || at >= body.len() {
        return None;
    }
    match kind {
        Kind::Struct { fields } => fields_end::<S, TIDY>(shapes, fields, body, at, most - 1),
        _ if body[at] == 0 => value_end::<S, TIDY>(shapes, kind, body, at + 1, most),
        _ => None,
    }
}

// Where the value of the kind ends that stands in the body from the place on.
#[cycle(whole)]
fn value_end<S: Shapes, const TIDY: bool>(
    shapes: &S,
    kind: &Kind,
    body: &[u8],
    at: usize,
    depth: u64,
) -> Option<usize>
    requires depth { depth ≤ 1000 }
    requires place { at ≤ length body.now }
    ensures { IfSome result (λ end.
        HoldsBetween (BeginsKind (S.table shapes.now) TIDY kind.now depth) body.now at end) }
{
    if depth == 0 {
        return None;
    }
    match kind {
        Kind::Basic(basic) => basic_end(*basic, body, at),
        Kind::Opaque(_) => raw_end(body, at),
        Kind::Struct { fields } => fields_end::<S, TIDY>(shapes, fields, body, at, depth - 1),
        Kind::Slice { elem } => {
            let (count, behind) = number_at(body, at)?;
            elements_end::<S, TIDY>(shapes, *elem, count, body, behind, depth - 1)
        }
        Kind::Array { elem, len } => {
            let (count, behind) = number_at(body, at)?;
            if count != *len {
                return None;
            }
            elements_end::<S, TIDY>(shapes, *elem, count, body, behind, depth - 1)
        }
        Kind::Map { key, elem } => {
            let (count, behind) = number_at(body, at)?;
            pairs_end::<S, TIDY>(shapes, *key, *elem, count, body, behind, depth - 1)
        }
    }
}

// Where the value of the kind ends that begins at the place, without a call where the kind is basic.
#[cycle(whole)]
#[inline(always)]
pub(crate) fn part_end<S: Shapes, const TIDY: bool>(
    shapes: &S,
    kind: &Kind,
    body: &[u8],
    at: usize,
    depth: u64,
) -> Option<usize>
    requires depth { depth ≤ 1000 }
    requires place { at ≤ length body.now }
    ensures { IfSome result (λ end.
        HoldsBetween (BeginsKind (S.table shapes.now) TIDY kind.now depth) body.now at end) }
{
    match kind {
        Kind::Basic(basic) if depth > 0 => basic_end(*basic, body, at),
        _ => value_end::<S, TIDY>(shapes, kind, body, at, depth),
    }
}

// Where so many elements end.
#[cycle(whole)]
#[inline(always)]
fn elements_end<S: Shapes, const TIDY: bool>(
    shapes: &S,
    elem: TypeId,
    count: u64,
    body: &[u8],
    begin: usize,
    depth: u64,
) -> Option<usize>
    requires depth { depth ≤ 1000 }
    requires place { begin ≤ length body.now }
    ensures { IfSome result (λ end.
        HoldsBetween (BeginsEach (S.table shapes.now) TIDY elem depth count) body.now begin end) }
{
    if count == 0 {
        return Some(begin);
    }
    let shape = shapes.shape_of(elem)?;
    match &shape.kind {
        Kind::Basic(basic) if depth > 0 => {
            if are_numbers(*basic) {
                return numbers_end(count, body, begin);
            }
            return basics_end(*basic, count, body, begin);
        }
        _ => {}
    }
    let mut at = begin;
    'elements: for _ in 0..count {
        at = value_end::<S, TIDY>(shapes, &shape.kind, body, at, depth)?;
    }
    Some(at)
}

// Where so many pairs of a key and an element end.
#[cycle(whole)]
#[inline(always)]
fn pairs_end<S: Shapes, const TIDY: bool>(
    shapes: &S,
    key: TypeId,
    elem: TypeId,
    count: u64,
    body: &[u8],
    begin: usize,
    depth: u64,
) -> Option<usize>
    requires depth { depth ≤ 1000 }
    requires place { begin ≤ length body.now }
    ensures { IfSome result (λ end.
        HoldsBetween (BeginsPairs (S.table shapes.now) TIDY key elem depth count) body.now begin end) }
{
    if count == 0 {
        return Some(begin);
    }
    let keys = shapes.shape_of(key)?;
    let elems = shapes.shape_of(elem)?;
    let mut at = begin;
    'pairs: for _ in 0..count {
        let behind = part_end::<S, TIDY>(shapes, &keys.kind, body, at, depth)?;
        at = part_end::<S, TIDY>(shapes, &elems.kind, body, behind, depth)?;
    }
    Some(at)
}

// Where the fields of a struct end.
#[cycle(whole)]
#[inline(always)]
fn fields_end<S: Shapes, const TIDY: bool>(
    shapes: &S,
    types: &Fields,
    body: &[u8],
    begin: usize,
    depth: u64,
) -> Option<usize>
    requires depth { depth ≤ 1000 }
    requires place { begin ≤ length body.now }
    ensures { IfSome result (λ end.
        HoldsBetween (BeginsFields (S.table shapes.now) TIDY types.now 0 depth) body.now begin end) }
{
    let mut next = 0;
    let mut at = begin;
    'fields: loop {
        let (delta, behind) = number_at(body, at)?;
        if delta == 0 {
            return Some(behind);
        }
        let number = field_number(next, delta)?;
        let field = types.get(number)?;
        at = field_end::<S, TIDY>(shapes, field.id, body, behind, depth)?;
        next = number + 1;
    }
}

// Where the value of a field of this type ends, one that a tidy struct keeps. Where the type is basic, it isn't looked
// up.
#[cycle(whole)]
#[inline(always)]
fn field_end<S: Shapes, const TIDY: bool>(
    shapes: &S,
    id: TypeId,
    body: &[u8],
    at: usize,
    depth: u64,
) -> Option<usize>
    requires depth { depth ≤ 1000 }
    requires place { at ≤ length body.now }
    ensures { IfSome result (λ end. HoldsBetween (BeginsField (S.table shapes.now) TIDY id depth) body.now at end) }
{
    match shapes.basic_of(id) {
        Some(basic) if depth > 0 => {
            if TIDY && is_basic_dropped_at(basic, body, at) {
                return None;
            }
            basic_end(basic, body, at)
        }
        _ => {
            let shape = shapes.shape_of(id)?;
            if TIDY && is_dropped_at(&shape.kind, body, at) {
                return None;
            }
            value_end::<S, TIDY>(shapes, &shape.kind, body, at, depth)
        }
    }
}

// Whether a tidy struct drops the value of the kind that stands in the body from the place on.
#[inline(always)]
fn is_dropped_at(kind: &Kind, body: &[u8], at: usize) -> bool
    requires { at ≤ length body.now }
    ensures { result ≡ false → BeginsKept kind.now (drop at body.now) }
{
    match kind {
        Kind::Basic(basic) => is_basic_dropped_at(*basic, body, at),
        Kind::Slice { .. } => is_zero_at(body, at),
        _ => false,
    }
}

// Whether a tidy struct drops the value of the basic type that stands at the place. The spellings of 0, false and
// nothing begin with a byte 0, and no others do.
#[inline(always)]
fn is_basic_dropped_at(basic: Basic, body: &[u8], at: usize) -> bool
    requires { at ≤ length body.now }
    ensures { result ≡ false → BeginsKept (kind.Basic basic) (drop at body.now) }
{
    match basic {
        Basic::Interface => false,
        Basic::Complex => is_zero_at(body, at) && is_zero_at(body, at + 1),
        _ => is_zero_at(body, at),
    }
}

// Whether a byte 0 stands at the place.
#[inline(always)]
fn is_zero_at(body: &[u8], at: usize) -> bool
    ensures { result ≡ false → slice_get body.now at ≢ Some 0 }
{
    matches!(body.get(at), Some(0))
}

// Whether each value of the type is spelled by one number, and each number spells one.
pub(crate) fn are_numbers(basic: Basic) -> bool
    ensures { IsTrue result → HoldsNumbers (kind.Basic basic) }
{
    matches!(basic, Basic::Int | Basic::Uint | Basic::Float)
}

// Where so many values of the basic type end.
#[inline(never)]
fn basics_end(basic: Basic, count: u64, body: &[u8], begin: usize) -> Option<usize>
    requires { begin ≤ length body.now }
    ensures { IfSome result (λ end. (T : Table) (tidy : Bool) (e : TypeId) (s : Shape) → shape_of T e ≡ Some s
        → s.kind ≡ kind.Basic basic → HoldsBetween (BeginsEach T tidy e 1 count) body.now begin end) }
{
    let mut at = begin;
    'basics: for _ in 0..count {
        at = basic_end(basic, body, at)?;
    }
    Some(at)
}

// Where so many numbers end.
fn numbers_end(count: u64, body: &[u8], begin: usize) -> Option<usize>
    requires { begin ≤ length body.now }
    ensures { IfSome result (λ end. (T : Table) (tidy : Bool) (e : TypeId) (s : Shape) → shape_of T e ≡ Some s
        → HoldsNumbers s.kind → HoldsBetween (BeginsEach T tidy e 1 count) body.now begin end) }
{
    uints_end(body, begin, count)
}

// Where the value of the basic type ends.
#[inline(always)]
fn basic_end(basic: Basic, body: &[u8], at: usize) -> Option<usize>
    requires { at ≤ length body.now }
    ensures { IfSome result (λ end.
        (T : Table) (tidy : Bool) → HoldsBetween (BeginsKind T tidy (kind.Basic basic) 1) body.now at end) }
{
    match basic {
        Basic::Int | Basic::Uint | Basic::Float => number_end(body, at),
        Basic::Bytes | Basic::Str => raw_end(body, at),
        Basic::Bool => {
            let (n, end) = number_at(body, at)?;
            if n > 1 { None } else { Some(end) }
        }
        Basic::Interface => {
            let (n, end) = number_at(body, at)?;
            if n > 0 { None } else { Some(end) }
        }
        Basic::Complex => {
            let behind = number_end(body, at)?;
            number_end(body, behind)
        }
    }
}

// Where a count and so many bytes end.
#[inline(always)]
fn raw_end(body: &[u8], at: usize) -> Option<usize>
    requires { at ≤ length body.now }
    ensures { IfSome result (λ end. HoldsBetween BeginsRaw body.now at end) }
{
    let (count, behind) = number_at(body, at)?;
    if count > (body.len() - behind) as u64 {
        return None;
    }
    Some(behind + count as usize)
}
