//! Parts of a body: copies of them, and what stands before them.

ghost use Rattle.std.specs.Prelude.{◌≡◌, ◌≢◌, ◌+◌, ◌≤◌, ◌++◌, ◌∷◌, [], IfSome, IsTrue, None, Some, false, length};
ghost use Rattle.std.specs.Prelude.{slice_get};
ghost use Rattle.gob_num.specs.Spelled.{Appends};
ghost use Rattle.gob_num.specs.Unsigned.{IsUnsigned};
ghost use Rattle.gob_value.specs.Machine.Begins.{HoldsBetween};
ghost use Rattle.gob_tidy.specs.Machine.Tidying.{BeginsZero, CopiesEach, CopiesNumber, PutsPlace};

use gob_num::write_uint;
use gob_types::{Shapes, TypeId};
use gob_value::{number_at, whole_elements};
use std::alloc::Global;

/// Where a part may stand: at a place of the bytes, no deeper than this.
#[derive(Clone, Copy)]
pub(crate) struct Part<'a> {
    pub(crate) body: &'a [u8],
    /// The places of the nils that are asked for, in their order.
    pub(crate) nils: &'a [u64],
    pub(crate) at: usize,
    pub(crate) depth: u64,
}

/// A tidy form under way.
pub(crate) struct Form {
    pub(crate) bytes: Vec<u8>,
    /// Where those of the nils stand in it that are asked for.
    pub(crate) places: Vec<u64>,
}

/// Appends the place of a nil, if it is the next one that is asked for.
pub(crate) fn put_place(part: Part<'_>, form: &mut Form) -> Option<()>
    ensures { IfSome result (λ _. PutsPlace part.entry.nils.now part.entry.at form.old form.new) }
{
    if is_asked(part, form.places.len()) {
        form.places.push(form.bytes.len() as u64).ok()?;
    }
    Some(())
}

// Whether the part is the nil of this number that is asked for.
fn is_asked(part: Part<'_>, number: usize) -> bool
    ensures { IsTrue result → slice_get part.entry.nils.now number ≡ Some part.entry.at }
{
    match part.nils.get(number) {
        Some(place) => *place == part.at as u64,
        None => false,
    }
}

/// Copies so many values of the type that stand there, and tells where they end.
pub(crate) fn copy_each<S: Shapes>(
    shapes: &S,
    id: TypeId,
    count: u64,
    part: Part<'_>,
    out: &mut Vec<u8>,
) -> Option<usize>
    requires { part.at ≤ length part.body.now }
    ensures { IfSome result (λ end.
        CopiesEach (S.table shapes.now) id part.entry.depth count part.entry.body.now part.entry.at end
        out.old.items out.new.items) }
{
    let found = whole_elements(shapes, id, count, &part.body[part.at..], part.depth);
    if found.count < count {
        return None;
    }
    let end = part.at + found.end;
    out.extend_from_slice(&part.body[part.at..end]).ok()?;
    Some(end)
}

/// Copies the number that stands there, and tells it and where it ends.
pub(crate) fn copy_number(alloc: Global, part: Part<'_>, out: &mut Vec<u8>) -> Option<(u64, usize)>
    ensures { IfSome result (λ found. HoldsBetween (CopiesNumber found.0 out.old.items out.new.items)
        part.entry.body.now part.entry.at found.1) }
{
    let (number, end) = number_at(part.body, part.at)?;
    put_number(alloc, number, out)?;
    Some((number, end))
}

/// Where a byte 0 ends that stands at the place.
pub(crate) fn zero_end(body: &[u8], at: usize) -> Option<usize>
    ensures stands { IfSome result (λ end. HoldsBetween BeginsZero body.now at end) }
    ensures onward { IfSome result (λ end. end ≡ at + 1) }
    ensures none { result ≡ None → slice_get body.now at ≢ Some 0 }
{
    if !is_zero_at(body, at) {
        return None;
    }
    Some(at + 1)
}

// Whether a byte 0 stands at the place.
fn is_zero_at(body: &[u8], at: usize) -> bool
    ensures zero { IsTrue result → slice_get body.now at ≡ Some 0 }
    ensures other { result ≡ false → slice_get body.now at ≢ Some 0 }
{
    matches!(body.get(at), Some(0))
}

/// Appends the tag of a value that isn't a struct.
pub(crate) fn put_tag(out: &mut Vec<u8>) -> Option<()>
    ensures { IfSome result (λ _. out.new.items ≡ out.old.items ++ 0 ∷ []) }
{
    out.push(0).ok()
}

/// Appends a number.
pub(crate) fn put_number(alloc: Global, number: u64, out: &mut Vec<u8>) -> Option<()>
    ensures { IfSome result (λ _. Appends (IsUnsigned number) out.old.items out.new.items) }
{
    write_uint(alloc, number, out).ok()
}
