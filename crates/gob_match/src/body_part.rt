//! Parts of a body: where they end, copies of them, and what stands before them.

ghost use Rattle.std.specs.Prelude.{◌≡◌, ◌+◌, ◌-◌, ◌≤◌, ◌++◌, ◌∷◌, [], IfSome, IsTrue, Some, length, slice_get};
ghost use Rattle.gob_num.specs.Spelled.{Appends};
ghost use Rattle.gob_num.specs.Unsigned.{IsUnsigned};
ghost use Rattle.gob_match.specs.Machine.ReceivingWhole.{CopiesEach, StandsEach};

use gob_num::write_uint;
use gob_types::{Shapes, TypeId};
use gob_value::whole_elements;
use std::alloc::Global;

/// Where a part may stand: at a place of the bytes, no deeper than this, and with so many structs of another order than
/// the wanted ones in one another.
#[derive(Clone, Copy)]
pub(crate) struct Part<'a> {
    pub(crate) body: &'a [u8],
    pub(crate) at: usize,
    pub(crate) depth: u64,
    pub(crate) turns: u64,
}

/// Whether the body begins with a tag.
pub(crate) fn is_tagged(body: &[u8]) -> bool
    ensures { IsTrue result → slice_get body.now 0 ≡ Some 0 }
{
    matches!(body.get(0), Some(0))
}

/// Copies so many values of the type that stand there, and tells where they end.
pub(crate) fn copy_each<S: Shapes>(
    stream: &S,
    id: TypeId,
    count: u64,
    part: Part<'_>,
    out: &mut Vec<u8>,
) -> Option<usize>
    requires { part.at ≤ length part.body.now }
    ensures { IfSome result (λ end.
        CopiesEach (S.table stream.now) id part.entry.depth count part.entry.body.now part.entry.at end
        out.old.items out.new.items) }
{
    let end = each_end(stream, id, count, part)?;
    out.extend_from_slice(&part.body[part.at..end]).ok()?;
    Some(end)
}

/// Where so many values of the type end that stand there.
pub(crate) fn each_end<S: Shapes>(
    stream: &S,
    id: TypeId,
    count: u64,
    part: Part<'_>,
) -> Option<usize>
    requires { part.at ≤ length part.body.now }
    ensures { IfSome result (λ end.
        StandsEach (S.table stream.now) id part.entry.depth count part.entry.body.now part.entry.at end) }
{
    let found = whole_elements(stream, id, count, &part.body[part.at..], part.depth);
    if found.count < count {
        return None;
    }
    Some(part.at + found.end)
}

/// Appends the tag of a value that isn't a struct.
pub(crate) fn put_tag(out: &mut Vec<u8>) -> Option<()>
    ensures { IfSome result (λ _. out.new.items ≡ out.old.items ++ 0 ∷ []) }
{
    out.push(0).ok()
}

/// Appends by how much a field's number is above that of the field before, which counts as one less than this.
pub(crate) fn put_delta(alloc: Global, next: u64, number: usize, out: &mut Vec<u8>) -> Option<()>
    ensures { IfSome result (λ _. (next ≤ number)
        × Appends (IsUnsigned (number + 1 - next)) out.old.items out.new.items) }
{
    let delta = (number as u64).checked_sub(next)?.checked_add(1)?;
    put_number(alloc, delta, out)
}

/// Appends a number.
pub(crate) fn put_number(alloc: Global, number: u64, out: &mut Vec<u8>) -> Option<()>
    ensures { IfSome result (λ _. Appends (IsUnsigned number) out.old.items out.new.items) }
{
    write_uint(alloc, number, out).ok()
}
