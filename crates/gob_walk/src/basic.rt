//! Values without parts that stand in a body.

ghost use Rattle.std.specs.Prelude.{◌≡◌, ◌≤◌, ℕ, List, IfOk, Some, drop, false, length};
ghost use Rattle.gob_types.specs.declared.id.TypeId.{TypeId};
ghost use Rattle.gob_types.specs.declared.kind.Kind.TheVariants as kind;
ghost use Rattle.gob_types.specs.declared.kind.Marshal.{Marshal};
ghost use Rattle.gob_types.specs.Table.{Table, shape_of};
ghost use Rattle.gob_value.specs.Tree.{Tree};
ghost use Rattle.gob_value.specs.Machine.Begins.{BeginsKind};
ghost use Rattle.gob_walk.specs.Standing.{EndsAt, HoldsKind};
ghost use Rattle.gob_walk.specs.Event.{value_told};
ghost use Rattle.gob_walk.specs.Told.{Reaches, Sends};

use crate::number::{bytes_at, number_at};
use crate::visitor::Visitor;
use crate::walk_end::{WalkEnd, closed};
use gob_num::{to_pattern, to_signed};
use gob_types::{Basic, Shape};

/// Tells of the value of the basic type that stands in the body from the place on, and where it ends.
// basic: number | number number | count bytes
#[inline(always)]
pub fn walk_basic<V: Visitor, const KNOWN: bool>(
    basic: Basic,
    body: &[u8],
    at: usize,
    out: &mut V,
) -> Result<usize, WalkEnd<V::Fault>>
    requires { at ≤ length body.now }
    ensures sent { (T : Table) (t : TypeId) (v : Tree) (rest : List ℕ)
        → HoldsKind T (kind.Basic basic) v (drop at body.now) rest
        → Sends (Reaches V.tells) out.old out.new (value_told T t v) body.now rest result }
    ensures stands { IfOk result (λ end.
        (T : Table) → EndsAt KNOWN (BeginsKind T false (kind.Basic basic) 1) body.now at end) }
{
    let Some((number, behind)) = number_at::<KNOWN>(body, at) else {
        return Err(WalkEnd::NotWhole);
    };
    match basic {
        Basic::Bool => {
            if number > 1 {
                return Err(WalkEnd::NotWhole);
            }
            closed(out.truth(number == 1), behind)
        }
        Basic::Int => closed(out.int(to_signed(number)), behind),
        Basic::Uint => closed(out.uint(number), behind),
        Basic::Float => closed(out.float(to_pattern(number)), behind),
        Basic::Bytes => {
            let Some((bytes, end)) = bytes_at(number, body, behind) else {
                return Err(WalkEnd::NotWhole);
            };
            closed(out.bytes(bytes), end)
        }
        Basic::Str => {
            let Some((bytes, end)) = bytes_at(number, body, behind) else {
                return Err(WalkEnd::NotWhole);
            };
            closed(out.text(bytes), end)
        }
        Basic::Complex => {
            let Some((imaginary, end)) = number_at::<KNOWN>(body, behind) else {
                return Err(WalkEnd::NotWhole);
            };
            closed(out.complex(to_pattern(number), to_pattern(imaginary)), end)
        }
        Basic::Interface => {
            if number > 0 {
                return Err(WalkEnd::NotWhole);
            }
            closed(out.nil(), behind)
        }
    }
}

/// Tells of the opaque value of a type of this shape that stands in the body from the place on, and where it ends.
// opaque: count bytes
pub fn walk_raw<V: Visitor, const KNOWN: bool>(
    shape: &Shape,
    body: &[u8],
    at: usize,
    out: &mut V,
) -> Result<usize, WalkEnd<V::Fault>>
    requires { at ≤ length body.now }
    ensures sent { (T : Table) (t : TypeId) (m : Marshal) (v : Tree) (rest : List ℕ)
        → shape_of T t ≡ Some shape.now → HoldsKind T (kind.Opaque m) v (drop at body.now) rest
        → Sends (Reaches V.tells) out.old out.new (value_told T t v) body.now rest result }
    ensures stands { IfOk result (λ end. (T : Table) (m : Marshal)
        → EndsAt KNOWN (BeginsKind T false (kind.Opaque m) 1) body.now at end) }
{
    let Some((count, begin)) = number_at::<KNOWN>(body, at) else {
        return Err(WalkEnd::NotWhole);
    };
    let Some((bytes, end)) = bytes_at(count, body, begin) else {
        return Err(WalkEnd::NotWhole);
    };
    closed(out.raw(shape, bytes), end)
}
