//! The walk over a body that is one whole value.

ghost use Rattle.std.specs.Prelude.{◌≡◌, ◌≢◌, ◌≤◌, None, Some, IfSome, OnOk, false, length, slice_get};
ghost use Rattle.gob_value.specs.Top.{IsStruct, SpellsTop};
ghost use Rattle.gob_value.specs.Tree.{Tree, depth as DepthOf};
ghost use Rattle.gob_value.specs.Whole.{IsWhole};
ghost use Rattle.gob_walk.specs.Event.{value_told};
ghost use Rattle.gob_walk.specs.Standing.{IsBehindTag};
ghost use Rattle.gob_walk.specs.Told.{Reaches};

use crate::visitor::Visitor;
use crate::walk::walk_value;
use crate::walk_end::WalkEnd;
use gob_types::{Kind, Shapes, TypeId};

/// Tells of the value of the type that the body spells, behind its tag where it isn't a struct. It may be known that
/// the body spells one no deeper than `depth`; else it is looked at whether it does, and Ok says so.
pub fn walk_whole<S: Shapes, V: Visitor, const KNOWN: bool>(
    shapes: &S,
    id: TypeId,
    body: &[u8],
    depth: u64,
    out: &mut V,
) -> Result<(), WalkEnd<V::Fault>>
    requires { depth ≤ 1000 }
    ensures sent { (v : Tree) → SpellsTop (S.table shapes.now) id v body.now → DepthOf v ≤ depth
        → Reaches V.tells out.old out.new (value_told (S.table shapes.now) id v) result }
    ensures whole { KNOWN ≡ false → OnOk result (IsWhole (S.table shapes.now) id depth body.now) }
{
    let Some(shape) = shapes.shape_of(id) else {
        return Err(WalkEnd::NotWhole);
    };
    let Some(begin) = behind_tag(&shape.kind, body) else {
        return Err(WalkEnd::NotWhole);
    };
    let made = V::heads(&shape.kind, 1, KNOWN);
    let heads = made.as_ref();
    let end = walk_value::<S, V, KNOWN>(shapes, shape, heads, body, begin, depth, out)?;
    if end != body.len() {
        return Err(WalkEnd::NotWhole);
    }
    Ok(())
}

// Where the value begins: behind the tag, which a struct doesn't have. None says that the tag isn't there.
// item: struct | 0 value
fn behind_tag(kind: &Kind, body: &[u8]) -> Option<usize>
    ensures begins { IfSome result (λ begin. IsBehindTag kind.now body.now begin) }
    ensures inside { IfSome result (λ begin. begin ≤ length body.now) }
    ensures none { result ≡ None → (¬ IsStruct kind.now) × (slice_get body.now 0 ≢ Some 0) }
{
    match kind {
        Kind::Struct { .. } => Some(0),
        _ => match body.first() {
            Some(0) => Some(1),
            _ => None,
        },
    }
}
