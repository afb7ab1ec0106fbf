//! How many whole elements of a list, or entries of a map, stand at the front of bytes. Nothing is kept of them, and no
//! memory is taken.

ghost use Rattle.std.specs.Prelude.{◌≡◌, ◌≤◌, length};
ghost use Rattle.gob_types.specs.Table.{Table, shape_of};
ghost use Rattle.gob_types.specs.declared.id.TypeId.{TypeId};
ghost use Rattle.gob_types.specs.declared.kind.Shape.{Shape};
ghost use Rattle.gob_value.specs.Machine.Begins.{HoldsNumbers};
ghost use Rattle.gob_value.specs.WholeParts.{HasElements, HasEntries};

use crate::number::number_end;
use crate::whole::{MOST_DEPTH, are_numbers, part_end};
use gob_types::{Kind, Shapes, TypeId};

/// What stands whole at the front of bytes.
#[derive(Clone, Copy, Debug, PartialEq, Eq)]
pub struct WholeParts {
    /// How many elements, or entries.
    pub count: u64,
    /// How many bytes they have.
    pub end: usize,
}

impl WholeParts {
    // Nothing.
    const NONE: WholeParts = WholeParts { count: 0, end: 0 };
}

/// How many elements of the type stand whole at the front of the bytes, no more than `most` and each no deeper than
/// `depth`. It takes no memory. Behind them another may stand whole all the same: it stops at one that is deeper than
/// 1000.
pub fn whole_elements<S: Shapes>(
    shapes: &S,
    elem: TypeId,
    most: u64,
    bytes: &[u8],
    depth: u64,
) -> WholeParts
    ensures few { result.count ≤ most }
    ensures whole { HasElements (S.table shapes.now) elem depth result.count bytes.now result.end }
{
    let Some(shape) = shapes.shape_of(elem) else {
        return WholeParts::NONE;
    };
    match &shape.kind {
        Kind::Basic(basic) if depth > 0 && are_numbers(*basic) => {
            return whole_numbers(most, bytes);
        }
        _ => {}
    }
    let depth = depth.min(MOST_DEPTH);
    let mut found = WholeParts::NONE;
    'elements: for _ in 0..most {
        let Some(end) = part_end::<S, false>(shapes, &shape.kind, bytes, found.end, depth) else {
            return found;
        };
        found = WholeParts {
            count: found.count + 1,
            end,
        };
    }
    found
}

/// How many entries of a map stand whole there, each a key of the one type and an element of the other.
pub fn whole_entries<S: Shapes>(
    shapes: &S,
    key: TypeId,
    elem: TypeId,
    most: u64,
    bytes: &[u8],
    depth: u64,
) -> WholeParts
    ensures few { result.count ≤ most }
    ensures whole { HasEntries (S.table shapes.now) key elem depth result.count bytes.now result.end }
{
    let Some(keys) = shapes.shape_of(key) else {
        return WholeParts::NONE;
    };
    let Some(elems) = shapes.shape_of(elem) else {
        return WholeParts::NONE;
    };
    let depth = depth.min(MOST_DEPTH);
    let mut found = WholeParts::NONE;
    'entries: for _ in 0..most {
        let Some(behind) = part_end::<S, false>(shapes, &keys.kind, bytes, found.end, depth) else {
            return found;
        };
        let Some(end) = part_end::<S, false>(shapes, &elems.kind, bytes, behind, depth) else {
            return found;
        };
        found = WholeParts {
            count: found.count + 1,
            end,
        };
    }
    found
}

// How many numbers stand whole there.
#[inline(never)]
fn whole_numbers(most: u64, bytes: &[u8]) -> WholeParts
    ensures few { result.count ≤ most }
    ensures whole { (T : Table) (e : TypeId) (s : Shape) → shape_of T e ≡ Some s → HoldsNumbers s.kind
        → HasElements T e 1 result.count bytes.now result.end }
{
    let mut found = WholeParts::NONE;
    'numbers: for _ in 0..most {
        let Some(end) = number_end(bytes, found.end) else {
            return found;
        };
        found = WholeParts {
            count: found.count + 1,
            end,
        };
    }
    found
}
