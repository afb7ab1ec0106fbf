//! The path of a place in a value.

ghost use Rattle.std.specs.Prelude.{◌≤◌, IfOk};
ghost use Rattle.gob_types.specs.Defined.{types};
ghost use Rattle.gob_explain.specs.Body.{IsPathTo};

use crate::body::walk_body;
use crate::row::{PartStep, Row};
use crate::sink::RowSink;
use gob_num::Memory;
use gob_stream::Limits;
use gob_types::{Table, TypeId};
use std::alloc::Global;

// The steps to the part at hand.
#[derive(Drop)]
struct Path {
    steps: Vec<PartStep>,
}

impl RowSink for Path {
    ghost use Rattle.std.specs.Prelude.{◌≡◌, OnOk};

    type Fault = Memory;

    ghost tells = { λ old new rows result. old.0.steps.items ≡ old.1 → OnOk result (new.0.steps.items ≡ new.1) };

    fn put(&mut self, _: Row) -> Result<(), Memory> {
        Ok(())
    }

    fn enter(&mut self, step: PartStep) -> Result<(), Memory> {
        Ok(self.steps.push(step)?)
    }

    fn leave(&mut self) {
        self.steps.pop();
    }

    ghost nothing = { λ a is. is };

    ghost joined = { λ a b c x y r p q is. q (p is) };
}

/// The steps from a value to the part that is under way where these bytes end, or to the one that is too deep there,
/// also in what an interface holds. `id` is the value's type, and `front` the bytes of its body behind the type number,
/// up to the place that is asked for. Parts deeper than 1000 aren't looked at.
pub fn path_to(
    alloc: Global,
    table: &Table,
    id: TypeId,
    front: &[u8],
) -> Result<Vec<PartStep>, Memory>
    ensures { IfOk result (λ path. IsPathTo (types table.now) id front.now path.items) }
{
    let mut path = Path {
        steps: Vec::new(alloc),
    };
    walk_body(table, id, front, Limits::GREATEST_DEPTH, &mut path)?;
    let Path { steps } = path;
    Ok(steps)
}
