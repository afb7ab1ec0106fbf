//! What a type reaches past the types that are known to be ready.
ghost use Rattle.std.specs.Prelude.{◌≡◌, [], None, IfOk, MatchOption};
ghost use Rattle.gob_types.specs.Table.{shape_of};
ghost use Rattle.gob_types.specs.Defined.{types};
ghost use Rattle.gob_types.specs.Ready.{Reaches};
ghost use Rattle.gob_types.specs.Machine.Kept.{MetPast};

use crate::definitions::Definitions;
use crate::id::TypeId;
use crate::readiness::add_names;
use crate::shapes::Shapes;
use crate::type_set::TypeSet;
use gob_num::Memory;

/// Meets the types that this type leads to, itself among them, where no step leads on from a known one. It ends early
/// at one that isn't defined, and answers it.
pub(crate) fn reached_past(
    table: &Definitions,
    known: &TypeSet,
    id: TypeId,
    met: &mut TypeSet,
) -> Result<Option<TypeId>, Memory>
    requires { met.old ≡ [] }
    ensures { let T = types table.now in
        IfOk result (λ missing. MatchOption missing (MetPast T known.now id met.new)
        (λ m. Reaches T id m × (shape_of T m ≡ None))) }
{
    met.add(id)?;
    let mut next = 0;
    while next < met.count() {
        let at = met.as_slice()[next];
        next += 1;
        if known.contains(at) {
            continue;
        }
        let Some(shape) = table.shape_of(at) else {
            return Ok(Some(at));
        };
        add_names(met, &shape.kind)?;
    }
    Ok(None)
}
