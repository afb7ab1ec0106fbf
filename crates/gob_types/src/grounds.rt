//! Which types have finite values.
//!
//! Only arrays that hold something can have none: such an array has a finite value if its elements have. So
//! from a type there is one way on, through the elements of arrays, and it ends at a type that is no such
//! array, or goes round for ever. What is found of a type is found of all on the way to it, and is kept.
ghost use Rattle.std.specs.Prelude.{◌≡◌, ◌<◌, ℕ, [], IfOk, OnOk, MatchBool, MatchOption};
ghost use Rattle.gob_types.specs.Table.{IsDefined};
ghost use Rattle.gob_types.specs.Defined.{types};
ghost use Rattle.gob_types.specs.Ready.{IsGrounded, IsFilledArray};
ghost use Rattle.gob_types.specs.Readiness.{IsAllDefined};
ghost use Rattle.gob_types.specs.Machine.Walk.{IsFilledOf, KnowsGrounds, EndsWell, WalksOn};

use crate::definitions::Definitions;
use crate::id::TypeId;
use crate::kind::Kind;
use crate::shapes::Shapes;
use crate::type_set::TypeSet;
use gob_num::Memory;
use std::alloc::Global;

/// What has been found of the types of one table.
pub(crate) struct Grounds {
    // These have finite values.
    grounded: TypeSet,
    // These have none.
    bottomless: TypeSet,
}

// Not derived, so that a drop is one call in the proofs of what owns one.
impl Drop for Grounds {
    fn drop(self) {
        let Grounds {
            grounded: _,
            bottomless: _,
        } = self;
    }
}

impl Grounds {
    /// Nothing is known yet.
    pub(crate) fn new(alloc: Global) -> Grounds
        ensures grounded { result.grounded ≡ [] }
        ensures bottomless { result.bottomless ≡ [] }
    {
        Grounds {
            grounded: TypeSet::new(alloc),
            bottomless: TypeSet::new(alloc),
        }
    }

    /// These have finite values.
    pub(crate) fn of(alloc: Global, grounded: TypeSet) -> Grounds
        ensures grounded { result.grounded ≡ grounded }
        ensures bottomless { result.bottomless ≡ [] }
    {
        Grounds {
            grounded,
            bottomless: TypeSet::new(alloc),
        }
    }

    /// Whether the type has finite values. All that it leads to has to be defined.
    pub(crate) fn judge(
        &mut self,
        table: &Definitions,
        alloc: Global,
        id: TypeId,
    ) -> Result<bool, Memory>
        requires complete { IsAllDefined (types table.now) id }
        requires known { KnowsGrounds (types table.now) self.old.grounded self.old.bottomless }
        ensures judged { let T = types table.now in
            IfOk result (λ yes. MatchBool yes (IsGrounded T id) (¬ IsGrounded T id)) }
        ensures known { OnOk result (KnowsGrounds (types table.now) self.new.grounded self.new.bottomless) }
    {
        let mut way = TypeSet::new(alloc);
        if self.follow(table, id, &mut way)? {
            self.grounded.add_all(way.as_slice())?;
            return Ok(true);
        }
        self.bottomless.add_all(way.as_slice())?;
        Ok(false)
    }

    // Follows the elements of arrays from this type on until the answer is known. It gives the types on the
    // way, of which nothing was known, and whether they have finite values.
    fn follow(&self, table: &Definitions, id: TypeId, way: &mut TypeSet) -> Result<bool, Memory>
        requires complete { IsAllDefined (types table.now) id }
        requires known { KnowsGrounds (types table.now) self.now.grounded self.now.bottomless }
        requires new { way.old ≡ [] }
        ensures { let T = types table.now in
            IfOk result (λ yes. MatchBool yes (EndsWell T id way.new) (WalksOn T id self.now.bottomless way.new)) }
    {
        let mut at = id;
        while !self.grounded.contains(at) {
            if self.bottomless.contains(at) {
                return Ok(false);
            }
            if !way.add(at)? {
                return Ok(false);
            }
            let Some(elem) = filled_element(table, at) else {
                return Ok(true);
            };
            at = elem;
        }
        Ok(true)
    }
}

// The type of the elements, where this type is an array that holds some.
fn filled_element(table: &Definitions, id: TypeId) -> Option<TypeId>
    ensures { let T = types table.now in
        MatchOption result (IsDefined T id → IsGrounded T id) (λ e. IsFilledOf T id e) }
{
    let shape = table.shape_of(id)?;
    element_of_filled(&shape.kind)
}

// The type of the elements of an array that holds some.
fn element_of_filled(kind: &Kind) -> Option<TypeId>
    ensures { MatchOption result (¬ IsFilledArray kind.now)
        (λ e. (n : ℕ) × (kind.now ≡ Kind.Array e n) × (0 < n)) }
{
    match kind {
        Kind::Array { elem, len } if *len > 0 => Some(*elem),
        _ => None,
    }
}
