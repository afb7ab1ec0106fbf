//! Whether values of a type can be read: whether each type that it leads to is defined and has finite values.
ghost use Rattle.std.specs.Prelude.{◌≡◌, ◌≤◌, ◌⊎◌, IfOk, OnOk, IfSome, Some, None, Contains, MatchResult};
ghost use Rattle.gob_types.specs.declared.id.TypeId.{TypeId};
ghost use Rattle.gob_types.specs.Table.{shape_of, IsDefined};
ghost use Rattle.gob_types.specs.Defined.{types, IsTable};
ghost use Rattle.gob_types.specs.Ready.{Names, HasFieldOf, IsGrounded, IsReady};
ghost use Rattle.gob_types.specs.Readiness.{IsNotReady, IsAllDefined};
ghost use Rattle.gob_types.specs.Machine.Walk.{AddsAll, IsReach, IsFilledOf, IsLeastBad};
ghost use Rattle.gob_types.specs.Machine.Kept.{AreNamedBy};

use crate::definitions::Definitions;
use crate::grounds::Grounds;
use crate::id::TypeId;
use crate::kind::{Field, Kind};
use crate::shapes::Shapes;
use crate::type_set::TypeSet;
use gob_num::Memory;
use std::alloc::Global;

/// Why a type isn't ready.
#[derive(Clone, Copy, Debug, PartialEq, Eq)]
pub enum NotReady {
    /// This is the least id that the type leads to and that isn't defined.
    UndefinedType(TypeId),
    /// All that the type leads to is defined, and this is the least id there that has no finite value: an
    /// array that holds something, whose elements are arrays that hold something, and so on without an end.
    Bottomless(TypeId),
    /// The allocator refused to let something grow, and nothing is known of the type.
    Memory,
}

impl From<Memory> for NotReady {
    ghost use Rattle.std.specs.Prelude.{◌≡◌};
    ghost use Rattle.gob_types.specs.declared.readiness.NotReady.TheVariants as fault;

    ghost from_gives = { λ _ given. given ≡ fault.Memory };

    fn from(_: Memory) -> NotReady {
        NotReady::Memory
    }
}

impl Definitions {
    /// Whether values of the type can be read: each type that it leads to, itself among them, is defined and
    /// has finite values. It speaks of the table alone, so type 24 is ready, though no stream may name it.
    ///
    /// What isn't defined is answered before what has no finite value, and of several ids the least. The time
    /// is linear in the types that are reached and in what their shapes name.
    pub(crate) fn ready(&self, alloc: Global, id: TypeId) -> Result<(), NotReady>
        ensures judged { let T = types self.now in
            MatchResult result (λ _. IsReady T id) (λ fault. IsNotReady T id fault) }
        ensures known { IsTable (types self.now) }
    {
        self.learn();
        let met = reached(self, alloc, id)?;
        if let Some(undefined) = least_undefined(self, &met) {
            return Err(NotReady::UndefinedType(undefined));
        }
        if let Some(bottomless) = least_bottomless(self, alloc, &met)? {
            return Err(NotReady::Bottomless(bottomless));
        }
        Ok(())
    }
}

// The types that this type leads to, itself among them. Each is looked up once: the ids that were met are the
// work list too, and `next` is the first of them whose shape wasn't looked at.
fn reached(table: &Definitions, alloc: Global, id: TypeId) -> Result<TypeSet, Memory>
    ensures { IfOk result (λ met. IsReach (types table.now) id met) }
{
    let mut met = TypeSet::new(alloc);
    met.add(id)?;
    let mut next = 0;
    while next < met.count() {
        let id = met.as_slice()[next];
        next += 1;
        let Some(shape) = table.shape_of(id) else {
            continue;
        };
        add_names(&mut met, &shape.kind)?;
    }
    Ok(met)
}

/// The types that the type's shape names.
pub(crate) fn names_of(table: &Definitions, alloc: Global, id: TypeId) -> Result<TypeSet, Memory>
    ensures { IfOk result (λ names. AreNamedBy (types table.now) id names) }
{
    let mut names = TypeSet::new(alloc);
    let Some(shape) = table.shape_of(id) else {
        return Ok(names);
    };
    add_names(&mut names, &shape.kind)?;
    Ok(names)
}

// Adds the types that a kind names.
pub(crate) fn add_names(met: &mut TypeSet, kind: &Kind) -> Result<(), Memory>
    ensures { OnOk result (AddsAll met.old met.new (Names kind.now)) }
{
    match kind {
        Kind::Array { elem, .. } => met.add_all(&[*elem]),
        Kind::Slice { elem } => met.add_all(&[*elem]),
        Kind::Map { key, elem } => met.add_all(&[*key, *elem]),
        Kind::Struct { fields } => add_field_types(met, fields.as_slice()),
        Kind::Basic(_) | Kind::Opaque(_) => Ok(()),
    }
}

// Adds the types of fields.
fn add_field_types(met: &mut TypeSet, fields: &[Field]) -> Result<(), Memory>
    ensures { OnOk result (AddsAll met.old met.new (HasFieldOf fields.now)) }
{
    for field in fields {
        met.add(field.id)?;
    }
    Ok(())
}

// The least of the ids that isn't defined.
pub(crate) fn least_undefined(table: &Definitions, met: &TypeSet) -> Option<TypeId>
    ensures { let T = types table.now in
        IsLeastBad (IsDefined T) (λ u. shape_of T u ≡ None) met.now result }
{
    let mut least = None;
    for id in met.as_slice() {
        if table.shape_of(*id).is_some() {
            continue;
        }
        least = Some(lesser(least, *id));
    }
    least
}

// The least of the ids that has no finite value.
fn least_bottomless(
    table: &Definitions,
    alloc: Global,
    met: &TypeSet,
) -> Result<Option<TypeId>, Memory>
    requires { (u : TypeId) → Contains met.now u → IsAllDefined (types table.now) u }
    ensures { let T = types table.now in
        IfOk result (λ least. IsLeastBad (IsGrounded T) (λ u. ¬ IsGrounded T u) met.now least) }
{
    let mut grounds = Grounds::new(alloc);
    let mut least = None;
    for id in met.as_slice() {
        if grounds.judge(table, alloc, *id)? {
            continue;
        }
        least = Some(lesser(least, *id));
    }
    Ok(least)
}

// The lesser of two ids, where there is a first one.
fn lesser(least: Option<TypeId>, id: TypeId) -> TypeId
    ensures either { (result ≡ id) ⊎ (least ≡ Some result) }
    ensures below { result.0 ≤ id.0 }
    ensures below_least { IfSome least (λ l. result.0 ≤ l.0) }
{
    match least {
        Some(other) if other.0 < id.0 => other,
        _ => id,
    }
}
