//! What stands where two types clash.

ghost use Rattle.std.specs.Prelude.{◌≡◌, Bool, MatchOption, Some};
ghost use Rattle.gob_types.specs.Defined.{types};
ghost use Rattle.gob_types.specs.Table.{shape_of};
ghost use Rattle.gob_types.specs.declared.kind.Shape.{Shape};
ghost use Rattle.gob_match.specs.Clashing.{LeadsBySteps};
ghost use Rattle.gob_match.specs.Faults.{IsMatchFault};
ghost use Rattle.gob_match.specs.Matching.{HasMatchingShapes, NamesByStep};
ghost use Rattle.gob_match.specs.Pairs.{HasFieldNamed, HasName};
ghost use Rattle.gob_match.specs.declared.pair.TypePair.{TypePair as Pair};
ghost use Rattle.gob_filled.specs.Filled as spelled;
ghost use Rattle.gob_convert.specs.Kinds.{value_kind};
ghost use Rattle.gob_convert.specs.Machine.Clashing.{IsBehind};
ghost use Rattle.gob_convert.specs.Machine.Converting.{IsNumbered, IsPutStop, StopsAt};

use crate::clash::{Clash, ValueKind};
use crate::fault::ConvertFault;
use crate::wanted::Target;
use gob_match::{MatchFault, TypePair, TypeStep};
use gob_tool::ToolFault;
use gob_types::{Field, Kind, Shapes, Table, TypeId};

/// What stops a conversion at the value of this number and type, where this is why it isn't matched.
pub(crate) fn unmatched(
    fault: MatchFault,
    number: u64,
    table: &Table,
    id: TypeId,
    target: &Target,
) -> ConvertFault
    requires { IsMatchFault (types table.now) (types target.now.table) id target.now.id fault }
    ensures stops { (all : Bool) (w : spelled.Filled)
        → StopsAt all (types table.now) (types target.now.table) id target.now.id w result }
    ensures stop { IsPutStop result }
    ensures number { IsNumbered number result }
{
    match fault {
        MatchFault::Memory => ConvertFault::Run(ToolFault::Memory),
        MatchFault::Clash { path, reason } => {
            let start = TypePair {
                stream: id,
                wanted: target.id,
            };
            let pair = pair_at(table, &target.table, start, &path);
            ConvertFault::Clash(Clash {
                path,
                reason,
                value: number,
                stream: kind_of(table, pair.stream),
                wanted: kind_of(&target.table, pair.wanted),
            })
        }
    }
}

// The pair of types that the steps lead to.
fn pair_at(stream: &Table, wanted: &Table, start: TypePair, path: &[TypeStep]) -> TypePair
    requires { (last : Pair) × LeadsBySteps (types stream.now) (types wanted.now) path.now start last }
    ensures { (last : Pair) → LeadsBySteps (types stream.now) (types wanted.now) path.now start last
        → result ≡ last }
{
    let mut pair = start;
    for step in path {
        pair = pair_behind(stream, wanted, pair, step);
    }
    pair
}

// The pair that the step leads to from this one.
fn pair_behind(stream: &Table, wanted: &Table, pair: TypePair, step: &TypeStep) -> TypePair
    requires shapes { HasMatchingShapes (types stream.now) (types wanted.now) pair }
    requires some { (next : Pair) × NamesByStep (types stream.now) (types wanted.now) pair step.now next }
    ensures { (next : Pair) → NamesByStep (types stream.now) (types wanted.now) pair step.now next
        → result ≡ next }
{
    let Some(shape) = stream.shape_of(pair.stream) else {
        unreachable!()
    };
    let Some(other) = wanted.shape_of(pair.wanted) else {
        unreachable!()
    };
    let Some(stream) = type_behind(&shape.kind, step) else {
        unreachable!()
    };
    let Some(wanted) = type_behind(&other.kind, step) else {
        unreachable!()
    };
    TypePair { stream, wanted }
}

// The type that the step leads to in values of the kind, if it leads on.
fn type_behind(kind: &Kind, step: &TypeStep) -> Option<TypeId>
    ensures { IsBehind kind.now step.now result }
{
    match step {
        TypeStep::Element => kind.elem(),
        TypeStep::Key => kind.key(),
        TypeStep::Named(name) => match kind {
            Kind::Struct { fields } => type_named(fields.as_slice(), name.as_bytes()),
            _ => None,
        },
    }
}

// The type of the first field of this name, if there is one.
fn type_named(fields: &[Field], name: &[u8]) -> Option<TypeId>
    ensures { MatchOption result (¬ HasName fields.now name.now) (HasFieldNamed fields.now name.now) }
{
    for field in fields {
        if field.name.as_bytes() == name {
            return Some(field.id);
        }
    }
    None
}

// What the values of a type are.
fn kind_of(table: &Table, id: TypeId) -> ValueKind
    requires { (shape : Shape) × (shape_of (types table.now) id ≡ Some shape) }
    ensures { (shape : Shape) → shape_of (types table.now) id ≡ Some shape → result ≡ value_kind shape.kind }
{
    match table.shape_of(id) {
        Some(shape) => ValueKind::of(&shape.kind),
        None => unreachable!(),
    }
}
