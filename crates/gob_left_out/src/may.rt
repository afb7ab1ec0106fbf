//! Whether values of two types may leave out any field.

ghost use Rattle.std.specs.Prelude.{◌≡◌, ◌↔◌, IsTrue, false};
ghost use Rattle.gob_types.specs.declared.kind.Field.{Field as FieldOf};
ghost use Rattle.gob_value.specs.Tree.{Tree};
ghost use Rattle.gob_match.specs.Calls.Matched.{IsSound, pairs_of, stream_of, stream_type, wanted_type, wanted_types_of};
ghost use Rattle.gob_match.specs.Matching.{HasMatchingShapes};
ghost use Rattle.gob_match.specs.Pairs.{of_types};
ghost use Rattle.gob_left_out.specs.LeftOut.{LacksSome, LeavesNothing, PairLacks, SomePairLacks};

use crate::kinds::{Parts, StructPair, parts_of, type_named};
use gob_match::{Matched, TypePair};
use gob_types::{Field, Shapes};

/// Whether a value of the types that match may leave out a field: whether one of the pairs of types that their shapes
/// lead to is of structs of which the stream's has a field that the wanted one lacks. Each is looked at, and no value.
pub fn may_leave_out<S: Shapes, T: Shapes>(
    matched: &Matched<'_, S, T>,
    stream: &S,
    wanted: &T,
) -> bool
    requires sound { IsSound S.table T.table matched.now }
    requires of_stream { stream_of matched.now ≡ stream.now }
    requires of_wanted { wanted_types_of matched.now ≡ wanted.now }
    ensures told { IsTrue result ↔ SomePairLacks (S.table stream.now) (T.table wanted.now) (pairs_of matched.now) }
    ensures nothing { result ≡ false → (v : Tree) → LeavesNothing (S.table stream.now) (T.table wanted.now)
        (of_types (stream_type matched.now) (wanted_type matched.now)) v }
{
    for place in 0..matched.pair_count() {
        if lacks(stream, wanted, matched.pair_at(place)) {
            return true;
        }
    }
    false
}

/// Whether the pair is of structs of which the wanted one lacks a field.
fn lacks<S: Shapes, T: Shapes>(stream: &S, wanted: &T, pair: TypePair) -> bool
    requires { HasMatchingShapes (S.table stream.now) (T.table wanted.now) pair }
    ensures { IsTrue result ↔ PairLacks (S.table stream.now) (T.table wanted.now) pair }
{
    match parts_of(stream, wanted, pair) {
        Parts::Fields(StructPair { stream, wanted }) => {
            lacks_some(stream.as_slice(), wanted.as_slice())
        }
        _ => false,
    }
}

/// Whether a field has a name that none of the wanted fields has.
fn lacks_some(fields: &[Field], wanted: &[Field]) -> bool
    ensures { IsTrue result ↔ LacksSome fields.now wanted.now }
{
    for field in fields {
        if type_named(wanted, field.name.as_bytes()).is_none() {
            return true;
        }
    }
    false
}
