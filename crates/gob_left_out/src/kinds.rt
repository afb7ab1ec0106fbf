//! The parts that values of two types have.

ghost use Rattle.std.specs.Prelude.{◌≡◌, MatchOption};
ghost use Rattle.gob_match.specs.Matching.{HasMatchingShapes, KindsMatch};
ghost use Rattle.gob_match.specs.Pairs.{HasFieldNamed, HasName, of_types};
ghost use Rattle.gob_left_out.specs.Machine.Kinds.{KindParts, PairParts};

use gob_match::TypePair;
use gob_types::{Field, Fields, Kind, Shapes, TypeId};

/// The fields of two structs: of the stream's, and of the wanted one.
#[derive(Clone, Copy)]
pub(crate) struct StructPair<'a> {
    pub(crate) stream: &'a Fields,
    pub(crate) wanted: &'a Fields,
}

/// The parts of the values of two types that match, which are received under pairs of types of their own.
#[derive(Clone, Copy)]
pub(crate) enum Parts<'a> {
    /// None.
    Nothing,
    /// Elements, each under this pair.
    Elements(TypePair),
    /// Keys and elements, each under its pair.
    Entries(TypePair, TypePair),
    /// Fields.
    Fields(StructPair<'a>),
}

/// The parts of values of the types of a pair.
pub(crate) fn parts_of<'a, S: Shapes, T: Shapes>(
    stream: &'a S,
    wanted: &'a T,
    pair: TypePair,
) -> Parts<'a>
    requires { HasMatchingShapes (S.table stream.now) (T.table wanted.now) pair }
    ensures { PairParts (S.table stream.now) (T.table wanted.now) pair result }
{
    let Some(shape) = stream.shape_of(pair.stream) else {
        unreachable!()
    };
    let Some(other) = wanted.shape_of(pair.wanted) else {
        unreachable!()
    };
    kind_parts(&shape.kind, &other.kind)
}

/// The parts of values of two kinds.
fn kind_parts<'a>(stream: &'a Kind, wanted: &'a Kind) -> Parts<'a>
    requires { KindsMatch stream.now wanted.now }
    ensures { KindParts stream.now wanted.now result }
{
    match stream {
        Kind::Basic(_) | Kind::Opaque(_) => Parts::Nothing,
        Kind::Array { elem, len } => elements_of_array(*elem, *len, wanted),
        Kind::Slice { elem } => elements_of_slice(*elem, wanted),
        Kind::Map { key, elem } => entries(*key, *elem, wanted),
        Kind::Struct { fields } => struct_fields(fields, wanted),
    }
}

/// The parts of two arrays.
fn elements_of_array<'a>(elem: TypeId, len: u64, wanted: &'a Kind) -> Parts<'a>
    requires { KindsMatch (Kind.Array elem len) wanted.now }
    ensures { KindParts (Kind.Array elem len) wanted.now result }
{
    let Kind::Array { elem: other, .. } = wanted else {
        unreachable!()
    };
    Parts::Elements(pair_of(elem, *other))
}

/// The parts of two slices.
fn elements_of_slice<'a>(elem: TypeId, wanted: &'a Kind) -> Parts<'a>
    requires { KindsMatch (Kind.Slice elem) wanted.now }
    ensures { KindParts (Kind.Slice elem) wanted.now result }
{
    let Kind::Slice { elem: other } = wanted else {
        unreachable!()
    };
    Parts::Elements(pair_of(elem, *other))
}

/// The parts of two maps.
fn entries<'a>(key: TypeId, elem: TypeId, wanted: &'a Kind) -> Parts<'a>
    requires { KindsMatch (Kind.Map key elem) wanted.now }
    ensures { KindParts (Kind.Map key elem) wanted.now result }
{
    let Kind::Map {
        key: other_key,
        elem: other,
    } = wanted
    else {
        unreachable!()
    };
    Parts::Entries(pair_of(key, *other_key), pair_of(elem, *other))
}

/// The parts of two structs.
fn struct_fields<'a>(fields: &'a Fields, wanted: &'a Kind) -> Parts<'a>
    requires { KindsMatch (Kind.Struct fields.now) wanted.now }
    ensures { KindParts (Kind.Struct fields.now) wanted.now result }
{
    let Kind::Struct { fields: other } = wanted else {
        unreachable!()
    };
    Parts::Fields(StructPair {
        stream: fields,
        wanted: other,
    })
}

fn pair_of(stream: TypeId, wanted: TypeId) -> TypePair
    ensures { result ≡ of_types stream wanted }
{
    TypePair { stream, wanted }
}

/// The type of the wanted struct's field of this name, where it has one.
pub(crate) fn type_named(fields: &[Field], name: &[u8]) -> Option<TypeId>
    ensures { MatchOption result (¬ HasName fields.now name.now) (HasFieldNamed fields.now name.now) }
{
    for field in fields {
        if field.name.as_bytes() == name {
            return Some(field.id);
        }
    }
    None
}
