//! Whether two definitions give one shape.

use gob_types::{Fields, Kind, Shape};

/// Whether the shapes are one, their names too.
pub(crate) fn are_alike(one: &Shape, other: &Shape) -> bool {
    one.name.as_bytes() == other.name.as_bytes() && are_kinds_alike(&one.kind, &other.kind)
}

fn are_kinds_alike(one: &Kind, other: &Kind) -> bool {
    number_of(one) == number_of(other)
        && one.elem() == other.elem()
        && one.key() == other.key()
        && length_of(one) == length_of(other)
        && are_fields_alike(one.fields(), other.fields())
}

// A number for each kind of definition.
fn number_of(kind: &Kind) -> u8 {
    match kind {
        Kind::Basic(_) => 0,
        Kind::Array { .. } => 1,
        Kind::Slice { .. } => 2,
        Kind::Struct { .. } => 3,
        Kind::Map { .. } => 4,
        Kind::Opaque(_) => 5,
    }
}

fn length_of(kind: &Kind) -> Option<u64> {
    match kind {
        Kind::Array { len, .. } => Some(*len),
        _ => None,
    }
}

fn are_fields_alike(one: Option<&Fields>, other: Option<&Fields>) -> bool {
    let (Some(one), Some(other)) = (one, other) else {
        return one.is_none() && other.is_none();
    };
    let (one, other) = (one.as_slice(), other.as_slice());
    if one.len() != other.len() {
        return false;
    }
    for place in 0..one.len() {
        let (field, match_) = (&one[place], &other[place]);
        if field.id != match_.id || field.name.as_bytes() != match_.name.as_bytes() {
            return false;
        }
    }
    true
}
