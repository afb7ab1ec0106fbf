//! Fields of types by their names, and of values by their numbers.

ghost use Rattle.std.specs.Prelude.{◌≡◌, Some, None, MatchOption};
ghost use Rattle.gob_value.specs.View.{view, field_views};
ghost use Rattle.gob_all.specs.LookUps.{HasNoField, IsFirstField, AreNotNamed, IsFirstNamed, field_in, field_at};

use gob_types::{Field, Shape};
use gob_value::Value;

/// The number of the first field of this name. None where no field has it, or the type is no struct.
pub fn field_number(shape: &Shape, name: &[u8]) -> Option<u64>
    ensures { MatchOption result (HasNoField shape.now name.now) (λ number. IsFirstField shape.now name.now number) }
{
    number_in(shape.kind.fields()?.as_slice(), name)
}

// The number of the first of these fields that has this name.
fn number_in(fields: &[Field], name: &[u8]) -> Option<u64>
    ensures { MatchOption result (AreNotNamed fields.now name.now) (λ number. IsFirstNamed fields.now name.now number) }
{
    for (number, field) in fields.iter().enumerate() {
        if field.name.as_bytes() == name {
            return Some(number as u64);
        }
    }
    None
}

/// The value of the field of this number. None where it is absent, as a zero is in what Go writes, or the value is no
/// struct.
pub fn field(value: &Value, number: u64) -> Option<&Value>
    ensures { let tree = view value.now in
        MatchOption result (field_in number tree ≡ None) (λ part. field_in number tree ≡ Some (view part.now)) }
{
    match value {
        Value::Fields(present) => part_in(present, number),
        _ => None,
    }
}

// The value of the first of these fields that has this number.
fn part_in(present: &[(u64, Value)], number: u64) -> Option<&Value>
    ensures { let fields = field_views present.now in
        MatchOption result (field_at number fields ≡ None) (λ part. field_at number fields ≡ Some (view part.now)) }
{
    for (at, part) in present {
        if *at == number {
            return Some(part);
        }
    }
    None
}
