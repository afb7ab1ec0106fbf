//! What the fields of a struct hold. An absent field counts as 0, as the empty text, as a struct without
//! fields or as an empty list, and so does one that holds anything else.

ghost use Rattle.std.specs.Prelude.{◌≡◌, option_map};
ghost use Rattle.std.specs.Option.{option_copied};
ghost use Rattle.gob_value.specs.View.{view, views, field_views};
ghost use Rattle.gob_value.specs.Description.{present_field, number_in, name_in, fields_in, elements_in};

use crate::value::Value;

/// The value of the field of this number, where it is present.
pub(crate) fn field_of(fields: &[(u64, Value)], number: u64) -> Option<&Value>
    ensures { option_map view (option_copied result) ≡ present_field number (field_views fields.now) }
{
    for (n, value) in fields {
        if *n == number {
            return Some(value);
        }
    }
    None
}

/// The signed number in this field.
pub(crate) fn number_of(fields: &[(u64, Value)], number: u64) -> i64
    ensures { result ≡ number_in (present_field number (field_views fields.now)) }
{
    match field_of(fields, number) {
        Some(value) => number_within(value),
        None => 0,
    }
}

/// The text in this field.
pub(crate) fn text_of(fields: &[(u64, Value)], number: u64) -> &[u8]
    ensures { result.now ≡ name_in (present_field number (field_views fields.now)) }
{
    match field_of(fields, number) {
        Some(value) => text_within(value),
        None => &[],
    }
}

/// The fields of the struct in this field.
pub(crate) fn struct_of(fields: &[(u64, Value)], number: u64) -> &[(u64, Value)]
    ensures { field_views result.now ≡ fields_in (present_field number (field_views fields.now)) }
{
    match field_of(fields, number) {
        Some(value) => fields_within(value),
        None => &[],
    }
}

/// The elements of the list in this field.
pub(crate) fn list_of(fields: &[(u64, Value)], number: u64) -> &[Value]
    ensures { views result.now ≡ elements_in (present_field number (field_views fields.now)) }
{
    match field_of(fields, number) {
        Some(value) => elements_within(value),
        None => &[],
    }
}

fn number_within(value: &Value) -> i64
    ensures { result ≡ number_in (Some (view value.now)) }
{
    match value {
        Value::Int(number) => *number,
        _ => 0,
    }
}

fn text_within(value: &Value) -> &[u8]
    ensures { result.now ≡ name_in (Some (view value.now)) }
{
    match value {
        Value::Str(text) => text,
        _ => &[],
    }
}

/// The fields of a struct.
pub(crate) fn fields_within(value: &Value) -> &[(u64, Value)]
    ensures { field_views result.now ≡ fields_in (Some (view value.now)) }
{
    match value {
        Value::Fields(fields) => fields,
        _ => &[],
    }
}

fn elements_within(value: &Value) -> &[Value]
    ensures { views result.now ≡ elements_in (Some (view value.now)) }
{
    match value {
        Value::Many(elements) => elements,
        _ => &[],
    }
}
