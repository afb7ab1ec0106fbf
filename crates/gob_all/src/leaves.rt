//! What stands at the leaves of values.

ghost use Rattle.std.specs.Prelude.{◌≡◌};
ghost use Rattle.std.specs.Option.{option_copied};
ghost use Rattle.gob_value.specs.View.{view};
ghost use Rattle.gob_all.specs.Leaves.{bool_in, int_in, uint_in, float_in, text_in};

use gob_value::Value;

/// The truth value that a value is. None where it is none.
pub fn as_bool(value: &Value) -> Option<bool>
    ensures { result ≡ bool_in (view value.now) }
{
    match value {
        Value::Bool(truth) => Some(*truth),
        _ => None,
    }
}

/// The signed number that a value is. None where it is none: an unsigned number is none, however small.
pub fn as_int(value: &Value) -> Option<i64>
    ensures { result ≡ int_in (view value.now) }
{
    match value {
        Value::Int(number) => Some(*number),
        _ => None,
    }
}

/// The unsigned number that a value is. None where it is none: a signed number is none, even if it isn't negative.
pub fn as_uint(value: &Value) -> Option<u64>
    ensures { result ≡ uint_in (view value.now) }
{
    match value {
        Value::Uint(number) => Some(*number),
        _ => None,
    }
}

/// The 64 bits of the floating-point number that a value is. None where it is none.
///
/// `f64::from_bits` requires that the bits are no NaN, so test them first: where `bits & 0x7fff_ffff_ffff_ffff` is
/// below `0x7ff0_0000_0000_0000` they are a finite number, and std's lemma `not_nan_f64_bits` takes that.
pub fn as_float(value: &Value) -> Option<u64>
    ensures { result ≡ float_in (view value.now) }
{
    match value {
        Value::Float(bits) => Some(*bits),
        _ => None,
    }
}

/// The bytes of the text that a value is, which need not be UTF-8. None where it is no text: a byte string is none.
pub fn as_text(value: &Value) -> Option<&[u8]>
    ensures { option_copied result ≡ text_in (view value.now) }
{
    match value {
        Value::Str(text) => Some(text),
        _ => None,
    }
}
