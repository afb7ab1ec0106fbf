//! Text in UTF-16, as it is known by characters of ASCII.

ghost use Rattle.std.specs.Prelude.{◌≡◌};
ghost use Rattle.gob_forms.specs.Guesses.{form_of_units, is_ascii_unit, is_high_wide, is_low_wide, is_marked_wide};
ghost use Rattle.gob_forms.specs.Guesses.{is_unit};

use crate::form::Form;

/// Text in UTF-16 that the bytes begin with: one character of ASCII behind its mark, or four without one.
pub fn form_of_wide(front: &[u8]) -> Option<Form>
    ensures { result ≡ form_of_units front.now }
{
    if is_marked(front) {
        return Some(Form::Utf16);
    }
    if is_low(front) {
        return Some(Form::Utf16Low);
    }
    if is_high(front) {
        return Some(Form::Utf16High);
    }
    None
}

// Whether a character stands behind the mark.
fn is_marked(bytes: &[u8]) -> bool
    ensures { result ≡ is_marked_wide bytes.now }
{
    match bytes {
        [0xff, 0xfe, low, high, ..] | [0xfe, 0xff, high, low, ..] => is_unit(*low, *high),
        _ => false,
    }
}

// Whether four characters stand there, each with its low byte first.
fn is_low(bytes: &[u8]) -> bool
    ensures { result ≡ is_low_wide bytes.now }
{
    match bytes {
        [a, b, c, d, e, f, g, h, ..] => {
            is_unit(*a, *b) && is_unit(*c, *d) && is_unit(*e, *f) && is_unit(*g, *h)
        }
        _ => false,
    }
}

// Whether they stand there with the high byte first.
fn is_high(bytes: &[u8]) -> bool
    ensures { result ≡ is_high_wide bytes.now }
{
    match bytes {
        [a, b, c, d, e, f, g, h, ..] => {
            is_unit(*b, *a) && is_unit(*d, *c) && is_unit(*f, *e) && is_unit(*h, *g)
        }
        _ => false,
    }
}

// Whether the bytes of a unit, the low one and the high one, are such a character.
fn is_unit(low: u8, high: u8) -> bool
    ensures { result ≡ is_unit low high }
{
    is_ascii(low) && high == 0
}

// Whether the byte is a character that is printed, or a space.
fn is_ascii(unit: u8) -> bool
    ensures { result ≡ is_ascii_unit unit }
{
    matches!(unit, 0x20..=0x7e | b'\t' | b'\n' | b'\r')
}
