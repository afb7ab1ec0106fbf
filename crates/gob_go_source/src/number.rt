//! Numbers in decimal.

ghost use Rattle.std.specs.Prelude.{◌≡◌, ◌↔◌, IsTrue};
ghost use Rattle.gob_go_source.specs.Numbers.{IsNumberOf};

use itoa::Buffer;
use std::str;

/// The number below 2 ^ 64 whose decimal form the text is.
pub(crate) fn number_of(text: &[u8]) -> Option<u64>
    ensures { IsNumberOf text.now result }
{
    let digits = str::from_utf8(text).ok()?;
    number_in(digits)
}

// The number of a text.
fn number_in(text: &str) -> Option<u64>
    ensures { IsNumberOf text.now result }
{
    let number = u64::from_str_radix(text, 10).ok()?;
    let mut buffer = Buffer::new();
    if !is_same(buffer.format(number), text) {
        return None;
    }
    Some(number)
}

// Whether the texts are one.
fn is_same(text: &str, other: &str) -> bool
    ensures { IsTrue result ↔ (text.now ≡ other.now) }
{
    text == other
}
