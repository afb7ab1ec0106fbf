//! What bytes show of what was done to them.

ghost use Rattle.std.specs.Prelude.{◌≡◌, take};

use gob_num::Memory;
use std::alloc::Global;

// U+FFFD in UTF-8, which stands in place of each byte that is no text.
const REPLACEMENT: [u8; 3] = [0xef, 0xbf, 0xbd];

/// The bytes from the place on: none where they end before it.
pub(crate) fn rest_from(bytes: &[u8], place: usize) -> &[u8] {
    if place > bytes.len() {
        return &[];
    }
    &bytes[place..]
}

/// The bytes before the place, or all where they end before it.
pub(crate) fn front_to(bytes: &[u8], place: usize) -> &[u8]
    ensures { result.now ≡ take place bytes.now }
{
    if place > bytes.len() {
        return bytes;
    }
    &bytes[..place]
}

/// How many zeros stand at the front of the bytes.
pub(crate) fn zeros_at_front(bytes: &[u8]) -> usize {
    bytes.iter().take_while(|byte| **byte == 0).count()
}

/// Whether the text has this line, which is given with the line feeds around it.
pub(crate) fn has_line(text: &[u8], line: &[u8]) -> bool {
    for place in 0..text.len() {
        if text[place..].starts_with(line) {
            return true;
        }
    }
    false
}

/// Whether U+FFFD stands at the front of the bytes.
pub(crate) fn is_replaced(bytes: &[u8]) -> bool {
    bytes.starts_with(&REPLACEMENT)
}

/// The bytes without the carriage returns that stand before line feeds.
pub(crate) fn without_returns(alloc: Global, bytes: &[u8]) -> Result<Vec<u8>, Memory> {
    let mut kept = Vec::with_capacity(alloc, bytes.len())?;
    for place in 0..bytes.len() {
        if !bytes[place..].starts_with(b"\r\n") {
            kept.push(bytes[place])?;
        }
    }
    Ok(kept)
}
