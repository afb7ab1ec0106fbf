//! Bytes that are text.

ghost use Rattle.std.specs.Prelude.{◌≡◌, ◌↔◌, [], ◌∷◌, None, IfSome, IsTrue};
ghost use Rattle.gob_forms.specs.Texts.{IsCutUtf8, IsMostlyAscii, IsText};
ghost use Rattle.gob_forms.specs.Texts.{begins_json, is_printed, is_space, behind_spaces, starts_value};

use std::str;

/// Whether the bytes are text: without controls but spaces, and mostly in ASCII where they are no UTF-8.
pub fn is_text(bytes: &[u8]) -> bool
    ensures { IsTrue result ↔ IsText bytes.now }
{
    bytes.iter().all(|byte| is_printed(*byte)) && (is_utf8(bytes) || is_mostly_ascii(bytes))
}

// Whether the byte may stand in text.
fn is_printed(byte: u8) -> bool
    ensures { result ≡ is_printed byte }
{
    is_space(byte) || (byte >= 0x20 && byte != 0x7f)
}

// Whether the bytes are UTF-8, of whose last character some may be cut off.
fn is_utf8(bytes: &[u8]) -> bool
    ensures { IsTrue result ↔ IsCutUtf8 bytes.now }
{
    for cut in 0..4 {
        let front = &bytes[..bytes.len().saturating_sub(cut)];
        if let Ok(text) = str::from_utf8(front) {
            return !text.is_empty();
        }
    }
    false
}

// Whether no more than a quarter of the bytes stand above ASCII.
fn is_mostly_ascii(bytes: &[u8]) -> bool
    ensures { IsTrue result ↔ IsMostlyAscii bytes.now }
{
    let above = bytes.iter().filter(|byte| **byte >= 0x80).count();
    above <= bytes.len() / 4
}

/// Whether the bytes begin as JSON does that is an object or an array.
pub fn is_json(bytes: &[u8]) -> bool
    ensures { result ≡ begins_json bytes.now }
{
    let Some((first, rest)) = behind_spaces(bytes) else {
        return false;
    };
    let Some((second, _)) = behind_spaces(rest) else {
        return false;
    };
    match first {
        b'{' => second == b'"' || second == b'}',
        b'[' => is_json_start(second),
        _ => false,
    }
}

// Whether a value of JSON begins with the byte.
fn is_json_start(byte: u8) -> bool
    ensures { result ≡ starts_value byte }
{
    matches!(
        byte,
        b'{' | b'[' | b'"' | b'-' | b'0'..=b'9' | b't' | b'f' | b'n'
    )
}

// The first byte that is no space, and what stands behind it.
fn behind_spaces(bytes: &[u8]) -> Option<(u8, &[u8])>
    ensures none { result ≡ None → behind_spaces bytes.now ≡ [] }
    ensures found { IfSome result (λ found. behind_spaces bytes.now ≡ found.0 ∷ found.1.now) }
{
    for (place, byte) in bytes.iter().enumerate() {
        if !is_space(*byte) {
            return Some((*byte, &bytes[place + 1..]));
        }
    }
    None
}

fn is_space(byte: u8) -> bool
    ensures { result ≡ is_space byte }
{
    matches!(byte, b' ' | b'\t' | b'\n' | b'\r')
}
