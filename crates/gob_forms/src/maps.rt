//! MessagePack and CBOR, as they are known by a map whose first key is text.

ghost use Rattle.std.specs.Char.{is_ascii_graphic};
ghost use Rattle.std.specs.List.{list_all};
ghost use Rattle.std.specs.Prelude.{◌≡◌};
ghost use Rattle.gob_forms.specs.Guesses.{form_of_first_map, has_key, is_cbor_array, is_cbor_map};
ghost use Rattle.gob_forms.specs.Guesses.{is_packed_array, is_packed_map};

use crate::form::Form;

/// MessagePack or CBOR whose first value is such a map, or an array with one at its front. No number of a stream begins
/// as these do.
pub fn form_of_maps(front: &[u8]) -> Option<Form>
    ensures { result ≡ form_of_first_map front.now }
{
    if is_cbor_array(front) || is_cbor_map(front) {
        return Some(Form::Cbor);
    }
    if is_packed_array(front) || is_packed_map(front) {
        return Some(Form::MessagePack);
    }
    None
}

// Whether a map of CBOR stands there.
fn is_cbor_map(bytes: &[u8]) -> bool
    ensures { result ≡ is_cbor_map bytes.now }
{
    match bytes {
        [0xa1..=0xb7 | 0xbf, key @ 0x61..=0x77, rest @ ..] => has_key(rest, *key - 0x60),
        _ => false,
    }
}

// Whether an array of CBOR stands there. In MessagePack its second byte is the length of a key, which ends before this
// one does.
fn is_cbor_array(bytes: &[u8]) -> bool
    ensures { result ≡ is_cbor_array bytes.now }
{
    match bytes {
        [0x81..=0x97, map @ 0xa1..=0xb7, key @ 0x61..=0x77, rest @ ..] => {
            *map - 0xa0 <= *key - 0x60 && has_key(rest, *key - 0x60)
        }
        _ => false,
    }
}

// Whether a map of MessagePack stands there.
fn is_packed_map(bytes: &[u8]) -> bool
    ensures { result ≡ is_packed_map bytes.now }
{
    match bytes {
        [0x81..=0x8f, key @ 0xa1..=0xbf, rest @ ..] => has_key(rest, *key - 0xa0),
        _ => false,
    }
}

// Whether an array of MessagePack stands there.
fn is_packed_array(bytes: &[u8]) -> bool
    ensures { result ≡ is_packed_array bytes.now }
{
    match bytes {
        [0x91..=0x9f, map @ ..] => is_packed_map(map),
        _ => false,
    }
}

// Whether a key of so many bytes stands at the front, in ASCII.
fn has_key(bytes: &[u8], size: u8) -> bool
    ensures { result ≡ has_key size bytes.now }
{
    match bytes.get(..usize::from(size)) {
        Some(key) => is_graphic(key),
        None => false,
    }
}

// Whether each byte is a character of ASCII that is printed, and no space.
fn is_graphic(key: &[u8]) -> bool
    ensures { result ≡ list_all is_ascii_graphic key.now }
{
    key.iter().all(|byte| byte.is_ascii_graphic())
}
