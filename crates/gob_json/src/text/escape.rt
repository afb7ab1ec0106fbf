//! Text between the quotes of a JSON string.

ghost use Rattle.std.specs.Prelude.{◌≡◌, ◌+◌, ◌/◌, ◌%◌, ◌<◌, ◌≤◌, ◌++◌, ◌∷◌, [], drop, length};
ghost use Rattle.std.specs.Char.{digit_char};
ghost use Rattle.std.specs.List.{prefix_len};
ghost use Rattle.json.specs.Print.{escape, escape_byte, escape_letter};
ghost use Rattle.json.specs.Run.{is_plain};

use super::out::TextOut;

/// Puts out the bytes with those escaped that don't stand for themselves in a JSON string.
pub(crate) fn put_escaped<O: TextOut>(bytes: &[u8], out: &mut O) -> Result<(), O::Fault>
    ensures { O.puts out.old out.new (escape bytes.now) result }
{
    let mut at = 0;
    'runs: loop {
        let stop = plain_end(bytes, at);
        if stop == bytes.len() {
            return out.put(&bytes[at..stop]);
        }
        out.put(&bytes[at..stop])?;
        put_escape(bytes[stop], out)?;
        at = stop + 1;
    }
}

// The place of the first byte from this one on that doesn't stand for itself, or the length.
fn plain_end(bytes: &[u8], from: usize) -> usize
    requires { from ≤ length bytes.now }
    ensures value { result ≡ from + prefix_len is_plain (drop from bytes.now) }
    ensures bound { result ≤ length bytes.now }
{
    let mut at = from;
    while at < bytes.len() && bytes[at] != b'"' && bytes[at] != b'\\' && bytes[at] >= 0x20 {
        at += 1;
    }
    at
}

// Puts out what stands for the byte.
fn put_escape<O: TextOut>(byte: u8, out: &mut O) -> Result<(), O::Fault>
    ensures { O.puts out.old out.new (escape_byte byte) result }
{
    let letter = letter_of(byte);
    if letter > 0 {
        return out.put(&[b'\\', letter]);
    }
    if byte < 0x20 {
        return put_control(byte, out);
    }
    out.put(&[byte])
}

// Puts out the long escape, of the digits of the byte.
fn put_control<O: TextOut>(byte: u8, out: &mut O) -> Result<(), O::Fault>
    requires { byte < 32 }
    ensures { O.puts out.old out.new
        (92 ∷ 117 ∷ 48 ∷ 48 ∷ digit_char (byte / 16) ∷ digit_char (byte % 16) ∷ []) result }
{
    let high = digit_of(byte / 16);
    let low = digit_of(byte % 16);
    out.put(&[b'\\', b'u', b'0', b'0', high, low])
}

// The letter of the byte's short escape, or 0 where it has none.
fn letter_of(byte: u8) -> u8
    ensures { result ≡ escape_letter byte }
{
    match byte {
        b'"' | b'\\' => byte,
        8 => b'b',
        12 => b'f',
        b'\n' => b'n',
        b'\r' => b'r',
        b'\t' => b't',
        _ => 0,
    }
}

// The digit of this value, in lower case.
fn digit_of(value: u8) -> u8
    requires { value < 16 }
    ensures { result ≡ digit_char value }
{
    if value < 10 {
        b'0' + value
    } else {
        b'a' - 10 + value
    }
}
