//! Parts without parts, and names.

ghost use Rattle.std.specs.Prelude.{◌≡◌, ◌∷◌, ◌++◌, [], IfOk, codes, string_bytes};
ghost use Rattle.std.specs.Fmt.{decimal, signed_decimal};
ghost use Rattle.hex.specs.Hex.{encode_lower};
ghost use Rattle.json.specs.Token.{key};
ghost use Rattle.gob_read.specs.Leaf.{signed_of};
ghost use Rattle.gob_value.specs.Tree.{Tree};
ghost use Rattle.gob_json_writer.specs.WritesJson.{WritesTokens};
ghost use Rattle.gob_plain.specs.Leaf.{SaysLeaf};
ghost use Rattle.gob_plain.specs.OpaqueText.{SaysBytes};
ghost use Rattle.gob_plain.specs.Plain.{SaysPattern, SaysBoth, name_text, key_text};
ghost use Rattle.gob_plain.specs.WritesPlain.{WritesPlain, Shows};

use base64::engine::general_purpose::STANDARD;
use gob_json_writer::write_text;
use gob_num::to_signed;
use gob_tape::{ValueKind, View};
use json::Writer;
use std::alloc::{AllocError, Global};
use std::str;

// The bit of a float's sign, and the others of an infinity.
pub(crate) const SIGN: u64 = 0x8000_0000_0000_0000;

pub(crate) const INFINITY: u64 = 0x7ff0_0000_0000_0000;

/// Writes a part without parts that isn't opaque, which is of this kind and has these numbers and bytes.
pub(crate) fn write_leaf(
    alloc: Global,
    kind: ValueKind,
    first: u64,
    second: u64,
    bytes: &[u8],
    out: &mut Writer,
) -> Result<(), AllocError>
    ensures { WritesPlain result out.old out.new (SaysLeaf kind first second bytes.now) }
{
    match kind {
        ValueKind::Bool => out.boolean(first == 1),
        ValueKind::Int => out.i64(to_signed(first)),
        ValueKind::Uint => out.u64(first),
        ValueKind::Float => write_float(first, out),
        ValueKind::Complex => write_complex(first, second, out),
        ValueKind::Bytes => write_bytes(alloc, bytes, out),
        ValueKind::Str => write_text(alloc, bytes, out),
        _ => out.null(),
    }
}

/// Writes the float of these 64 bits as a number, or its name where it isn't finite.
pub(crate) fn write_float(pattern: u64, out: &mut Writer) -> Result<(), AllocError>
    ensures { WritesPlain result out.old out.new (SaysPattern pattern) }
{
    let size = pattern % SIGN;
    if size < INFINITY {
        out.float(f64::from_bits(pattern))
    } else if size > INFINITY {
        out.string("NaN")
    } else if pattern < SIGN {
        out.string("Infinity")
    } else {
        out.string("-Infinity")
    }
}

/// Writes the two parts of a complex number as an array.
pub(crate) fn write_complex(real: u64, imaginary: u64, out: &mut Writer) -> Result<(), AllocError>
    ensures { WritesPlain result out.old out.new (SaysBoth (SaysPattern real) (SaysPattern imaginary)) }
{
    out.begin_array()?;
    write_float(real, out)?;
    write_float(imaginary, out)?;
    out.end_array()
}

/// Writes bytes as a string of base64.
pub(crate) fn write_bytes(alloc: Global, bytes: &[u8], out: &mut Writer) -> Result<(), AllocError>
    ensures { WritesPlain result out.old out.new (SaysBytes bytes.now) }
{
    let text = STANDARD.encode(alloc, bytes)?;
    out.string(text.as_str())
}

/// Writes a name as that of a member.
pub(crate) fn write_name(alloc: Global, name: &[u8], out: &mut Writer) -> Result<(), AllocError>
    ensures { WritesTokens result out.old out.new (key (name_text name.now) ∷ []) }
{
    match str::from_utf8(name) {
        Ok(name) => out.key(name),
        Err(_) => {
            let text = hex_name(alloc, name)?;
            out.key(text.as_str())
        }
    }
}

/// The text that stands for a name that isn't UTF-8.
pub fn hex_name(alloc: Global, name: &[u8]) -> Result<String, AllocError>
    ensures { IfOk result (λ text. string_bytes text ≡ codes "0x" ++ encode_lower name.now) }
{
    let mut text = String::from_str(alloc, "0x")?;
    text.push_str(hex::encode(alloc, name)?.as_str())?;
    Ok(text)
}

/// The name that a key of a map gives a member.
pub(crate) fn key_name(alloc: Global, part: View<'_>) -> Result<String, AllocError>
    ensures { IfOk result (λ name. (v : Tree) → Shows part.entry v → string_bytes name ≡ key_text v) }
{
    match part.kind() {
        ValueKind::Str => name_of(alloc, part.bytes()),
        ValueKind::Int => int_name(alloc, part.numbers().0),
        ValueKind::Uint => uint_name(alloc, part.numbers().0),
        _ => Ok(String::new(alloc)),
    }
}

// The text of a name.
fn name_of(alloc: Global, name: &[u8]) -> Result<String, AllocError>
    ensures { IfOk result (λ text. string_bytes text ≡ name_text name.now) }
{
    match str::from_utf8(name) {
        Ok(name) => String::from_str(alloc, name),
        Err(_) => hex_name(alloc, name),
    }
}

// The signed number that this one spells, in decimal.
fn int_name(alloc: Global, number: u64) -> Result<String, AllocError>
    ensures { IfOk result (λ name. string_bytes name ≡ signed_decimal (signed_of number)) }
{
    let mut digits = itoa::Buffer::new();
    String::from_str(alloc, digits.format(to_signed(number)))
}

// The number in decimal.
fn uint_name(alloc: Global, number: u64) -> Result<String, AllocError>
    ensures { IfOk result (λ name. string_bytes name ≡ decimal number) }
{
    let mut digits = itoa::Buffer::new();
    String::from_str(alloc, digits.format(number))
}

/// Writes the key of a map as the name of a member.
pub(crate) fn write_key(alloc: Global, part: View<'_>, out: &mut Writer) -> Result<(), AllocError>
    ensures before { out.new.before ≡ out.old.before }
    ensures name { (v : Tree) → Shows part.entry v
        → WritesTokens result out.old out.new (key (key_text v) ∷ []) }
{
    match part.kind() {
        ValueKind::Str => write_name(alloc, part.bytes(), out),
        ValueKind::Int => write_int_name(part.numbers().0, out),
        ValueKind::Uint => write_uint_name(part.numbers().0, out),
        _ => out.key(""),
    }
}

// Writes the signed number that this one spells as the name of a member.
fn write_int_name(number: u64, out: &mut Writer) -> Result<(), AllocError>
    ensures { WritesTokens result out.old out.new (key (signed_decimal (signed_of number)) ∷ []) }
{
    write_signed_name(to_signed(number), out)
}

/// Writes the number as the name of a member.
pub(crate) fn write_signed_name(number: i64, out: &mut Writer) -> Result<(), AllocError>
    ensures { WritesTokens result out.old out.new (key (signed_decimal number) ∷ []) }
{
    let mut digits = itoa::Buffer::new();
    out.key(digits.format(number))
}

/// Writes the number as the name of a member.
pub(crate) fn write_uint_name(number: u64, out: &mut Writer) -> Result<(), AllocError>
    ensures { WritesTokens result out.old out.new (key (decimal number) ∷ []) }
{
    let mut digits = itoa::Buffer::new();
    out.key(digits.format(number))
}
