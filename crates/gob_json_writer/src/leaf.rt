//! The JSON of what has no parts: bytes, text and the patterns of floats.

ghost use Rattle.serde_json.specs.Data.{object, member, no_members};
ghost use Rattle.gob_json.specs.Json.{hex_json, text_json, opaque_json, pattern_json, pair_json};
ghost use Rattle.gob_json_writer.specs.WritesJson.{WritesJson};

use json::Writer;
use std::alloc::{AllocError, Global};
use std::str;

/// Writes bytes as a string of lower case hexadecimal.
pub(crate) fn write_hex(alloc: Global, bytes: &[u8], out: &mut Writer) -> Result<(), AllocError>
    ensures { WritesJson result out.old out.new (hex_json bytes.now) }
{
    let digits = hex::encode(alloc, bytes)?;
    out.string(digits.as_str())
}

/// Writes an object with one member, whose value is the bytes in hexadecimal.
fn write_hex_object(
    alloc: Global,
    key: &str,
    bytes: &[u8],
    out: &mut Writer,
) -> Result<(), AllocError>
    ensures { WritesJson result out.old out.new
        (object (member key.now (hex_json bytes.now) no_members)) }
{
    out.begin_object()?;
    out.key(key)?;
    write_hex(alloc, bytes, out)?;
    out.end_object()
}

/// Writes the bytes of an opaque value.
pub(crate) fn write_opaque(alloc: Global, bytes: &[u8], out: &mut Writer) -> Result<(), AllocError>
    ensures { WritesJson result out.old out.new (opaque_json bytes.now) }
{
    write_hex_object(alloc, "opaque", bytes, out)
}

/// Writes text as a string where it is UTF-8, else as an object that holds its bytes in hexadecimal.
pub fn write_text(alloc: Global, bytes: &[u8], out: &mut Writer) -> Result<(), AllocError>
    ensures { WritesJson result out.old out.new (text_json bytes.now) }
{
    match str::from_utf8(bytes) {
        Ok(text) => out.string(text),
        Err(_) => write_hex_object(alloc, "hex", bytes, out),
    }
}

/// Writes the 64 bits of a float as a string of 16 digits of lower case hexadecimal.
pub(crate) fn write_pattern(alloc: Global, pattern: u64, out: &mut Writer) -> Result<(), AllocError>
    ensures { WritesJson result out.old out.new (pattern_json pattern) }
{
    write_hex(alloc, &pattern.to_be_bytes(), out)
}

/// Writes the patterns of a complex number's two parts as an array.
pub(crate) fn write_complex(
    alloc: Global,
    real: u64,
    imaginary: u64,
    out: &mut Writer,
) -> Result<(), AllocError>
    ensures { WritesJson result out.old out.new
        (pair_json (pattern_json real) (pattern_json imaginary)) }
{
    out.begin_array()?;
    write_pattern(alloc, real, out)?;
    write_pattern(alloc, imaginary, out)?;
    out.end_array()
}
