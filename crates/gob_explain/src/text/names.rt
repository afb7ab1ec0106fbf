//! Names and strings of a stream, as a terminal may show them.

ghost use Rattle.std.specs.Prelude.{◌≡◌, ◌++◌, OnOk, string_bytes};
ghost use Rattle.gob_explain.specs.Names.{go_name, shown_name, type_name};

use gob_types::{Shapes, TypeId};
use gob_words::escaped;
use std::alloc::{AllocError, Global};
use std::str;

// Of a string so many characters are shown at most.
const SHOWN: usize = 48;

/// Puts a name behind the text: with no character that a terminal obeys where it is UTF-8, else as `0x` and its bytes
/// in lower case hexadecimal.
pub fn push_name(alloc: Global, name: &[u8], out: &mut String) -> Result<(), AllocError>
    ensures { OnOk result (string_bytes out.new ≡ string_bytes out.old ++ shown_name name.now) }
{
    match str::from_utf8(name) {
        Ok(text) => out.push_str(escaped(alloc, text)?.as_str()),
        Err(_) => {
            out.push_str("0x")?;
            for byte in name {
                write!(out, "{:02x}", *byte)?;
            }
            Ok(())
        }
    }
}

/// Puts the first characters of a string behind the text, between quotes, as they are.
pub(crate) fn push_string(raw: &[u8], out: &mut String) -> Result<(), AllocError> {
    let Ok(text) = str::from_utf8(raw) else {
        return write!(out, "{} bytes that are no UTF-8", raw.len());
    };
    out.push('"')?;
    let begin = out.len();
    for character in text.chars().take(SHOWN) {
        out.push(character)?;
    }
    let shown = out.len().saturating_sub(begin);
    out.push('"')?;
    if shown < text.len() {
        out.push_str("..")?;
    }
    Ok(())
}

/// Puts the name of a type behind the text: Go's name of a basic type, else the name that the table has, which may be
/// empty.
pub fn push_type_name<S: Shapes>(
    alloc: Global,
    shapes: &S,
    id: TypeId,
    out: &mut String,
) -> Result<(), AllocError>
    ensures { OnOk result (string_bytes out.new ≡ string_bytes out.old ++ type_name (S.table shapes.now) id) }
{
    let known = known_name(id);
    if !known.is_empty() {
        return out.push_str(known);
    }
    match shapes.shape_of(id) {
        Some(shape) => push_name(alloc, shape.name.as_bytes(), out),
        None => Ok(()),
    }
}

// The name of a type of the base table whose name there isn't that of a Go type.
fn known_name(id: TypeId) -> &'static str
    ensures { result.now ≡ go_name id.0 }
{
    match id.0 {
        1 => "bool",
        2 => "int",
        3 => "uint",
        4 => "float64",
        5 => "[]byte",
        6 => "string",
        7 => "complex128",
        8 => "interface{}",
        22 => "[]fieldType",
        _ => "",
    }
}
