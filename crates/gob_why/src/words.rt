//! Names, paths and numbers in sentences.

ghost use Rattle.std.specs.Prelude.{◌≡◌, IfOk, string_bytes};
ghost use Rattle.gob_words.specs.Escaped.{IsUnobeyed};
ghost use Rattle.gob_explain.specs.Names.{shown_name};

use gob_explain::push_name;
use gob_num::Memory;
use gob_types::{Shapes, Table, TypeId};
use gob_words::quoted;
use std::alloc::Global;

/// A name of the stream as a terminal can show it: its text, or where it is none, 0x and its bytes.
pub(crate) fn name_text(alloc: Global, name: &[u8]) -> Result<String, Memory>
    ensures { IfOk result (λ text. string_bytes text ≡ shown_name name.now) }
{
    let mut text = String::new(alloc);
    push_name(alloc, name, &mut text)?;
    Ok(text)
}

/// The name of a file as it is typed in a shell, and IN where there is no name. A path leads to a name that would be
/// taken for an option.
pub(crate) fn file_text(alloc: Global, name: Option<&str>) -> Result<String, Memory>
    ensures { IfOk result (λ text. IsUnobeyed (string_bytes text)) }
{
    let name = name.unwrap_or("IN");
    if !name.starts_with('-') {
        return Ok(quoted(alloc, name)?);
    }
    let path = format!(in alloc; "./{name}")?;
    Ok(quoted(alloc, path.as_str())?)
}

/// The bytes in hexadecimal, a space between two; no more of them than `most`.
pub(crate) fn hex_text(alloc: Global, bytes: &[u8], most: usize) -> Result<String, Memory> {
    let mut text = String::new(alloc);
    for place in 0..bytes.len().min(most) {
        let byte = bytes[place];
        let space = if place == 0 { "" } else { " " };
        write!(text, "{space}{byte:02x}")?;
    }
    if bytes.len() > most {
        text.push_str(" ..")?;
    }
    Ok(text)
}

/// What a type is called where it stands alone: its name, or where it has none, `type` and its id.
pub(crate) fn type_name(alloc: Global, table: &Table, id: TypeId) -> Result<String, Memory> {
    let basic = basic_name(id);
    if !basic.is_empty() {
        return Ok(String::from_str(alloc, basic)?);
    }
    if let Some(shape) = table.shape_of(id) {
        if !shape.name.as_bytes().is_empty() {
            return name_text(alloc, shape.name.as_bytes());
        }
    }
    Ok(format!(in alloc; "type {id}")?)
}

/// A type by its id, and by its name where it has one.
pub(crate) fn type_text(alloc: Global, table: &Table, id: TypeId) -> Result<String, Memory> {
    let basic = basic_name(id);
    if !basic.is_empty() {
        return Ok(format!(in alloc; "type {id}, {basic}")?);
    }
    if let Some(shape) = table.shape_of(id) {
        if !shape.name.as_bytes().is_empty() {
            let name = name_text(alloc, shape.name.as_bytes())?;
            return Ok(format!(in alloc; "type {id}, {name}")?);
        }
    }
    Ok(format!(in alloc; "type {id}")?)
}

// Go's name of a basic type.
fn basic_name(id: TypeId) -> &'static str {
    match id.0 {
        1 => "bool",
        2 => "int",
        3 => "uint",
        4 => "float64",
        5 => "[]byte",
        6 => "string",
        7 => "complex128",
        8 => "interface{}",
        _ => "",
    }
}

/// The ending of a noun behind this number.
pub(crate) fn plural(number: u64) -> &'static str {
    if number == 1 { "" } else { "s" }
}
