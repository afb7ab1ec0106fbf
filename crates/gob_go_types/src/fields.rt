//! The fields that gob sends.

ghost use Rattle.std.specs.Prelude.{◌≡◌, ◌∷◌, ◌++◌, [], IfOk, OnOk, Some, chars};
ghost use Rattle.gob_go_types.specs.Fields.{EmbeddedName, SendsNames, are_none, begins_with_capital, exported};
ghost use Rattle.gob_go_types.specs.Fields.{fields_of, is_capital, is_exported, last_name};

use crate::code::Code;
use crate::fault::TypesFault;
use gob_go_source::{GoField, GoType};
use gob_types::{Field, Name, TypeId};
use std::alloc::{AllocError, Global};
use std::str;
use ucd_category::GeneralCategory;

/// The names of the fields of a line that other packages see: gob sends no others.
pub(crate) fn exported_names<'a>(
    code: &Code<'_, 'a>,
    line: &GoField<'a>,
) -> Result<Vec<&'a [u8]>, TypesFault<'a>>
    ensures { IfOk result (λ names. SendsNames code.now.source.now line.now names.items) }
{
    let mut names = Vec::new(code.alloc);
    let embedded = are_none(line.names.as_slice());
    if embedded {
        let name = embedded_name(code, line.of)?;
        push_exported(name, &mut names)?;
        return Ok(names);
    }
    for name in &line.names {
        push_exported(*name, &mut names)?;
    }
    Ok(names)
}

/// Whether there are no names.
pub(crate) fn are_none(names: &[&[u8]]) -> bool
    ensures { result ≡ are_none names.now }
{
    matches!(names, [])
}

// Appends a name that other packages see.
fn push_exported<'a>(name: &'a [u8], names: &mut Vec<&'a [u8]>) -> Result<(), AllocError>
    ensures { OnOk result (names.new.items ≡ names.old.items ++ exported (name.entry ∷ [])) }
{
    if is_exported(name) {
        names.push(name)?;
    }
    Ok(())
}

// Whether other packages see what has the name.
fn is_exported(name: &[u8]) -> bool
    ensures { result ≡ is_exported name.now }
{
    match str::from_utf8(name) {
        Ok(text) => begins_with_capital(text),
        Err(_) => false,
    }
}

// Whether the first character of the text is an upper-case letter.
fn begins_with_capital(text: &str) -> bool
    ensures { result ≡ begins_with_capital (chars text.now) }
{
    match text.chars().next() {
        Some(first) => is_capital(first),
        None => false,
    }
}

// Whether the character is an upper-case letter of Unicode.
fn is_capital(character: char) -> bool
    ensures { result ≡ is_capital character }
{
    GeneralCategory::for_char(character).number() == GeneralCategory::UppercaseLetter.number()
}

// The name of a field that is embedded as the type at a place, or as a pointer to one.
fn embedded_name<'a>(code: &Code<'_, 'a>, place: usize) -> Result<&'a [u8], TypesFault<'a>>
    ensures { IfOk result (λ name. EmbeddedName code.now.source.now place name) }
{
    let found = code.type_at(place)?;
    if let GoType::Pointer(to) = found {
        let under = code.type_at(*to)?;
        return last_name(under);
    }
    last_name(found)
}

// The name of a type without its package.
fn last_name<'a>(found: &GoType<'a>) -> Result<&'a [u8], TypesFault<'a>>
    ensures { IfOk result (λ name. last_name found.now ≡ Some name) }
{
    match found {
        GoType::Name(name) => Ok(*name),
        GoType::Qualified(_, name) => Ok(*name),
        _ => Err(TypesFault::Broken),
    }
}

/// Appends fields of these names and one type.
pub(crate) fn push_fields(
    alloc: Global,
    names: &[&[u8]],
    id: TypeId,
    fields: &mut Vec<Field>,
) -> Result<(), AllocError>
    ensures { OnOk result (fields.new.items ≡ fields.old.items ++ fields_of id names.now) }
{
    for name in names {
        let name = Name::new(name.to_vec(alloc)?);
        fields.push(Field { name, id })?;
    }
    Ok(())
}
