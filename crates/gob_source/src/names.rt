//! Names of types.

ghost use Rattle.std.specs.Prelude.{◌≡◌, ◌&&◌, bytes_eq, chars, if◌then◌else◌, length};
ghost use Rattle.std.specs.List.{list_all, list_any};
ghost use Rattle.gob_source.specs.Adds.{Adds};
ghost use Rattle.gob_source.specs.Names.{ends_in_number, is_digit, is_identifier, is_identifier_text, is_letter};
ghost use Rattle.gob_source.specs.Names.{is_letter_or_digit, is_numbered, is_reserved};
ghost use Rattle.gob_source.specs.Names.{is_two_digits, name_width, own_name};

use crate::declared::Declared;
use crate::text::{push_number, push_text};
use gob_types::{Shapes, TypeId};
use std::alloc::AllocError;
use std::str;
use ucd_category::{GeneralCategory, GeneralCategoryGroup};

// A longer name is no identifier: a name stands wherever its type is referred to, and the types of a struct's fields
// stand behind the longest name.
const LONGEST: usize = 255;

// Go's keywords; the names of Go's own that this source uses, of types, packages, values and functions; those of the
// values of its methods; those that no type of a program may have; and those of the functions of a program.
const RESERVED: [&[u8]; 60] = [
    b"break",
    b"case",
    b"chan",
    b"const",
    b"continue",
    b"default",
    b"defer",
    b"else",
    b"fallthrough",
    b"for",
    b"func",
    b"go",
    b"goto",
    b"if",
    b"import",
    b"interface",
    b"map",
    b"package",
    b"range",
    b"return",
    b"select",
    b"struct",
    b"switch",
    b"type",
    b"var",
    b"bool",
    b"int",
    b"uint",
    b"float64",
    b"byte",
    b"string",
    b"complex128",
    b"error",
    b"nil",
    b"big",
    b"netip",
    b"time",
    b"url",
    b"value",
    b"data",
    b"_",
    b"init",
    b"main",
    b"bufio",
    b"gob",
    b"json",
    b"fmt",
    b"io",
    b"log",
    b"os",
    b"reflect",
    b"int64",
    b"uint64",
    b"copy",
    b"len",
    b"new",
    b"newValue",
    b"nextType",
    b"readNumber",
    b"typeID",
];

/// Whether Go takes the name as an identifier: letters and digits of Unicode, and underlines, no digit first.
pub(crate) fn is_identifier(name: &[u8]) -> bool
    ensures { result ≡ is_identifier name.now }
{
    if name.len() > LONGEST {
        return false;
    }
    match str::from_utf8(name) {
        Ok(text) => is_identifier_text(text),
        Err(_) => false,
    }
}

// Whether the text is a letter, and then letters and digits.
fn is_identifier_text(text: &str) -> bool
    ensures { result ≡ is_identifier_text (chars text.now) }
{
    let mut begun = false;
    let mut fits = false;
    for character in text.chars() {
        fits = fits_behind(begun, fits, character);
        begun = true;
    }
    fits
}

// Whether a character is a letter, or behind others that fit a letter or a digit.
fn fits_behind(begun: bool, fits: bool, character: char) -> bool
    ensures { result ≡ (if begun then fits && is_letter_or_digit character else is_letter character) }
{
    if begun {
        fits && is_letter_or_digit(character)
    } else {
        is_letter(character)
    }
}

fn is_letter(character: char) -> bool
    ensures { result ≡ is_letter character }
{
    GeneralCategoryGroup::Letter.contains(GeneralCategory::for_char(character)) || character == '_'
}

fn is_letter_or_digit(character: char) -> bool
    ensures { result ≡ is_letter_or_digit character }
{
    let category = GeneralCategory::for_char(character);
    is_letter(character) || category.number() == GeneralCategory::DecimalNumber.number()
}

/// The columns in which gofmt reckons with a name: one for each character.
pub(crate) fn name_width(name: &[u8]) -> usize
    ensures { result ≡ name_width name.now }
{
    match str::from_utf8(name) {
        Ok(text) => count_of(text),
        Err(_) => name.len(),
    }
}

// How many characters the text has.
fn count_of(text: &str) -> usize
    ensures { result ≡ length (chars text.now) }
{
    text.chars().count()
}

/// Whether Go has another use for the name.
pub(crate) fn is_reserved(name: &[u8]) -> bool
    ensures { result ≡ is_reserved name.now }
{
    is_word(name, &RESERVED)
}

/// Whether the name is one of the words.
pub(crate) fn is_word(name: &[u8], words: &[&[u8]]) -> bool
    ensures { result ≡ list_any (λ word. bytes_eq word.now name.now) words.now }
{
    for word in words {
        if *word == name {
            return true;
        }
    }
    false
}

/// Appends the name under which the type of this name is declared.
pub(crate) fn push_own<S: Shapes>(
    types: &Declared<'_, S>,
    id: TypeId,
    name: &[u8],
    out: &mut Vec<u8>,
) -> Result<(), AllocError>
    ensures { Adds result out.old.items out.new.items
        (own_name (S.table types.now.shapes.now) types.now.ids.now id name.now) }
{
    if !is_identifier(name) {
        push_text(b"T", out)?;
        return push_number(id.0, out);
    }
    push_text(name, out)?;
    if is_reserved(name) || is_numbered(name) || types.is_taken(id, name) {
        push_text(b"_", out)?;
        return push_number(id.0, out);
    }
    Ok(())
}

// Whether the name looks like one that was made with an id: T66, or Point_66.
fn is_numbered(name: &[u8]) -> bool
    ensures { result ≡ is_numbered name.now }
{
    match name {
        [84, rest @ ..] if is_two_digits(rest) => true,
        _ => ends_in_number(name),
    }
}

// Whether the end of the name is an underline and at least two digits.
fn ends_in_number(name: &[u8]) -> bool
    ensures { result ≡ ends_in_number name.now }
{
    for index in 0..name.len() {
        if name[index] == 95 && is_two_digits(&name[index + 1..]) {
            return true;
        }
    }
    false
}

fn is_two_digits(text: &[u8]) -> bool
    ensures { result ≡ is_two_digits text.now }
{
    text.len() >= 2 && are_digits(text)
}

fn are_digits(text: &[u8]) -> bool
    ensures { result ≡ list_all is_digit text.now }
{
    text.iter().all(|c| is_digit(*c))
}

fn is_digit(c: u8) -> bool
    ensures { result ≡ is_digit c }
{
    48 <= c && c <= 57
}
