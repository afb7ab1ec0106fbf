//! The fields of a struct, found by the names of members.

ghost use Rattle.std.specs.Prelude.{◌≡◌, ◌↔◌, IfOk, IfSome, IsTrue, None};
ghost use Rattle.std.specs.Option.{ForSome};
ghost use Rattle.std.specs.String.{string_bytes};
ghost use Rattle.gob_plain.specs.Plain.{name_text};
ghost use Rattle.gob_make.specs.Names.{KnowsNames};
ghost use Rattle.gob_make.specs.Plain.{HasName, IsUnknown};

use gob_lines::is_same;
use gob_num::Memory;
use gob_plain::hex_name;
use gob_types::Field;
use std::alloc::{AllocError, Global};
use std::collections::BTreeMap;
use std::str;

// How often the fields are gone through for a name, before the names are put in order.
const SEARCHES: usize = 64;

/// The fields of a struct, found by the names of members. Members mostly stand in the order of the fields, so the next
/// field is looked at first. Where it is another one the fields are gone through, but not often: then the names are put
/// in order, so that the time grows little faster than the number of fields and that of members.
pub(crate) struct FieldNames<'s> {
    alloc: Global,
    types: &'s [Field],
    // The number behind that of the field that was found last.
    next: usize,
    // How often the fields were gone through.
    searches: usize,
    // The number of the field of each name, once the names are in order.
    numbers: Option<BTreeMap<String, usize>>,
    ghost known: { ForSome numbers (λ m. KnowsNames types.now 0 m) },
}

// Not derived, so that a drop is one call in the proofs of what owns one.
impl<'s> Drop for FieldNames<'s> {
    fn drop(self) {
        let FieldNames {
            alloc: _,
            types: _,
            next: _,
            searches: _,
            numbers: _,
        } = self;
    }
}

impl<'s> FieldNames<'s> {
    /// The names of these fields, none of which was found yet.
    pub(crate) fn new(alloc: Global, types: &'s [Field]) -> FieldNames<'s>
        ensures { result.types.now ≡ types.now }
    {
        FieldNames {
            alloc,
            types,
            next: 0,
            searches: 0,
            numbers: None,
        }
    }

    /// The number of a field of this name: of the one behind the field that was found last, if it has it, or of the
    /// first that has.
    pub(crate) fn number_of(&mut self, name: &str) -> Result<Option<usize>, Memory>
        ensures found { IfOk result (λ found. IfSome found (λ number. HasName self.old.types.now number name.now)) }
        ensures none { IfOk result (λ found. found ≡ None → IsUnknown self.old.types.now name.now) }
        ensures types { self.new.types.now ≡ self.old.types.now }
    {
        let found = self.find(name)?;
        if let Some(number) = found {
            self.next = number.saturating_add(1);
        }
        Ok(found)
    }

    // The number of a field of this name.
    fn find(&mut self, name: &str) -> Result<Option<usize>, Memory>
        ensures found { IfOk result (λ found. IfSome found (λ number. HasName self.old.types.now number name.now)) }
        ensures none { IfOk result (λ found. found ≡ None → IsUnknown self.old.types.now name.now) }
        ensures types { self.new.types.now ≡ self.old.types.now }
    {
        if self.next < self.types.len() && is_named(self.alloc, &self.types[self.next], name)? {
            return Ok(Some(self.next));
        }
        if let Some(numbers) = &self.numbers {
            return Ok(numbers.get(name).copied());
        }
        if self.searches < SEARCHES {
            self.searches += 1;
            return first_named(self.alloc, self.types, name);
        }
        let numbers = numbers_of(self.alloc, self.types)?;
        let found = numbers.get(name).copied();
        self.numbers = Some(numbers);
        Ok(found)
    }
}

// The number of the first field of this name.
fn first_named(alloc: Global, types: &[Field], name: &str) -> Result<Option<usize>, Memory>
    ensures found { IfOk result (λ found. IfSome found (λ number. HasName types.now number name.now)) }
    ensures none { IfOk result (λ found. found ≡ None → IsUnknown types.now name.now) }
{
    'numbers: for number in 0..types.len() {
        if is_named(alloc, &types[number], name)? {
            return Ok(Some(number));
        }
    }
    Ok(None)
}

// Whether the field has this name, which is 0x and its bytes in hexadecimal where these aren't UTF-8.
fn is_named(alloc: Global, field: &Field, name: &str) -> Result<bool, Memory>
    ensures { IfOk result (λ is. IsTrue is ↔ (name_text field.now.name ≡ name.now)) }
{
    let bytes = field.name.as_bytes();
    match str::from_utf8(bytes) {
        Ok(text) => Ok(is_same(text, name)),
        Err(_) => Ok(is_same(hex_name(alloc, bytes)?.as_str(), name)),
    }
}

// The number of the field of each name: of several of one name that of the first.
fn numbers_of(alloc: Global, types: &[Field]) -> Result<BTreeMap<String, usize>, Memory>
    ensures { IfOk result (λ numbers. KnowsNames types.now 0 numbers) }
{
    let mut numbers = BTreeMap::new(alloc);
    let mut left = types.len();
    'names: while left > 0 {
        left -= 1;
        let name = text_of(alloc, types[left].name.as_bytes())?;
        numbers.insert(name, left)?;
    }
    Ok(numbers)
}

// The text of a name.
fn text_of(alloc: Global, name: &[u8]) -> Result<String, AllocError>
    ensures { IfOk result (λ text. string_bytes text ≡ name_text name.now) }
{
    match str::from_utf8(name) {
        Ok(text) => String::from_str(alloc, text),
        Err(_) => hex_name(alloc, name),
    }
}
