//! What type numbers say, and counts of items and of segments.

use crate::text::names::push_type_name;
use gob_num::to_signed;
use gob_types::{Shapes, TypeId};
use std::alloc::{AllocError, Global};

/// What a type number says.
pub(crate) fn type_meaning<S: Shapes>(
    alloc: Global,
    shapes: &S,
    number: u64,
) -> Result<String, AllocError> {
    let signed = to_signed(number);
    let id = signed.unsigned_abs();
    if signed < 0 {
        return format!(in alloc; "defines type {id}");
    }
    let mut name = String::new(alloc);
    push_type_name(alloc, shapes, TypeId(id), &mut name)?;
    let mut meaning = format!(in alloc; "a value of type {id}")?;
    if !name.is_empty() {
        meaning.push_str(", ")?;
        meaning.push_str(name.as_str())?;
    }
    Ok(meaning)
}

/// What the count of something says, which is called so.
pub(crate) fn size_meaning(alloc: Global, what: &str, count: u64) -> Result<String, AllocError> {
    let noun = if count == 1 { "byte" } else { "bytes" };
    format!(in alloc; "{what} of {count} {noun}")
}
