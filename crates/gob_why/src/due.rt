//! What is due in a part of a value.

use crate::words::{name_text, type_name};
use gob_num::Memory;
use gob_types::{Basic, Fields, Kind, Shapes, Table, TypeId};
use std::alloc::Global;

// How many fields of a struct are named.
const MOST_FIELDS: usize = 8;

/// What may come next in a part of this type.
pub(crate) fn due_in(alloc: Global, table: &Table, id: TypeId) -> Result<String, Memory> {
    let Some(shape) = table.shape_of(id) else {
        return Ok(String::from_str(alloc, "a type that is defined")?);
    };
    match &shape.kind {
        Kind::Basic(basic) => Ok(String::from_str(alloc, due_of_basic(*basic))?),
        Kind::Opaque(_) => {
            let name = type_name(alloc, table, id)?;
            Ok(format!(in alloc; "what a {name} wrote of itself: how many bytes, and then these")?)
        }
        Kind::Slice { .. } => Ok(String::from_str(alloc, "how many elements follow")?),
        Kind::Array { len, .. } => {
            let len = *len;
            Ok(format!(in alloc; "the array's length, which is {len}")?)
        }
        Kind::Map { .. } => {
            let due = "how many pairs of keys and elements follow";
            Ok(String::from_str(alloc, due)?)
        }
        Kind::Struct { fields } => due_in_struct(alloc, fields),
    }
}

fn due_of_basic(basic: Basic) -> &'static str {
    match basic {
        Basic::Bool => "a bool: 0 or 1",
        Basic::Int => "a whole number",
        Basic::Uint => "a whole number that isn't below 0",
        Basic::Float => "a float",
        Basic::Bytes => "bytes: how many, and then these",
        Basic::Str => "a text: how many bytes it has, and then these",
        Basic::Complex => "the two parts of a complex number",
        Basic::Interface => {
            "0 for an interface that holds nothing, or how many bytes the name has of what it holds"
        }
    }
}

fn due_in_struct(alloc: Global, fields: &Fields) -> Result<String, Memory> {
    let fields = fields.as_slice();
    let mut due = String::from_str(alloc, "0 for the end of the struct")?;
    for place in 0..fields.len().min(MOST_FIELDS) {
        let name = name_text(alloc, fields[place].name.as_bytes())?;
        let before = if place == 0 {
            ", or how far on the next field stands: of "
        } else {
            ", "
        };
        write!(due, "{before}{name}")?;
    }
    if fields.len() > MOST_FIELDS {
        due.push_str(" ..")?;
    }
    Ok(due)
}
