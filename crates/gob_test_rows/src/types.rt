//! Types in rows.
//!
//! Types are definitions with `;` between them: `65 struct A 2 B 66; 66 slice 65`. The kinds are `struct` with names
//! and ids, `array` with a length and an id, `slice` with an id, `map` with two, `opaque`, `binary` and `text`, which
//! say how the type marshals itself, and `basic`, which no definition gives. The name `0xff` is one byte.

use crate::row::number;
use gob_num::Memory;
use gob_types::{Basic, DefineFault, Field, Fields, Kind, Marshal, Name, Shape, Table, TypeId};
use std::alloc::{AllocError, Global};
use std::str::SplitWhitespace;

// The number that the next word is.
fn next_number(words: &mut SplitWhitespace<'_>) -> u64 {
    number(words.next().unwrap_or(""), 0)
}

// The id that the next word is.
fn next_id(words: &mut SplitWhitespace<'_>) -> TypeId {
    TypeId(next_number(words))
}

fn name_of(alloc: Global, word: &str) -> Result<Name, AllocError> {
    let bytes = if word == "0xff" {
        b"\xff".as_slice()
    } else {
        word.as_bytes()
    };
    Ok(Name::new(bytes.to_vec(alloc)?))
}

fn fields_of(alloc: Global, words: &mut SplitWhitespace<'_>) -> Result<Fields, AllocError> {
    let mut fields = Vec::new(alloc);
    for _ in 0..10000u32 {
        let Some(word) = words.next() else {
            break;
        };
        let name = name_of(alloc, word)?;
        let id = next_id(words);
        fields.push(Field { name, id })?;
    }
    Ok(Fields::new(fields))
}

// The kind that these words describe.
fn kind_of(alloc: Global, words: &mut SplitWhitespace<'_>) -> Result<Kind, AllocError> {
    match words.next() {
        Some("struct") => Ok(Kind::Struct {
            fields: fields_of(alloc, words)?,
        }),
        Some("array") => {
            let len = next_number(words);
            let elem = next_id(words);
            Ok(Kind::Array { elem, len })
        }
        Some("map") => {
            let key = next_id(words);
            let elem = next_id(words);
            Ok(Kind::Map { key, elem })
        }
        Some("slice") => Ok(Kind::Slice {
            elem: next_id(words),
        }),
        Some("basic") => Ok(Kind::Basic(Basic::Int)),
        Some("binary") => Ok(Kind::Opaque(Marshal::Binary)),
        Some("text") => Ok(Kind::Opaque(Marshal::Text)),
        _ => Ok(Kind::Opaque(Marshal::Gob)),
    }
}

/// The type that is defined first in a text, or named by it.
pub fn type_of(text: &str) -> TypeId {
    TypeId(number(text, 0))
}

/// The shape of a definition behind its id, without a name.
pub fn shape_of(alloc: Global, text: &str) -> Result<Shape, AllocError> {
    let kind = kind_of(alloc, &mut text.split_whitespace())?;
    Ok(Shape {
        name: Name::new(Vec::new(alloc)),
        kind,
    })
}

/// Defines a type, whose shape the text says behind its id. False where no definition can give such a shape.
pub fn define(
    alloc: Global,
    table: &mut Table,
    id: TypeId,
    text: &str,
) -> Result<bool, DefineFault> {
    let Ok(shape) = shape_of(alloc, text) else {
        return Err(DefineFault::Memory);
    };
    if !shape.definable() {
        return Ok(false);
    }
    table.define(alloc, id, shape)?;
    Ok(true)
}

/// The table of a text's definitions. What the table refuses isn't found later.
pub fn table_of(alloc: Global, text: &str) -> Result<Table, Memory> {
    let mut table = Table::new(alloc, 10000)?;
    for definition in text.split(';') {
        let (id, rest) = definition.trim().split_once(' ').unwrap_or(("", ""));
        if define(alloc, &mut table, type_of(id), rest) == Err(DefineFault::Memory) {
            return Err(Memory);
        }
    }
    Ok(table)
}
