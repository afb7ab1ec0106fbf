//! What the views of a tape show.

use gob_num::Memory;
use gob_tape::{Tape, ValueKind, View};
use gob_test_rows::number;
use std::alloc::Global;
use std::str::SplitWhitespace;

/// Whether these are the parts of the tape, level by level: each part's kind, field number, numbers and bytes.
pub(crate) fn are_parts(alloc: Global, tape: &Tape, due: &str) -> Result<bool, Memory> {
    let mut words = due.split_whitespace();
    let mut views = Vec::new(alloc);
    views.push(tape.root())?;
    // (A part has words of its own, so there are fewer parts than letters.)
    for place in 0..due.len() {
        let Some(view) = views.get(place).copied() else {
            return Ok(words.next().is_none());
        };
        if !is_part(view, &mut words) {
            return Ok(false);
        }
        add_parts(&mut views, view)?;
    }
    Ok(false)
}

// The parts of a part come behind the others.
fn add_parts<'a>(views: &mut Vec<View<'a>>, view: View<'a>) -> Result<(), Memory> {
    for child in view.children() {
        views.push(child)?;
    }
    Ok(())
}

// Whether the next words are its kind, its field number, its numbers and its bytes; `-` stands for no number and for no
// bytes.
fn is_part(view: View<'_>, words: &mut SplitWhitespace<'_>) -> bool {
    let is_kind = next(words) == name(view.kind());
    let is_field = is_field(view.field(), next(words));
    let numbers = (number(next(words), 0), number(next(words), 0));
    let is_text = is_text(view.bytes(), next(words));
    is_kind && is_field && view.numbers() == numbers && is_text
}

fn next<'a>(words: &mut SplitWhitespace<'a>) -> &'a str {
    words.next().unwrap_or("")
}

fn is_field(field: Option<u64>, due: &str) -> bool {
    match field {
        Some(field) => number(due, 0) == field,
        None => due == "-",
    }
}

/// Whether these are the bytes of the text; `-` stands for none.
pub(crate) fn is_text(bytes: &[u8], due: &str) -> bool {
    if bytes.is_empty() {
        due == "-"
    } else {
        bytes == due.as_bytes()
    }
}

fn name(kind: ValueKind) -> &'static str {
    match kind {
        ValueKind::Bool => "Bool",
        ValueKind::Int => "Int",
        ValueKind::Uint => "Uint",
        ValueKind::Float => "Float",
        ValueKind::Complex => "Complex",
        ValueKind::Bytes => "Bytes",
        ValueKind::Str => "Str",
        ValueKind::Nil => "Nil",
        ValueKind::Many => "Many",
        ValueKind::Pairs => "Pairs",
        ValueKind::Fields => "Fields",
        ValueKind::Opaque => "Opaque",
    }
}
