//! What is said of refused bytes.

use crate::marks::rest_from;
use crate::scene::Scene;
use gob_explain::{Reached, path_text, path_to, push_expected, push_line, push_type_name};
use gob_num::Memory;
use gob_types::Reason;
use std::alloc::{AllocError, Global};

// So many refused bytes are shown.
const SHOWN: usize = 8;

/// What stands behind the lines of the bytes that aren't refused: the refused ones, and what is expected there. Where a
/// description is refused whose bytes are well formed, which line is wrong.
pub(crate) fn refused_words(
    alloc: Global,
    scene: &Scene<'_>,
    front: &[u8],
    reached: &Reached,
) -> Result<String, Memory> {
    let mut text = String::new(alloc);
    let wrong = wrong_row(scene.refusal.reason);
    if wrong.is_none() {
        push_marked(scene, &mut text)?;
    }
    let reason = scene.refusal.reason;
    let place = scene.refusal.place;
    write!(text, "\n{reason} at {place}")?;
    push_where(alloc, scene, front, reached, &mut text)?;
    match wrong {
        Some(sentence) => text.push_str(sentence)?,
        None => push_awaited(alloc, scene, reached, &mut text)?,
    }
    text.push_str(".\n")?;
    Ok(text)
}

// Marks the refused bytes.
fn push_marked(scene: &Scene<'_>, out: &mut String) -> Result<(), AllocError> {
    let rest = rest_from(scene.item(), scene.place());
    let seen = scene.refusal.seen.saturating_sub(scene.refusal.place);
    let end = seen.clamp(1, SHOWN as u64) as usize;
    let bytes = &rest[..end.min(rest.len())];
    push_line(scene.refusal.place, bytes, 0, "<- refused here", out)
}

// Says in which part of the value.
fn push_where(
    alloc: Global,
    scene: &Scene<'_>,
    front: &[u8],
    reached: &Reached,
    out: &mut String,
) -> Result<(), Memory> {
    let Some(id) = reached.id else {
        return Ok(());
    };
    let path = path_to(alloc, scene.table, id, rest_from(front, reached.body))?;
    let mut whole = String::new(alloc);
    push_type_name(alloc, scene.table, id, &mut whole)?;
    whole.push_str(path_text(alloc, scene.table, &path)?.as_str())?;
    if whole.is_empty() {
        return Ok(());
    }
    out.push_str(", in ")?;
    Ok(out.push_str(whole.as_str())?)
}

// Says what is expected.
fn push_awaited(
    alloc: Global,
    scene: &Scene<'_>,
    reached: &Reached,
    out: &mut String,
) -> Result<(), AllocError> {
    out.push_str(". Expected: ")?;
    if reached.id.is_none() {
        let what = if reached.place == 0 {
            "the count of an item"
        } else {
            "a type number"
        };
        return out.push_str(what);
    }
    match &reached.awaited {
        Some(awaited) => push_expected(alloc, scene.table, awaited, out),
        None => out.push_str("the end of the item"),
    }
}

// Which line of a description is wrong whose bytes are well formed.
fn wrong_row(reason: Reason) -> Option<&'static str> {
    match reason {
        Reason::KindCount => Some(". A wireType has exactly one field"),
        Reason::WrongId => Some(". The row Id of CommonType isn't the id that is defined"),
        Reason::BadReference => {
            Some(". A row Elem, Key or Id has no id of a type: it is 1 to 2147483647, but not 24")
        }
        Reason::BadLength => Some(". The row Len is below 0"),
        _ => None,
    }
}
