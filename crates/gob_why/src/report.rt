//! What is said of a stream.

use crate::cause::{Cause, cause_text};
use crate::front_cause::cause_at_front;
use crate::item_cause::item_cause;
use crate::kept::Kept;
use crate::marks::rest_from;
use crate::place::{FaultPlace, place_behind};
use crate::scene::Scene;
use crate::sentence::{usual_cause, usual_step, what};
use crate::step::{step_text, with_file};
use crate::words::{file_text, hex_text, plural, type_text};
use gob_num::Memory;
use gob_types::{Reason, Table, TypeId};
use std::alloc::Global;

// How many bytes are shown that stand at the place.
const MOST_FOUND: usize = 16;

/// What is said of a refusal behind its line, where the input is the file of this name.
pub(crate) fn refusal_words(
    alloc: Global,
    scene: &Scene<'_>,
    name: Option<&str>,
) -> Result<String, Memory> {
    let place = place_behind(alloc, scene.table, scene.before(), scene.refusal.reason)?;
    let mut text = String::new(alloc);
    let what = what(scene.refusal.reason);
    write!(text, "what: {what}\n")?;
    push_where(scene, &place, &mut text)?;
    push_found(alloc, scene, &place, &mut text)?;
    let file = file_text(alloc, name)?;
    push_cause(alloc, scene, file.as_str(), &mut text)?;
    Ok(text)
}

// Which item it is, and where in its value.
fn push_where(scene: &Scene<'_>, place: &FaultPlace, text: &mut String) -> Result<(), Memory> {
    let items = scene.kept.items;
    let begin = scene.kept.begin;
    write!(text, "where: item {items}")?;
    if !place.path.is_empty() {
        let path = place.path.as_str();
        write!(text, ", {path}")?;
    }
    if place.item.is_empty() {
        write!(text, ", which begins at byte {begin}\n")?;
    } else {
        let item = place.item.as_str();
        write!(text, ": {item}, which begins at byte {begin}\n")?;
    }
    Ok(())
}

// What is due there, and what stands there.
fn push_found(
    alloc: Global,
    scene: &Scene<'_>,
    place: &FaultPlace,
    text: &mut String,
) -> Result<(), Memory> {
    let due = place.due.as_str();
    let offset = scene.refusal.place;
    write!(text, "expected: {due}\n")?;
    let found = found_text(alloc, scene)?;
    let found = found.as_str();
    write!(text, "found: {found}, at byte {offset}\n")?;
    Ok(())
}

// What stands at the place.
fn found_text(alloc: Global, scene: &Scene<'_>) -> Result<String, Memory> {
    match scene.refusal.reason {
        Reason::Ended => Ok(String::from_str(alloc, "the end of the input")?),
        Reason::Short => Ok(String::from_str(alloc, "the end of the item")?),
        _ => {
            let rest = rest_from(scene.item(), scene.place());
            if rest.is_empty() {
                return Ok(String::from_str(alloc, "no byte that was read")?);
            }
            let shown = scene
                .refusal
                .seen
                .saturating_sub(scene.refusal.place)
                .max(1);
            let end = shown.min(rest.len() as u64) as usize;
            hex_text(alloc, &rest[..end], MOST_FOUND)
        }
    }
}

// What is behind it, and what to do with the file.
fn push_cause(
    alloc: Global,
    scene: &Scene<'_>,
    file: &str,
    text: &mut String,
) -> Result<(), Memory> {
    let found = cause_of(alloc, scene)?;
    let cause = said_cause(alloc, found, scene)?;
    let cause = cause.as_str();
    write!(text, "cause: {cause}\n")?;
    let step = said_step(alloc, found, scene, file)?;
    let step = step.as_str();
    write!(text, "next: {step}\n")?;
    Ok(())
}

fn said_cause(alloc: Global, found: Option<Cause>, scene: &Scene<'_>) -> Result<String, Memory> {
    match found {
        Some(cause) => cause_text(alloc, cause),
        None => {
            let usual = usual_cause(scene.refusal.reason, scene.kept.items);
            Ok(String::from_str(alloc, usual)?)
        }
    }
}

fn said_step(
    alloc: Global,
    found: Option<Cause>,
    scene: &Scene<'_>,
    file: &str,
) -> Result<String, Memory> {
    match found {
        Some(cause) => step_text(alloc, cause, file),
        None => {
            let usual = usual_step(scene.refusal.reason, scene.kept.items);
            with_file(alloc, usual, file)
        }
    }
}

// The first cause that the bytes show.
fn cause_of(alloc: Global, scene: &Scene<'_>) -> Result<Option<Cause>, Memory> {
    if scene.kept.items == 0 {
        if let Some(cause) = cause_at_front(alloc, scene.item(), scene.limits)? {
            return Ok(Some(cause));
        }
    }
    item_cause(alloc, scene)
}

/// What is said of a whole stream behind its line: how many values of each type it has.
pub(crate) fn whole_words(alloc: Global, table: &Table, kept: &Kept) -> Result<String, Memory> {
    let mut text = String::new(alloc);
    for (id, count) in kept.values.iter() {
        let count = *count;
        let s = plural(count);
        let name = type_text(alloc, table, TypeId(*id))?;
        let name = name.as_str();
        write!(text, "{count} value{s} of {name}\n")?;
    }
    Ok(text)
}
