//! What is behind a refusal, found in the bytes of its item.

use crate::cause::Cause;
use crate::front_cause::{FRONT, are_items, items_in, stream_in};
use crate::marks::{front_to, is_replaced, rest_from, without_returns, zeros_at_front};
use crate::scene::{FIRST_DEFINED, Scene};
use crate::trial::{defines_alike, depth_of, is_value};
use gob_forms::{begins_item, chain_from, defines_at, head_of, is_text};
use gob_num::Memory;
use gob_stream::Limits;
use gob_types::{Reason, Shapes, TypeId};
use std::alloc::Global;

// So many zeros are no accident.
const MANY_ZEROS: usize = 8;

// What stands behind the last item, as a checksum or a length does, has no more bytes.
const MOST_BEHIND: usize = 64;

/// The first cause that they show.
pub(crate) fn item_cause(alloc: Global, scene: &Scene<'_>) -> Result<Option<Cause>, Memory> {
    if is_replaced(rest_from(scene.item(), scene.place())) {
        return Ok(Some(Cause::Replaced));
    }
    if has_returns(alloc, scene)? {
        return Ok(Some(Cause::Returns));
    }
    if let Some(cause) = cause_by_reason(alloc, scene)? {
        return Ok(Some(cause));
    }
    if let Some(cause) = cause_around(scene) {
        return Ok(Some(cause));
    }
    if scene.kept.items == 0 {
        return lost_front(alloc, scene);
    }
    cut_off(alloc, scene)
}

// Whether the item is whole without the carriage returns before its line feeds, and has some.
fn has_returns(alloc: Global, scene: &Scene<'_>) -> Result<bool, Memory> {
    let item = without_returns(alloc, scene.item())?;
    let Some(head) = head_of(&item) else {
        return Ok(false);
    };
    if !head.is_whole_in(&item) || item.len() == scene.item().len() {
        return Ok(false);
    }
    let id = if head.defines {
        TypeId::WIRE_TYPE
    } else {
        head.id
    };
    let body = head.body_in(&item);
    let is_otherwise = !scene.item().starts_with(&item[..head.end_in(&item)]);
    Ok(is_otherwise && is_value(alloc, scene.table, id, body, scene.limits.depth())?)
}

fn cause_by_reason(alloc: Global, scene: &Scene<'_>) -> Result<Option<Cause>, Memory> {
    match scene.refusal.reason {
        Reason::DefinedTwice(id) => another_stream(alloc, scene, id),
        Reason::ItemTooLong => Ok(item_limit(scene)),
        Reason::TooDeep => depth_limit(alloc, scene),
        Reason::UndefinedType(id) if id.0 >= FIRST_DEFINED => Ok(no_beginning(scene)),
        _ => Ok(None),
    }
}

// What the bytes from the start of the item on show.
fn cause_around(scene: &Scene<'_>) -> Option<Cause> {
    if let Some(cause) = text_behind(scene) {
        return Some(cause);
    }
    if scene.refusal.reason == Reason::Ended {
        return None;
    }
    if let Some(cause) = zeros_in(scene) {
        return Some(cause);
    }
    damaged(scene)
}

// Another stream that begins with the item, a definition of a type that is defined already.
fn another_stream(alloc: Global, scene: &Scene<'_>, id: TypeId) -> Result<Option<Cause>, Memory> {
    let Some(shape) = scene.table.shape_of(id) else {
        return Ok(None);
    };
    match defines_alike(alloc, scene.item(), id, shape, scene.limits)? {
        Some(is_same) => Ok(Some(Cause::AnotherStream { id, is_same })),
        None => Ok(None),
    }
}

// How many bytes the item has, where its own count is refused, and the type that it names may come.
fn item_limit(scene: &Scene<'_>) -> Option<Cause> {
    if scene.place() > 0 {
        return None;
    }
    let head = head_of(scene.item())?;
    let may_come = if head.defines {
        scene.table.admits(head.id).is_ok()
    } else {
        scene.table.kept(head.id)
    };
    if !may_come {
        return None;
    }
    Some(Cause::ItemLimit {
        limit: scene.limits.item(),
        needed: head.count,
    })
}

// The depth of the value, where it is one.
fn depth_limit(alloc: Global, scene: &Scene<'_>) -> Result<Option<Cause>, Memory> {
    let Some(head) = head_of(scene.item()) else {
        return Ok(None);
    };
    let body = head.body_in(scene.item());
    if head.defines || !head.is_whole_in(scene.item()) {
        return Ok(None);
    }
    match depth_of(alloc, scene.table, head.id, body, Limits::GREATEST_DEPTH)? {
        Some(needed) => Ok(Some(Cause::DepthLimit {
            limit: scene.limits.depth(),
            needed,
        })),
        None => Ok(None),
    }
}

// Where the first items are values whose types nothing defines.
fn no_beginning(scene: &Scene<'_>) -> Option<Cause> {
    if scene.kept.items > 0 {
        return None;
    }
    let chain = chain_from(scene.item(), 0, 1);
    if (chain.items == 1 && chain.is_to_end) || are_items(scene.item(), 0) {
        return Some(Cause::NoBeginning);
    }
    None
}

// Text behind the last item.
fn text_behind(scene: &Scene<'_>) -> Option<Cause> {
    let begin = scene.kept.begin;
    match scene.item() {
        _ if scene.kept.items == 0 => None,
        b"\n" | b"\r\n" => Some(Cause::LineFeed { begin }),
        [_, _, ..] if is_text(scene.item()) => Some(Cause::Behind { begin }),
        _ => None,
    }
}

// Zeros from the place on, or from the start of an item without bytes.
fn zeros_in(scene: &Scene<'_>) -> Option<Cause> {
    let is_empty_item = matches!(scene.item(), [0, ..]);
    let place = if is_empty_item { 0 } else { scene.place() };
    let rest = rest_from(scene.item(), place);
    let zeros = zeros_at_front(rest);
    if zeros < MANY_ZEROS && !(is_empty_item && zeros == rest.len()) {
        return None;
    }
    let begin = scene.kept.begin.saturating_add(place as u64);
    if zeros < rest.len() {
        // what stands before a stream, or between two, is none
        let is_before = place == 0 && (scene.kept.items == 0 || defines_at(rest, zeros));
        return if is_before {
            None
        } else {
            Some(Cause::Hole { zeros })
        };
    }
    if begin == 0 {
        return Some(Cause::OneByte { byte: 0 });
    }
    Some(Cause::ZerosToEnd { begin })
}

// A changed item whose count still stands: others follow where it says.
fn damaged(scene: &Scene<'_>) -> Option<Cause> {
    let item = scene.item();
    if is_missing(scene.refusal.reason) || !are_items(item, 0) {
        return None;
    }
    let end = head_of(item)?.end_in(item);
    Some(Cause::Damaged {
        end: scene.kept.begin.saturating_add(end as u64),
    })
}

// Whether the reason is a definition that isn't there, or one that Go's encoder doesn't write.
fn is_missing(reason: Reason) -> bool {
    match reason {
        Reason::UndefinedType(id) => id.0 >= FIRST_DEFINED,
        Reason::Bottomless(_)
        | Reason::KindCount
        | Reason::WrongId
        | Reason::BadReference
        | Reason::BadLength
        | Reason::NotMinimal
        | Reason::TooManyTypes
        | Reason::TooDeep => true,
        _ => false,
    }
}

// What stands before a stream or before its items, in place of the first item.
fn lost_front(alloc: Global, scene: &Scene<'_>) -> Result<Option<Cause>, Memory> {
    let front = front_to(scene.item(), FRONT);
    if let Some(bytes) = stream_in(alloc, front, scene.limits)? {
        return Ok(Some(Cause::Prefix { bytes }));
    }
    if let Some(bytes) = items_in(front) {
        return Ok(Some(Cause::LostFront { bytes }));
    }
    if scene.refusal.reason == Reason::Ended {
        return Ok(Some(Cause::Torn));
    }
    if scene.is_in_head() || !begins_item(scene.item()) {
        return Ok(Some(Cause::NoStream));
    }
    Ok(None)
}

// Where the item is cut off, and another stream may begin within it, or something else stands behind the last one.
fn cut_off(alloc: Global, scene: &Scene<'_>) -> Result<Option<Cause>, Memory> {
    let begin = scene.kept.begin;
    if let Some(stream) = stream_within(alloc, scene)? {
        if begins_item(scene.item()) {
            return Ok(Some(Cause::CutOff { begin, stream }));
        }
        return Ok(Some(Cause::Between { begin, stream }));
    }
    if scene.refusal.reason == Reason::Ended {
        return Ok(Some(Cause::Torn));
    }
    if is_behind(scene) {
        return Ok(Some(Cause::Behind { begin }));
    }
    Ok(None)
}

// The offset of a stream that begins near the place of the refusal, where no items follow the count of this one.
fn stream_within(alloc: Global, scene: &Scene<'_>) -> Result<Option<u64>, Memory> {
    if are_items(scene.item(), 0) {
        return Ok(None);
    }
    let from = scene.place().saturating_sub(FRONT);
    let bytes = front_to(rest_from(scene.item(), from), FRONT.saturating_mul(2));
    match stream_in(alloc, bytes, scene.limits)? {
        Some(place) => {
            let begin = scene.kept.begin.saturating_add(from as u64);
            Ok(Some(begin.saturating_add(place as u64)))
        }
        None => Ok(None),
    }
}

// Whether few bytes are left that begin no item.
fn is_behind(scene: &Scene<'_>) -> bool {
    let reason = scene.refusal.reason;
    scene.is_in_head()
        && scene.item().len() <= MOST_BEHIND
        && !is_missing(reason)
        && !matches!(reason, Reason::DefinedTwice(_))
}
