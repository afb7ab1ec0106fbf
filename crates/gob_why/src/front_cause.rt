//! What is behind a refusal in the first item, found in the first bytes of the input.

use crate::cause::Cause;
use crate::length::length_cause;
use crate::marks::{has_line, rest_from};
use crate::trial::tried;
use gob_forms::{
    Form, Spelling, chain_from, defines_at, form_of, form_of_maps, form_of_wide, http_head,
    is_json, is_text, next_quoted,
};
use gob_num::Memory;
use gob_stream::Limits;
use std::alloc::Global;

/// No more of the first bytes is looked at.
pub(crate) const FRONT: usize = 65536;

// What gzip writes begins so.
const DEFLATED: &[u8] = b"\x1f\x8b\x08";

// The fewest bytes that tell that there is no other.
const MANY: usize = 16;

// The fewest letters of base64 that are looked at in a string of JSON.
const STRING: usize = 16;

// So many strings or definitions are tried.
const TRIES: u64 = 64;

// So many items, one behind another, are no accident.
const ENOUGH: u64 = 4;

/// The first cause that they show, of which these were read.
pub(crate) fn cause_at_front(
    alloc: Global,
    bytes: &[u8],
    limits: Limits,
) -> Result<Option<Cause>, Memory> {
    let front = &bytes[..bytes.len().min(FRONT)];
    if let Some(form) = form_at(front) {
        return Ok(Some(Cause::Form(form)));
    }
    if let Some(bytes) = http_head(front) {
        return Ok(Some(Cause::Http { bytes }));
    }
    if let Some(byte) = only_byte(front) {
        return Ok(Some(Cause::OneByte { byte }));
    }
    if let Some(cause) = text_cause(alloc, front, limits)? {
        return Ok(Some(cause));
    }
    length_cause(alloc, front, limits)
}

fn form_at(front: &[u8]) -> Option<Form> {
    if let Some(form) = form_of(front) {
        return Some(form);
    }
    if let Some(form) = form_of_wide(front) {
        return Some(form);
    }
    form_of_maps(front)
}

// The byte that each of many is.
fn only_byte(front: &[u8]) -> Option<u8> {
    let first = *front.first()?;
    if front.len() < MANY || front.iter().any(|byte| *byte != first) {
        return None;
    }
    Some(first)
}

// Text, which may spell a stream.
fn text_cause(alloc: Global, front: &[u8], limits: Limits) -> Result<Option<Cause>, Memory> {
    if let Some(cause) = spelled_cause(alloc, front, limits)? {
        return Ok(Some(cause));
    }
    if front.is_empty() || !is_text(front) {
        return Ok(None);
    }
    json_cause(alloc, front, limits)
}

// JSON, an object, an array or a string, or other text.
fn json_cause(alloc: Global, front: &[u8], limits: Limits) -> Result<Option<Cause>, Memory> {
    let is_json = is_json(front);
    if is_json || front.starts_with(b"\"") {
        if let Some(start) = json_string(alloc, front, limits)? {
            return Ok(Some(Cause::JsonString { start }));
        }
    }
    if is_json {
        return Ok(Some(Cause::Json));
    }
    Ok(Some(Cause::Text))
}

// A text that spells a stream, or what may be a packed one.
fn spelled_cause(alloc: Global, front: &[u8], limits: Limits) -> Result<Option<Cause>, Memory> {
    for spelling in Spelling::ALL {
        if let Some(bytes) = spelling.decode(alloc, front)? {
            if tried(alloc, &bytes, limits)?.is_front() {
                return Ok(Some(stream_spelled(spelling, front)));
            }
            if let Some(form) = packed_form(&bytes) {
                return Ok(Some(Cause::SpelledForm { spelling, form }));
            }
        }
    }
    Ok(None)
}

// A text that spells a stream so, or the front of one: a line of * in a dump stands for lines that are left out.
fn stream_spelled(spelling: Spelling, front: &[u8]) -> Cause {
    let is_dump = matches!(spelling, Spelling::Xxd | Spelling::Hexdump);
    if is_dump && has_line(front, b"\n*\n") {
        return Cause::ShortDump(spelling);
    }
    Cause::Spelled(spelling)
}

// The form of bytes that are packed, where its mark is no accident.
fn packed_form(bytes: &[u8]) -> Option<Form> {
    match form_of(bytes)? {
        Form::Gzip if !bytes.starts_with(DEFLATED) => None,
        form @ (Form::Gzip | Form::Zstd | Form::Xz | Form::Lz4) => Some(form),
        _ => None,
    }
}

// How a string of JSON begins that is base64 of a stream.
fn json_string(alloc: Global, front: &[u8], limits: Limits) -> Result<Option<[u8; 8]>, Memory> {
    let mut place = 0;
    for _ in 0..TRIES {
        let Some(quoted) = next_quoted(front, place) else {
            return Ok(None);
        };
        if quoted.text.len() >= STRING {
            if let Some(bytes) = Spelling::Base64.decode(alloc, quoted.text)? {
                if tried(alloc, &bytes, limits)?.is_front() {
                    return Ok(quoted.text.first_chunk::<8>().copied());
                }
            }
        }
        place = quoted.end.saturating_add(1);
    }
    Ok(None)
}

/// Where a stream begins behind the first of the bytes: with a definition, and a value behind it or the end.
pub(crate) fn stream_in(
    alloc: Global,
    bytes: &[u8],
    limits: Limits,
) -> Result<Option<usize>, Memory> {
    let mut tries = 0;
    for place in 1..bytes.len() {
        if tries < TRIES && defines_at(bytes, place) {
            tries += 1;
            if tried(alloc, rest_from(bytes, place), limits)?.begins() {
                return Ok(Some(place));
            }
        }
    }
    Ok(None)
}

/// Where items begin behind the first of the bytes, as their counts and type numbers say.
pub(crate) fn items_in(bytes: &[u8]) -> Option<usize> {
    for place in 1..bytes.len() {
        if are_items(bytes, place) {
            return Some(place);
        }
    }
    None
}

/// Whether items stand from the place on: two at least up to the end, or enough of them.
pub(crate) fn are_items(bytes: &[u8], place: usize) -> bool {
    let chain = chain_from(bytes, place, ENOUGH);
    chain.items == ENOUGH || (chain.items >= 2 && chain.is_to_end)
}
