//! The text of a value whose interfaces may hold others, straight from the bytes that spell it.

ghost use Rattle.std.specs.Prelude.{◌≡◌, ◌≤◌, [], true, IfOk, IfSome, MatchBool, string_bytes};
ghost use Rattle.gob_types.specs.Defined.{types};
ghost use Rattle.gob_stream.specs.Bounds.{greatest_depth};
ghost use Rattle.gob_plain.specs.BodyText.{AreNotListed};
ghost use Rattle.gob_plain.specs.FilledText.{IsFilledText};
ghost use Rattle.gob_plain.specs.declared.visitor.VisitorPlace.TheVariants as places;

use crate::line::Line;
use crate::style::Style;
use crate::text::ROOM;
use crate::visitor::{Plain, VisitorPlace};
use crate::whole::{may_be_told, plain_text_of};
use gob_filled_walk::walk_filled;
use gob_num::Memory;
use gob_types::{Table, TypeId};
use gob_walk::WalkEnd;
use std::alloc::Global;
use std::mem::replace;

/// How a value is written whose interfaces may hold others.
#[derive(Clone, Copy, Debug, Default, PartialEq, Eq)]
pub struct HeldStyle<'a> {
    /// How it is written, and what it holds.
    pub style: Style<'a>,
    /// Whether what an interface holds is `{"NAME":value}`, by the name of its type.
    pub tagged: bool,
}

/// The plain JSON of the value of the type that the body spells, no deeper than `depth`, compact, without a line feed.
/// Each interface is shown as what it holds, and as `null` where that is nothing. A held value is its plain JSON, or
/// that under the name of its type. What a reader of JSON reads there is the JSON that says the value. None says
/// nothing of the body, as where a definition stands in an interface. It takes as much memory as the text, but where
/// the style says of types what their values are.
#[inline(never)]
pub fn filled_text_of(
    alloc: Global,
    table: &Table,
    id: TypeId,
    body: &[u8],
    depth: u64,
    how: HeldStyle<'_>,
) -> Result<Option<String>, Memory>
    requires { depth ≤ greatest_depth }
    ensures { IfOk result (λ found. IfSome found (λ text.
        IsFilledText how.entry.tagged how.entry.style (types table.now) id depth body.now (string_bytes text))) }
{
    if !may_be_told(table, id, how.style) {
        return plain_text_of(alloc, table, id, body, depth, how.style);
    }
    let mut text = Vec::with_capacity(alloc, ROOM)?;
    if !push_told(table, id, body, depth, how, &mut text)? {
        return Ok(None);
    }
    Ok(String::from_utf8(text).ok())
}

/// Makes the plain JSON of the value of the type that the body spells, no deeper than `depth`, compact, without a line
/// feed, in `text`, which is empty. Each interface is shown as what it holds, and as `null` where that is nothing. A
/// held value is its plain JSON, or that under the name of its type. What a reader of JSON reads there is the JSON that
/// says the value. False says nothing of the body, as where a definition stands in an interface, and leaves `text`
/// empty. Where the text fits into the room of `text` it takes no memory, but where the style says of types what their
/// values are.
pub fn push_filled_text(
    table: &Table,
    id: TypeId,
    body: &[u8],
    depth: u64,
    how: HeldStyle<'_>,
    text: &mut Vec<u8>,
) -> Result<bool, Memory>
    requires depth { depth ≤ greatest_depth }
    requires empty { text.old.items ≡ [] }
    ensures { IfOk result (λ made. MatchBool made (IsFilledText how.entry.tagged how.entry.style (types table.now) id
        depth body.now text.new.items) (text.new.items ≡ [])) }
{
    if may_be_told(table, id, how.style) {
        return push_told(table, id, body, depth, how, text);
    }
    let alloc = *text.allocator();
    let Some(json) = plain_text_of(alloc, table, id, body, depth, how.style)? else {
        return Ok(false);
    };
    *text = json.into_bytes();
    Ok(true)
}

// Makes it in `text`, which is empty, as a visitor of what the body holds writes it.
#[inline(always)]
fn push_told(
    table: &Table,
    id: TypeId,
    body: &[u8],
    depth: u64,
    how: HeldStyle<'_>,
    text: &mut Vec<u8>,
) -> Result<bool, Memory>
    requires depth { depth ≤ greatest_depth }
    requires taken { how.style.taken.now ≡ [] }
    requires listed { AreNotListed how.style (types table.now) id }
    requires empty { text.old.items ≡ [] }
    ensures { IfOk result (λ made. MatchBool made (IsFilledText how.entry.tagged how.entry.style (types table.now)
        id depth body.now text.new.items) (text.new.items ≡ [])) }
{
    if how.tagged {
        return told_filled::<true>(table, id, body, depth, how.style, text);
    }
    told_filled::<false>(table, id, body, depth, how.style, text)
}

// It, tagged or not.
fn told_filled<const TAGGED: bool>(
    table: &Table,
    id: TypeId,
    body: &[u8],
    depth: u64,
    style: Style<'_>,
    text: &mut Vec<u8>,
) -> Result<bool, Memory>
    requires depth { depth ≤ greatest_depth }
    requires taken { style.taken.now ≡ [] }
    requires listed { AreNotListed style (types table.now) id }
    requires empty { text.old.items ≡ [] }
    ensures { IfOk result (λ made. MatchBool made (IsFilledText TAGGED style.entry (types table.now) id depth
        body.now text.new.items) (text.new.items ≡ [])) }
{
    // its base types are known
    let _count = table.count();
    let alloc = *text.allocator();
    let out = Line::new(replace(text, Vec::new(alloc)));
    let mut plain = Plain::<'_, Table, TAGGED> {
        shapes: table,
        style,
        place: VisitorPlace::Free,
        out,
    };
    let told = walk_filled::<Plain<'_, Table, TAGGED>>(table, id, body, depth, &mut plain);
    let Plain {
        shapes: _,
        style: _,
        place,
        out,
    } = plain;
    let Line {
        text: made,
        later: _,
    } = out;
    *text = made;
    match told {
        Ok(()) => Ok(is_free(place, text)),
        Err(WalkEnd::NotWhole) => {
            text.clear();
            Ok(false)
        }
        Err(WalkEnd::Out(fault)) => Err(fault),
    }
}

// Whether the text is that of a value; else leaves `text` empty, with its room.
fn is_free(place: VisitorPlace, text: &mut Vec<u8>) -> bool
    ensures { MatchBool result ((place ≡ places.Free) × (text.new ≡ text.old)) (text.new.items ≡ []) }
{
    match place {
        VisitorPlace::Free => true,
        _ => {
            text.clear();
            false
        }
    }
}
