//! The text of a value, straight from the bytes that spell it.

ghost use Rattle.std.specs.Option.{option_copied};
ghost use Rattle.std.specs.Prelude.{◌≡◌, [], false, true, IfOk, IfSome, string_bytes};
ghost use Rattle.json.specs.Lex.{tokens};
ghost use Rattle.json.specs.Print.{print};
ghost use Rattle.gob_types.specs.Defined.{types};
ghost use Rattle.gob_plain.specs.BodyText.{AreNotListed, IsBodyText, IsNoMap};
ghost use Rattle.gob_plain.specs.declared.visitor.VisitorPlace.TheVariants as places;

use crate::line::Line;
use crate::style::Style;
use crate::text::{ROOM, plain_text};
use crate::visitor::{Plain, VisitorPlace};
use gob_json_writer::tape_of;
use gob_num::Memory;
use gob_types::{Kind, Shape, Shapes, Table, TypeId};
use gob_value::is_whole;
use gob_walk::{WalkEnd, walk_whole};
use std::alloc::Global;

// How deep a value may be: each level is a call within a call.
const MOST_DEPTH: u64 = 1000;

/// The plain JSON of the value of the type that the body spells, no deeper than `depth`, compact, without a line feed,
/// with `null` for each nil. What a reader of JSON reads there is the JSON that says the value. None says nothing of
/// the body. It takes as much memory as the text, but where the style says of types what their values are.
#[inline(never)]
pub fn plain_text_of(
    alloc: Global,
    table: &Table,
    id: TypeId,
    body: &[u8],
    depth: u64,
    style: Style<'_>,
) -> Result<Option<String>, Memory>
    ensures { IfOk result (λ found. IfSome found (λ text.
        IsBodyText style.entry (types table.now) id depth body.now (string_bytes text))) }
{
    if may_be_told(table, id, style) {
        return told_text_of(alloc, table, id, body, depth, style);
    }
    if !table.kept(id) {
        return Ok(None);
    }
    if !is_whole(table, id, body, depth) {
        return Ok(None);
    }
    let tape = tape_of(alloc, table, id, body)?;
    Ok(Some(plain_text(alloc, id, &tape, table, style)?))
}

/// Whether a visitor writes values of this type as they are in this style: it isn't told of which type an opaque value
/// is, nor whether a map is the value or within it.
pub(crate) fn may_be_told<S: Shapes>(shapes: &S, id: TypeId, style: Style<'_>) -> bool
    ensures taken { result ≡ true → style.entry.taken.now ≡ [] }
    ensures listed { result ≡ true → AreNotListed style.entry (S.table shapes.now) id }
{
    if !style.taken.is_empty() {
        return false;
    }
    !style.pairs || !is_map(shapes.shape_of(id))
}

// Whether the shape is that of a map.
fn is_map(shape: Option<&Shape>) -> bool
    ensures { result ≡ false → IsNoMap (option_copied shape.entry) }
{
    match shape {
        Some(shape) => matches!(shape.kind, Kind::Map { .. }),
        None => false,
    }
}

// It, as a visitor of the body's parts writes it.
fn told_text_of<S: Shapes>(
    alloc: Global,
    shapes: &S,
    id: TypeId,
    body: &[u8],
    depth: u64,
    style: Style<'_>,
) -> Result<Option<String>, Memory>
    requires taken { style.taken.now ≡ [] }
    requires listed { AreNotListed style (S.table shapes.now) id }
    ensures { IfOk result (λ found. IfSome found (λ text.
        IsBodyText style.entry (S.table shapes.now) id depth body.now (string_bytes text))) }
{
    let out = Line::new(Vec::with_capacity(alloc, ROOM)?);
    let mut plain = Plain::<'_, S, false> {
        shapes,
        style,
        place: VisitorPlace::Free,
        out,
    };
    let told = walk_whole::<S, Plain<'_, S, false>, false>(
        shapes,
        id,
        body,
        depth.min(MOST_DEPTH),
        &mut plain,
    );
    let Plain {
        shapes: _,
        style: _,
        place,
        out,
    } = plain;
    match told {
        Ok(()) => Ok(text_if_free(place, out)),
        Err(WalkEnd::NotWhole) => Ok(None),
        Err(WalkEnd::Out(fault)) => Err(fault),
    }
}

// The text of the line, where it is that of a value. It is UTF-8, as each text is that is put there.
fn text_if_free(place: VisitorPlace, out: Line) -> Option<String>
    ensures free { IfSome result (λ text. place ≡ places.Free) }
    ensures text { IfSome result (λ text. string_bytes text ≡ out.text.items) }
{
    let Line { text, later: _ } = out;
    match place {
        VisitorPlace::Free => String::from_utf8(text).ok(),
        _ => None,
    }
}
