//! The lines of a value that stands whole, straight from its bytes.

ghost use Rattle.std.specs.Prelude.{◌≡◌, ◌<◌, ◌≤◌, ◌+◌, ◌++◌, ◌∷◌, [], ℕ, List, true, drop, length};
ghost use Rattle.std.specs.Prelude.{IfOk, IfSome, MatchBool, None, OnOk, false, string_bytes};
ghost use Rattle.gob_num.specs.Unsigned.{IsUnsigned};
ghost use Rattle.json.specs.Json.{Json};
ghost use Rattle.json.specs.Lex.{tokens};
ghost use Rattle.json.specs.Print.{print};
ghost use Rattle.json.specs.Tree.{json_tokens};
ghost use Rattle.gob_types.specs.Defined.{types};
ghost use Rattle.gob_value.specs.Top.{SpellsTop};
ghost use Rattle.gob_value.specs.Tree.{Tree};
ghost use Rattle.gob_stream.specs.Bounds.{greatest_depth};
ghost use Rattle.gob_plain.specs.Filled.{SaysValue};
ghost use Rattle.gob_views.specs.Machine.Lines.{AreStyledLines, IsBodyLine};
ghost use Rattle.gob_views.specs.Values.{IsChosen, IsStyleOf};
ghost use Rattle.gob_words.specs.Words.{text_of};
ghost use Rattle.gob_views.specs.Machine.PartLines.{ArePartsIn, AreParts, ArePut, HasParts, HasWholeParts, PrintsEach};
ghost use Rattle.gob_views.specs.Machine.PartLines.{SaysLines};

use crate::value_line::{ValueLines, is_chosen, push_lines, show_line};
use gob_go::is_filled_whole;
use gob_json_writer::tape_of;
use gob_num::{Memory, write_uint};
use gob_plain::{HeldStyle, Style, filled_text_of, plain_text, plain_text_of, push_filled_text};
use gob_stream::Limits;
use gob_types::{Kind, Shapes, Table, TypeId};
use gob_value::{WholeParts, number_at, whole_elements, whole_entries};
use std::alloc::Global;

// Parts go together from so many bytes.
const GROUP: usize = 4096;

/// How the values of a type are printed.
#[derive(Clone, Copy)]
pub(crate) struct TypeLines<'t, 'l, 's> {
    /// The types of the stream so far.
    pub(crate) table: &'t Table,
    /// The type.
    pub(crate) id: TypeId,
    /// What is printed of values.
    pub(crate) lines: ValueLines<'l>,
    /// How their JSON is written.
    pub(crate) style: Style<'s>,
}

/// What the parts of a value are.
#[derive(Clone, Copy)]
pub(crate) enum PartTypes {
    /// Elements of a slice, of this type.
    Element(TypeId),
    /// Entries of a map.
    Entry {
        /// The type of the keys.
        key: TypeId,
        /// The type of the elements.
        elem: TypeId,
    },
}

/// The parts of a value that are still to come.
#[derive(Clone, Copy)]
pub(crate) struct PartsAhead {
    /// What they are.
    pub(crate) parts: PartTypes,
    /// How many there are.
    pub(crate) count: u64,
    /// Where they begin in the body.
    pub(crate) begin: usize,
}

/// Makes the lines of the value of the type that the body is, whatever its interfaces hold, if it is one no deeper than
/// `depth` that defines nothing, and its type is chosen, in `text`, which is empty. False says nothing of the body.
#[inline(always)]
pub(crate) fn push_body_line(
    alloc: Global,
    of: &TypeLines<'_, '_, '_>,
    body: &[u8],
    depth: u64,
    text: &mut Vec<u8>,
) -> Result<bool, Memory>
    requires depth { depth ≤ greatest_depth }
    requires style { IsStyleOf of.now.lines of.now.style }
    requires empty { text.old.items ≡ [] }
    ensures { IfOk result (λ made. MatchBool made (IsBodyLine of.now.lines (types of.now.table.now) of.now.id depth
        body.now text.new.items) (text.new.items ≡ [])) }
{
    if !is_chosen(of.lines.only, of.table, of.id) {
        return Ok(is_filled_whole(of.table, of.id, body, depth));
    }
    if !of.lines.each && !of.lines.typed {
        return push_alone(alloc, of, body, depth, text);
    }
    if push_parts(alloc, of, body, depth, text)? {
        return Ok(true);
    }
    let how = held_style(of);
    let Some(json) = filled_text_of(alloc, of.table, of.id, body, depth, how)? else {
        return Ok(false);
    };
    push_lines(alloc, json, of.table, of.id, of.lines, text)?;
    Ok(true)
}

/// Makes the line of the value of the type that the body is, which is chosen, if it is one no deeper than `depth` that
/// defines nothing, where it stands on one line under no name, in `text`, which is empty. False says nothing of the
/// body, and leaves `text` empty.
#[inline(always)]
fn push_alone(
    alloc: Global,
    of: &TypeLines<'_, '_, '_>,
    body: &[u8],
    depth: u64,
    text: &mut Vec<u8>,
) -> Result<bool, Memory>
    requires depth { depth ≤ greatest_depth }
    requires style { IsStyleOf of.now.lines of.now.style }
    requires alone { of.now.lines.each ≡ false }
    requires untyped { of.now.lines.typed ≡ false }
    requires chosen { IsChosen (text_of of.now.lines.only) (types of.now.table.now) of.now.id }
    requires empty { text.old.items ≡ [] }
    ensures { IfOk result (λ made. MatchBool made (IsBodyLine of.now.lines (types of.now.table.now) of.now.id depth
        body.now text.new.items) (text.new.items ≡ [])) }
{
    if !push_filled_text(of.table, of.id, body, depth, held_style(of), text)? {
        return Ok(false);
    }
    show_line(alloc, text)?;
    Ok(true)
}

/// How what interfaces hold is written in them.
#[inline(always)]
fn held_style<'s>(of: &TypeLines<'_, '_, 's>) -> HeldStyle<'s>
    ensures style { result.style ≡ of.now.style }
    ensures tagged { result.tagged ≡ of.now.lines.tagged }
{
    HeldStyle {
        style: of.style,
        tagged: of.lines.tagged,
    }
}

/// Makes the lines of the parts of the value that the body is, if it is one no deeper than `depth` and each of its
/// parts stands on a line of its own, in `text`, which is empty. JSON is made of some of them at a time. False says
/// nothing of the body, and leaves `text` empty.
#[inline(never)]
fn push_parts(
    alloc: Global,
    of: &TypeLines<'_, '_, '_>,
    body: &[u8],
    depth: u64,
    text: &mut Vec<u8>,
) -> Result<bool, Memory>
    requires empty { text.old.items ≡ [] }
    requires pairs { of.now.style.pairs ≡ of.now.lines.each }
    ensures { IfOk result (λ made. MatchBool made (AreStyledLines of.now.lines of.now.style (types of.now.table.now)
        of.now.id depth body.now text.new.items) (text.new.items ≡ [])) }
{
    if !of.lines.each {
        return Ok(false);
    }
    if depth == 0 {
        return Ok(false);
    }
    let Some(all) = parts_behind_tag(of.table, of.id, body) else {
        return Ok(false);
    };
    if push_each(alloc, of, all, body, depth, text)? {
        return Ok(true);
    }
    text.clear();
    Ok(false)
}

/// The parts of a list or a map of this type with such a body, or with one that begins so. None says nothing of the
/// body.
pub(crate) fn parts_behind_tag(table: &Table, id: TypeId, body: &[u8]) -> Option<PartsAhead>
    ensures { IfSome result (ArePartsIn (types table.now) id body.now) }
{
    let Some(0) = body.first() else {
        return None;
    };
    let shape = table.shape_of(id)?;
    let (count, begin) = number_at(body, 1)?;
    match &shape.kind {
        Kind::Slice { elem } => Some(PartsAhead {
            parts: PartTypes::Element(*elem),
            count,
            begin,
        }),
        Kind::Map { key, elem } => Some(PartsAhead {
            parts: PartTypes::Entry {
                key: *key,
                elem: *elem,
            },
            count,
            begin,
        }),
        _ => None,
    }
}

/// Appends the lines of the parts to `text`, which is empty. Whether they are those of the value that the body is.
fn push_each(
    alloc: Global,
    of: &TypeLines<'_, '_, '_>,
    all: PartsAhead,
    body: &[u8],
    depth: u64,
    text: &mut Vec<u8>,
) -> Result<bool, Memory>
    requires empty { text.old.items ≡ [] }
    requires deep { 0 < depth }
    requires each { PrintsEach of.now.lines of.now.style }
    requires parts { ArePartsIn (types of.now.table.now) of.now.id body.now all }
    ensures { IfOk result (λ made. made ≡ true → AreStyledLines of.now.lines of.now.style (types of.now.table.now)
        of.now.id depth body.now text.new.items) }
{
    let mut ahead = all;
    'groups: while ahead.count > 0 {
        let Some(group) = push_group(alloc, of, ahead, body, depth - 1, text)? else {
            return Ok(false);
        };
        ahead.count -= group.count;
        ahead.begin += group.end;
    }
    Ok(ahead.begin == body.len())
}

/// Appends the lines of the next of the parts, as many as go together, none deeper than `depth`, and answers which they
/// are: one at least. None says nothing of them, and appends nothing.
pub(crate) fn push_group(
    alloc: Global,
    of: &TypeLines<'_, '_, '_>,
    ahead: PartsAhead,
    body: &[u8],
    depth: u64,
    text: &mut Vec<u8>,
) -> Result<Option<WholeParts>, Memory>
    requires { ahead.begin ≤ length body.now }
    ensures few { IfOk result (λ found. IfSome found (λ group. (0 < group.count) × (group.count ≤ ahead.count))) }
    ensures inside { IfOk result (λ found. IfSome found (λ group. ahead.begin + group.end ≤ length body.now)) }
    ensures none { IfOk result (λ found. found ≡ None → text.new.items ≡ text.old.items) }
    ensures put { PrintsEach of.now.lines of.now.style → HasParts (types of.now.table.now) of.now.id ahead.parts
        → IfOk result (λ found. IfSome found (λ group.
        ArePut (AreParts of.now.lines of.now.style (types of.now.table.now) of.now.id depth ahead.parts)
        (drop ahead.begin body.now) group.count group.end text.old.items text.new.items)) }
{
    if ahead.count == 0 {
        return Ok(None);
    }
    let bytes = &body[ahead.begin..];
    let group = next_parts(of.table, ahead.parts, ahead.count, bytes, depth);
    if group.count == 0 {
        return Ok(None);
    }
    push_parts_alone(alloc, of, group.count, &bytes[..group.end], text)?;
    Ok(Some(group))
}

/// The parts that stand whole at the front of the bytes, none deeper than `depth` and no more than `most`: those in
/// their first 4096 bytes, or one that is longer.
fn next_parts(table: &Table, parts: PartTypes, most: u64, bytes: &[u8], depth: u64) -> WholeParts
    ensures few { result.count ≤ most }
    ensures inside { result.end ≤ length bytes.now }
    ensures whole { HasWholeParts (types table.now) parts depth result.count bytes.now result.end }
{
    let piece = &bytes[..bytes.len().min(GROUP)];
    let found = whole_parts(table, parts, most, piece, depth);
    if found.count > 0 {
        return found;
    }
    whole_parts(table, parts, most.min(1), bytes, depth)
}

/// How many parts stand whole at the front of the bytes, none deeper than `depth` and no more than `most`.
fn whole_parts(table: &Table, parts: PartTypes, most: u64, bytes: &[u8], depth: u64) -> WholeParts
    ensures few { result.count ≤ most }
    ensures inside { result.end ≤ length bytes.now }
    ensures whole { HasWholeParts (types table.now) parts depth result.count bytes.now result.end }
{
    match parts {
        PartTypes::Element(elem) => whole_elements(table, elem, most, bytes, depth),
        PartTypes::Entry { key, elem } => whole_entries(table, key, elem, most, bytes, depth),
    }
}

/// Appends the lines of the value of the type that has these parts alone, so many of them.
pub(crate) fn push_parts_alone(
    alloc: Global,
    of: &TypeLines<'_, '_, '_>,
    count: u64,
    parts: &[u8],
    text: &mut Vec<u8>,
) -> Result<(), Memory>
    ensures { OnOk result ((v : Tree)
        → ((c : List ℕ) → IsUnsigned count c → SpellsTop (types of.now.table.now) of.now.id v (0 ∷ (c ++ parts.now)))
        → SaysLines of.now.lines of.now.style (types of.now.table.now) of.now.id v text.old.items text.new.items) }
{
    let mut body = Vec::with_capacity(alloc, 1)?;
    body.push(0)?;
    write_uint(alloc, count, &mut body)?;
    body.extend_from_slice(parts)?;
    let json = json_of(alloc, of, &body)?;
    push_lines(alloc, json, of.table, of.id, of.lines, text)
}

/// The plain JSON of the value of the type that the body is. `Memory` also where it is none.
fn json_of(alloc: Global, of: &TypeLines<'_, '_, '_>, body: &[u8]) -> Result<String, Memory>
    ensures said { IfOk result (λ text. (v : Tree) → SpellsTop (types of.now.table.now) of.now.id v body.now
        → (j : Json) × SaysValue of.now.style (types of.now.table.now) of.now.id v j
        × (string_bytes text ≡ print (json_tokens j)) × (tokens (string_bytes text) ≡ json_tokens j)) }
    ensures json { IfOk result (λ text. (j : Json) × (tokens (string_bytes text) ≡ json_tokens j)) }
{
    let depth = Limits::GREATEST_DEPTH;
    let found = plain_text_of(alloc, of.table, of.id, body, depth, of.style)?;
    if let Some(json) = found {
        return Ok(json);
    }
    if !of.table.kept(of.id) {
        return Err(Memory);
    }
    let tape = tape_of(alloc, of.table, of.id, body)?;
    // a tape means a value
    let _depth = tape.depth();
    Ok(plain_text(alloc, of.id, &tape, of.table, of.style)?)
}
