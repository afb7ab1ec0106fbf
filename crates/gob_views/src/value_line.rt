//! The line of a value.

ghost use Rattle.std.specs.Prelude.{◌≡◌, ◌++◌, ◌∷◌, [], true, IfOk, MatchBool, OnOk, string_bytes};
ghost use Rattle.json.specs.Json.{Json};
ghost use Rattle.json.specs.Lex.{tokens};
ghost use Rattle.json.specs.Print.{print};
ghost use Rattle.json.specs.Tree.{json_tokens};
ghost use Rattle.json_controls.specs.Controls.{shown_text};
ghost use Rattle.gob_types.specs.Defined.{types};
ghost use Rattle.gob_filled.specs.Filled as spelled;
ghost use Rattle.gob_go.specs.Meaning.{IsFilled};
ghost use Rattle.gob_plain.specs.HeldPlain.{SaysFilled, tagged_json};
ghost use Rattle.gob_words.specs.Words.{text_of};
ghost use Rattle.gob_views.specs.Values.{AreTaken, IsChosen, IsLineOf, IsStyleOf, SaysStyled, content_of, shown_json};
ghost use Rattle.gob_views.specs.Values.{AreLinesBehind, form_of, line_jsons, parts_form, type_name};

use gob_go::Filled;
use gob_num::Memory;
use gob_plain::{Content, Filler, Fillers, NilTexts, Style, Taken, filled_text};
use gob_types::{Kind, Shapes, Table, TypeId};
use gob_words::{OpaqueKind, TypeKind, number_of};
use json::{Scratch, Writer};
use json_controls::{push_shown, show};
use json_parts::{Form, Parts, text_of};
use std::alloc::{AllocError, Global};

/// How values are printed as plain JSON, and which.
#[derive(Clone, Copy, Debug, Default, PartialEq, Eq)]
pub struct ValueLines<'a> {
    /// Whether the fields that Go's encoder leaves out are printed too, as zeros.
    pub zeros: bool,
    /// Whether each value that encodes itself is printed in base64, also a time or a text that is known by its type.
    pub raw: bool,
    /// What is said of types whose values encode themselves, over any guess and over `raw`; of two that say something
    /// of
    /// one type the later counts.
    pub kinds: &'a [TypeKind],
    /// Whether what an interface holds is shown as `{"NAME":value}`, by the name of its type.
    pub tagged: bool,
    /// Whether each value is shown so.
    pub typed: bool,
    /// The name or the id of the type whose values alone are printed. None: those of each type are.
    pub only: Option<&'a str>,
    /// Whether each element of a list, and each pair of a map as `{"key":K,"value":V}` by the JSON of both, is printed
    /// on a line of its own, in place of the whole value.
    pub each: bool,
}

/// Makes the lines of a value of a stream, if its type is chosen, in `text`, which is empty.
pub(crate) fn push_filled_line(
    alloc: Global,
    id: TypeId,
    value: &Filled,
    table: &Table,
    lines: ValueLines<'_>,
    text: &mut Vec<u8>,
) -> Result<(), Memory>
    requires { text.old.items ≡ [] }
    ensures { OnOk result ((w : spelled.Filled) → IsFilled (types table.now) id value.now w
        → IsLineOf lines.entry (types table.now) id
        (SaysStyled lines.entry (λ style. SaysFilled lines.entry.tagged style (types table.now) id w))
        text.new.items) }
{
    if !is_chosen(lines.only, table, id) {
        return Ok(());
    }
    let taken = taken_of(alloc, lines.kinds)?;
    let style = style_of(lines, &taken);
    let json = filled_text(alloc, id, value, table, style, lines.tagged)?;
    push_lines(alloc, json, table, id, lines, text)
}

/// What is said of types, as values are written by it.
#[inline(always)]
pub(crate) fn taken_of(alloc: Global, kinds: &[TypeKind]) -> Result<Vec<Taken>, Memory>
    ensures { IfOk result (λ taken. AreTaken kinds.now taken.items) }
{
    let mut taken = Vec::with_capacity(alloc, kinds.len())?;
    for said in kinds {
        taken.push(Taken {
            id: TypeId(said.id),
            content: content_of(said.kind),
        })?;
    }
    Ok(taken)
}

/// What bytes of this kind are taken for.
fn content_of(kind: OpaqueKind) -> Content
    ensures { result ≡ content_of kind }
{
    match kind {
        OpaqueKind::Time => Content::Time,
        OpaqueKind::BigInt => Content::Int,
        OpaqueKind::BigFloat => Content::Float,
        OpaqueKind::BigRat => Content::Rat,
        OpaqueKind::Uuid => Content::Uuid,
        OpaqueKind::NetipAddr => Content::Address,
        OpaqueKind::Text => Content::Text,
        OpaqueKind::Base64 => Content::Bytes,
    }
}

/// The style of the lines, where this is said of types.
#[inline(always)]
pub(crate) fn style_of<'a>(lines: ValueLines<'_>, taken: &'a [Taken]) -> Style<'a>
    ensures { AreTaken lines.entry.kinds.now taken.entry.now → IsStyleOf lines.entry result }
{
    Style {
        zeros: lines.zeros,
        raw: lines.raw,
        taken,
        pairs: lines.each,
    }
}

/// Whether values of the type are printed, where this word says of which type alone they are.
#[inline(always)]
pub(crate) fn is_chosen(only: Option<&str>, table: &Table, id: TypeId) -> bool
    ensures { MatchBool result (IsChosen (text_of only.entry) (types table.now) id)
        (¬ IsChosen (text_of only.entry) (types table.now) id) }
{
    match only {
        None => true,
        Some(word) => word.as_bytes() == type_name(table, id)
            || number_of(Some(word), 0) == Some(id.0),
    }
}

/// The name of a type.
fn type_name(table: &Table, id: TypeId) -> &[u8]
    ensures { result.now ≡ type_name (types table.now) id }
{
    match table.shape_of(id) {
        Some(shape) => shape.name.as_bytes(),
        None => b"",
    }
}

/// Appends the lines of the JSON that says a value of this type: one, or one for each of its parts.
#[inline(never)]
pub(crate) fn push_lines(
    alloc: Global,
    json: String,
    table: &Table,
    id: TypeId,
    lines: ValueLines<'_>,
    text: &mut Vec<u8>,
) -> Result<(), Memory>
    requires { (j : Json) × (tokens (string_bytes json) ≡ json_tokens j) }
    ensures { OnOk result ((j : Json) → string_bytes json ≡ print (json_tokens j)
        → tokens (string_bytes json) ≡ json_tokens j
        → AreLinesBehind lines.entry (types table.now) id (line_jsons lines.entry (types table.now) id j)
        text.old.items text.new.items) }
{
    if lines.each {
        // A call that reads parts pays for the room of their reader, so it is apart.
        return push_part_lines(alloc, json, table, id, lines, text);
    }
    push_json(alloc, json, table, id, lines, text)
}

/// Appends them where parts may stand on lines of their own.
fn push_part_lines(
    alloc: Global,
    json: String,
    table: &Table,
    id: TypeId,
    lines: ValueLines<'_>,
    text: &mut Vec<u8>,
) -> Result<(), Memory>
    requires { (j : Json) × (tokens (string_bytes json) ≡ json_tokens j) }
    ensures { OnOk result ((j : Json) → string_bytes json ≡ print (json_tokens j)
        → tokens (string_bytes json) ≡ json_tokens j
        → AreLinesBehind lines.entry (types table.now) id (line_jsons lines.entry (types table.now) id j)
        text.old.items text.new.items) }
{
    let Some(form) = form_of(lines, table, id) else {
        return push_json(alloc, json, table, id, lines, text);
    };
    let mut scratch = Scratch::new(alloc);
    let Some(mut parts) = Parts::of(json.as_str(), form, &mut scratch)? else {
        return push_json(alloc, json, table, id, lines, text);
    };
    'parts: while let Some(part) = parts.next(alloc)? {
        push_json(alloc, part, table, id, lines, text)?;
    }
    Ok(())
}

/// The parts of a value of this type that stand on lines of their own. None where the value stands on one.
fn form_of(lines: ValueLines<'_>, table: &Table, id: TypeId) -> Option<Form>
    ensures { result ≡ form_of lines.entry (types table.now) id }
{
    if !lines.each {
        return None;
    }
    match table.shape_of(id) {
        Some(shape) => parts_form(&shape.kind),
        None => None,
    }
}

/// The parts of a value of this kind.
fn parts_form(kind: &Kind) -> Option<Form>
    ensures { result ≡ parts_form kind.now }
{
    match kind {
        Kind::Array { .. } | Kind::Slice { .. } => Some(Form::Elements),
        Kind::Map { .. } => Some(Form::Pairs),
        Kind::Basic(_) | Kind::Struct { .. } | Kind::Opaque(_) => None,
    }
}

/// Appends the line of JSON, under the name of this type where values are typed.
fn push_json(
    alloc: Global,
    json: String,
    table: &Table,
    id: TypeId,
    lines: ValueLines<'_>,
    text: &mut Vec<u8>,
) -> Result<(), Memory>
    requires { (j : Json) × (tokens (string_bytes json) ≡ json_tokens j) }
    ensures { OnOk result ((j : Json) → string_bytes json ≡ print (json_tokens j)
        → tokens (string_bytes json) ≡ json_tokens j
        → AreLinesBehind lines.entry (types table.now) id (j ∷ []) text.old.items text.new.items) }
{
    push_line(typed_text(alloc, json, table, id, lines)?.as_str(), text)
}

/// The JSON, as `{"NAME":value}` by the name of the type where values are typed.
fn typed_text(
    alloc: Global,
    json: String,
    table: &Table,
    id: TypeId,
    lines: ValueLines<'_>,
) -> Result<String, AllocError>
    requires { (j : Json) × (tokens (string_bytes json) ≡ json_tokens j) }
    ensures { (j : Json) → string_bytes json ≡ print (json_tokens j) → tokens (string_bytes json) ≡ json_tokens j
        → IfOk result (λ text. (string_bytes text ≡ print (json_tokens (shown_json lines.entry (types table.now) id j)))
        × (tokens (string_bytes text) ≡ json_tokens (shown_json lines.entry (types table.now) id j))) }
{
    if !lines.typed {
        return Ok(json);
    }
    named_text(alloc, json, type_name(table, id))
}

/// The JSON under a name, which is written as that of what fills an interface.
fn named_text(alloc: Global, json: String, name: &[u8]) -> Result<String, AllocError>
    requires { (j : Json) × (tokens (string_bytes json) ≡ json_tokens j) }
    ensures { (j : Json) → tokens (string_bytes json) ≡ json_tokens j
        → IfOk result (λ text. (string_bytes text ≡ print (json_tokens (tagged_json true name.now j)))
        × (tokens (string_bytes text) ≡ json_tokens (tagged_json true name.now j))) }
{
    let all = [Some(Filler {
        name: Some(name),
        text: json,
    })];
    let mut out = Writer::new(Vec::new(alloc));
    let mut fillers = Fillers {
        all: &all,
        passed: 0,
    };
    fillers.write_nil(alloc, &mut out)?;
    Ok(text_of(out))
}

/// Appends the JSON as a line. No character of it controls how a terminal shows it.
fn push_line(json: &str, text: &mut Vec<u8>) -> Result<(), Memory>
    ensures shown { OnOk result (text.new.items ≡ text.old.items ++ (shown_text json.now ++ 10 ∷ [])) }
    ensures reads { (j : Json) → json.now ≡ print (json_tokens j) → tokens json.now ≡ json_tokens j
        → tokens (shown_text json.now) ≡ json_tokens j }
{
    push_shown(json.as_bytes(), text)?;
    Ok(text.push(b'\n')?)
}

/// Makes a line of the JSON in `text`. No character of it controls how a terminal shows it.
#[inline(always)]
pub(crate) fn show_line(alloc: Global, text: &mut Vec<u8>) -> Result<(), Memory>
    ensures shown { OnOk result (text.new.items ≡ shown_text text.old.items ++ 10 ∷ []) }
    ensures reads { (j : Json) → text.old.items ≡ print (json_tokens j) → tokens text.old.items ≡ json_tokens j
        → tokens (shown_text text.old.items) ≡ json_tokens j }
{
    show(alloc, text)?;
    Ok(text.push(b'\n')?)
}
