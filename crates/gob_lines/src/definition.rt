//! The shape of a definition, read from the tokens of its line.

ghost use Rattle.std.specs.Prelude.{◌≡◌, ◌≢◌, ◌∷◌, ℕ, List, IfErr, IfOk, MatchOption, OnOk};
ghost use Rattle.json.specs.Token as token;
ghost use Rattle.gob_num.specs.Unsigned.{AreBytes};
ghost use Rattle.gob_types.specs.Definable.{IsDefinable};
ghost use Rattle.gob_types.specs.declared.kind.Field.{Field as FieldSpec};
ghost use Rattle.gob_types.specs.declared.kind.Shape.{Shape as ShapeSpec};
ghost use Rattle.gob_lines.specs.Complete.{AreFieldTypesReadable, ArePartsReadable, FillsIt, IsKindReadable};
ghost use Rattle.gob_lines.specs.Complete.{IsPartReadable, ReadsIt};
ghost use Rattle.gob_lines.specs.Definition.{IsFieldsJson, IsMemberOrEnd, IsNewPart, IsPartJson, Part, ReadsPart};
ghost use Rattle.gob_lines.specs.Definition.{ReadsParts, ReadsShape, kind_word, part_key, shape_parts, with_part};
ghost use Rattle.gob_lines.specs.Numbers.{ReadsSome};
ghost use Rattle.gob_lines.specs.declared.definition_parts.KindName.{KindName as KindNameSpec};
ghost use Rattle.gob_lines.specs.declared.definition_parts.Parts.{Parts as PartsSpec};

use crate::definition_parts::{KindName, Parts};
use crate::fault::{Due, LineFault};
use crate::leaf::{read_text, read_uint, take_array, take_array_end};
use gob_num::Memory;
use gob_types::{Field, Fields, Marshal, Name, Shape, TypeId};
use json::{Reader, Token};
use std::alloc::Global;

/// Reads the members behind the id, in any order, up to the end of the object: a shape that a description can give.
pub fn read_shape(alloc: Global, tokens: &mut Reader<'_>) -> Result<Shape, LineFault>
    ensures read { IfOk result (λ s. ReadsShape s tokens.old tokens.new) }
    ensures definable { IfOk result IsDefinable }
    ensures whole { (s : ShapeSpec) (rest : List token.Token) → IsDefinable s → IsKindReadable s.kind → AreBytes s.name
        → ReadsShape s tokens.old rest → ReadsIt (λ x. x) result tokens.new s rest }
{
    let at = tokens.offset();
    let mut parts = Parts::new();
    let shape = read_told(alloc, tokens, &mut parts)?;
    if !shape.definable() {
        return Err(LineFault::due(alloc, at, Due::Definable));
    }
    Ok(shape)
}

/// Reads the members behind these parts, and makes the shape of all.
fn read_told(alloc: Global, tokens: &mut Reader<'_>, parts: &mut Parts) -> Result<Shape, LineFault>
    ensures read { IfOk result (λ s. ReadsParts parts.old (shape_parts s.kind s.name) tokens.old tokens.new) }
    ensures whole { (s : ShapeSpec) (rest : List token.Token) → IsKindReadable s.kind → AreBytes s.name
        → ReadsParts parts.old (shape_parts s.kind s.name) tokens.old rest
        → ReadsIt (λ x. x) result tokens.new s rest }
{
    let end = read_members(alloc, tokens, parts)?;
    let kind = parts.take_kind(alloc, end)?;
    match parts.name.take() {
        Some(name) => Ok(Shape { name, kind }),
        None => Err(LineFault::due(alloc, end, Due::Key("name"))),
    }
}

/// Reads members up to the end of the object, and answers the offset of that.
fn read_members(
    alloc: Global,
    tokens: &mut Reader<'_>,
    parts: &mut Parts,
) -> Result<usize, LineFault>
    ensures read { OnOk result (ReadsParts parts.old parts.new tokens.old tokens.new) }
    ensures whole { (all : PartsSpec) (rest : List token.Token) → ArePartsReadable all
        → ReadsParts parts.old all tokens.old rest → FillsIt result parts.new all tokens.new rest }
{
    'members: loop {
        let at = tokens.offset();
        match take_next_key(alloc, tokens)? {
            Some(key) => read_member(alloc, at, key, tokens, parts)?,
            None => return Ok(at),
        }
    }
}

/// Takes the key of the next member. None: the object ends.
fn take_next_key<'t>(alloc: Global, tokens: &mut Reader<'t>) -> Result<Option<&'t str>, LineFault>
    ensures ok { IfOk result (λ found. MatchOption found (tokens.old ≡ token.end_object ∷ tokens.new)
        (λ key. tokens.old ≡ token.key key.now ∷ tokens.new)) }
    ensures none { IfErr result (λ f. IsMemberOrEnd tokens.old → ⊥) }
{
    let at = tokens.offset();
    match tokens.next() {
        Some(Token::Key(key)) => Ok(Some(key)),
        Some(Token::EndObject) => Ok(None),
        _ => Err(LineFault::due(alloc, at, Due::Part)),
    }
}

/// Reads the member of this key, which stands at this offset.
fn read_member(
    alloc: Global,
    at: usize,
    key: &str,
    tokens: &mut Reader<'_>,
    parts: &mut Parts,
) -> Result<(), LineFault>
    ensures read { OnOk result (ReadsPart parts.old key.now parts.new tokens.old tokens.new) }
    ensures whole { (part : Part) (rest : List token.Token) → IsPartReadable part → part_key part ≡ key.now
        → IsNewPart part parts.old → ReadsSome (IsPartJson part) tokens.old rest
        → FillsIt result parts.new (with_part part parts.old) tokens.new rest }
{
    if parts.has(key) {
        return Err(LineFault::due(alloc, at, Due::NewPart));
    }
    match key {
        "elem" => {
            parts.elem = Some(TypeId(read_uint(alloc, tokens)?));
            Ok(())
        }
        "fields" => {
            parts.fields = Some(Fields::new(read_field_types(alloc, tokens)?));
            Ok(())
        }
        "key" => {
            parts.key = Some(TypeId(read_uint(alloc, tokens)?));
            Ok(())
        }
        "kind" => {
            parts.kind = Some(read_kind_name(alloc, tokens)?);
            Ok(())
        }
        "len" => {
            parts.len = Some(read_uint(alloc, tokens)?);
            Ok(())
        }
        "name" => {
            parts.name = Some(Name::new(read_text(alloc, tokens)?));
            Ok(())
        }
        _ => Err(LineFault::due(alloc, at, Due::Part)),
    }
}

/// Reads the word of a kind.
fn read_kind_name(alloc: Global, tokens: &mut Reader<'_>) -> Result<KindName, LineFault>
    ensures read { IfOk result (λ w. tokens.old ≡ token.string (kind_word w) ∷ tokens.new) }
    ensures none { IfErr result (λ f. (w : KindNameSpec) (rest : List token.Token)
        → tokens.old ≢ token.string (kind_word w) ∷ rest) }
{
    let at = tokens.offset();
    match tokens.next() {
        Some(Token::String("array")) => Ok(KindName::Array),
        Some(Token::String("slice")) => Ok(KindName::Slice),
        Some(Token::String("struct")) => Ok(KindName::Struct),
        Some(Token::String("map")) => Ok(KindName::Map),
        Some(Token::String("gob")) => Ok(KindName::Opaque(Marshal::Gob)),
        Some(Token::String("binary")) => Ok(KindName::Opaque(Marshal::Binary)),
        Some(Token::String("text")) => Ok(KindName::Opaque(Marshal::Text)),
        _ => Err(LineFault::due(alloc, at, Due::Kind)),
    }
}

/// Reads an array of the fields, each its name and its type.
fn read_field_types(alloc: Global, tokens: &mut Reader<'_>) -> Result<Vec<Field>, LineFault>
    ensures read { IfOk result (λ fs. ReadsSome (IsFieldsJson fs.items) tokens.old tokens.new) }
    ensures whole { (fs : List FieldSpec) (rest : List token.Token) → AreFieldTypesReadable fs
        → ReadsSome (IsFieldsJson fs) tokens.old rest → ReadsIt (λ read. read.items) result tokens.new fs rest }
{
    take_array(alloc, tokens)?;
    let mut fields = Vec::new(alloc);
    while !tokens.take_end_array() {
        take_array(alloc, tokens)?;
        let name = Name::new(read_text(alloc, tokens)?);
        let id = TypeId(read_uint(alloc, tokens)?);
        take_array_end(alloc, tokens)?;
        fields.push(Field { name, id }).map_err(Memory::from)?;
    }
    Ok(fields)
}
