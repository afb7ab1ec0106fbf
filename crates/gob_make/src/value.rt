//! A value of any type, read from the tokens of its JSON part by part: the functions call one another down the value.

ghost use Rattle.std.specs.Prelude.{◌≡◌, ◌↔◌, IfOk, IsTrue, OnOk, Some};
ghost use Rattle.json.specs.declared.token.Token.TheVariants as taken;
ghost use Rattle.gob_value.specs.Tree.{no_field};
ghost use Rattle.gob_value.specs.View.{view, views, pair_views, field_views};
ghost use Rattle.gob_make.specs.Leaf.{ReadsKey};
ghost use Rattle.gob_make.specs.Plain.{ReadsPlain, ReadsPairs, ReadsEntries, ReadsMembers};
ghost use Rattle.gob_make.specs.Tells.{AddsMember, Begins, BeginsItems, BeginsMembers, from_token};
ghost use Rattle.gob_make.specs.Tells.{ReadsArray, ReadsElements, ReadsMap, ReadsStruct};

use crate::fields::{put_field, without_zeros};
use crate::leaf::read_basic;
use crate::names::FieldNames;
use crate::opaque::read_opaque;
use crate::said::Said;
use crate::zero::{fill, zero_value};
use gob_lines::{Due, LineFault, PathStep, int_of, take_array_end, uint_of};
use gob_num::Memory;
use gob_types::{Basic, Field, Kind, Shapes, TypeId};
use gob_value::Value;
use json::Token;
use std::collections::BTreeMap;

/// Reads a value of this type, which begins with the token, and no part of which is deeper than `depth`.
#[cycle(depth)]
pub(crate) fn read_value<'t, S: Shapes>(
    table: &S,
    id: TypeId,
    depth: u64,
    token: Option<Token<'t>>,
    said: &mut Said<'t>,
) -> Result<Value, LineFault>
    ensures read { IfOk result (λ v. Begins (λ j. ReadsPlain said.old.lenient (S.table table.now) id j (view v))
        (from_token token.entry said.old.tokens) said.new.tokens) }
    ensures lenient { said.new.lenient ≡ said.old.lenient }
{
    if let Some(Token::Null) = token {
        return zero_value(table, id, depth, said);
    }
    if depth == 0 {
        return Err(said.due(Due::Shallower));
    }
    let Some(shape) = table.shape_of(id) else {
        return Err(said.due(Due::Type));
    };
    match &shape.kind {
        Kind::Basic(basic) => read_basic(*basic, token, said),
        Kind::Array { elem, len } => read_array(table, *elem, *len, depth - 1, token, said),
        Kind::Slice { elem } => {
            Ok(Value::Many(read_elements(table, *elem, depth - 1, token, said)?))
        }
        Kind::Map { key, elem } => read_map(table, *key, *elem, depth - 1, token, said),
        Kind::Struct { fields } => read_struct(table, fields.as_slice(), depth - 1, token, said),
        Kind::Opaque(_) => Ok(Value::Opaque(read_opaque(shape, token, said)?)),
    }
}

/// Reads an array of this many elements at most. Zeros stand for those that are missing.
#[cycle(depth)]
fn read_array<'t, S: Shapes>(
    table: &S,
    id: TypeId,
    count: u64,
    depth: u64,
    token: Option<Token<'t>>,
    said: &mut Said<'t>,
) -> Result<Value, LineFault>
    ensures read { IfOk result (λ v. Begins (λ j. ReadsArray said.old.lenient (S.table table.now) id count j (view v))
        (from_token token.entry said.old.tokens) said.new.tokens) }
    ensures lenient { said.new.lenient ≡ said.old.lenient }
{
    let at = said.at;
    let mut elements = read_elements(table, id, depth, token, said)?;
    // A fault from here on is one of the whole array.
    said.at = at;
    if elements.len() as u64 > count {
        return Err(said.due(Due::AtMost(count)));
    }
    fill(table, id, count, depth, &mut elements, said)?;
    Ok(Value::Many(elements))
}

/// Reads an array of elements of this type.
#[cycle(depth)]
fn read_elements<'t, S: Shapes>(
    table: &S,
    id: TypeId,
    depth: u64,
    token: Option<Token<'t>>,
    said: &mut Said<'t>,
) -> Result<Vec<Value>, LineFault>
    ensures read { IfOk result (λ v. Begins
        (λ j. ReadsElements said.old.lenient (S.table table.now) id j (views v.items))
        (from_token token.entry said.old.tokens) said.new.tokens) }
    ensures lenient { said.new.lenient ≡ said.old.lenient }
{
    let Some(Token::BeginArray) = token else {
        return Err(said.due(Due::Array));
    };
    let mut elements = Vec::new(said.alloc);
    'elements: while !said.tokens.take_end_array() {
        let index = elements.len() as u64;
        let token = said.next();
        match read_value(table, id, depth, token, said) {
            Ok(element) => elements.push(element).map_err(Memory::from)?,
            Err(fault) => return Err(fault.within(PathStep::Element(index))),
        }
    }
    Ok(elements)
}

/// Reads a map, whose keys and elements are of these types: an object, or an array of pairs.
#[cycle(depth)]
fn read_map<'t, S: Shapes>(
    table: &S,
    key_id: TypeId,
    id: TypeId,
    depth: u64,
    token: Option<Token<'t>>,
    said: &mut Said<'t>,
) -> Result<Value, LineFault>
    ensures read { IfOk result (λ v. Begins (λ j. ReadsMap said.old.lenient (S.table table.now) key_id id j (view v))
        (from_token token.entry said.old.tokens) said.new.tokens) }
    ensures lenient { said.new.lenient ≡ said.old.lenient }
{
    match token {
        Some(Token::BeginArray) => Ok(Value::Pairs(read_pairs(table, key_id, id, depth, said)?)),
        Some(Token::BeginObject) => Ok(Value::Pairs(read_entries(table, key_id, id, depth, said)?)),
        _ => Err(said.due(Due::Pairs)),
    }
}

/// Reads the pairs of an array, each of a key and an element, behind its bracket.
#[cycle(depth)]
fn read_pairs<'t, S: Shapes>(
    table: &S,
    key_id: TypeId,
    id: TypeId,
    depth: u64,
    said: &mut Said<'t>,
) -> Result<Vec<(Value, Value)>, LineFault>
    ensures read { IfOk result (λ ps. BeginsItems
        (λ js. ReadsPairs said.old.lenient (S.table table.now) key_id id js (pair_views ps.items))
        said.old.tokens said.new.tokens) }
    ensures lenient { said.new.lenient ≡ said.old.lenient }
{
    let mut pairs = Vec::new(said.alloc);
    'pairs: while !said.tokens.take_end_array() {
        let index = pairs.len() as u64;
        let Some(Token::BeginArray) = said.next() else {
            return Err(said.due(Due::Pairs));
        };
        let token = said.next();
        let key = match read_value(table, key_id, depth, token, said) {
            Ok(key) => key,
            Err(fault) => return Err(fault.within(PathStep::Key(index))),
        };
        let token = said.next();
        match read_value(table, id, depth, token, said) {
            Ok(element) => pairs.push((key, element)).map_err(Memory::from)?,
            Err(fault) => return Err(fault.within(PathStep::Value(index))),
        }
        take_array_end(said.alloc, &mut said.tokens)?;
    }
    Ok(pairs)
}

/// Reads the pairs of an object, whose members the keys name, behind its brace.
#[cycle(depth)]
fn read_entries<'t, S: Shapes>(
    table: &S,
    key_id: TypeId,
    id: TypeId,
    depth: u64,
    said: &mut Said<'t>,
) -> Result<Vec<(Value, Value)>, LineFault>
    ensures read { IfOk result (λ ps. BeginsMembers
        (λ ms. ReadsEntries said.old.lenient (S.table table.now) key_id id ms (pair_views ps.items))
        said.old.tokens said.new.tokens) }
    ensures lenient { said.new.lenient ≡ said.old.lenient }
{
    let mut pairs = Vec::new(said.alloc);
    'entries: while let Some(name) = said.next_key()? {
        let index = pairs.len() as u64;
        let key = match key_of(table, key_id, name, said) {
            Ok(key) => key,
            Err(fault) => return Err(fault.within(PathStep::Key(index))),
        };
        let token = said.next();
        match read_value(table, id, depth, token, said) {
            Ok(element) => pairs.push((key, element)).map_err(Memory::from)?,
            Err(fault) => return Err(fault.within(PathStep::Value(index))),
        }
    }
    Ok(pairs)
}

/// The key of this type that gives a member this name.
fn key_of<S: Shapes>(table: &S, id: TypeId, name: &str, said: &Said<'_>) -> Result<Value, LineFault>
    ensures { IfOk result (λ x. ReadsKey (S.table table.now) id name.now (view x)) }
{
    match table.basic_of(id) {
        Some(Basic::Str) => Ok(Value::Str(Vec::from_slice(said.alloc, name.as_bytes())?)),
        Some(Basic::Int) => match int_of(name) {
            Some(number) => Ok(Value::Int(number)),
            None => Err(said.due(Due::Int)),
        },
        Some(Basic::Uint) => match uint_of(name) {
            Some(number) => Ok(Value::Uint(number)),
            None => Err(said.due(Due::Uint)),
        },
        _ => Err(said.due(Due::Array)),
    }
}

/// Reads a struct of these fields.
#[cycle(depth)]
fn read_struct<'t, S: Shapes>(
    table: &S,
    types: &[Field],
    depth: u64,
    token: Option<Token<'t>>,
    said: &mut Said<'t>,
) -> Result<Value, LineFault>
    ensures read { IfOk result (λ v. Begins (λ j. ReadsStruct said.old.lenient (S.table table.now) types.now j (view v))
        (from_token token.entry said.old.tokens) said.new.tokens) }
    ensures lenient { said.new.lenient ≡ said.old.lenient }
{
    let Some(Token::BeginObject) = token else {
        return Err(said.due(Due::Object));
    };
    let fields = read_members(table, types, depth, said)?;
    Ok(Value::Fields(without_zeros(said.alloc, table, types, fields)?))
}

/// Reads the fields that the members of an object say, behind its brace, with those that are zero.
#[cycle(depth)]
fn read_members<'t, S: Shapes>(
    table: &S,
    types: &[Field],
    depth: u64,
    said: &mut Said<'t>,
) -> Result<BTreeMap<u64, Value>, LineFault>
    ensures read { IfOk result (λ fs. BeginsMembers
        (λ ms. ReadsMembers said.old.lenient (S.table table.now) types.now no_field ms (field_views fs.entries))
        said.old.tokens said.new.tokens) }
    ensures lenient { said.new.lenient ≡ said.old.lenient }
{
    let mut fields = BTreeMap::new(said.alloc);
    let mut names = FieldNames::new(said.alloc, types);
    'members: while let Some(name) = said.next_key()? {
        match names.number_of(name)? {
            Some(number) => read_member(table, types, number, depth, &mut fields, said)?,
            None => said.pass_member(name)?,
        }
    }
    Ok(fields)
}

/// Reads the field of this number, and puts it among the others where it isn't null.
#[cycle(depth)]
fn read_member<'t, S: Shapes>(
    table: &S,
    types: &[Field],
    number: usize,
    depth: u64,
    fields: &mut BTreeMap<u64, Value>,
    said: &mut Said<'t>,
) -> Result<(), LineFault>
    ensures added { OnOk result (AddsMember said.old.lenient (S.table table.now) types.now number
        (field_views fields.old.entries) (field_views fields.new.entries) said.old.tokens said.new.tokens) }
    ensures lenient { said.new.lenient ≡ said.old.lenient }
{
    let at = said.at;
    let Some(field) = types.get(number) else {
        return Err(said.due(Due::Member));
    };
    let token = said.next();
    if is_null(token) {
        return Ok(());
    }
    match read_value(table, field.id, depth, token, said) {
        Ok(value) => {
            if !put_field(fields, number as u64, value)? {
                // The fault is the name, and not the value behind it.
                said.at = at;
                return Err(
                    said.due(Due::NewMember)
                        .within_field(said.alloc, &field.name),
                );
            }
            Ok(())
        }
        Err(fault) => Err(fault.within_field(said.alloc, &field.name)),
    }
}

// Whether the token is null.
fn is_null(token: Option<Token<'_>>) -> bool
    ensures { IsTrue result ↔ (token.entry ≡ Some taken.Null) }
{
    matches!(token, Some(Token::Null))
}
