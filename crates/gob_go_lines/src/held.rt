//! What interfaces hold: what stands around a value.

ghost use Rattle.std.specs.Prelude.{◌≡◌, ◌≢◌, ◌∷◌, ◌<◌, ◌^◌, IsTrue, ℕ, List, IfErr, IfOk, OnOk, false, length};
ghost use Rattle.json.specs.Token as token;
ghost use Rattle.gob_num.specs.Spelled.{Appends};
ghost use Rattle.gob_num.specs.Unsigned.{AreBytes};
ghost use Rattle.gob_types.specs.Defined.{types};
ghost use Rattle.gob_types.specs.declared.id.TypeId.{TypeId};
ghost use Rattle.serde_json.specs.Data.{Data};
ghost use Rattle.gob_json.specs.Json.{text_json};
ghost use Rattle.gob_stream.specs.Body.{MayPut};
ghost use Rattle.gob_lines.specs.Complete.{PassesIt, ReadsIt};
ghost use Rattle.gob_lines.specs.Numbers.{IsNatural, ReadsSome};
ghost use Rattle.gob_lines.specs.Reads.{IsWrong, Reads};
ghost use Rattle.gob_go_lines.specs.Lines.{ReadsHeld, SpellsHeld};

use crate::put::put_bytes;
use gob_lines::{Due, LineFault, read_text, read_uint, take_key, take_object_end};
use gob_num::write_int;
use gob_types::{Table, TypeId};
use json::{Reader, Token};
use std::alloc::Global;

/// The type of what an interface holds.
pub(crate) struct Held {
    /// Its name, of one byte at least.
    pub(crate) name: Vec<u8>,
    /// Its number.
    pub(crate) id: TypeId,
}

// Not derived, so that a drop is one call in the proofs of what owns one.
impl Drop for Held {
    fn drop(self) {
        let Held { name: _, id: _ } = self;
    }
}

/// Takes a nil, or where interfaces may hold values the brace that opens what one holds. True says that it was a nil.
pub(crate) fn take_nil(
    alloc: Global,
    holds: bool,
    tokens: &mut Reader<'_>,
) -> Result<bool, LineFault>
    ensures nil { IfOk result (λ nil. IsTrue nil → tokens.old ≡ token.null ∷ tokens.new) }
    ensures held { IfOk result (λ nil. nil ≡ false
        → (tokens.old ≡ token.begin_object ∷ tokens.new) × IsTrue holds) }
    ensures no_nil { IfErr result (λ f. IsWrong f → (rest : List token.Token) → tokens.old ≢ token.null ∷ rest) }
    ensures no_held { IfErr result (λ f. IsWrong f → IsTrue holds → (rest : List token.Token)
        → tokens.old ≢ token.begin_object ∷ rest) }
{
    let at = tokens.offset();
    match tokens.next() {
        Some(Token::Null) => Ok(true),
        Some(Token::BeginObject) if holds => Ok(false),
        _ if holds => Err(LineFault::due(alloc, at, Due::Held)),
        _ => Err(LineFault::due(alloc, at, Due::Nil)),
    }
}

/// Takes what stands in front of the value that an interface holds, behind the first brace, and its type, of which
/// values may stand in interfaces.
// held: "interface":{"name":NAME,"type":ID,"value":
pub(crate) fn take_held(
    alloc: Global,
    table: &Table,
    tokens: &mut Reader<'_>,
) -> Result<Held, LineFault>
    ensures read { IfOk result (λ held. ReadsHeld held.name.items held.id tokens.old tokens.new) }
    ensures named { IfOk result (λ held. 0 < length held.name.items) }
    ensures may { IfOk result (λ held. MayPut (types table.now) held.id) }
    ensures small { IfOk result (λ held. held.id.0 < 2 ^ 63) }
    ensures whole { (name : List ℕ) (id : TypeId) (rest : List token.Token) → AreBytes name → 0 < length name
        → MayPut (types table.now) id → id.0 < 2 ^ 63 → ReadsHeld name id tokens.old rest
        → ReadsIt {B = List ℕ × TypeId} (λ held. (held.name.items, held.id)) result tokens.new (name, id) rest }
{
    take_key(alloc, tokens, "interface")?;
    take_object(alloc, tokens)?;
    take_key(alloc, tokens, "name")?;
    let name = read_name(alloc, tokens)?;
    take_key(alloc, tokens, "type")?;
    let id = read_type(alloc, table, tokens)?;
    take_key(alloc, tokens, "value")?;
    Ok(Held { name, id })
}

/// Takes the brace that opens an object.
fn take_object(alloc: Global, tokens: &mut Reader<'_>) -> Result<(), LineFault>
    ensures ok { OnOk result (tokens.old ≡ token.begin_object ∷ tokens.new) }
    ensures none { IfErr result (λ f. IsWrong f → (rest : List token.Token) → tokens.old ≢ token.begin_object ∷ rest) }
{
    let at = tokens.offset();
    match tokens.next() {
        Some(Token::BeginObject) => Ok(()),
        _ => Err(LineFault::due(alloc, at, Due::Object)),
    }
}

/// Reads the name of a type, which has one byte at least.
fn read_name(alloc: Global, tokens: &mut Reader<'_>) -> Result<Vec<u8>, LineFault>
    ensures read { IfOk result (λ name. Reads (text_json name.items) tokens.old tokens.new) }
    ensures some { IfOk result (λ name. 0 < length name.items) }
    ensures whole { (name : List ℕ) (rest : List token.Token) → AreBytes name → 0 < length name
        → Reads (text_json name) tokens.old rest → ReadsIt (λ read. read.items) result tokens.new name rest }
{
    let at = tokens.offset();
    let name = read_text(alloc, tokens)?;
    if name.is_empty() {
        return Err(LineFault::due(alloc, at, Due::HeldName));
    }
    Ok(name)
}

/// Reads the number of a type of which values may stand in interfaces.
fn read_type(alloc: Global, table: &Table, tokens: &mut Reader<'_>) -> Result<TypeId, LineFault>
    ensures read { IfOk result (λ id. ReadsSome (IsNatural id.0) tokens.old tokens.new) }
    ensures may { IfOk result (λ id. MayPut (types table.now) id) }
    ensures small { IfOk result (λ id. id.0 < 2 ^ 63) }
    ensures whole { (id : TypeId) (j : Data) (rest : List token.Token) → MayPut (types table.now) id → id.0 < 2 ^ 63
        → IsNatural id.0 j → Reads j tokens.old rest → ReadsIt (λ read. read) result tokens.new id rest }
{
    let at = tokens.offset();
    let id = TypeId(read_uint(alloc, tokens)?);
    if !may_hold(table, id) {
        return Err(LineFault::due(alloc, at, Due::Type));
    }
    Ok(id)
}

/// Whether values of the type may stand in interfaces, and its number is that of a type in a stream.
fn may_hold(table: &Table, id: TypeId) -> bool
    ensures may { IsTrue result → MayPut (types table.now) id }
    ensures small { IsTrue result → id.0 < 2 ^ 63 }
    ensures whole { MayPut (types table.now) id → id.0 < 2 ^ 63 → IsTrue result }
{
    if id.0 > i64::MAX as u64 || id.0 == TypeId::GOB_ENCODER_TYPE.0 {
        return false;
    }
    table.kept(id)
}

/// Takes the two braces behind the value that an interface holds.
pub(crate) fn take_held_end(alloc: Global, tokens: &mut Reader<'_>) -> Result<(), LineFault>
    ensures read { OnOk result (tokens.old ≡ token.end_object ∷ token.end_object ∷ tokens.new) }
    ensures whole { (rest : List token.Token) → tokens.old ≡ token.end_object ∷ token.end_object ∷ rest
        → PassesIt result tokens.new rest }
{
    take_object_end(alloc, tokens)?;
    take_object_end(alloc, tokens)
}

/// Puts what an interface holds: the name of its type, its type's number, and its bytes behind their count.
// held: count name number count body
pub(crate) fn put_held(
    alloc: Global,
    held: &Held,
    body: &[u8],
    out: &mut Vec<u8>,
) -> Result<(), LineFault>
    requires { held.now.id.0 < 2 ^ 63 }
    ensures ok { OnOk result (Appends (SpellsHeld held.now.name.items held.now.id body.now)
        out.old.items out.new.items) }
    ensures holds { AreBytes held.now.name.items }
    ensures memory { IfErr result (λ f. ¬ IsWrong f) }
{
    put_bytes(alloc, &held.name, out)?;
    write_int(alloc, held.id.0 as i64, out)?;
    put_bytes(alloc, body, out)
}
