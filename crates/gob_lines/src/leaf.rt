//! What has no parts, read from the tokens of a line: numbers, bytes, text and the patterns of floats.

ghost use Rattle.std.specs.Prelude.{◌≡◌, ◌≢◌, ◌↔◌, ◌∷◌, ◌^◌, ◌<◌, IsTrue, ℕ, ℤ, List, None, FitsSigned};
ghost use Rattle.std.specs.Prelude.{IfErr, IfOk, IfSome, Ok, OnOk, decimal};
ghost use Rattle.hex.specs.declared.error.FromHexError.TheVariants as hex_error;
ghost use Rattle.hex.specs.Hex.{IsBytes, decode_of, encode_lower};
ghost use Rattle.std.specs.Int.{to_be_bytes, w64};
ghost use Rattle.std.specs.Prelude as truth;
ghost use Rattle.std.specs.Fmt.{signed_decimal};
ghost use Rattle.json.specs.Token as token;
ghost use Rattle.serde_json.specs.Data.{Data, null, boolean};
ghost use Rattle.gob_types.specs.declared.id.TypeId.{TypeId};
ghost use Rattle.gob_types.specs.Table.{Table};
ghost use Rattle.gob_types.specs.declared.kind.Kind.TheVariants as kind;
ghost use Rattle.gob_value.specs.Bytes.{HoldsBytes};
ghost use Rattle.gob_value.specs.Spelling.{SpellsAs};
ghost use Rattle.gob_value.specs.Tree.{Tree};
ghost use Rattle.gob_value.specs.View.{view};
ghost use Rattle.gob_json.specs.Json.{hex_json, text_json, opaque_json, pattern_json, pair_json};
ghost use Rattle.gob_json.specs.Json.{value_json};
ghost use Rattle.gob_lines.specs.Complete.{ReadsIt};
ghost use Rattle.gob_lines.specs.Numbers.{IsBasicJson, IsInteger, IsNatural, ReadsSome};
ghost use Rattle.gob_lines.specs.Reads.{Reads, IsWrong};

use crate::fault::{Due, LineFault};
use gob_value::Value;
use hex::FromHexError;
use itoa::Buffer;
use json::{Reader, Token};
use std::alloc::Global;
use std::str;

/// Takes the key of a member.
pub fn take_key(alloc: Global, tokens: &mut Reader<'_>, key: &'static str) -> Result<(), LineFault>
    ensures ok { OnOk result (tokens.old ≡ token.key key.now ∷ tokens.new) }
    ensures none { IfErr result (λ f. IsWrong f → (rest : List token.Token) → tokens.old ≢ token.key key.now ∷ rest) }
{
    let at = tokens.offset();
    match tokens.next() {
        Some(Token::Key(found)) if found == key => Ok(()),
        _ => Err(LineFault::due(alloc, at, Due::Key(key))),
    }
}

/// Takes the bracket that opens an array.
pub fn take_array(alloc: Global, tokens: &mut Reader<'_>) -> Result<(), LineFault>
    ensures ok { OnOk result (tokens.old ≡ token.begin_array ∷ tokens.new) }
    ensures none { IfErr result (λ f. IsWrong f → (rest : List token.Token) → tokens.old ≢ token.begin_array ∷ rest) }
{
    let at = tokens.offset();
    match tokens.next() {
        Some(Token::BeginArray) => Ok(()),
        _ => Err(LineFault::due(alloc, at, Due::Array)),
    }
}

/// Takes the bracket that closes an array.
pub fn take_array_end(alloc: Global, tokens: &mut Reader<'_>) -> Result<(), LineFault>
    ensures ok { OnOk result (tokens.old ≡ token.end_array ∷ tokens.new) }
    ensures none { IfErr result (λ f. IsWrong f → (rest : List token.Token) → tokens.old ≢ token.end_array ∷ rest) }
{
    let at = tokens.offset();
    match tokens.next() {
        Some(Token::EndArray) => Ok(()),
        _ => Err(LineFault::due(alloc, at, Due::ArrayEnd)),
    }
}

/// Takes the brace that closes an object.
pub fn take_object_end(alloc: Global, tokens: &mut Reader<'_>) -> Result<(), LineFault>
    ensures ok { OnOk result (tokens.old ≡ token.end_object ∷ tokens.new) }
    ensures none { IfErr result (λ f. IsWrong f → (rest : List token.Token) → tokens.old ≢ token.end_object ∷ rest) }
{
    let at = tokens.offset();
    match tokens.next() {
        Some(Token::EndObject) => Ok(()),
        _ => Err(LineFault::due(alloc, at, Due::ObjectEnd)),
    }
}

/// Reads a truth value.
pub(crate) fn read_bool(alloc: Global, tokens: &mut Reader<'_>) -> Result<bool, LineFault>
    ensures ok { IfOk result (λ b. Reads (boolean b) tokens.old tokens.new) }
    ensures none { IfErr result (λ f. IsWrong f → (b : truth.Bool) (rest : List token.Token)
        → Reads (boolean b) tokens.old rest → ⊥) }
{
    let at = tokens.offset();
    match tokens.next() {
        Some(Token::Bool(truth)) => Ok(truth),
        _ => Err(LineFault::due(alloc, at, Due::Bool)),
    }
}

/// Whether the texts are one.
pub fn is_same(text: &str, other: &str) -> bool
    ensures { IsTrue result ↔ (text.now ≡ other.now) }
{
    text == other
}

/// The number whose one text in decimal this is.
pub fn int_of(text: &str) -> Option<i64>
    ensures ok { IfSome result (λ i. signed_decimal i ≡ text.now) }
    ensures none { result ≡ None → (i : ℤ) → FitsSigned w64 i → signed_decimal i ≢ text.now }
{
    let number = i64::from_str_radix(text, 10).ok()?;
    let mut buffer = Buffer::new();
    if !is_same(buffer.format(number), text) {
        return None;
    }
    Some(number)
}

/// The number whose one text in decimal this is.
pub fn uint_of(text: &str) -> Option<u64>
    ensures ok { IfSome result (λ n. decimal n ≡ text.now) }
    ensures none { result ≡ None → (n : ℕ) → n < 2 ^ 64 → decimal n ≢ text.now }
{
    let number = u64::from_str_radix(text, 10).ok()?;
    let mut buffer = Buffer::new();
    if !is_same(buffer.format(number), text) {
        return None;
    }
    Some(number)
}

/// Reads a signed number, or a text of its digits.
pub(crate) fn read_int(alloc: Global, tokens: &mut Reader<'_>) -> Result<i64, LineFault>
    ensures ok { IfOk result (λ i. ReadsSome (IsInteger i) tokens.old tokens.new) }
    ensures none { IfErr result (λ f. IsWrong f → (i : ℤ) (j : Data) (rest : List token.Token)
        → FitsSigned w64 i → IsInteger i j → Reads j tokens.old rest → ⊥) }
    ensures fits { IfOk result (λ i. FitsSigned w64 i) }
{
    let at = tokens.offset();
    match tokens.next() {
        Some(Token::Number(digits)) => int_in(alloc, digits, at),
        Some(Token::String(digits)) => int_in(alloc, digits, at),
        _ => Err(LineFault::due(alloc, at, Due::Int)),
    }
}

/// The signed number of these digits, which stand at this offset of the line.
fn int_in(alloc: Global, digits: &str, at: usize) -> Result<i64, LineFault>
    ensures ok { IfOk result (λ i. signed_decimal i ≡ digits.now) }
    ensures none { IfErr result (λ f. IsWrong f → (i : ℤ) → FitsSigned w64 i → signed_decimal i ≢ digits.now) }
    ensures fits { IfOk result (λ i. FitsSigned w64 i) }
{
    match int_of(digits) {
        Some(number) => Ok(number),
        None => Err(LineFault::due(alloc, at, Due::Int)),
    }
}

/// Reads an unsigned number, or a text of its digits.
pub fn read_uint(alloc: Global, tokens: &mut Reader<'_>) -> Result<u64, LineFault>
    ensures ok { IfOk result (λ n. ReadsSome (IsNatural n) tokens.old tokens.new) }
    ensures none { IfErr result (λ f. IsWrong f → (n : ℕ) (j : Data) (rest : List token.Token)
        → n < 2 ^ 64 → IsNatural n j → Reads j tokens.old rest → ⊥) }
    ensures fits { IfOk result (λ n. n < 2 ^ 64) }
{
    let at = tokens.offset();
    match tokens.next() {
        Some(Token::Number(digits)) => uint_in(alloc, digits, at),
        Some(Token::String(digits)) => uint_in(alloc, digits, at),
        _ => Err(LineFault::due(alloc, at, Due::Uint)),
    }
}

/// The unsigned number of these digits, which stand at this offset of the line.
fn uint_in(alloc: Global, digits: &str, at: usize) -> Result<u64, LineFault>
    ensures ok { IfOk result (λ n. decimal n ≡ digits.now) }
    ensures none { IfErr result (λ f. IsWrong f → (n : ℕ) → n < 2 ^ 64 → decimal n ≢ digits.now) }
    ensures fits { IfOk result (λ n. n < 2 ^ 64) }
{
    match uint_of(digits) {
        Some(number) => Ok(number),
        None => Err(LineFault::due(alloc, at, Due::Uint)),
    }
}

/// The bytes of which this is the text in lower case hexadecimal.
fn bytes_of(alloc: Global, text: &str) -> Result<Option<Vec<u8>>, LineFault>
    ensures ok { IfOk result (λ found. IfSome found (λ bytes. encode_lower bytes.items ≡ text.now)) }
    ensures decoded { IfOk result (λ found. IfSome found (λ bytes. decode_of text.now ≡ Ok bytes.items)) }
    ensures none { IfOk result (λ found. found ≡ None → (b : List ℕ) → IsBytes b → encode_lower b ≢ text.now) }
    ensures memory { IfErr result (λ f. IsWrong f → ⊥) }
{
    match hex::decode(alloc, text) {
        Ok(bytes) => {
            let again = hex::encode(alloc, bytes.as_slice())?;
            if is_same(again.as_str(), text) {
                return Ok(Some(bytes));
            }
            Ok(None)
        }
        Err(error) => undecoded(error),
    }
}

/// What is answered where bytes aren't decoded: want of memory, or that the text is none.
fn undecoded(error: FromHexError) -> Result<Option<Vec<u8>>, LineFault>
    ensures none { IfOk result (λ found. (found ≡ None) × (error ≢ hex_error.OutOfMemory)) }
    ensures memory { IfErr result (λ f. IsWrong f → ⊥) }
{
    match error {
        FromHexError::OutOfMemory => Err(LineFault::Memory),
        _ => Ok(None),
    }
}

/// Reads bytes from a string of lower case hexadecimal.
pub fn read_hex(alloc: Global, tokens: &mut Reader<'_>) -> Result<Vec<u8>, LineFault>
    ensures ok { IfOk result (λ bytes. Reads (hex_json bytes.items) tokens.old tokens.new) }
    ensures none { IfErr result (λ f. IsWrong f → (b : List ℕ) (rest : List token.Token)
        → IsBytes b → Reads (hex_json b) tokens.old rest → ⊥) }
    ensures only { IfOk result (λ bytes. (b : List ℕ) (rest : List token.Token)
        → IsBytes b → Reads (hex_json b) tokens.old rest → (bytes.items ≡ b) × (tokens.new ≡ rest)) }
{
    let at = tokens.offset();
    if let Some(Token::String(text)) = tokens.next() {
        if let Some(bytes) = bytes_of(alloc, text)? {
            return Ok(bytes);
        }
    }
    Err(LineFault::due(alloc, at, Due::Hex))
}

/// The 64 bits of a float of which this is the text in 16 digits.
fn pattern_of(alloc: Global, text: &str) -> Result<Option<u64>, LineFault>
    ensures ok { IfOk result (λ found. IfSome found (λ p. encode_lower (to_be_bytes w64 p) ≡ text.now)) }
    ensures none { IfOk result (λ found. found ≡ None → (p : ℕ) → p < 2 ^ 64
        → encode_lower (to_be_bytes w64 p) ≢ text.now) }
    ensures memory { IfErr result (λ f. IsWrong f → ⊥) }
{
    let mut bytes = [0u8; 8];
    if hex::decode_to_slice(text, &mut bytes).is_err() {
        return Ok(None);
    }
    let pattern = u64::from_be_bytes(bytes);
    let again = hex::encode(alloc, &pattern.to_be_bytes())?;
    if is_same(again.as_str(), text) {
        return Ok(Some(pattern));
    }
    Ok(None)
}

/// Reads the 64 bits of a float from a string of 16 digits.
pub(crate) fn read_pattern(alloc: Global, tokens: &mut Reader<'_>) -> Result<u64, LineFault>
    ensures ok { IfOk result (λ p. Reads (pattern_json p) tokens.old tokens.new) }
    ensures none { IfErr result (λ f. IsWrong f → (p : ℕ) (rest : List token.Token)
        → p < 2 ^ 64 → Reads (pattern_json p) tokens.old rest → ⊥) }
    ensures fits { IfOk result (λ p. p < 2 ^ 64) }
{
    let at = tokens.offset();
    if let Some(Token::String(text)) = tokens.next() {
        if let Some(pattern) = pattern_of(alloc, text)? {
            return Ok(pattern);
        }
    }
    Err(LineFault::due(alloc, at, Due::Pattern))
}

/// Reads the two patterns of a complex number.
pub(crate) fn read_complex(alloc: Global, tokens: &mut Reader<'_>) -> Result<(u64, u64), LineFault>
    ensures read { IfOk result (λ p. Reads (pair_json (pattern_json p.0) (pattern_json p.1)) tokens.old tokens.new) }
    ensures whole { (p q : ℕ) (rest : List token.Token) → p < 2 ^ 64 → q < 2 ^ 64
        → Reads (pair_json (pattern_json p) (pattern_json q)) tokens.old rest
        → ReadsIt (λ x. x) result tokens.new (p, q) rest }
{
    take_array(alloc, tokens)?;
    let real = read_pattern(alloc, tokens)?;
    let imaginary = read_pattern(alloc, tokens)?;
    take_array_end(alloc, tokens)?;
    Ok((real, imaginary))
}

/// Reads text: a string, or an object that has bytes that are no UTF-8.
pub fn read_text(alloc: Global, tokens: &mut Reader<'_>) -> Result<Vec<u8>, LineFault>
    ensures read { IfOk result (λ bytes. Reads (text_json bytes.items) tokens.old tokens.new) }
    ensures whole { (b : List ℕ) (rest : List token.Token) → IsBytes b → Reads (text_json b) tokens.old rest
        → ReadsIt (λ bytes. bytes.items) result tokens.new b rest }
{
    let at = tokens.offset();
    match tokens.next() {
        Some(Token::String(text)) => Ok(Vec::from_slice(alloc, text.as_bytes())?),
        Some(Token::BeginObject) => {
            take_key(alloc, tokens, "hex")?;
            let bytes = read_hex(alloc, tokens)?;
            take_object_end(alloc, tokens)?;
            match str::from_utf8(bytes.as_slice()) {
                Ok(_) => Err(LineFault::due(alloc, at, Due::Str)),
                Err(_) => Ok(bytes),
            }
        }
        _ => Err(LineFault::due(alloc, at, Due::Str)),
    }
}

/// Reads the bytes of an opaque value.
pub fn read_opaque(alloc: Global, tokens: &mut Reader<'_>) -> Result<Vec<u8>, LineFault>
    ensures read { IfOk result (λ bytes. Reads (opaque_json bytes.items) tokens.old tokens.new) }
    ensures whole { (b : List ℕ) (rest : List token.Token) → IsBytes b → Reads (opaque_json b) tokens.old rest
        → ReadsIt (λ bytes. bytes.items) result tokens.new b rest }
{
    let at = tokens.offset();
    match tokens.next() {
        Some(Token::BeginObject) => {
            take_key(alloc, tokens, "opaque")?;
            let bytes = read_hex(alloc, tokens)?;
            take_object_end(alloc, tokens)?;
            Ok(bytes)
        }
        _ => Err(LineFault::due(alloc, at, Due::Opaque)),
    }
}

/// Reads a nil.
pub(crate) fn read_nil(alloc: Global, tokens: &mut Reader<'_>) -> Result<(), LineFault>
    ensures ok { OnOk result (Reads null tokens.old tokens.new) }
    ensures none { IfErr result (λ f. IsWrong f → (rest : List token.Token) → Reads null tokens.old rest → ⊥) }
{
    let at = tokens.offset();
    match tokens.next() {
        Some(Token::Null) => Ok(()),
        _ => Err(LineFault::due(alloc, at, Due::Nil)),
    }
}

/// Reads a value without parts of a basic type.
pub fn read_basic(
    alloc: Global,
    basic: gob_types::Basic,
    tokens: &mut Reader<'_>,
) -> Result<Value, LineFault>
    ensures read { IfOk result (λ v. (T : Table) (t : TypeId)
        → ReadsSome (IsBasicJson T t (view v)) tokens.old tokens.new) }
    ensures whole { (T : Table) (t : TypeId) (v : Tree) (j : Data) (b : List ℕ) (rest : List token.Token)
        → SpellsAs T (kind.Basic basic) v b → HoldsBytes v → IsBasicJson T t v j → Reads j tokens.old rest
        → ReadsIt view result tokens.new v rest }
{
    match basic {
        gob_types::Basic::Bool => Ok(Value::Bool(read_bool(alloc, tokens)?)),
        gob_types::Basic::Int => Ok(Value::Int(read_int(alloc, tokens)?)),
        gob_types::Basic::Uint => Ok(Value::Uint(read_uint(alloc, tokens)?)),
        gob_types::Basic::Float => Ok(Value::Float(read_pattern(alloc, tokens)?)),
        gob_types::Basic::Bytes => Ok(Value::Bytes(read_hex(alloc, tokens)?)),
        gob_types::Basic::Str => Ok(Value::Str(read_text(alloc, tokens)?)),
        gob_types::Basic::Complex => {
            let (real, imaginary) = read_complex(alloc, tokens)?;
            Ok(Value::Complex(real, imaginary))
        }
        gob_types::Basic::Interface => {
            read_nil(alloc, tokens)?;
            Ok(Value::Nil)
        }
    }
}
