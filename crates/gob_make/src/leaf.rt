//! Values of the basic types, by their first token.

ghost use Rattle.std.specs.Prelude.{◌≡◌, ◌∷◌, ◌<◌, ◌^◌, IfOk, FitsSigned};
ghost use Rattle.std.specs.Fmt.{decimal, signed_decimal};
ghost use Rattle.std.specs.Int.{w64};
ghost use Rattle.json.specs.Json as json;
ghost use Rattle.json.specs.Token as token;
ghost use Rattle.gob_json.specs.Json.{text_json};
ghost use Rattle.gob_lines.specs.Reads.{Reads};
ghost use Rattle.gob_plain.specs.OpaqueText.{SaysBytes};
ghost use Rattle.serde_json.specs.Written.{outline};
ghost use Rattle.gob_types.specs.declared.basic.Basic.TheVariants as basics;
ghost use Rattle.gob_value.specs.View.{view};
ghost use Rattle.gob_make.specs.Leaf.{ReadsBasic, ReadsFloat};
ghost use Rattle.gob_make.specs.Tells.{Begins, from_token};

use crate::float::pattern_of;
use crate::opaque::decoded;
use crate::said::Said;
use gob_lines::{
    Due, LineFault, int_of, read_hex, take_array_end, take_key, take_object_end, uint_of,
};
use gob_types::Basic;
use gob_value::Value;
use json::Token;
use std::str;

/// Reads a value of a basic type from what isn't null.
pub(crate) fn read_basic<'t>(
    basic: Basic,
    token: Option<Token<'t>>,
    said: &mut Said<'t>,
) -> Result<Value, LineFault>
    ensures read { IfOk result (λ v. Begins (λ j. ReadsBasic basic j (view v))
        (from_token token.entry said.old.tokens) said.new.tokens) }
    ensures lenient { said.new.lenient ≡ said.old.lenient }
{
    match basic {
        Basic::Bool => Ok(Value::Bool(read_bool(token, said)?)),
        Basic::Int => Ok(Value::Int(read_int(token, said)?)),
        Basic::Uint => Ok(Value::Uint(read_uint(token, said)?)),
        Basic::Float => Ok(Value::Float(read_float(token, said)?)),
        Basic::Bytes => Ok(Value::Bytes(read_bytes(token, said)?)),
        Basic::Str => Ok(Value::Str(read_text(token, said)?)),
        Basic::Complex => read_complex(token, said),
        Basic::Interface => Err(said.due(Due::Nil)),
    }
}

fn read_bool(token: Option<Token<'_>>, said: &Said<'_>) -> Result<bool, LineFault>
    ensures read { IfOk result (λ v. Begins (λ j. j ≡ json.boolean v)
        (from_token token.entry said.now.tokens) said.now.tokens) }
{
    match token {
        Some(Token::Bool(truth)) => Ok(truth),
        _ => Err(said.due(Due::Bool)),
    }
}

fn read_int(token: Option<Token<'_>>, said: &Said<'_>) -> Result<i64, LineFault>
    ensures read { IfOk result (λ v. Begins (λ j. j ≡ json.number (signed_decimal v))
        (from_token token.entry said.now.tokens) said.now.tokens) }
    ensures fits { IfOk result (λ v. FitsSigned w64 v) }
{
    if let Some(Token::Number(text)) = token {
        if let Some(number) = int_of(text) {
            return Ok(number);
        }
    }
    Err(said.due(Due::Int))
}

fn read_uint(token: Option<Token<'_>>, said: &Said<'_>) -> Result<u64, LineFault>
    ensures read { IfOk result (λ v. Begins (λ j. j ≡ json.number (decimal v))
        (from_token token.entry said.now.tokens) said.now.tokens) }
    ensures fits { IfOk result (λ v. v < 2 ^ 64) }
{
    if let Some(Token::Number(text)) = token {
        if let Some(number) = uint_of(text) {
            return Ok(number);
        }
    }
    Err(said.due(Due::Uint))
}

fn read_float(token: Option<Token<'_>>, said: &Said<'_>) -> Result<u64, LineFault>
    ensures read { IfOk result (λ v. Begins (λ j. ReadsFloat j v)
        (from_token token.entry said.now.tokens) said.now.tokens) }
{
    match pattern_of(token) {
        Some(pattern) => Ok(pattern),
        None => Err(said.due(Due::Float)),
    }
}

// Reads an array of two floats.
fn read_complex<'t>(token: Option<Token<'t>>, said: &mut Said<'t>) -> Result<Value, LineFault>
    ensures read { IfOk result (λ v. Begins (λ j. ReadsBasic basics.Complex j (view v))
        (from_token token.entry said.old.tokens) said.new.tokens) }
    ensures lenient { said.new.lenient ≡ said.old.lenient }
{
    let Some(Token::BeginArray) = token else {
        return Err(said.due(Due::Array));
    };
    let token = said.next();
    let real = read_float(token, said)?;
    let token = said.next();
    let imaginary = read_float(token, said)?;
    take_array_end(said.alloc, &mut said.tokens)?;
    Ok(Value::Complex(real, imaginary))
}

// Reads bytes from a string of base64.
fn read_bytes(token: Option<Token<'_>>, said: &Said<'_>) -> Result<Vec<u8>, LineFault>
    ensures read { IfOk result (λ v. Begins (λ j. SaysBytes v.items j)
        (from_token token.entry said.now.tokens) said.now.tokens) }
{
    if let Some(Token::String(text)) = token {
        if let Some(bytes) = decoded(said.alloc, text)? {
            return Ok(bytes);
        }
    }
    Err(said.due(Due::Base64))
}

// Reads text: a string, or an object that has bytes that are no UTF-8.
fn read_text<'t>(token: Option<Token<'t>>, said: &mut Said<'t>) -> Result<Vec<u8>, LineFault>
    ensures read { IfOk result (λ v. Begins (λ j. j ≡ outline (text_json v.items))
        (from_token token.entry said.old.tokens) said.new.tokens) }
    ensures lenient { said.new.lenient ≡ said.old.lenient }
{
    match token {
        Some(Token::String(text)) => Ok(Vec::from_slice(said.alloc, text.as_bytes())?),
        Some(Token::BeginObject) => read_hex_text(said),
        _ => Err(said.due(Due::Str)),
    }
}

// Reads text that is no UTF-8, behind the brace.
fn read_hex_text(said: &mut Said<'_>) -> Result<Vec<u8>, LineFault>
    ensures read { IfOk result (λ b. Reads (text_json b.items) (token.begin_object ∷ said.old.tokens) said.new.tokens) }
    ensures lenient { said.new.lenient ≡ said.old.lenient }
{
    take_key(said.alloc, &mut said.tokens, "hex")?;
    let bytes = read_hex(said.alloc, &mut said.tokens)?;
    take_object_end(said.alloc, &mut said.tokens)?;
    match str::from_utf8(bytes.as_slice()) {
        Ok(_) => Err(said.due(Due::Str)),
        Err(_) => Ok(bytes),
    }
}
