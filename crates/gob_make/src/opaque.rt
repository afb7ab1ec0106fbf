//! Values of opaque types, by the JSON that is shown of them.

ghost use Rattle.std.specs.Prelude.{◌≡◌, IfOk, IfSome, IsTrue};
ghost use Rattle.json.specs.Json as json;
ghost use Rattle.base64.specs.Engines.{standard};
ghost use Rattle.base64.specs.GeneralPurpose.{encode_of};
ghost use Rattle.gob_plain.specs.OpaqueText.{content_by};
ghost use Rattle.gob_make.specs.Leaf.{ReadsContent, may_be_time};
ghost use Rattle.gob_make.specs.Tells.{Begins, from_token};

use crate::integer::integer_bytes;
use crate::known::{address_bytes, address_port_bytes, fraction_bytes, prefix_bytes, uuid_bytes};
use crate::said::Said;
use crate::time::{parts_of, text_of, time_bytes};
use base64::DecodeAllocError;
use base64::engine::general_purpose::STANDARD;
use gob_lines::{Due, LineFault};
use gob_num::Memory;
use gob_plain::{Content, content_by, is_said};
use gob_types::Shape;
use json::Token;
use std::alloc::Global;
use std::str;

/// Reads the bytes of a value of an opaque type of this shape.
pub(crate) fn read_opaque(
    shape: &Shape,
    token: Option<Token<'_>>,
    said: &Said<'_>,
) -> Result<Vec<u8>, LineFault>
    ensures { IfOk result (λ b. Begins (λ j. ReadsContent (content_by shape.now.kind shape.now.name) j b.items)
        (from_token token.entry said.now.tokens) said.now.tokens) }
{
    let content = content_by(&shape.kind, shape.name.as_bytes());
    match token {
        Some(Token::String(text)) => {
            if let Some(bytes) = bytes_of(said.alloc, content, text)? {
                return Ok(bytes);
            }
        }
        Some(Token::Number(text)) => {
            if let Some(bytes) = number_bytes(said.alloc, content, text)? {
                return Ok(bytes);
            }
        }
        _ => {}
    }
    Err(said.due(due_of(content)))
}

// What is due of a value that is taken for this.
fn due_of(content: Content) -> Due {
    match content {
        Content::Time => Due::Time,
        Content::Int => Due::WholeNumber,
        Content::Bytes | Content::TimeOrInt => Due::Base64,
        _ => Due::OpaqueText,
    }
}

// The bytes of the whole number that this text is, where the values are such numbers.
fn number_bytes(alloc: Global, content: Content, text: &str) -> Result<Option<Vec<u8>>, Memory>
    ensures { IfOk result (λ found. IfSome found (λ b. ReadsContent content (json.number text.now) b.items)) }
{
    match content {
        Content::Int | Content::TimeOrInt => {}
        _ => return Ok(None),
    }
    let Some(bytes) = integer_bytes(alloc, text)? else {
        return Ok(None);
    };
    if is_said(alloc, content, &bytes, Token::Number(text))? {
        return Ok(Some(bytes));
    }
    Ok(None)
}

// The bytes that the string says, where the values are taken for this.
fn bytes_of(alloc: Global, content: Content, text: &str) -> Result<Option<Vec<u8>>, Memory>
    ensures { IfOk result (λ found. IfSome found (λ b. ReadsContent content (json.string text.now) b.items)) }
{
    if may_be_time(content) {
        if let Some(bytes) = moment_of(alloc, content, text)? {
            return Ok(Some(bytes));
        }
    }
    let Some(bytes) = bytes_by(alloc, content, text)? else {
        return Ok(None);
    };
    if is_said(alloc, content, &bytes, Token::String(text))? {
        return Ok(Some(bytes));
    }
    Ok(None)
}

// Whether values that are taken for this may be times.
fn may_be_time(content: Content) -> bool
    ensures { result ≡ may_be_time content }
{
    matches!(content, Content::Time | Content::TimeOrInt)
}

// The only bytes that the string may say, where the values are taken for this and are no times.
fn bytes_by(alloc: Global, content: Content, text: &str) -> Result<Option<Vec<u8>>, Memory> {
    match content {
        Content::Text => Ok(Some(Vec::from_slice(alloc, text.as_bytes())?)),
        Content::Bytes | Content::TimeOrInt => decoded(alloc, text),
        Content::Uuid => uuid_bytes(alloc, text),
        Content::Address => address_bytes(alloc, text),
        Content::AddressPort => address_port_bytes(alloc, text),
        Content::Prefix => prefix_bytes(alloc, text),
        Content::Rat => fraction_bytes(alloc, text),
        Content::Time | Content::Int | Content::Float => Ok(None),
    }
}

// The bytes of the time that this text is.
fn moment_of(alloc: Global, content: Content, text: &str) -> Result<Option<Vec<u8>>, Memory>
    requires { IsTrue (may_be_time content) }
    ensures { IfOk result (λ found. IfSome found (λ b. ReadsContent content (json.string text.now) b.items)) }
{
    let Some(parts) = parts_of(text) else {
        return Ok(None);
    };
    let trimmed = text_of(alloc, parts)?;
    let Ok(shown) = str::from_utf8(&trimmed) else {
        return Ok(None);
    };
    let Some(bytes) = time_bytes(alloc, parts)? else {
        return Ok(None);
    };
    if is_said(alloc, content, &bytes, Token::String(shown))? {
        return Ok(Some(bytes));
    }
    Ok(None)
}

/// The bytes of which this is the text in base64.
pub(crate) fn decoded(alloc: Global, text: &str) -> Result<Option<Vec<u8>>, Memory>
    ensures { IfOk result (λ found. IfSome found (λ b. text.now ≡ encode_of standard b.items)) }
{
    match STANDARD.decode(alloc, text.as_bytes()) {
        Ok(bytes) => Ok(Some(bytes)),
        Err(DecodeAllocError::OutOfMemory) => Err(Memory),
        Err(_) => Ok(None),
    }
}
