//! Opaque values: what is known of their bytes by the type, and else base64.

ghost use Rattle.std.specs.Prelude.{◌≡◌, ◌∷◌, [], if◌then◌else◌, IfOk, IfSome, IsTrue, string_bytes};
ghost use Rattle.json.specs.Json.{Json};
ghost use Rattle.json.specs.Lex.{tokens};
ghost use Rattle.json.specs.Reads.{token_of};
ghost use Rattle.json.specs.Tree.{json_tokens};
ghost use Rattle.std.specs.Option.{option_copied};
ghost use Rattle.gob_plain.specs.BigInt.{SaysInt};
ghost use Rattle.gob_plain.specs.OpaqueText.{SaysOpaque, SaysBytes, SaysText, content_of, content_by, content_as};
ghost use Rattle.gob_plain.specs.OpaqueText.{SaysContent, content_in, taken_as};
ghost use Rattle.gob_plain.specs.TimeText.{SaysTimeOr};
ghost use Rattle.gob_plain.specs.WritesPlain.{WritesPlain};

use crate::big::write_int;
use crate::float::write_big_float;
use crate::known::{address_port_text, address_text, prefix_text, uuid_text, write_known};
use crate::leaf::write_bytes;
use crate::rat::write_rat;
use crate::style::{Style, Taken};
use crate::text::text_of;
use crate::time::{time_of, write_moment};
use gob_types::{Kind, Marshal, Shape, TypeId};
use json::{Token, Writer, is_number};
use std::alloc::{AllocError, Global};
use std::str;

/// What the bytes of an opaque value are taken for.
#[derive(Clone, Copy, Debug, PartialEq, Eq)]
pub enum Content {
    /// Bytes of which nothing is known.
    Bytes,
    /// A text, where the bytes are UTF-8.
    Text,
    /// A time, where the bytes have the layout of Go's.
    Time,
    /// A whole number of any size, where the bytes have the layout of Go's.
    Int,
    /// A float of any precision, where the bytes have the layout of Go's.
    Float,
    /// A fraction of such numbers, where the bytes have the layout of Go's.
    Rat,
    /// A time or a whole number, where the bytes have the layout of one.
    TimeOrInt,
    /// A UUID, where there are 16 bytes.
    Uuid,
    /// An address of net/netip, where the bytes have its layout.
    Address,
    /// An address with a port, where the bytes have its layout.
    AddressPort,
    /// A prefix of addresses, where the bytes have its layout.
    Prefix,
}

/// Writes an opaque value as what its bytes are taken for, by its type, which has this shape.
pub(crate) fn write_opaque(
    alloc: Global,
    id: TypeId,
    shape: Option<&Shape>,
    bytes: &[u8],
    style: Style<'_>,
    out: &mut Writer,
) -> Result<(), AllocError>
    ensures { WritesPlain result out.old out.new
        (SaysOpaque (content_in style.entry) id (option_copied shape.entry) bytes.now) }
{
    write_content(alloc, content_in(style, id, shape), bytes, out)
}

/// Writes an opaque value as what its bytes are guessed to be, by its type, which has this shape.
pub(crate) fn write_guessed(
    alloc: Global,
    shape: &Shape,
    bytes: &[u8],
    raw: bool,
    out: &mut Writer,
) -> Result<(), AllocError>
    ensures { WritesPlain result out.old out.new (SaysContent (content_of raw (Some shape.now)) bytes.now) }
{
    write_content(alloc, content_of(Some(shape), raw), bytes, out)
}

/// Whether this string or number is the JSON of bytes that are taken for this.
pub fn is_said(
    alloc: Global,
    content: Content,
    bytes: &[u8],
    token: Token<'_>,
) -> Result<bool, AllocError>
    ensures { IfOk result (λ said. IsTrue said → (j : Json) × SaysContent content bytes.now j
        × (json_tokens j ≡ token_of token.entry ∷ [])) }
{
    let Some(given) = token_text(alloc, token)? else {
        return Ok(false);
    };
    let mut shown = Writer::new(Vec::new(alloc));
    write_content(alloc, content, bytes, &mut shown)?;
    Ok(text_of(shown).as_str() == given.as_str())
}

// The text of a string or a number.
fn token_text(alloc: Global, token: Token<'_>) -> Result<Option<String>, AllocError>
    ensures { IfOk result (λ found. IfSome found
        (λ text. tokens (string_bytes text) ≡ token_of token.entry ∷ [])) }
{
    let mut out = Writer::new(Vec::new(alloc));
    match token {
        Token::Number(text) if is_number(text) => out.number(text)?,
        Token::String(text) => out.string(text)?,
        _ => return Ok(None),
    }
    Ok(Some(text_of(out)))
}

// Writes an opaque value as what its bytes are taken for.
fn write_content(
    alloc: Global,
    content: Content,
    bytes: &[u8],
    out: &mut Writer,
) -> Result<(), AllocError>
    ensures { WritesPlain result out.old out.new (SaysContent content bytes.now) }
{
    match content {
        Content::Bytes => write_bytes(alloc, bytes, out),
        Content::Text => write_text(alloc, bytes, out),
        Content::Time => write_time(alloc, bytes, out),
        Content::Int => write_int(alloc, bytes, out),
        Content::Float => write_big_float(alloc, bytes, out),
        Content::Rat => write_rat(alloc, bytes, out),
        Content::TimeOrInt => write_time_or_int(alloc, bytes, out),
        Content::Uuid => write_known(alloc, uuid_text(alloc, bytes)?, bytes, out),
        Content::Address => write_known(alloc, address_text(alloc, bytes)?, bytes, out),
        Content::AddressPort => write_known(alloc, address_port_text(alloc, bytes)?, bytes, out),
        Content::Prefix => write_known(alloc, prefix_text(alloc, bytes)?, bytes, out),
    }
}

// What the values of the type are taken for, which has this shape: what was said of it, else what is guessed.
fn content_in(style: Style<'_>, id: TypeId, shape: Option<&Shape>) -> Content
    ensures { result ≡ content_in style.entry id (option_copied shape.entry) }
{
    match taken_as(style.taken, id) {
        Some(content) => content,
        None => content_of(shape, style.raw),
    }
}

// What was said that the values of the type are.
fn taken_as(taken: &[Taken], id: TypeId) -> Option<Content>
    ensures { result ≡ taken_as taken.now id }
{
    let mut content = None;
    for said in taken {
        if said.id == id {
            content = Some(said.content);
        }
    }
    content
}

// What the values of a type of this shape are guessed to be: with `raw` always bytes.
fn content_of(shape: Option<&Shape>, raw: bool) -> Content
    ensures { result ≡ content_of raw (option_copied shape.entry) }
{
    match shape {
        Some(shape) if !raw => content_by(&shape.kind, shape.name.as_bytes()),
        _ => Content::Bytes,
    }
}

/// What the values of a type of this kind and name are taken for.
pub fn content_by(kind: &Kind, name: &[u8]) -> Content
    ensures { result ≡ content_by kind.now name.now }
{
    match kind {
        Kind::Opaque(marshal) => content_as(*marshal, name),
        _ => Content::Bytes,
    }
}

// What the values of an opaque type of this name are taken for.
fn content_as(marshal: Marshal, name: &[u8]) -> Content
    ensures { result ≡ content_as marshal name.now }
{
    match marshal {
        Marshal::Text => Content::Text,
        Marshal::Binary => content_in_binary(name),
        Marshal::Gob => content_in_gob(name),
    }
}

// What the values of a type of this name are taken for, which encodes itself in binary.
fn content_in_binary(name: &[u8]) -> Content
    ensures { result ≡ content_as Marshal.Binary name.now }
{
    if name == b"URL".as_slice() {
        Content::Text
    } else if name == b"UUID".as_slice() {
        Content::Uuid
    } else if name == b"Addr".as_slice() {
        Content::Address
    } else if name == b"AddrPort".as_slice() {
        Content::AddressPort
    } else {
        content_if(name == b"Prefix".as_slice(), Content::Prefix)
    }
}

// What the values of a type of this name are taken for, which encodes itself for a gob.
fn content_in_gob(name: &[u8]) -> Content
    ensures { result ≡ content_as Marshal.Gob name.now }
{
    if name == b"Int".as_slice() {
        Content::Int
    } else if name == b"Time".as_slice() {
        Content::Time
    } else if name == b"Float".as_slice() {
        Content::Float
    } else if name == b"Rat".as_slice() {
        Content::Rat
    } else {
        content_if(name.is_empty(), Content::TimeOrInt)
    }
}

// What the values are taken for, where this is known of them.
fn content_if(is_known: bool, content: Content) -> Content
    ensures { result ≡ (if is_known then content else Content.Bytes) }
{
    if is_known { content } else { Content::Bytes }
}

// Writes a text as a string, and bytes that aren't UTF-8 in base64.
fn write_text(alloc: Global, bytes: &[u8], out: &mut Writer) -> Result<(), AllocError>
    ensures { WritesPlain result out.old out.new (SaysText bytes.now) }
{
    match str::from_utf8(bytes) {
        Ok(text) => out.string(text),
        Err(_) => write_bytes(alloc, bytes, out),
    }
}

// Writes a time as a string of RFC 3339, and bytes that aren't one in base64.
fn write_time(alloc: Global, bytes: &[u8], out: &mut Writer) -> Result<(), AllocError>
    ensures { WritesPlain result out.old out.new (SaysTimeOr (SaysBytes bytes.now) bytes.now) }
{
    match time_of(bytes) {
        Some(time) => write_moment(alloc, time, out),
        None => write_bytes(alloc, bytes, out),
    }
}

// Writes a time as a string of RFC 3339, a whole number as a number, and bytes that are neither in base64.
fn write_time_or_int(alloc: Global, bytes: &[u8], out: &mut Writer) -> Result<(), AllocError>
    ensures { WritesPlain result out.old out.new (SaysTimeOr (SaysInt bytes.now) bytes.now) }
{
    match time_of(bytes) {
        Some(time) => write_moment(alloc, time, out),
        None => write_int(alloc, bytes, out),
    }
}
