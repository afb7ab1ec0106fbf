//! Opaque values whose Go types write themselves in binary, and show themselves as texts: UUIDs and addresses.

ghost use Rattle.std.specs.Prelude.{◌≡◌, ◌≤◌, ◌+◌, ◌<◌, IfOk, IsTrue, length, string_bytes};
ghost use Rattle.std.specs.Option.{option_map};
ghost use Rattle.std.specs.Net.Addr.{ipv6_segments};
ghost use Rattle.std.specs.Net.Text.{ipv6_text};
ghost use Rattle.gob_plain.specs.KnownText.{SaysKnown, address_port_text, address_text, bits_fit, port, prefix_text};
ghost use Rattle.gob_plain.specs.KnownText.{segment, segments, uuid_text, zoned_text};
ghost use Rattle.gob_plain.specs.WritesPlain.{WritesPlain};

use crate::leaf::write_bytes;
use json::Writer;
use std::alloc::{AllocError, Global};
use std::net::{Ipv4Addr, Ipv6Addr};
use std::str;
use uuid::Uuid;

/// Writes a text as a string, and the bytes in base64 where there is none.
pub(crate) fn write_known(
    alloc: Global,
    text: Option<String>,
    bytes: &[u8],
    out: &mut Writer,
) -> Result<(), AllocError>
    ensures { WritesPlain result out.old out.new (SaysKnown (option_map string_bytes text) bytes.now) }
{
    match text {
        Some(text) => out.string(text.as_str()),
        None => write_bytes(alloc, bytes, out),
    }
}

/// The text of a UUID, which has 16 bytes.
pub(crate) fn uuid_text(alloc: Global, bytes: &[u8]) -> Result<Option<String>, AllocError>
    ensures { IfOk result (λ text. option_map string_bytes text ≡ uuid_text bytes.now) }
{
    let Ok(uuid) = Uuid::from_slice(bytes) else {
        return Ok(None);
    };
    let mut buffer = Uuid::encode_buffer();
    let text = uuid.hyphenated().encode_lower(&mut buffer);
    Ok(Some(String::from_str(alloc, text)?))
}

/// The text of an address: 4 bytes of IPv4, or 16 of IPv6 and the name of a zone.
pub(crate) fn address_text(alloc: Global, bytes: &[u8]) -> Result<Option<String>, AllocError>
    ensures { IfOk result (λ text. option_map string_bytes text ≡ address_text bytes.now) }
{
    if bytes.len() == 4 {
        let address = Ipv4Addr::new(bytes[0], bytes[1], bytes[2], bytes[3]);
        return Ok(Some(address.to_string(alloc)?));
    }
    if bytes.len() < 16 {
        return Ok(None);
    }
    match str::from_utf8(&bytes[16..]) {
        Ok(zone) => Ok(Some(zoned_text(alloc, ipv6_of(bytes), zone)?)),
        Err(_) => Ok(None),
    }
}

// The text of an address of IPv6, with its zone where it has one.
fn zoned_text(alloc: Global, address: Ipv6Addr, zone: &str) -> Result<String, AllocError>
    ensures { IfOk result (λ text. string_bytes text ≡ zoned_text (ipv6_text (ipv6_segments address)) zone.now) }
{
    let text = address.to_string(alloc)?;
    if zone.is_empty() {
        return Ok(text);
    }
    format!(in alloc; "{text}%{zone}")
}

// The address of IPv6 that the first 16 bytes are.
fn ipv6_of(bytes: &[u8]) -> Ipv6Addr
    requires { 16 ≤ length bytes.now }
    ensures { ipv6_segments result ≡ segments bytes.now }
{
    Ipv6Addr::new(
        segment(bytes, 0),
        segment(bytes, 2),
        segment(bytes, 4),
        segment(bytes, 6),
        segment(bytes, 8),
        segment(bytes, 10),
        segment(bytes, 12),
        segment(bytes, 14),
    )
}

// The segment of an address of IPv6 that begins at this place.
fn segment(bytes: &[u8], place: usize) -> u16
    requires { place + 1 < length bytes.now }
    ensures { result ≡ segment bytes.now place }
{
    u16::from_be_bytes([bytes[place], bytes[place + 1]])
}

/// The text of a prefix: an address without a zone, and how many of its bits are the prefix.
pub(crate) fn prefix_text(alloc: Global, bytes: &[u8]) -> Result<Option<String>, AllocError>
    ensures { IfOk result (λ text. option_map string_bytes text ≡ prefix_text bytes.now) }
{
    if !bits_fit(bytes) {
        return Ok(None);
    }
    let last = bytes.len() - 1;
    let bits = bytes[last];
    match address_text(alloc, &bytes[..last])? {
        Some(address) => Ok(Some(format!(in alloc; "{address}/{bits}")?)),
        None => Ok(None),
    }
}

// Whether the bytes are as many as those of a prefix, which has no more bits than its address.
fn bits_fit(bytes: &[u8]) -> bool
    ensures fit { result ≡ bits_fit bytes.now }
    ensures some { IsTrue result → 1 ≤ length bytes.now }
{
    bytes.len() == 5 && bytes[4] <= 32 || bytes.len() == 17 && bytes[16] <= 128
}

/// The text of an address and a port.
pub(crate) fn address_port_text(alloc: Global, bytes: &[u8]) -> Result<Option<String>, AllocError>
    ensures { IfOk result (λ text. option_map string_bytes text ≡ address_port_text bytes.now) }
{
    if bytes.len() < 2 {
        return Ok(None);
    }
    let port = port(bytes);
    match address_text(alloc, &bytes[..bytes.len() - 2])? {
        Some(address) if bytes.len() == 6 => Ok(Some(format!(in alloc; "{address}:{port}")?)),
        Some(address) => Ok(Some(format!(in alloc; "[{address}]:{port}")?)),
        None => Ok(None),
    }
}

// The port in the last two bytes.
fn port(bytes: &[u8]) -> u16
    requires { 2 ≤ length bytes.now }
    ensures { result ≡ port bytes.now }
{
    u16::from_le_bytes([bytes[bytes.len() - 2], bytes[bytes.len() - 1]])
}
