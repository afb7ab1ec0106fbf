//! Opaque values whose Go types show themselves as texts: UUIDs, addresses and fractions. Of a text that is none of
//! them there may be bytes too, which have another text.

use crate::integer::integer_bytes;
use gob_num::Memory;
use hex::FromHexError;
use std::alloc::Global;
use std::net::IpAddr;

/// The 16 bytes of a UUID.
pub(crate) fn uuid_bytes(alloc: Global, text: &str) -> Result<Option<Vec<u8>>, Memory> {
    let mut digits = String::new(alloc);
    'characters: for character in text.chars() {
        if character != '-' {
            digits.push(character)?;
        }
    }
    match hex::decode(alloc, digits.as_str()) {
        Ok(bytes) => Ok(Some(bytes)),
        Err(FromHexError::OutOfMemory) => Err(Memory),
        Err(_) => Ok(None),
    }
}

/// The 4 or 16 bytes of an address, and the name of its zone; none of the zero address.
pub(crate) fn address_bytes(alloc: Global, text: &str) -> Result<Option<Vec<u8>>, Memory> {
    if text.is_empty() {
        return Ok(Some(Vec::new(alloc)));
    }
    let (address, zone) = match text.split_once('%') {
        Some((address, zone)) => (address, zone),
        None => (text, ""),
    };
    let mut bytes = Vec::new(alloc);
    match IpAddr::parse_ascii(address.as_bytes()) {
        Ok(IpAddr::V4(address)) => bytes.extend_from_slice(&address.octets())?,
        Ok(IpAddr::V6(address)) => bytes.extend_from_slice(&address.octets())?,
        Err(_) => return Ok(None),
    }
    bytes.extend_from_slice(zone.as_bytes())?;
    Ok(Some(bytes))
}

/// The bytes of an address, which may stand in brackets, and behind them the two of a port, the low byte first.
pub(crate) fn address_port_bytes(alloc: Global, text: &str) -> Result<Option<Vec<u8>>, Memory> {
    let Some((address, port)) = text.rsplit_once(':') else {
        return Ok(None);
    };
    let Ok(port) = u16::from_str_radix(port, 10) else {
        return Ok(None);
    };
    let Some(mut bytes) = address_bytes(alloc, unbracketed(address))? else {
        return Ok(None);
    };
    bytes.extend_from_slice(&port.to_le_bytes())?;
    Ok(Some(bytes))
}

// The text without the brackets around it.
fn unbracketed(text: &str) -> &str {
    match text.strip_prefix('[') {
        Some(rest) => rest.strip_suffix(']').unwrap_or(text),
        None => text,
    }
}

/// The bytes of an address, and behind them how many of its bits a prefix has.
pub(crate) fn prefix_bytes(alloc: Global, text: &str) -> Result<Option<Vec<u8>>, Memory> {
    let Some((address, bits)) = text.rsplit_once('/') else {
        return Ok(None);
    };
    let Ok(bits) = u8::from_str_radix(bits, 10) else {
        return Ok(None);
    };
    let Some(mut bytes) = address_bytes(alloc, address)? else {
        return Ok(None);
    };
    bytes.push(bits)?;
    Ok(Some(bytes))
}

/// The bytes of a fraction: the sign, the length of the numerator, and the numerator and the denominator.
pub(crate) fn fraction_bytes(alloc: Global, text: &str) -> Result<Option<Vec<u8>>, Memory> {
    let (numerator, denominator) = match text.split_once('/') {
        Some((numerator, denominator)) => (numerator, denominator),
        None => (text, "1"),
    };
    let Some(above) = integer_bytes(alloc, numerator)? else {
        return Ok(None);
    };
    let Some(below) = integer_bytes(alloc, denominator)? else {
        return Ok(None);
    };
    let (Some(sign), Some(above), Some(below)) = (above.first(), above.get(1..), below.get(1..))
    else {
        return Ok(None);
    };
    let Ok(count) = u32::try_from(above.len()) else {
        return Ok(None);
    };
    let mut bytes = Vec::new(alloc);
    bytes.push(*sign)?;
    bytes.extend_from_slice(&count.to_be_bytes())?;
    bytes.extend_from_slice(above)?;
    bytes.extend_from_slice(below)?;
    Ok(Some(bytes))
}
