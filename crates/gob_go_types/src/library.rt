//! The types that Go knows without a declaration: its own, and some of packages.

ghost use Rattle.std.specs.Prelude.{◌≡◌, bytes_eq};
ghost use Rattle.std.specs.List.{list_any};
ghost use Rattle.gob_go_types.specs.Library.{basic_named, is_binary, is_byte, known_of, known_of_time};

use gob_types::{Marshal, TypeId};

/// What is known of a type of a package.
#[derive(Clone, Copy)]
pub(crate) enum Known {
    /// Its values are whole numbers.
    Whole,
    /// Its values encode themselves so.
    Opaque(Marshal),
}

/// The basic type of gob that holds the values of a type that Go knows by this name.
pub(crate) fn basic_named(name: &[u8]) -> Option<TypeId>
    ensures { result ≡ basic_named name.now }
{
    if is_one_of(name, &[b"bool"]) {
        Some(TypeId(1))
    } else if is_one_of(
        name,
        &[b"int", b"int8", b"int16", b"int32", b"int64", b"rune"],
    ) {
        Some(TypeId(2))
    } else if is_one_of(
        name,
        &[
            b"uint", b"uint8", b"uint16", b"uint32", b"uint64", b"uintptr", b"byte",
        ],
    ) {
        Some(TypeId(3))
    } else if is_one_of(name, &[b"float32", b"float64"]) {
        Some(TypeId(4))
    } else if is_one_of(name, &[b"string"]) {
        Some(TypeId(6))
    } else if is_one_of(name, &[b"complex64", b"complex128"]) {
        Some(TypeId(7))
    } else if is_one_of(name, &[b"any", b"error"]) {
        Some(TypeId(8))
    } else {
        None
    }
}

/// Whether the name is that of bytes, whose slices are byte strings.
pub(crate) fn is_byte(name: &[u8]) -> bool
    ensures { result ≡ is_byte name.now }
{
    is_one_of(name, &[b"byte", b"uint8"])
}

/// What is known of the type of this name of a package. A package goes by the last part of its path.
pub(crate) fn known_of(path: &[u8], name: &[u8]) -> Option<Known>
    ensures { result ≡ known_of path.now name.now }
{
    if is_one_of(path, &[b"time"]) {
        known_of_time(name)
    } else if is_one_of(path, &[b"big"]) && is_one_of(name, &[b"Int", b"Float", b"Rat"]) {
        Some(Known::Opaque(Marshal::Gob))
    } else if is_binary(path, name) {
        Some(Known::Opaque(Marshal::Binary))
    } else {
        None
    }
}

fn known_of_time(name: &[u8]) -> Option<Known>
    ensures { result ≡ known_of_time name.now }
{
    if is_one_of(name, &[b"Time"]) {
        Some(Known::Opaque(Marshal::Gob))
    } else if is_one_of(name, &[b"Duration", b"Month", b"Weekday"]) {
        Some(Known::Whole)
    } else {
        None
    }
}

// Whether the type encodes itself by MarshalBinary.
fn is_binary(path: &[u8], name: &[u8]) -> bool
    ensures { result ≡ is_binary path.now name.now }
{
    (is_one_of(path, &[b"netip"]) && is_one_of(name, &[b"Addr", b"AddrPort", b"Prefix"]))
        || (is_one_of(path, &[b"url"]) && is_one_of(name, &[b"URL"]))
        || (is_one_of(path, &[b"uuid"]) && is_one_of(name, &[b"UUID"]))
}

// Whether the name is one of the words.
fn is_one_of(name: &[u8], words: &[&[u8]]) -> bool
    ensures { result ≡ list_any (λ word. bytes_eq word.now name.now) words.now }
{
    for word in words {
        if *word == name {
            return true;
        }
    }
    false
}
