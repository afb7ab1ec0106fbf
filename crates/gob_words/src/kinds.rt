//! What words say of types whose values encode themselves.

ghost use Rattle.std.specs.Prelude.{◌≡◌, ◌≢◌, MatchOption, MatchResult, map};
ghost use Rattle.gob_words.specs.declared.kinds.OpaqueKind.{OpaqueKind};
ghost use Rattle.gob_words.specs.declared.kinds.TypeKind.{TypeKind};
ghost use Rattle.gob_words.specs.Kinds.{IsKindWord, SayKinds, kind_name};
ghost use Rattle.gob_words.specs.Views.{SaysNoKinds};

use crate::decimal::number_of;
use crate::message::kind_line;
use crate::view::ViewFault;
use crate::views::said;
use std::alloc::{AllocError, Global};

/// What the bytes are into which the values of a type encode themselves.
#[derive(Clone, Copy, Debug, PartialEq, Eq)]
pub enum OpaqueKind {
    /// A time, as package time writes it.
    Time,
    /// A whole number of package math/big.
    BigInt,
    /// A binary number of package math/big.
    BigFloat,
    /// A fraction of package math/big.
    BigRat,
    /// The 16 bytes of a UUID.
    Uuid,
    /// An address of package net/netip.
    NetipAddr,
    /// Text in UTF-8.
    Text,
    /// Bytes that are shown in base64.
    Base64,
}

/// What a word says of a type.
#[derive(Clone, Copy, Debug, PartialEq, Eq)]
pub struct TypeKind {
    /// The id of the type in its stream.
    pub id: u64,
    /// What the bytes of its values are.
    pub kind: OpaqueKind,
}

/// What the words say of types, in order. A word is an id, an equals sign and a kind, as `66=big.Int`.
pub(crate) fn kinds_in(alloc: Global, words: &[&str]) -> Result<Vec<TypeKind>, ViewFault>
    ensures { MatchResult result (λ kinds. SayKinds (map (λ word. word.now) words.now) kinds.items)
        (SaysNoKinds (map (λ word. word.now) words.now)) }
{
    let mut kinds = Vec::new(alloc);
    for word in words {
        match kind_in(word) {
            Some(kind) => kinds.push(kind).map_err(AllocError::from)?,
            None => return Err(said(kind_line(alloc, word))),
        }
    }
    Ok(kinds)
}

// What the word says. None: it has no equals sign, or what stands before it is no number or behind it no kind.
fn kind_in(word: &str) -> Option<TypeKind>
    ensures { MatchOption result ((said : TypeKind) → ¬ IsKindWord word.now said) (IsKindWord word.now) }
{
    let (digits, name) = word.split_once('=')?;
    let id = number_of(Some(digits), 0)?;
    let kind = kind_named(name)?;
    Some(TypeKind { id, kind })
}

// The kind of this name.
fn kind_named(name: &str) -> Option<OpaqueKind>
    ensures { MatchOption result ((kind : OpaqueKind) → kind_name kind ≢ name.now)
        (λ kind. kind_name kind ≡ name.now) }
{
    match name {
        "time.Time" => Some(OpaqueKind::Time),
        "big.Int" => Some(OpaqueKind::BigInt),
        "big.Float" => Some(OpaqueKind::BigFloat),
        "big.Rat" => Some(OpaqueKind::BigRat),
        "uuid" => Some(OpaqueKind::Uuid),
        "netip.Addr" => Some(OpaqueKind::NetipAddr),
        "text" => Some(OpaqueKind::Text),
        "base64" => Some(OpaqueKind::Base64),
        _ => None,
    }
}
