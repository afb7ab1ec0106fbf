//! A part of JSON, written.

ghost use Rattle.std.specs.Prelude.{◌≡◌, ◌+◌, ◌<◌, ◌≤◌, ◌^◌, ◌++◌, ◌∷◌, [], List, codes, length, OnOk, string_bytes};
ghost use Rattle.json.specs.Json.{Items, Json, object};
ghost use Rattle.json.specs.Lex.{tokens};
ghost use Rattle.json.specs.Print.{IsPrintable, print};
ghost use Rattle.json.specs.Reads.{token_of};
ghost use Rattle.json.specs.Token.{Token as SpecToken};
ghost use Rattle.json.specs.Tree.{items_tokens, json_tokens};
ghost use Rattle.json_parts.specs.Copying.{IsEnd};
ghost use Rattle.json_parts.specs.Parts.{HasLeft, named, pair_json};

use crate::copy::{copy_value, next_begin};
use crate::parts::Form;
use json::{Reader, Token, Writer};
use std::alloc::AllocError;

/// Writes the part of this form whose first token this is.
pub(crate) fn write_part(
    form: Form,
    first: Token<'_>,
    reader: &mut Reader<'_>,
    out: &mut Writer,
) -> Result<(), AllocError>
    requires printable { IsPrintable (token_of first) }
    requires begins { ¬ IsEnd (token_of first) }
    requires few { length reader.old + 1 < 2 ^ 64 }
    ensures before { out.new.before ≡ out.old.before }
    ensures part { (left : List Json) → HasLeft form (token_of first.entry ∷ reader.old) left → OnOk result
        ((part : Json) × (more : List Json) × (left ≡ part ∷ more)
        × (out.new.tokens ≡ out.old.tokens ++ json_tokens part) × HasLeft form reader.new more) }
    ensures no_longer { length reader.new ≤ length reader.old }
{
    match form {
        Form::Elements => copy_value(first, reader, out),
        Form::Pairs => write_pair(first, reader, out),
    }
}

/// Writes the pair whose first token this is: an array of a pair, or what is none.
fn write_pair(first: Token<'_>, reader: &mut Reader<'_>, out: &mut Writer) -> Result<(), AllocError>
    requires printable { IsPrintable (token_of first) }
    requires few { length reader.old + 1 < 2 ^ 64 }
    ensures before { out.new.before ≡ out.old.before }
    ensures item { (j : Json) (rest : List SpecToken) → token_of first.entry ∷ reader.old ≡ json_tokens j ++ rest
        → OnOk result ((out.new.tokens ≡ out.old.tokens ++ json_tokens (pair_json j)) × (reader.new ≡ rest)) }
    ensures no_longer { length reader.new ≤ length reader.old }
{
    match first {
        Token::BeginArray => write_named(reader, out),
        first => copy_value(first, reader, out),
    }
}

/// Writes the items that come next, up to the end of their array, as members of an object: the first as its key, and
/// what stands behind it as its value.
fn write_named(reader: &mut Reader<'_>, out: &mut Writer) -> Result<(), AllocError>
    requires { length reader.old < 2 ^ 64 }
    ensures before { out.new.before ≡ out.old.before }
    ensures items { (js : Items) (rest : List SpecToken) → reader.old ≡ items_tokens js ++ rest
        → OnOk result ((out.new.tokens ≡ out.old.tokens ++ json_tokens (object (named (codes "key") js)))
        × (reader.new ≡ rest)) }
    ensures no_longer { length reader.new ≤ length reader.old }
{
    out.begin_object()?;
    let mut name = "key";
    'items: while let Some(first) = next_begin(reader) {
        out.key(name)?;
        copy_value(first, reader, out)?;
        name = "value";
    }
    out.end_object()
}

/// The text that a writer holds which began with none.
pub fn text_of(out: Writer) -> String
    requires { out.before ≡ [] }
    ensures text { string_bytes result ≡ print out.tokens }
    ensures read { tokens (string_bytes result) ≡ out.tokens }
{
    match String::from_utf8(out.into_inner()) {
        Ok(text) => text,
        Err(_) => unreachable!(),
    }
}
