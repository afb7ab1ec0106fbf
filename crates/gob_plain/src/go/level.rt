//! The JSON of a value that holds others, a text for each of them, written as one.

ghost use Rattle.std.specs.Prelude.{◌≡◌, List, drop, string_bytes};
ghost use Rattle.json.specs.Json.{Json};
ghost use Rattle.json.specs.Token.{null};
ghost use Rattle.json.specs.Tree.{json_tokens};
ghost use Rattle.gob_json_writer.specs.WritesJson.{WritesTokens};
ghost use Rattle.gob_plain.specs.Machine.Levels.{HeldSay, LevelSays, held_of, level_of, named_json, name_of, text_of};
ghost use Rattle.gob_plain.specs.Machine.Nulls.{left_held, token_held};

use crate::fillers::copy_json;
use crate::leaf::write_name;
use json::{Reader, Scratch, Token, Writer};
use std::alloc::{AllocError, Global};

/// The JSON of a value, but for what its interfaces hold.
#[derive(Drop)]
#[cycle(level)]
pub(crate) struct OwnText<'a> {
    /// The text. Where an interface holds a value it is `null`, but for a text, which stands there as it is.
    pub(crate) text: String,
    /// What each `null` of the text stands for, in their order: nothing, or a value.
    pub(crate) held: Vec<Option<HeldText<'a>>>,
}

impl<'a> OwnText<'a> {
    /// The text with what its nulls stand for.
    pub(crate) fn of(text: String, held: Vec<Option<HeldText<'a>>>) -> OwnText<'a>
        ensures text { text_of result ≡ string_bytes text }
        ensures held { held_of result ≡ held.entry.items }
    {
        OwnText { text, held }
    }
}

/// A value that an interface holds.
#[derive(Drop)]
#[cycle(level)]
pub(crate) struct HeldText<'a> {
    /// The name that is shown before the value, where one is, as in `{"NAME":value}`. It need not be UTF-8.
    pub(crate) name: Option<&'a [u8]>,
    /// The value.
    pub(crate) level: OwnText<'a>,
}

impl<'a> HeldText<'a> {
    /// The value with the name before it.
    pub(crate) fn of(name: Option<&'a [u8]>, level: OwnText<'a>) -> HeldText<'a>
        ensures name { name_of result ≡ name.entry }
        ensures level { level_of result ≡ level.entry }
    {
        HeldText { name, level }
    }
}

/// Writes the JSON of a value with what its interfaces hold. The writing goes as deep as values hold one another.
pub(crate) fn write_level(
    alloc: Global,
    level: &OwnText<'_>,
    out: &mut Writer,
) -> Result<(), AllocError>
    ensures before { out.new.before ≡ out.old.before }
    ensures written { (j : Json) → LevelSays level.now j → WritesTokens result out.old out.new (json_tokens j) }
{
    let mut scratch = Scratch::new(alloc);
    write_inner(alloc, level, &mut scratch, out)
}

/// Writes it, with the scratch for the texts in which nothing is held.
#[cycle(level)]
fn write_inner(
    alloc: Global,
    level: &OwnText<'_>,
    scratch: &mut Scratch,
    out: &mut Writer,
) -> Result<(), AllocError>
    ensures before { out.new.before ≡ out.old.before }
    ensures written { (j : Json) → LevelSays level.now j → WritesTokens result out.old out.new (json_tokens j) }
{
    if level.held.is_empty() {
        return copy_json(level.text.as_str(), scratch, out);
    }
    let mut own = scratch_of(alloc)?;
    let mut reader = Reader::new(level.text.as_str(), &mut own)?;
    let mut nulls = 0;
    'tokens: while let Some(token) = reader.next() {
        match token {
            Token::Bad => return Ok(()),
            Token::Null => write_next(alloc, level, &mut nulls, scratch, out)?,
            token => out.token(token)?,
        }
    }
    Ok(())
}

// Room for a reader, which takes 16 KiB: not on the stack, where each level of values that hold one another has some.
#[inline(never)]
fn scratch_of(alloc: Global) -> Result<Box<Scratch>, AllocError> {
    Ok(Box::new(alloc, Scratch::new(alloc))?)
}

/// Writes what the next null stands for, behind so many others, and goes past it. Behind the last it is `null`.
#[cycle(level)]
fn write_next(
    alloc: Global,
    level: &OwnText<'_>,
    nulls: &mut usize,
    scratch: &mut Scratch,
    out: &mut Writer,
) -> Result<(), AllocError>
    ensures before { out.new.before ≡ out.old.before }
    ensures written { (said : List Json) → HeldSay (held_of level.now) said
        → WritesTokens result out.old out.new (token_held null (drop nulls.old said)) }
    ensures passed { (said : List Json) → HeldSay (held_of level.now) said
        → drop nulls.new said ≡ left_held null (drop nulls.old said) }
{
    let Some(next) = level.held.get(*nulls) else {
        return out.null();
    };
    *nulls += 1;
    match next {
        Some(held) => write_held(alloc, held, scratch, out),
        None => out.null(),
    }
}

/// Writes the JSON of a value that an interface holds.
#[cycle(level)]
fn write_held(
    alloc: Global,
    held: &HeldText<'_>,
    scratch: &mut Scratch,
    out: &mut Writer,
) -> Result<(), AllocError>
    ensures before { out.new.before ≡ out.old.before }
    ensures written { (i : Json) → LevelSays (level_of held.now) i
        → WritesTokens result out.old out.new (json_tokens (named_json (name_of held.now) i)) }
{
    let Some(name) = held.name else {
        return write_inner(alloc, &held.level, scratch, out);
    };
    out.begin_object()?;
    write_name(alloc, name, out)?;
    write_inner(alloc, &held.level, scratch, out)?;
    out.end_object()
}
