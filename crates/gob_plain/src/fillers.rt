//! Nils that texts of JSON fill.

ghost use Rattle.std.specs.Prelude.{◌≡◌, ◌+◌, IfOk, Some, option_map, slice_get, string_bytes};
ghost use Rattle.json.specs.Json.{Json};
ghost use Rattle.json.specs.Lex.{tokens};
ghost use Rattle.json.specs.Tree.{json_tokens};
ghost use Rattle.gob_json_writer.specs.WritesJson.{WritesTokens};
ghost use Rattle.gob_plain.specs.Fillers.{AreFillers, FillerSays, HasJson, IsFiller, SaysFiller};
ghost use Rattle.gob_plain.specs.Plain.{said_text};
ghost use Rattle.gob_plain.specs.WritesPlain.{NamesMember, WritesPlain, WritesSome};

use crate::leaf::write_name;
use crate::nils::NilTexts;
use json::{Reader, Scratch, Token, Writer};
use std::alloc::{AllocError, Global};

/// What fills a nil, as a text of JSON.
#[derive(Drop)]
pub struct Filler<'a> {
    /// The name that is shown before the value, where one is, as in `{"NAME":value}`. It need not be UTF-8.
    pub name: Option<&'a [u8]>,
    /// The JSON of the value.
    pub text: String,
}

/// What fills the nils of a value, in their order. Nothing fills a nil that has none here, or that stands behind the
/// last: it says `null`.
#[derive(Drop)]
pub struct Fillers<'a> {
    /// What fills the nils.
    pub all: &'a [Option<Filler<'a>>],
    /// How many of the nils are gone past, as far as they are among these.
    pub passed: usize,
}

impl NilTexts for Fillers<'_> {
    ghost says = { λ fillers k. FillerSays (slice_get fillers.all.now (fillers.passed + k)) };

    ghost fit = { λ fillers. AreFillers fillers.all.now };

    fn write_nil(&mut self, alloc: Global, out: &mut Writer) -> Result<(), AllocError> {
        match self.all.get(self.passed) {
            None => out.null(),
            Some(next) => {
                self.passed += 1;
                write_next(alloc, next, out)
            }
        }
    }

    fn text_ahead(&self, alloc: Global, ahead: usize) -> Result<Option<String>, AllocError> {
        let Some(place) = self.passed.checked_add(ahead) else {
            return Ok(None);
        };
        match self.all.get(place) {
            Some(next) => next_text(alloc, next),
            None => Ok(None),
        }
    }

    fn write_name(&mut self, alloc: Global, out: &mut Writer) -> Result<(), AllocError> {
        let Some(next) = self.all.get(self.passed) else {
            return out.key("");
        };
        self.passed += 1;
        write_next_name(alloc, next, out)
    }
}

/// Writes what a nil says that this fills, or nothing.
fn write_next(alloc: Global, next: &Option<Filler<'_>>, out: &mut Writer) -> Result<(), AllocError>
    requires { IsFiller next.now }
    ensures { WritesPlain result out.old out.new (FillerSays (Some next.now)) }
{
    match next {
        Some(filler) => write_filler(alloc, filler, out),
        None => out.null(),
    }
}

/// Writes the text that a nil says that this fills, or nothing, as the name of a member.
fn write_next_name(
    alloc: Global,
    next: &Option<Filler<'_>>,
    out: &mut Writer,
) -> Result<(), AllocError>
    requires { IsFiller next.now }
    ensures { WritesSome result out.old out.new (NamesMember (FillerSays (Some next.now))) }
{
    match next_text(alloc, next)? {
        Some(text) => out.key(text.as_str()),
        None => out.key(""),
    }
}

/// The text that a nil says that this fills, or nothing.
fn next_text(alloc: Global, next: &Option<Filler<'_>>) -> Result<Option<String>, AllocError>
    ensures { IfOk result (λ text. (j : Json) → FillerSays (Some next.now) j
        → option_map string_bytes text ≡ said_text j) }
{
    match next {
        Some(filler) => filler_text(alloc, filler),
        None => Ok(None),
    }
}

/// The text that this fills its nil with.
fn filler_text(alloc: Global, filler: &Filler<'_>) -> Result<Option<String>, AllocError>
    ensures { IfOk result (λ text. (j : Json) → SaysFiller filler.now j
        → option_map string_bytes text ≡ said_text j) }
{
    match filler.name {
        Some(_) => Ok(None),
        None => text_in(alloc, filler.text.as_str()),
    }
}

/// The text that the JSON of this text is.
fn text_in(alloc: Global, text: &str) -> Result<Option<String>, AllocError>
    ensures { IfOk result (λ said. (j : Json) → tokens text.now ≡ json_tokens j
        → option_map string_bytes said ≡ said_text j) }
{
    let mut scratch = Scratch::new(alloc);
    let mut reader = Reader::new(text, &mut scratch)?;
    match reader.next() {
        Some(Token::String(said)) => Ok(Some(String::from_str(alloc, said)?)),
        _ => Ok(None),
    }
}

/// Writes what fills a nil.
fn write_filler(alloc: Global, filler: &Filler<'_>, out: &mut Writer) -> Result<(), AllocError>
    requires { HasJson filler.now }
    ensures { WritesPlain result out.old out.new (SaysFiller filler.now) }
{
    let mut scratch = Scratch::new(alloc);
    match filler.name {
        Some(name) => {
            out.begin_object()?;
            write_name(alloc, name, out)?;
            copy_json(filler.text.as_str(), &mut scratch, out)?;
            out.end_object()
        }
        None => copy_json(filler.text.as_str(), &mut scratch, out),
    }
}

/// Writes the JSON of the text.
pub(crate) fn copy_json(
    text: &str,
    scratch: &mut Scratch,
    out: &mut Writer,
) -> Result<(), AllocError>
    ensures before { out.new.before ≡ out.old.before }
    ensures tokens { (j : Json) → tokens text.now ≡ json_tokens j
        → WritesTokens result out.old out.new (json_tokens j) }
{
    let mut reader = Reader::new(text, scratch)?;
    'tokens: while let Some(token) = reader.next() {
        match token {
            Token::Bad => return Ok(()),
            token => out.token(token)?,
        }
    }
    Ok(())
}
