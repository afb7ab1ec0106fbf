//! Which of the values that a value holds stand in its own text.

ghost use Rattle.std.specs.Prelude.{◌≡◌, ◌∷◌, ◌++◌, [], List, IfOk, MatchBool, OnOk, Option, string_bytes};
ghost use Rattle.json.specs.Json.{Json};
ghost use Rattle.json.specs.Lex.{tokens};
ghost use Rattle.json.specs.Tree.{json_tokens};
ghost use Rattle.gob_plain.specs.declared.fillers.Filler as filler;
ghost use Rattle.gob_plain.specs.declared.go.level.HeldText as declared;
ghost use Rattle.gob_plain.specs.Machine.Levels.{level_of, text_of};
ghost use Rattle.gob_plain.specs.Machine.Parting.{IsNoText, IsParted, IsText, is_text};

use crate::Filler;
use crate::go::level::{HeldText, OwnText};
use json::{Reader, Scratch, Token};
use std::alloc::AllocError;

/// What the nils of a value say in its own text, and what the nulls there stand for.
#[derive(Drop)]
pub(crate) struct Parted<'a> {
    /// For each nil the text that it says, if it says a text.
    pub(crate) texts: Vec<Option<Filler<'a>>>,
    /// For each nil that says none what fills it.
    pub(crate) held: Vec<Option<HeldText<'a>>>,
}

/// Puts what fills the next nil to the others of its sort.
pub(crate) fn part<'a>(
    next: Option<HeldText<'a>>,
    scratch: &mut Scratch,
    parted: &mut Parted<'a>,
) -> Result<(), AllocError>
    ensures { OnOk result ((text : Option filler.Filler) × (held : List (Option declared.HeldText))
        × IsParted next.entry text held × (parted.new.texts.items ≡ parted.old.texts.items ++ text ∷ [])
        × (parted.new.held.items ≡ parted.old.held.items ++ held)) }
{
    let Some(held) = next else {
        parted.texts.push(None)?;
        return Ok(parted.held.push(None)?);
    };
    if is_text(&held, scratch)? {
        let text = own_text(held);
        Ok(parted.texts.push(Some(Filler { name: None, text }))?)
    } else {
        parted.texts.push(None)?;
        Ok(parted.held.push(Some(held))?)
    }
}

/// Whether the value is a text that no name is shown before.
fn is_text(held: &HeldText<'_>, scratch: &mut Scratch) -> Result<bool, AllocError>
    ensures { IfOk result (λ is. MatchBool is (IsText held.now) (IsNoText held.now)) }
{
    if held.name.is_some() {
        return Ok(false);
    }
    begins_text(held.level.text.as_str(), scratch)
}

/// Whether the JSON of this text is a text.
fn begins_text(json: &str, scratch: &mut Scratch) -> Result<bool, AllocError>
    ensures { IfOk result (λ is. (j : Json) → tokens json.now ≡ json_tokens j → is ≡ is_text j) }
{
    let mut reader = Reader::new(json, scratch)?;
    let first = reader.next();
    Ok(matches!(first, Some(Token::String(_))))
}

/// The value's own text.
fn own_text(held: HeldText<'_>) -> String
    ensures { string_bytes result ≡ text_of (level_of held.entry) }
{
    let HeldText { name: _, level } = held;
    let OwnText { text, held: _ } = level;
    text
}
