//! The tokens of a text, taken one by one.

ghost use Rattle.std.specs.Prelude.{◌≡◌, ◌∷◌, ◌++◌, [], IfOk, MatchOption, OnOk, true};
ghost use Rattle.json.specs.Json.{Json};
ghost use Rattle.json.specs.Reads.{token_of};
ghost use Rattle.json.specs.Token as token;
ghost use Rattle.json.specs.Tree.{json_tokens};

use gob_lines::{Due, LineFault};
use gob_num::Memory;
use gob_types::Name;
use json::{Reader, Token};
use std::alloc::Global;

// How deep a member that is left out may nest.
const DEEPEST: usize = 1000;

/// The tokens of a text, one of which was taken last.
#[derive(Drop)]
pub(crate) struct Said<'t> {
    pub alloc: Global,
    /// Those that weren't taken yet.
    pub tokens: Reader<'t>,
    /// The offset behind the token before the last one.
    pub at: usize,
    /// Whether members are left out that no field has.
    pub lenient: bool,
    /// How many members were left out.
    pub left_out: u64,
    /// How many more elements of arrays may be zeros that the text doesn't say.
    pub zeros: u64,
}

impl<'t> Said<'t> {
    /// Takes the next token.
    pub(crate) fn next(&mut self) -> Option<Token<'t>>
        ensures value { MatchOption result ((self.old.tokens ≡ []) × (self.new.tokens ≡ []))
            (λ t. self.old.tokens ≡ token_of t ∷ self.new.tokens) }
        ensures lenient { self.new.lenient ≡ self.old.lenient }
        ensures alloc { self.new.alloc ≡ self.old.alloc }
    {
        self.at = self.tokens.offset();
        self.tokens.next()
    }

    /// The fault of a text that has something else than this in the place of the last token.
    pub(crate) fn due(&self, due: Due) -> LineFault {
        LineFault::due(self.alloc, self.at, due)
    }

    /// Takes the key of the next member of an object. None: the object ends.
    pub(crate) fn next_key(&mut self) -> Result<Option<&'t str>, LineFault>
        ensures key { IfOk result (λ found. MatchOption found (self.old.tokens ≡ token.end_object ∷ self.new.tokens)
            (λ name. self.old.tokens ≡ token.key name.now ∷ self.new.tokens)) }
        ensures lenient { self.new.lenient ≡ self.old.lenient }
    {
        match self.next() {
            Some(Token::Key(name)) => Ok(Some(name)),
            Some(Token::EndObject) => Ok(None),
            _ => Err(self.due(Due::ObjectEnd)),
        }
    }

    /// Leaves a member out that no field has, where the text may have such ones.
    pub(crate) fn pass_member(&mut self, name: &str) -> Result<(), LineFault>
        ensures passed { OnOk result ((j : Json) × (self.old.tokens ≡ json_tokens j ++ self.new.tokens)) }
        ensures may { OnOk result (self.old.lenient ≡ true) }
        ensures lenient { self.new.lenient ≡ self.old.lenient }
    {
        if !self.lenient {
            let name = Name::new(Vec::from_slice(self.alloc, name.as_bytes())?);
            return Err(self.due(Due::Member).within_field(self.alloc, &name));
        }
        self.left_out = self.left_out.saturating_add(1);
        self.pass_value()
    }

    // Takes the tokens of a value of any type.
    fn pass_value(&mut self) -> Result<(), LineFault>
        ensures passed { OnOk result ((j : Json) × (self.old.tokens ≡ json_tokens j ++ self.new.tokens)) }
        ensures lenient { self.new.lenient ≡ self.old.lenient }
    {
        self.at = self.tokens.offset();
        match self.tokens.skip_value(DEEPEST) {
            Ok(()) => Ok(()),
            Err(_) => Err(self.due(Due::Json)),
        }
    }
}
