//! The parts of a text of JSON, one behind another.

ghost use Rattle.std.specs.Prelude.{◌≡◌, ◌<◌, ◌^◌, ◌∷◌, [], List, length, IfOk, IfSome, MatchOption, string_bytes};
ghost use Rattle.json.specs.Json.{Json};
ghost use Rattle.json.specs.Lex.{tokens};
ghost use Rattle.json.specs.Reads.{token_of};
ghost use Rattle.json.specs.Tree.{json_tokens};
ghost use Rattle.json_parts.specs.Parts.{HasLeft, IsFirst, opens, parts_of};

use crate::copy::next_begin;
use crate::part::{text_of, write_part};
use json::{Reader, Scratch, Token, Writer};
use std::alloc::{AllocError, Global};

/// Which parts of JSON stand alone.
#[derive(Clone, Copy, Debug, PartialEq, Eq)]
pub enum Form {
    /// The elements of an array.
    Elements,
    /// The pairs in an array, each as `{"key":K,"value":V}`.
    Pairs,
}

/// The parts of a text of JSON that are still to come.
#[derive(Drop)]
pub struct Parts<'a> {
    reader: Reader<'a>,
    form: Form,
    ghost few: { length reader < 2 ^ 64 },
}

impl<'a> Parts<'a> {
    /// The parts of this form. None where the JSON has none of it, as a number has no elements.
    pub fn of(
        text: &'a str,
        form: Form,
        scratch: &'a mut Scratch,
    ) -> Result<Option<Parts<'a>>, AllocError>
        ensures { IfOk result (λ found. (j : Json) → tokens text.now ≡ json_tokens j → MatchOption found
            (parts_of form j ≡ j ∷ []) (λ parts. HasLeft parts.form parts.reader (parts_of form j))) }
    {
        let mut reader = Reader::new(text, scratch)?;
        let Some(first) = reader.next() else {
            return Ok(None);
        };
        if !opens(first) {
            return Ok(None);
        }
        Ok(Some(Parts { reader, form }))
    }

    /// The text of the next part, compact, whose memory is that of this part alone. After an error nothing is known of
    /// the parts that are left.
    pub fn next(&mut self, alloc: Global) -> Result<Option<String>, AllocError>
        ensures next { (left : List Json) → HasLeft self.old.form self.old.reader left
            → IfOk result (λ part. MatchOption part (left ≡ [])
            (λ text. IsFirst self.new.form self.new.reader left (string_bytes text))) }
        ensures shorter { IfOk result (λ part. IfSome part (λ _. length self.new.reader < length self.old.reader)) }
    {
        let Some(first) = next_begin(&mut self.reader) else {
            return Ok(None);
        };
        let mut out = Writer::new(Vec::new(alloc));
        write_part(self.form, first, &mut self.reader, &mut out)?;
        Ok(Some(text_of(out)))
    }
}

/// Whether JSON whose first token this is has parts.
fn opens(first: Token<'_>) -> bool
    ensures { result ≡ opens (token_of first.entry) }
{
    matches!(first, Token::BeginArray)
}
