//! The tokens that are left to read.

ghost use Rattle.std.specs.Prelude.{◌≡◌, ◌∷◌, ◌+◌, ◌^◌, ◌<◌, ◌≤◌, [], IsTrue, IfOk, IfSome, None, OnOk, Some};
ghost use Rattle.std.specs.Prelude.{drop, false};
ghost use Rattle.gob_go_source.specs.declared.token.Token.TheVariants as token;
ghost use Rattle.gob_go_source.specs.Grammar.{Stops, Tagged, closes, embeds, embeds_by, ends_name, is_name, is_text};
ghost use Rattle.gob_go_source.specs.Brackets.{behind_close, closes_at, depth_after};
ghost use Rattle.gob_go_source.specs.Declarations.{behind_stop, ends_at};
ghost use Rattle.gob_go_source.specs.Left.{left};

use crate::fault::{Due, Fault, Wrong};
use crate::token::{Mark, Token};

/// The tokens of source, and how many are read.
#[derive(Drop)]
pub(crate) struct Tokens<'t, 'a> {
    /// All of them, in order.
    pub all: &'t [Token<'a>],
    /// How many are read.
    pub at: usize,
}

impl<'t, 'a> Tokens<'t, 'a> {
    /// The next token.
    fn peek(&self) -> Option<Token<'a>>
        ensures some { IfSome result (λ t. left self.now ≡ t ∷ drop (self.now.at + 1) self.now.all.now) }
        ensures none { result ≡ None → left self.now ≡ [] }
        ensures small { IfSome result (λ _. self.now.at + 1 < 2 ^ 64) }
    {
        self.all.get(self.at).copied()
    }

    /// Takes the next token.
    pub(crate) fn next(&mut self) -> Option<Token<'a>>
        ensures some { IfSome result (λ t. left self.old ≡ t ∷ left self.new) }
        ensures none { result ≡ None → left self.old ≡ [] }
    {
        let token = self.peek()?;
        self.at += 1;
        Some(token)
    }

    /// Takes the next token if it is this mark.
    pub(crate) fn takes(&mut self, mark: Mark) -> bool
        ensures taken { IsTrue result → left self.old ≡ token.Mark mark ∷ left self.new }
        ensures stays { result ≡ false → left self.new ≡ left self.old }
    {
        let Some(token) = self.peek() else {
            return false;
        };
        if !is_mark(token, mark) {
            return false;
        }
        self.at += 1;
        true
    }

    /// Takes this mark.
    pub(crate) fn take(&mut self, mark: Mark) -> Result<(), Fault>
        ensures { OnOk result (left self.old ≡ token.Mark mark ∷ left self.new) }
    {
        if self.takes(mark) {
            return Ok(());
        }
        Err(self.due(Due::Mark(mark)))
    }

    /// Takes a name.
    pub(crate) fn take_name(&mut self) -> Result<&'a [u8], Fault>
        ensures { IfOk result (λ name. left self.old ≡ token.Name name ∷ left self.new) }
    {
        let fault = self.due(Due::Name);
        match self.next() {
            Some(Token::Name(name)) => Ok(name),
            _ => Err(fault),
        }
    }

    /// Takes the length of an array.
    pub(crate) fn take_length(&mut self) -> Result<u64, Fault>
        ensures { IfOk result (λ len. left self.old ≡ token.Number len ∷ left self.new) }
    {
        let fault = self.due(Due::Length);
        match self.next() {
            Some(Token::Number(len)) => Ok(len),
            _ => Err(fault),
        }
    }

    /// Takes the tag of a field, where it has one.
    pub(crate) fn pass_tag(&mut self)
        ensures { Tagged (left self.old) (left self.new) }
    {
        if let Some(Token::Text) = self.peek() {
            self.at += 1;
        }
    }

    /// Takes the end of a declaration or a field. It may be left out in front of the bracket that closes them, and at
    /// the end of the source.
    pub(crate) fn take_stop(&mut self) -> Result<(), Fault>
        ensures { OnOk result (Stops (left self.old) (left self.new)) }
    {
        if self.takes(Mark::Stop) {
            return Ok(());
        }
        if self.is_closed() {
            return Ok(());
        }
        Err(self.due(Due::Mark(Mark::Stop)))
    }

    /// Passes over what stands up to the first stop outside of brackets, and that too; at the end none is due.
    pub(crate) fn pass_declaration(&mut self) -> Result<(), Fault>
        ensures { OnOk result (behind_stop 0 (left self.old) ≡ Some (left self.new)) }
    {
        let mut depth = 0;
        'tokens: while let Some(token) = self.peek() {
            self.at += 1;
            if is_end(depth, token) {
                return Ok(());
            }
            depth = open_behind(depth, token);
        }
        if depth > 0 {
            return Err(self.due(Due::Closing));
        }
        Ok(())
    }

    /// Passes over what stands up to the bracket that closes the one that is open, and that too.
    pub(crate) fn pass_brackets(&mut self) -> Result<(), Fault>
        ensures { OnOk result (behind_close 0 (left self.old) ≡ Some (left self.new)) }
    {
        let mut depth = 0;
        'tokens: while let Some(token) = self.peek() {
            self.at += 1;
            if is_close(depth, token) {
                return Ok(());
            }
            depth = open_behind(depth, token);
        }
        Err(self.due(Due::Closing))
    }

    /// Whether the next token begins a type, but no parenthesis does here.
    pub(crate) fn begins_type(&self) -> bool {
        match self.peek() {
            Some(Token::Name(_)) => true,
            Some(Token::Mark(mark)) => is_type_mark(mark),
            _ => false,
        }
    }

    /// Whether the next token closes what is open, or there is none.
    fn is_closed(&self) -> bool
        ensures { IsTrue result → IsTrue (closes (left self.now)) }
    {
        match self.peek() {
            Some(Token::Mark(mark)) => matches!(mark, Mark::CloseBrace | Mark::Close),
            Some(_) => false,
            None => true,
        }
    }

    /// Whether the next field is embedded: a name stands there, or a pointer to one, and no type behind it.
    pub(crate) fn is_embedded(&self) -> bool
        ensures { IsTrue result → IsTrue (embeds (left self.now)) }
    {
        match self.all.get(self.at..) {
            Some([first, second, ..]) => embeds_by(*first, *second),
            _ => false,
        }
    }

    /// The fault that this is due in place of the token that was taken last.
    pub(crate) fn refused(&self, due: Due) -> Fault {
        Fault::Wrong(Wrong {
            place: self.at.saturating_sub(1),
            due,
        })
    }

    /// The fault that this is due in place of the next token.
    pub(crate) fn due(&self, due: Due) -> Fault {
        Fault::Wrong(Wrong {
            place: self.at,
            due,
        })
    }
}

// Whether the token is this mark.
fn is_mark(next: Token<'_>, mark: Mark) -> bool
    ensures { IsTrue result → next.entry ≡ token.Mark mark }
{
    match next {
        Token::Mark(found) => found == mark,
        _ => false,
    }
}

// Whether a token ends a declaration, where so many brackets are open.
fn is_end(depth: usize, next: Token<'_>) -> bool
    ensures { result ≡ ends_at depth next.entry }
{
    match next {
        Token::Mark(Mark::Stop) => depth == 0,
        _ => false,
    }
}

// Whether a token closes a bracket, inside of which so many others are open.
fn is_close(depth: usize, next: Token<'_>) -> bool
    ensures { result ≡ closes_at depth next.entry }
{
    match next {
        Token::Mark(Mark::CloseBrace | Mark::CloseBracket | Mark::Close) => depth == 0,
        _ => false,
    }
}

// Whether a type begins with the mark, but in parentheses.
fn is_type_mark(mark: Mark) -> bool {
    matches!(
        mark,
        Mark::Star
            | Mark::OpenBracket
            | Mark::Map
            | Mark::Struct
            | Mark::Interface
            | Mark::Chan
            | Mark::Arrow
            | Mark::Func
    )
}

// How many brackets are open behind a token, where so many are in front of it.
fn open_behind(depth: usize, next: Token<'_>) -> usize
    requires { depth + 1 < 2 ^ 64 }
    ensures behind { result ≡ depth_after depth next.entry }
    ensures small { result ≤ depth + 1 }
{
    match next {
        Token::Mark(Mark::OpenBrace | Mark::OpenBracket | Mark::Open) => depth + 1,
        Token::Mark(Mark::CloseBrace | Mark::CloseBracket | Mark::Close) => depth.saturating_sub(1),
        _ => depth,
    }
}

// Whether a token behind a name is none of a type.
fn ends_name(next: Token<'_>) -> bool
    ensures { result ≡ ends_name next.entry }
{
    match next {
        Token::Text => true,
        Token::Mark(mark) => matches!(mark, Mark::Dot | Mark::Stop | Mark::CloseBrace),
        _ => false,
    }
}

// Whether a field that begins with these tokens is embedded.
fn embeds_by(first: Token<'_>, second: Token<'_>) -> bool
    ensures { result ≡ embeds_by first.entry second.entry }
{
    match first {
        Token::Name(_) => ends_name(second),
        Token::Mark(Mark::Star) => matches!(second, Token::Name(_)),
        _ => false,
    }
}
