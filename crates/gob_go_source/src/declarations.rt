//! The declarations of source.

ghost use Rattle.std.specs.Prelude.{◌≡◌, ◌∷◌, [], IfOk, IsTrue, OnOk};
ghost use Rattle.gob_go_source.specs.declared.token.Token.TheVariants as token;
ghost use Rattle.gob_go_source.specs.declared.token.Mark.TheVariants as mark;
ghost use Rattle.gob_go_source.specs.Declarations.{Declares, SaysDeclaration, SaysGroup, SaysSource, SaysTop};
ghost use Rattle.gob_go_source.specs.Declarations.{SaysTypes, is_passed};
ghost use Rattle.gob_go_source.specs.Grown.{Grown};
ghost use Rattle.gob_go_source.specs.Left.{left};

use crate::descent::read_type;
use crate::fault::{Due, Fault};
use crate::go_type::{Declaration, GoType};
use crate::token::{Mark, Note, Token};
use crate::tokens::Tokens;
use std::alloc::{AllocError, Global};

// No part of a type is deeper.
const DEEPEST: u64 = 1000;

/// What source declares.
#[derive(Drop)]
pub struct GoSource<'a> {
    /// The types that are written in it, each behind its parts.
    pub types: Vec<GoType<'a>>,
    /// The types that it declares, in order.
    pub declarations: Vec<Declaration<'a>>,
}

/// What these tokens declare. Functions and imports are passed over, and what stands behind one file may be another.
pub fn declared_by<'a>(alloc: Global, tokens: &[Token<'a>]) -> Result<GoSource<'a>, Fault>
    ensures { IfOk result (λ s. SaysSource s.types.items s.declarations.items tokens.now []) }
{
    let mut types = Vec::new(alloc);
    let mut declarations = Vec::new(alloc);
    let mut unread = Tokens { all: tokens, at: 0 };
    read_source(alloc, &mut unread, &mut types, &mut declarations)?;
    Ok(GoSource {
        types,
        declarations,
    })
}

// Reads all declarations.
fn read_source<'a>(
    alloc: Global,
    tokens: &mut Tokens<'_, 'a>,
    types: &mut Vec<GoType<'a>>,
    declarations: &mut Vec<Declaration<'a>>,
) -> Result<(), Fault>
    requires { declarations.old.items ≡ [] }
    ensures { OnOk result (SaysSource types.new.items declarations.new.items (left tokens.old) []) }
{
    'tops: while let Some(first) = tokens.next() {
        read_top(alloc, first, tokens, types, declarations)?;
    }
    Ok(())
}

// Reads a declaration behind its first token.
fn read_top<'a>(
    alloc: Global,
    first: Token<'a>,
    tokens: &mut Tokens<'_, 'a>,
    types: &mut Vec<GoType<'a>>,
    declarations: &mut Vec<Declaration<'a>>,
) -> Result<(), Fault>
    ensures says { OnOk result (Declares
        (λ ds. SaysTop types.new.items ds (first.entry ∷ left tokens.old) (left tokens.new))
        declarations.old.items declarations.new.items) }
    ensures grown { OnOk result (Grown types.old.items types.new.items) }
{
    match first {
        Token::Type(note) => read_types(alloc, note, tokens, types, declarations),
        Token::Mark(mark) => pass_over(mark, tokens),
        _ => Err(tokens.refused(Due::Declaration)),
    }
}

// Passes over a declaration that declares no type, behind its keyword.
fn pass_over(mark: Mark, tokens: &mut Tokens<'_, '_>) -> Result<(), Fault>
    ensures { OnOk result (SaysTop [] [] (token.Mark mark ∷ left tokens.old) (left tokens.new)) }
{
    if is_passed(mark) {
        tokens.pass_declaration()?;
        return Ok(());
    }
    if !is_package(mark) {
        return Err(tokens.refused(Due::Declaration));
    }
    tokens.take_name()?;
    tokens.take_stop()?;
    Ok(())
}

// Whether the keyword begins imports or a function.
fn is_passed(mark: Mark) -> bool
    ensures { result ≡ is_passed mark }
{
    matches!(mark, Mark::Import | Mark::Func)
}

// Whether the keyword begins the name of a package.
fn is_package(keyword: Mark) -> bool
    ensures { IsTrue result → keyword ≡ mark.Package }
{
    matches!(keyword, Mark::Package)
}

// Reads what stands behind `type`.
fn read_types<'a>(
    alloc: Global,
    note: Note,
    tokens: &mut Tokens<'_, 'a>,
    types: &mut Vec<GoType<'a>>,
    declarations: &mut Vec<Declaration<'a>>,
) -> Result<(), Fault>
    ensures says { OnOk result (Declares
        (λ ds. SaysTypes types.new.items note ds (left tokens.old) (left tokens.new))
        declarations.old.items declarations.new.items) }
    ensures grown { OnOk result (Grown types.old.items types.new.items) }
{
    if tokens.takes(Mark::Open) {
        read_group(alloc, tokens, types, declarations)?;
        tokens.take_stop()?;
        return Ok(());
    }
    let declaration = read_declaration(alloc, note, tokens, types)?;
    declarations.push(declaration).map_err(AllocError::from)?;
    Ok(())
}

// Reads the declarations of a group, with the parenthesis that closes it.
fn read_group<'a>(
    alloc: Global,
    tokens: &mut Tokens<'_, 'a>,
    types: &mut Vec<GoType<'a>>,
    declarations: &mut Vec<Declaration<'a>>,
) -> Result<(), Fault>
    ensures says { OnOk result (Declares
        (λ ds. SaysGroup types.new.items ds (left tokens.old) (token.Mark mark.Close ∷ left tokens.new))
        declarations.old.items declarations.new.items) }
    ensures grown { OnOk result (Grown types.old.items types.new.items) }
{
    'group: while !tokens.takes(Mark::Close) {
        let declaration = read_declaration(alloc, Note::NONE, tokens, types)?;
        declarations.push(declaration).map_err(AllocError::from)?;
    }
    Ok(())
}

// Reads a declaration from its name on.
fn read_declaration<'a>(
    alloc: Global,
    note: Note,
    tokens: &mut Tokens<'_, 'a>,
    types: &mut Vec<GoType<'a>>,
) -> Result<Declaration<'a>, Fault>
    ensures says { IfOk result (λ d. SaysDeclaration types.new.items note d (left tokens.old) (left tokens.new)) }
    ensures grown { OnOk result (Grown types.old.items types.new.items) }
{
    let name = tokens.take_name()?;
    let is_alias = tokens.takes(Mark::Equals);
    let of = read_type(alloc, DEEPEST, tokens, types)?;
    tokens.take_stop()?;
    Ok(Declaration {
        name,
        note,
        is_alias,
        of,
    })
}
