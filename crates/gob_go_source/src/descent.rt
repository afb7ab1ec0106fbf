//! A type, read from tokens part by part: the functions call one another down the type.

ghost use Rattle.std.specs.Prelude.{◌≡◌, ◌∷◌, ◌++◌, [], IfOk, OnOk, length};
ghost use Rattle.gob_go_source.specs.declared.token.Token.TheVariants as token;
ghost use Rattle.gob_go_source.specs.declared.token.Mark.TheVariants as mark;
ghost use Rattle.gob_go_source.specs.declared.go_type.GoType.TheVariants as go;
ghost use Rattle.gob_go_source.specs.Grammar.{FieldNames, Says, SaysField, SaysFields, SaysNames, SaysResults};
ghost use Rattle.gob_go_source.specs.Grown.{Grown};
ghost use Rattle.gob_go_source.specs.Left.{left};

use crate::fault::{Due, Fault};
use crate::go_type::{GoField, GoType};
use crate::token::{Mark, Token};
use crate::tokens::Tokens;
use std::alloc::{AllocError, Global};

/// Reads a type, no part of which is deeper than `depth`: where it stands among the types then.
#[cycle(descent)]
pub(crate) fn read_type<'a>(
    alloc: Global,
    depth: u64,
    tokens: &mut Tokens<'_, 'a>,
    types: &mut Vec<GoType<'a>>,
) -> Result<usize, Fault>
    ensures says { IfOk result (λ n. Says types.new.items n (left tokens.old) (left tokens.new)) }
    ensures grown { OnOk result (Grown types.old.items types.new.items) }
{
    if depth == 0 {
        return Err(tokens.due(Due::Shallower));
    }
    let fault = tokens.due(Due::Type);
    match tokens.next() {
        Some(Token::Name(name)) => read_named(name, tokens, types),
        Some(Token::Mark(mark)) => read_marked(alloc, depth - 1, mark, tokens, types),
        _ => Err(fault),
    }
}

/// Reads the type that begins with this mark.
#[cycle(descent)]
fn read_marked<'a>(
    alloc: Global,
    depth: u64,
    mark: Mark,
    tokens: &mut Tokens<'_, 'a>,
    types: &mut Vec<GoType<'a>>,
) -> Result<usize, Fault>
    ensures says { IfOk result (λ n.
        Says types.new.items n (token.Mark mark ∷ left tokens.old) (left tokens.new)) }
    ensures grown { OnOk result (Grown types.old.items types.new.items) }
{
    match mark {
        Mark::Star => read_pointer(alloc, depth, tokens, types),
        Mark::Open => read_in_parentheses(alloc, depth, tokens, types),
        Mark::OpenBracket => read_list(alloc, depth, tokens, types),
        Mark::Map => read_map(alloc, depth, tokens, types),
        Mark::Struct => read_struct(alloc, depth, tokens, types),
        Mark::Interface => read_interface(tokens, types),
        Mark::Func => read_function(alloc, depth, tokens, types),
        Mark::Chan => read_channel(alloc, depth, tokens, types),
        Mark::Arrow => read_receiver(alloc, depth, tokens, types),
        _ => Err(tokens.refused(Due::Type)),
    }
}

// Reads what stands behind a name that begins a type: the name itself is that of the type, or of its package.
fn read_named<'a>(
    name: &'a [u8],
    tokens: &mut Tokens<'_, 'a>,
    types: &mut Vec<GoType<'a>>,
) -> Result<usize, Fault>
    ensures says { IfOk result (λ n.
        Says types.new.items n (token.Name name.entry ∷ left tokens.old) (left tokens.new)) }
    ensures grown { OnOk result (Grown types.old.items types.new.items) }
{
    if !tokens.takes(Mark::Dot) {
        return Ok(add(GoType::Name(name), types)?);
    }
    let own = tokens.take_name()?;
    Ok(add(GoType::Qualified(name, own), types)?)
}

// Reads what a pointer leads to.
#[cycle(descent)]
fn read_pointer<'a>(
    alloc: Global,
    depth: u64,
    tokens: &mut Tokens<'_, 'a>,
    types: &mut Vec<GoType<'a>>,
) -> Result<usize, Fault>
    ensures says { IfOk result (λ n.
        Says types.new.items n (token.Mark mark.Star ∷ left tokens.old) (left tokens.new)) }
    ensures grown { OnOk result (Grown types.old.items types.new.items) }
{
    let of = read_type(alloc, depth, tokens, types)?;
    Ok(add(GoType::Pointer(of), types)?)
}

// Reads a type up to the parenthesis that closes.
#[cycle(descent)]
fn read_in_parentheses<'a>(
    alloc: Global,
    depth: u64,
    tokens: &mut Tokens<'_, 'a>,
    types: &mut Vec<GoType<'a>>,
) -> Result<usize, Fault>
    ensures says { IfOk result (λ n.
        Says types.new.items n (token.Mark mark.Open ∷ left tokens.old) (left tokens.new)) }
    ensures grown { OnOk result (Grown types.old.items types.new.items) }
{
    let place = read_type(alloc, depth, tokens, types)?;
    tokens.take(Mark::Close)?;
    Ok(place)
}

// Reads a slice or an array behind its first bracket.
#[cycle(descent)]
fn read_list<'a>(
    alloc: Global,
    depth: u64,
    tokens: &mut Tokens<'_, 'a>,
    types: &mut Vec<GoType<'a>>,
) -> Result<usize, Fault>
    ensures says { IfOk result (λ n.
        Says types.new.items n (token.Mark mark.OpenBracket ∷ left tokens.old) (left tokens.new)) }
    ensures grown { OnOk result (Grown types.old.items types.new.items) }
{
    if tokens.takes(Mark::CloseBracket) {
        let elem = read_type(alloc, depth, tokens, types)?;
        return Ok(add(GoType::Slice(elem), types)?);
    }
    let len = tokens.take_length()?;
    tokens.take(Mark::CloseBracket)?;
    let elem = read_type(alloc, depth, tokens, types)?;
    Ok(add(GoType::Array(len, elem), types)?)
}

// Reads a map behind its keyword.
#[cycle(descent)]
fn read_map<'a>(
    alloc: Global,
    depth: u64,
    tokens: &mut Tokens<'_, 'a>,
    types: &mut Vec<GoType<'a>>,
) -> Result<usize, Fault>
    ensures says { IfOk result (λ n.
        Says types.new.items n (token.Mark mark.Map ∷ left tokens.old) (left tokens.new)) }
    ensures grown { OnOk result (Grown types.old.items types.new.items) }
{
    tokens.take(Mark::OpenBracket)?;
    let key = read_type(alloc, depth, tokens, types)?;
    tokens.take(Mark::CloseBracket)?;
    let elem = read_type(alloc, depth, tokens, types)?;
    Ok(add(GoType::Map(key, elem), types)?)
}

// Reads a struct behind its keyword.
#[cycle(descent)]
fn read_struct<'a>(
    alloc: Global,
    depth: u64,
    tokens: &mut Tokens<'_, 'a>,
    types: &mut Vec<GoType<'a>>,
) -> Result<usize, Fault>
    ensures says { IfOk result (λ n.
        Says types.new.items n (token.Mark mark.Struct ∷ left tokens.old) (left tokens.new)) }
    ensures grown { OnOk result (Grown types.old.items types.new.items) }
{
    tokens.take(Mark::OpenBrace)?;
    let mut fields = Vec::new(alloc);
    read_fields(alloc, depth, tokens, types, &mut fields)?;
    Ok(add(GoType::Struct(fields), types)?)
}

// Reads the lines of a struct, with the brace that closes it.
#[cycle(descent)]
fn read_fields<'a>(
    alloc: Global,
    depth: u64,
    tokens: &mut Tokens<'_, 'a>,
    types: &mut Vec<GoType<'a>>,
    fields: &mut Vec<GoField<'a>>,
) -> Result<(), Fault>
    requires { fields.old.items ≡ [] }
    ensures says { OnOk result
        (SaysFields types.new.items fields.new.items (left tokens.old) (token.Mark mark.CloseBrace ∷ left tokens.new)) }
    ensures grown { OnOk result (Grown types.old.items types.new.items) }
{
    'lines: while !tokens.takes(Mark::CloseBrace) {
        let field = read_field(alloc, depth, tokens, types)?;
        fields.push(field).map_err(AllocError::from)?;
    }
    Ok(())
}

// Reads a line of a struct.
#[cycle(descent)]
fn read_field<'a>(
    alloc: Global,
    depth: u64,
    tokens: &mut Tokens<'_, 'a>,
    types: &mut Vec<GoType<'a>>,
) -> Result<GoField<'a>, Fault>
    ensures says { IfOk result (λ f. SaysField types.new.items f (left tokens.old) (left tokens.new)) }
    ensures grown { OnOk result (Grown types.old.items types.new.items) }
{
    let names = read_field_names(alloc, tokens)?;
    let of = read_type(alloc, depth, tokens, types)?;
    tokens.pass_tag();
    tokens.take_stop()?;
    Ok(GoField { names, of })
}

// Reads the names of the fields of a line: none of an embedded one.
fn read_field_names<'a>(alloc: Global, tokens: &mut Tokens<'_, 'a>) -> Result<Vec<&'a [u8]>, Fault>
    ensures { IfOk result (λ names. FieldNames names.items (left tokens.old) (left tokens.new)) }
{
    let mut names = Vec::new(alloc);
    if tokens.is_embedded() {
        return Ok(names);
    }
    read_names(tokens, &mut names)?;
    Ok(names)
}

// Reads names with commas between them.
fn read_names<'a>(tokens: &mut Tokens<'_, 'a>, names: &mut Vec<&'a [u8]>) -> Result<(), Fault>
    requires { names.old.items ≡ [] }
    ensures { OnOk result (SaysNames names.new.items (left tokens.old) (left tokens.new)) }
{
    let first = tokens.take_name()?;
    names.push(first).map_err(AllocError::from)?;
    'commas: while tokens.takes(Mark::Comma) {
        let name = tokens.take_name()?;
        names.push(name).map_err(AllocError::from)?;
    }
    Ok(())
}

// Reads an interface behind its keyword.
fn read_interface<'a>(
    tokens: &mut Tokens<'_, 'a>,
    types: &mut Vec<GoType<'a>>,
) -> Result<usize, Fault>
    ensures says { IfOk result (λ n.
        Says types.new.items n (token.Mark mark.Interface ∷ left tokens.old) (left tokens.new)) }
    ensures grown { OnOk result (Grown types.old.items types.new.items) }
{
    tokens.take(Mark::OpenBrace)?;
    tokens.pass_brackets()?;
    Ok(add(GoType::Interface, types)?)
}

// Reads a channel behind its keyword.
#[cycle(descent)]
fn read_channel<'a>(
    alloc: Global,
    depth: u64,
    tokens: &mut Tokens<'_, 'a>,
    types: &mut Vec<GoType<'a>>,
) -> Result<usize, Fault>
    ensures says { IfOk result (λ n.
        Says types.new.items n (token.Mark mark.Chan ∷ left tokens.old) (left tokens.new)) }
    ensures grown { OnOk result (Grown types.old.items types.new.items) }
{
    let _ = tokens.takes(Mark::Arrow);
    read_type(alloc, depth, tokens, types)?;
    Ok(add(GoType::Unsent, types)?)
}

// Reads a channel that only receives, behind its arrow.
#[cycle(descent)]
fn read_receiver<'a>(
    alloc: Global,
    depth: u64,
    tokens: &mut Tokens<'_, 'a>,
    types: &mut Vec<GoType<'a>>,
) -> Result<usize, Fault>
    ensures says { IfOk result (λ n.
        Says types.new.items n (token.Mark mark.Arrow ∷ left tokens.old) (left tokens.new)) }
    ensures grown { OnOk result (Grown types.old.items types.new.items) }
{
    tokens.take(Mark::Chan)?;
    read_type(alloc, depth, tokens, types)?;
    Ok(add(GoType::Unsent, types)?)
}

// Reads a function behind its keyword.
#[cycle(descent)]
fn read_function<'a>(
    alloc: Global,
    depth: u64,
    tokens: &mut Tokens<'_, 'a>,
    types: &mut Vec<GoType<'a>>,
) -> Result<usize, Fault>
    ensures says { IfOk result (λ n.
        Says types.new.items n (token.Mark mark.Func ∷ left tokens.old) (left tokens.new)) }
    ensures grown { OnOk result (Grown types.old.items types.new.items) }
{
    tokens.take(Mark::Open)?;
    tokens.pass_brackets()?;
    read_results(alloc, depth, tokens, types)?;
    Ok(add(GoType::Unsent, types)?)
}

// Reads the results of a function.
#[cycle(descent)]
fn read_results<'a>(
    alloc: Global,
    depth: u64,
    tokens: &mut Tokens<'_, 'a>,
    types: &mut Vec<GoType<'a>>,
) -> Result<(), Fault>
    ensures says { OnOk result (SaysResults types.new.items (left tokens.old) (left tokens.new)) }
    ensures grown { OnOk result (Grown types.old.items types.new.items) }
{
    if tokens.takes(Mark::Open) {
        tokens.pass_brackets()?;
        return Ok(());
    }
    if !tokens.begins_type() {
        return Ok(());
    }
    read_type(alloc, depth, tokens, types)?;
    Ok(())
}

// Puts a type behind the others, and gives its place.
fn add<'a>(kind: GoType<'a>, types: &mut Vec<GoType<'a>>) -> Result<usize, AllocError>
    ensures place { IfOk result (λ n. n ≡ length types.old.items) }
    ensures added { OnOk result (types.new.items ≡ types.old.items ++ kind.entry ∷ []) }
    ensures grown { Grown types.old.items types.new.items }
{
    let place = types.len();
    types.push(kind)?;
    Ok(place)
}
