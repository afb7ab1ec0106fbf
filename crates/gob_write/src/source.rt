//! The types under which plain JSON is read: those of Go source.

ghost use Rattle.std.specs.Prelude.{◌≡◌, ◌↔◌, IfOk, IsTrue, Some};
ghost use Rattle.std.specs.Option.{option_copied};
ghost use Rattle.gob_words.specs.Words.{text_of};
ghost use Rattle.gob_stream.specs.Item.{defines};
ghost use Rattle.gob_value.specs.View.{view};
ghost use Rattle.gob_write.specs.Making.{definitions_of};
ghost use Rattle.gob_write.specs.Source.{Asks, IsAsked, IsDescribable, IsOfSource, defines_each, defines_one};

use crate::types::{Definition, Types};
use gob_go_source::{
    Declaration, Position, SourceFault, Token, declared_in, position_of, tokens_in,
};
use gob_go_types::{Defined, TypesFault as DeclaredFault, types_of};
use gob_num::Memory;
use gob_value::describe;
use gob_words::number_of;
use std::alloc::Global;
use std::{fmt, str};

// How many bytes of a name a fault shows.
const LONGEST_SHOWN: usize = 100;

/// Why Go source gives no types. Display writes the line that the program prints, without the line feed.
#[derive(Clone, Copy)]
pub enum SourceTypesFault<'a> {
    /// The source isn't read.
    Source(SourceFault),
    /// What it declares has no definitions; where that is put down to a name, this is the first place that has it.
    Types(DeclaredFault<'a>, Option<Position>),
    /// No memory was had.
    Memory,
}

impl fmt::Display for SourceTypesFault<'_> {
    fn fmt<W: fmt::Write>(&self, f: &mut fmt::Formatter<W>) -> fmt::Result {
        match self {
            SourceTypesFault::Source(fault) => write!(f, "gob: types: {fault}"),
            SourceTypesFault::Types(fault, place) => {
                write!(f, "gob: types: ")?;
                if let Some(place) = place {
                    write!(f, "line {}, column {}: ", place.line, place.column)?;
                }
                write_undefined(*fault, f)
            }
            SourceTypesFault::Memory => write!(f, "gob: out of memory"),
        }
    }
}

// Writes why types have no definitions.
fn write_undefined<W: fmt::Write>(
    fault: DeclaredFault<'_>,
    f: &mut fmt::Formatter<W>,
) -> fmt::Result {
    match fault {
        DeclaredFault::Twice(name) => write!(f, "{} is declared twice", front(name)),
        DeclaredFault::Undeclared(name) => write!(f, "{} isn't declared", front(name)),
        DeclaredFault::Unknown(package, name) => {
            write!(f, "{}.{} isn't known", front(package), front(name))
        }
        DeclaredFault::Methodless(package, name) => write!(
            f,
            "a type declared by {}.{} doesn't encode itself",
            front(package),
            front(name)
        ),
        DeclaredFault::Long(count) => write!(f, "an array of {count} elements is too long"),
        other => f.write_str(words(other)),
    }
}

// So in words alone.
fn words(fault: DeclaredFault<'_>) -> &'static str {
    match fault {
        DeclaredFault::NoTypes => "no type is declared",
        DeclaredFault::NotThere => "no type of this name or id is declared",
        DeclaredFault::Endless =>
            "a type stands for itself, or names stand for one another too far",
        DeclaredFault::Deep => "a type is too deep",
        DeclaredFault::Unsent => "the values of a type are channels or functions, or hold them",
        DeclaredFault::NoFields => "the struct has no field that gob sends",
        DeclaredFault::TooMany => "there are more types than ids",
        _ => "no definitions",
    }
}

// The first characters of a name, which have no more bytes than are shown.
fn front(name: &[u8]) -> &str {
    let shown = name.get(..LONGEST_SHOWN).unwrap_or(name);
    match str::from_utf8(shown) {
        Ok(text) => text,
        Err(error) => {
            let whole = shown.get(..error.valid_up_to()).unwrap_or(b"".as_slice());
            str::from_utf8(whole).unwrap_or("")
        }
    }
}

impl<'a> From<SourceFault> for SourceTypesFault<'a> {
    ghost use Rattle.std.specs.Prelude.{◌≡◌};
    ghost use Rattle.gob_write.specs.Source.{source_fault};

    ghost from_gives = { λ given fault. fault ≡ source_fault given };

    fn from(fault: SourceFault) -> SourceTypesFault<'a> {
        match fault {
            SourceFault::Memory => SourceTypesFault::Memory,
            other => SourceTypesFault::Source(other),
        }
    }
}

impl<'a> From<Memory> for SourceTypesFault<'a> {
    ghost use Rattle.std.specs.Prelude.{◌≡◌};
    ghost use Rattle.gob_write.specs.declared.source.SourceTypesFault.TheVariants.{Memory};

    ghost from_gives = { λ _ fault. fault ≡ Memory };

    fn from(_: Memory) -> SourceTypesFault<'a> {
        SourceTypesFault::Memory
    }
}

/// The types that Go source declares: the definitions of the declared type of this name, or of this id where a comment
/// gives it one, and of all that it leads to, as Go's encoder has them. Without a word the type is the first that is
/// declared.
pub fn types_of_source<'a>(
    alloc: Global,
    text: &'a [u8],
    named: Option<&'a str>,
    lenient: bool,
) -> Result<Types, SourceTypesFault<'a>>
    ensures { IfOk result (λ types. IsOfSource text.now (text_of named.entry) lenient types) }
{
    let source = declared_in(alloc, text)?;
    let name = name_in(&source.declarations, named);
    let found = match types_of(alloc, &source, name) {
        Ok(found) => found,
        Err(fault) => return Err(undefined(alloc, text, fault)),
    };
    let definitions = described(alloc, &found.definitions)?;
    Ok(Types {
        definitions,
        id: found.id,
        lenient,
    })
}

// Why what the text declares has no definitions, and where.
fn undefined<'a>(alloc: Global, text: &'a [u8], fault: DeclaredFault<'a>) -> SourceTypesFault<'a> {
    match fault {
        DeclaredFault::Memory => SourceTypesFault::Memory,
        DeclaredFault::Twice(name)
        | DeclaredFault::Undeclared(name)
        | DeclaredFault::Unknown(_, name)
        | DeclaredFault::Methodless(_, name) => {
            SourceTypesFault::Types(fault, place_of(alloc, text, name))
        }
        _ => SourceTypesFault::Types(fault, None),
    }
}

// Where the text first has the name as a token. None: nowhere, or no memory was had to look for it.
fn place_of(alloc: Global, text: &[u8], name: &[u8]) -> Option<Position> {
    let lexed = tokens_in(alloc, text).ok()?;
    for (token, offset) in lexed.tokens.iter().zip(&lexed.offsets) {
        if matches!(token, Token::Name(found) if *found == name) {
            return Some(position_of(text, *offset));
        }
    }
    None
}

// The name of the type that is asked for, where a word asks for one.
fn name_in<'a>(declarations: &[Declaration<'a>], named: Option<&'a str>) -> Option<&'a [u8]>
    ensures { Asks declarations.now (text_of named.entry) (option_copied result) }
{
    match named {
        Some(word) => Some(name_asked(declarations, word)),
        None => None,
    }
}

// The name of the type that a word asks for: that of the first declaration with the id that the word writes, and else
// the word.
fn name_asked<'a>(declarations: &[Declaration<'a>], word: &'a str) -> &'a [u8]
    ensures { IsAsked declarations.now word.now result.now }
{
    if let Some(id) = number_of(Some(word), 0) {
        for declaration in declarations {
            if has_id(declaration, id) {
                return declaration.name;
            }
        }
    }
    word.as_bytes()
}

// Whether a comment gives the declared type the id.
fn has_id(declaration: &Declaration<'_>, id: u64) -> bool
    ensures { IsTrue result ↔ (declaration.now.note.id ≡ Some id) }
{
    match declaration.note.id {
        Some(given) => given == id,
        None => false,
    }
}

// The definitions, each with its description.
fn described<'a>(alloc: Global, given: &[Defined]) -> Result<Vec<Definition>, SourceTypesFault<'a>>
    ensures { IfOk result (λ ds. definitions_of ds.items ≡ defines_each given.now) }
{
    let mut definitions = Vec::new(alloc);
    for defined in given {
        let definition = definition_of(alloc, defined)?;
        definitions.push(definition).map_err(Memory::from)?;
    }
    Ok(definitions)
}

// A definition with its description. Each shape of declared types has one.
fn definition_of<'a>(alloc: Global, defined: &Defined) -> Result<Definition, SourceTypesFault<'a>>
    ensures { IfOk result (λ d. defines d.id (view d.described) ≡ defines_one defined.now) }
{
    if !is_describable(defined) {
        return Err(SourceTypesFault::Types(DeclaredFault::Broken, None));
    }
    let described = describe(alloc, defined.id, &defined.shape)?;
    Ok(Definition {
        id: defined.id,
        described,
    })
}

fn is_describable(defined: &Defined) -> bool
    ensures { IsTrue result → IsDescribable defined.now }
{
    defined.id.0 < 1 << 63 && defined.shape.definable()
}
