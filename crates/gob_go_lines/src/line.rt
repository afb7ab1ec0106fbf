//! What a line says.

ghost use Rattle.std.specs.Prelude.{◌≡◌, ℕ, List, IfOk};
ghost use Rattle.json.specs.Lex as json;
ghost use Rattle.gob_types.specs.Defined.{types};
ghost use Rattle.gob_types.specs.declared.id.TypeId.{TypeId};
ghost use Rattle.gob_types.specs.declared.kind.Shape as spec;
ghost use Rattle.gob_lines.specs.Complete.{SaysDefinition};
ghost use Rattle.gob_go_lines.specs.Lines.{LeavesNone, ReadsDefinition, ReadsPut, SaysPut, Tells, TellsTokens};

use crate::value::{Reading, put_top};
use gob_lines::{Due, LineFault, read_shape, read_uint, take_key, take_object_end};
use gob_types::{Shape, Table, TypeId};
use json::{Reader, Scratch, Token};
use std::alloc::Global;

/// What a line says.
#[derive(Drop)]
pub enum GoLine {
    /// Nothing: there is no token in it.
    Empty,
    /// The definition of a type, by its shape.
    Define {
        /// The type.
        id: TypeId,
        /// Its shape.
        shape: Shape,
    },
    /// A value of a type of the table.
    Put {
        /// The type.
        id: TypeId,
        /// The bytes of the value, behind its tag, which a struct doesn't have. What interfaces hold stands in its
        /// place, and no definition in front of it.
        body: Vec<u8>,
    },
    /// A value of a type that isn't ready.
    Unready {
        /// The type.
        id: TypeId,
    },
}

/// Which values lines may say.
#[derive(Clone, Copy, Debug, PartialEq, Eq)]
pub struct Form {
    /// How deep the parts of a value may be: the value itself has depth 1, and what an interface holds lies one deeper.
    pub depth: u64,
    /// Whether interfaces may hold values, as in the lines of `show --go`.
    pub holds: bool,
}

/// Reads a line that `show` prints, or `show --go` where interfaces may hold values, without its line feed, by these
/// types. For a number a text of its digits may stand. What interfaces hold is of types that are ready.
pub fn read_go_line(
    alloc: Global,
    table: &Table,
    form: Form,
    line: &str,
    scratch: &mut Scratch,
) -> Result<GoLine, LineFault>
    ensures tells { IfOk result (λ said. Tells (types table.now) form.holds form.depth line.now said) }
    ensures whole { (id : TypeId) (body : List ℕ)
        → SaysPut (types table.now) form.holds form.depth (json.tokens line.now) id body → ReadsPut result id body }
    ensures definition { (id : TypeId) (s : spec.Shape) → SaysDefinition (json.tokens line.now) id s
        → ReadsDefinition result id s }
{
    let mut tokens = Reader::new(line, scratch)?;
    match read_whole(alloc, table, form, &mut tokens) {
        Err(LineFault::Wrong(wrong)) => Err(LineFault::Wrong(wrong.placed(line))),
        answer => answer,
    }
}

/// Reads what all the tokens say.
fn read_whole(
    alloc: Global,
    table: &Table,
    form: Form,
    tokens: &mut Reader<'_>,
) -> Result<GoLine, LineFault>
    ensures tells { IfOk result (λ said. (text : List ℕ)
        → tokens.old ≡ json.tokens text → Tells (types table.now) form.holds form.depth text said) }
    ensures whole { (id : TypeId) (body : List ℕ) → SaysPut (types table.now) form.holds form.depth tokens.old id body
        → ReadsPut result id body }
    ensures definition { (id : TypeId) (s : spec.Shape) → SaysDefinition tokens.old id s
        → ReadsDefinition result id s }
{
    let said = read_item(alloc, table, form, tokens)?;
    if matches!(said, GoLine::Unready { .. }) {
        return Ok(said);
    }
    let at = tokens.offset();
    match tokens.next() {
        None => Ok(said),
        Some(_) => Err(LineFault::due(alloc, at, Due::LineEnd)),
    }
}

/// Reads what the tokens say.
fn read_item(
    alloc: Global,
    table: &Table,
    form: Form,
    tokens: &mut Reader<'_>,
) -> Result<GoLine, LineFault>
    ensures tells { IfOk result (λ said. TellsTokens (types table.now) form.holds form.depth tokens.old said
        tokens.new) }
    ensures whole { (id : TypeId) (body : List ℕ) → SaysPut (types table.now) form.holds form.depth tokens.old id body
        → ReadsPut result id body × LeavesNone result tokens.new }
    ensures definition { (id : TypeId) (s : spec.Shape) → SaysDefinition tokens.old id s
        → ReadsDefinition result id s × LeavesNone result tokens.new }
{
    let at = tokens.offset();
    match tokens.next() {
        None => return Ok(GoLine::Empty),
        Some(Token::BeginObject) => {}
        _ => return Err(LineFault::due(alloc, at, Due::Head)),
    }
    let at = tokens.offset();
    match tokens.next() {
        Some(Token::Key("define")) => {
            let id = TypeId(read_uint(alloc, tokens)?);
            let shape = read_shape(alloc, tokens)?;
            Ok(GoLine::Define { id, shape })
        }
        Some(Token::Key("type")) => {
            let id = TypeId(read_uint(alloc, tokens)?);
            if !table.kept(id) {
                return Ok(GoLine::Unready { id });
            }
            take_key(alloc, tokens, "value")?;
            let reading = Reading {
                table,
                holds: form.holds,
            };
            let mut body = Vec::new(alloc);
            put_top(alloc, &reading, id, form.depth, tokens, &mut body)?;
            take_object_end(alloc, tokens)?;
            Ok(GoLine::Put { id, body })
        }
        _ => Err(LineFault::due(alloc, at, Due::Head)),
    }
}
