//! What a text of plain JSON says.

ghost use Rattle.std.specs.Prelude.{◌≡◌, ℕ, List, IfOk};
ghost use Rattle.std.specs.Option.{option_map};
ghost use Rattle.json.specs.Lex as json;
ghost use Rattle.gob_types.specs.Defined.{types};
ghost use Rattle.gob_value.specs.View.{view};
ghost use Rattle.gob_make.specs.Tells.{SaysPlain};

use crate::said::Said;
use crate::value::read_value;
use gob_lines::{Due, LineFault};
use gob_types::{Table, TypeId};
use gob_value::Value;
use json::{Reader, Scratch, Token};
use std::alloc::Global;

/// How texts are read as values.
#[derive(Clone, Copy, Debug, PartialEq, Eq)]
pub struct Making {
    /// The type of the values.
    pub id: TypeId,
    /// The greatest depth of a value.
    pub depth: u64,
    /// The most elements of arrays in a value that are zeros which the text doesn't say.
    pub zeros: u64,
    /// Whether members that no field has are left out.
    pub lenient: bool,
}

/// Reads the value that a text says, and adds to `left_out` how many members were left out. None: there is no token in
/// the text. A fault says at which byte from 0 of the text something else is due, or that no memory was had.
pub fn read_plain(
    alloc: Global,
    table: &Table,
    making: Making,
    text: &str,
    scratch: &mut Scratch,
    left_out: &mut u64,
) -> Result<Option<Value>, LineFault>
    ensures { IfOk result (λ found.
        SaysPlain making.lenient (types table.now) making.id text.now (option_map view found)) }
{
    let mut said = Said {
        alloc,
        tokens: Reader::new(text, scratch)?,
        at: 0,
        lenient: making.lenient,
        left_out: *left_out,
        zeros: making.zeros,
    };
    let answer = read_whole(table, making, &mut said);
    *left_out = said.left_out;
    match answer {
        Err(LineFault::Wrong(wrong)) => Err(LineFault::Wrong(wrong.placed(text))),
        answer => answer,
    }
}

// Reads what all the tokens say.
fn read_whole<'t>(
    table: &Table,
    making: Making,
    said: &mut Said<'t>,
) -> Result<Option<Value>, LineFault>
    ensures { IfOk result (λ found. (text : List ℕ) → said.old.tokens ≡ json.tokens text
        → SaysPlain said.old.lenient (types table.now) making.id text (option_map view found)) }
{
    let Some(token) = said.next() else {
        return Ok(None);
    };
    let value = read_value(table, making.id, making.depth, Some(token), said)?;
    match said.next() {
        None => Ok(Some(value)),
        Some(_) => Err(said.due(Due::LineEnd)),
    }
}
