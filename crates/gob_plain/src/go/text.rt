//! The text of a value that holds others.

ghost use Rattle.std.specs.Prelude.{◌≡◌, [], Bool, IfOk, string_bytes};
ghost use Rattle.json.specs.Json.{Json};
ghost use Rattle.json.specs.Lex.{tokens};
ghost use Rattle.json.specs.Print.{print};
ghost use Rattle.json.specs.Tree.{json_tokens};
ghost use Rattle.gob_types.specs.Defined.{types};
ghost use Rattle.gob_types.specs.Ready.{IsReady};
ghost use Rattle.gob_filled.specs.Filled as spelled;
ghost use Rattle.gob_go.specs.Meaning.{IsFilled};
ghost use Rattle.gob_go.specs.declared.filled.Filled.{out-Filled};
ghost use Rattle.gob_plain.specs.HeldPlain.{SaysFilled};
ghost use Rattle.gob_plain.specs.Machine.Levels.{LevelSays};
ghost use Rattle.gob_plain.specs.Machine.Placing.{AllFit, HeldFits, IsTag};

use crate::go::level::{HeldText, OwnText, write_level};
use crate::go::nils::nils_of;
use crate::go::parting::Parted;
use crate::go::placing::in_nils;
use crate::text::{ROOM, text_of};
use crate::{Fillers, Style, plain_text, plain_text_with};
use gob_go::{Filled, Filling};
use gob_json_writer::{gaps_of, tape_of};
use gob_num::Memory;
use gob_types::{Table, TypeId};
use json::Writer;
use std::alloc::Global;

/// The plain JSON of a value of this type of the table, compact, without a line feed. Each interface is shown as what
/// it holds, and as `null` where that is nothing. A held value is its plain JSON; where they are `tagged` it is
/// `{"NAME":value}`, by the name of its type. What a reader of JSON reads there is that JSON. `Memory` also where it is
/// no value of the type, or holds one that is none of its own. Recursion is as deep as values hold one another.
pub fn filled_text(
    alloc: Global,
    id: TypeId,
    value: &Filled,
    table: &Table,
    style: Style<'_>,
    tagged: bool,
) -> Result<String, Memory>
    ensures said { IfOk result (λ text. (w : spelled.Filled) → IsFilled (types table.now) id value.now w
        → (j : Json) × SaysFilled tagged style.entry (types table.now) id w j
        × (string_bytes text ≡ print (json_tokens j)) × (tokens (string_bytes text) ≡ json_tokens j)) }
    ensures json { IfOk result (λ text. (j : Json) × (tokens (string_bytes text) ≡ json_tokens j)) }
{
    let level = level_of(alloc, id, value, table, style, tagged)?;
    let mut out = Writer::new(Vec::with_capacity(alloc, ROOM)?);
    write_level(alloc, &level, &mut out)?;
    Ok(text_of(out))
}

/// The JSON of the value, with a text for each value that one of its interfaces holds.
#[cycle(text)]
fn level_of<'a>(
    alloc: Global,
    id: TypeId,
    value: &'a Filled,
    table: &Table,
    style: Style<'_>,
    tagged: bool,
) -> Result<OwnText<'a>, Memory>
    ensures said { IfOk result (λ level. (w : spelled.Filled) → IsFilled (types table.now) id value.now w
        → (j : Json) × SaysFilled tagged style.entry (types table.now) id w j × LevelSays level j) }
    ensures some { IfOk result (λ level. (j : Json) × LevelSays level j) }
{
    if !table.kept(id) {
        return Err(Memory);
    }
    if value.fillings.is_empty() {
        return bare_level(alloc, id, value, table, style);
    }
    let held = all_held(alloc, value, table, style.within(), tagged)?;
    let tape = tape_of(alloc, table, id, &value.skeleton)?;
    let gaps = gaps_of(alloc, table, id, &value.skeleton, &value.fillings)?;
    let nils = nils_of(alloc, &tape)?;
    let Parted { texts, held } = in_nils(alloc, &nils, &gaps, held)?;
    // a tape means a value
    let _depth = tape.depth();
    let mut fillers = Fillers {
        all: &texts,
        passed: 0,
    };
    let text = plain_text_with(alloc, id, &tape, table, style, &mut fillers)?;
    Ok(OwnText::of(text, held))
}

/// The JSON of a value that holds none.
fn bare_level<'a>(
    alloc: Global,
    id: TypeId,
    value: &Filled,
    table: &Table,
    style: Style<'_>,
) -> Result<OwnText<'a>, Memory>
    requires kept { IsReady (types table.now) id }
    requires bare { (out-Filled value.now).fillings.items ≡ [] }
    ensures said { IfOk result (λ level. (tagged : Bool) (w : spelled.Filled)
        → IsFilled (types table.now) id value.now w
        → (j : Json) × SaysFilled tagged style.entry (types table.now) id w j × LevelSays level j) }
    ensures some { IfOk result (λ level. (j : Json) × LevelSays level j) }
{
    let tape = tape_of(alloc, table, id, &value.skeleton)?;
    // a tape means a value
    let _depth = tape.depth();
    let mut text = plain_text(alloc, id, &tape, table, style)?;
    // there may be many of them, and most are short
    text.shrink_to_fit();
    Ok(OwnText::of(text, Vec::new(alloc)))
}

/// The values that the fillings have their interfaces hold.
#[cycle(text)]
fn all_held<'a>(
    alloc: Global,
    value: &'a Filled,
    table: &Table,
    style: Style<'_>,
    tagged: bool,
) -> Result<Vec<HeldText<'a>>, Memory>
    ensures { IfOk result (λ held. AllFit tagged style.entry (types table.now)
        (out-Filled value.now).fillings.items held.items) }
{
    let mut all = Vec::with_capacity(alloc, value.fillings.len())?;
    for filling in &value.fillings {
        let held = held_by(alloc, filling, table, style, tagged)?;
        all.push(held)?;
    }
    Ok(all)
}

/// The value that the filling has its interface hold.
#[cycle(text)]
fn held_by<'a>(
    alloc: Global,
    filling: &'a Filling,
    table: &Table,
    style: Style<'_>,
    tagged: bool,
) -> Result<HeldText<'a>, Memory>
    ensures { IfOk result (λ held. HeldFits tagged style.entry (types table.now) filling.now held) }
{
    let level = level_of(alloc, filling.id, &filling.value, table, style, tagged)?;
    let name = tag_of(tagged, &filling.name);
    Ok(HeldText::of(name, level))
}

/// The name, where values are tagged by it.
fn tag_of(tagged: bool, name: &[u8]) -> Option<&[u8]>
    ensures { IsTag tagged name.now result }
{
    if tagged { Some(name) } else { None }
}
