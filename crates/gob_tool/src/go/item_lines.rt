//! The lines of an item: those of the definitions that its value holds, and its own. Recursion is as deep as interfaces
//! hold others, at most 1000.

ghost use Rattle.std.specs.Prelude.{◌≡◌, ℕ, [], ◌++◌, OnOk};
ghost use Rattle.serde_json.specs.Data.{Data};
ghost use Rattle.gob_types.specs.Defined.{types};
ghost use Rattle.gob_types.specs.declared.id.TypeId.{TypeId};
ghost use Rattle.gob_value.specs.Tree.{Tree};
ghost use Rattle.gob_stream.specs.Item.{defines};
ghost use Rattle.gob_filled.specs.Filled as spelled;
ghost use Rattle.gob_go.specs.Meaning.{IsFilled, definitions_of};
ghost use Rattle.gob_go.specs.declared.filled.Filling.{out-Filling};
ghost use Rattle.gob_json_writer.specs.FilledJson.{FilledShows};
ghost use Rattle.gob_tool.specs.Line.{line};
ghost use Rattle.gob_tool.specs.LineGo.{definition_lines, inner_lines, value_line};
ghost use Rattle.gob_tool.specs.Machine.LinesGo.{LinesGiven};

use gob_go::{Definition, Filled, Filling, GoItem};
use gob_json_writer::{write_definition, write_filled};
use gob_num::Memory;
use gob_types::{Shapes, Table, TypeId};
use json::Writer;
use std::alloc::Global;
use std::mem;

/// Makes the lines of an item of a stream of Go's encoder, as [`run_show_go`](crate::run_show_go) writes them, by the
/// types behind it, in `lines`, which is empty.
pub fn push_lines(
    alloc: Global,
    item: &GoItem,
    table: &Table,
    lines: &mut Vec<u8>,
) -> Result<(), Memory>
    requires { lines.old.items ≡ [] }
    ensures { OnOk result (LinesGiven (types table.now) item.now lines.new.items) }
{
    match item {
        GoItem::Define { id, .. } => push_definition(alloc, *id, table, lines),
        GoItem::Put { id, value } => {
            push_inner(alloc, value, table, lines)?;
            push_value(alloc, *id, value, table, lines)
        }
    }
}

/// Appends the line of the definition of a type.
fn push_definition(
    alloc: Global,
    id: TypeId,
    table: &Table,
    lines: &mut Vec<u8>,
) -> Result<(), Memory>
    ensures { OnOk result ((v : Tree) → lines.new.items ≡ lines.old.items ++ line (types table.now) (defines id v)) }
{
    let mut out = Writer::new(mem::replace(lines, Vec::new(alloc)));
    let written = write_definition(alloc, id, table.shape_of(id), &mut out);
    *lines = out.into_inner();
    written?;
    Ok(lines.push(b'\n')?)
}

/// Appends the line of a value.
fn push_value(
    alloc: Global,
    id: TypeId,
    value: &Filled,
    table: &Table,
    lines: &mut Vec<u8>,
) -> Result<(), Memory>
    ensures { OnOk result ((w : spelled.Filled) (v : Tree) (N : ℕ → Data) → IsFilled (types table.now) id value.now w
        → FilledShows (types table.now) id w v N
        → lines.new.items ≡ lines.old.items ++ value_line (types table.now) id v N) }
{
    let mut out = Writer::new(mem::replace(lines, Vec::new(alloc)));
    let written = write_filled(alloc, id, value, table, &mut out);
    *lines = out.into_inner();
    written?;
    Ok(lines.push(b'\n')?)
}

/// Appends the lines of the definitions that a value holds.
#[cycle(inner)]
fn push_inner(
    alloc: Global,
    value: &Filled,
    table: &Table,
    lines: &mut Vec<u8>,
) -> Result<(), Memory>
    ensures { OnOk result ((t : TypeId) (w : spelled.Filled) → IsFilled (types table.now) t value.now w
        → lines.new.items ≡ lines.old.items ++ inner_lines (types table.now) w) }
{
    for filling in &value.fillings {
        push_filling(alloc, filling, table, lines)?;
    }
    Ok(())
}

/// Appends the lines of the definitions of a filling, and those that its value holds.
#[cycle(inner)]
fn push_filling(
    alloc: Global,
    filling: &Filling,
    table: &Table,
    lines: &mut Vec<u8>,
) -> Result<(), Memory>
    ensures { OnOk result ((w : spelled.Filled)
        → IsFilled (types table.now) (out-Filling filling.now).id (out-Filling filling.now).value w
        → lines.new.items ≡ lines.old.items
        ++ (definition_lines (types table.now) (definitions_of (out-Filling filling.now).definitions.items)
        ++ inner_lines (types table.now) w)) }
{
    push_definitions(alloc, &filling.definitions, table, lines)?;
    push_inner(alloc, &filling.value, table, lines)
}

/// Appends the lines of definitions.
fn push_definitions(
    alloc: Global,
    definitions: &[Definition],
    table: &Table,
    lines: &mut Vec<u8>,
) -> Result<(), Memory>
    ensures { OnOk result (lines.new.items ≡ lines.old.items
        ++ definition_lines (types table.now) (definitions_of definitions.now)) }
{
    for definition in definitions {
        push_definition(alloc, definition.id, table, lines)?;
    }
    Ok(())
}
