//! The JSON of a value that a tape means, written part by part as the views show it: the functions call one another
//! down the parts, and no value is made on the way. What an interface holds is a value on a tape of its own.

ghost use Rattle.std.specs.Prelude.{◌≡◌, ◌∷◌, ◌++◌, ◌≤◌, codes};
ghost use Rattle.serde_json.specs.Data.{array};
ghost use Rattle.json.specs.Token as Token;
ghost use Rattle.json.specs.Tree.{json_tokens};
ghost use Rattle.serde_json.specs.Written.{outline};
ghost use Rattle.gob_tape.specs.Seeing.{Gives, elements, alternating, present};
ghost use Rattle.gob_json.specs.Json.{put_json, text_json, id_json};
ghost use Rattle.gob_tape.specs.Meaning.{Means};
ghost use Rattle.gob_types.specs.Defined.{types};
ghost use Rattle.gob_read.specs.Weight.{part_count, parts_of_all, parts_of_pairs, parts_of_fields};
ghost use Rattle.gob_json_writer.specs.Nils.{HeldShows, PutShows, WritesOn};
ghost use Rattle.gob_json_writer.specs.NilsJson.{value_json_with, elements_json_with, pairs_json_with};
ghost use Rattle.gob_json_writer.specs.NilsJson.{fields_json_with, interface_front};
ghost use Rattle.gob_json_writer.specs.TapeJson.{leaf_json, Shows};
ghost use Rattle.gob_json_writer.specs.WritesJson.{WritesJson, WritesJsonOf, WritesTokens};

use crate::held::Held;
use crate::leaf::{write_complex, write_hex, write_opaque, write_pattern, write_text};
use crate::nils::{Empty, Nils};
use crate::part_types::{element_of, fields_of, key_of, name_at, type_at};
use gob_num::to_signed;
use gob_tape::{Children, Tape, ValueKind, View};
use gob_types::{Field, Shapes, Table, TypeId};
use json::Writer;
use std::alloc::{AllocError, Global};

/// Writes the value that a tape means as one of this type, with the type: `{"type":t,"value":v}`. The writing goes as
/// deep as the value.
pub fn write_tape(
    alloc: Global,
    id: TypeId,
    tape: &Tape,
    table: &Table,
    out: &mut Writer,
) -> Result<(), AllocError>
    ensures { WritesJsonOf result out.old out.new (Means tape.now) (put_json (types table.now) id) }
{
    write_filled_tape(alloc, id, tape, &mut Empty, table, out)
}

/// Writes the value that a tape means as one of this type, with the type, and in place of a nil what stands there:
/// `{"type":t,"value":v}`. The writing goes as deep as the value with what it holds.
pub fn write_filled_tape<N: Nils>(
    alloc: Global,
    id: TypeId,
    tape: &Tape,
    nils: &mut N,
    table: &Table,
    out: &mut Writer,
) -> Result<(), AllocError>
    ensures { WritesJsonOf result out.old out.new
        (PutShows (types table.now) id tape.now (N.shows (types table.now) nils.old)) (λ json. json) }
{
    out.begin_object()?;
    out.key("type")?;
    out.u64(id.0)?;
    out.key("value")?;
    write_part(alloc, tape.root(), id, table, nils, out)?;
    out.end_object()
}

/// Writes a part without parts, which is of this kind and has these numbers and bytes.
fn write_leaf(
    alloc: Global,
    kind: ValueKind,
    first: u64,
    second: u64,
    bytes: &[u8],
    out: &mut Writer,
) -> Result<(), AllocError>
    ensures { WritesJson result out.old out.new (leaf_json kind first second bytes.now) }
{
    match kind {
        ValueKind::Bool => out.boolean(first == 1),
        ValueKind::Int => out.i64(to_signed(first)),
        ValueKind::Uint => out.u64(first),
        ValueKind::Float => write_pattern(alloc, first, out),
        ValueKind::Complex => write_complex(alloc, first, second, out),
        ValueKind::Bytes => write_hex(alloc, bytes, out),
        ValueKind::Str => write_text(alloc, bytes, out),
        ValueKind::Opaque => write_opaque(alloc, bytes, out),
        ValueKind::Nil | ValueKind::Many | ValueKind::Pairs | ValueKind::Fields => out.null(),
    }
}

/// Writes the part as one of this type.
#[cycle(part)]
fn write_part<S: Shapes, N: Nils>(
    alloc: Global,
    part: View<'_>,
    id: TypeId,
    table: &S,
    nils: &mut N,
    out: &mut Writer,
) -> Result<(), AllocError>
    ensures written { WritesOn result out.old out.new (Shows part.entry) (N.shows (S.table table.now) nils.old)
        (N.shows (S.table table.now) nils.new) part_count (λ N n. value_json_with N (S.table table.now) id n) }
    ensures fewer { N.levels nils.new ≤ N.levels nils.old }
{
    let held = nils.pass(alloc)?;
    let parts = part.children();
    match part.kind() {
        ValueKind::Many => write_elements(alloc, parts, element_of(table, id), table, nils, out),
        ValueKind::Pairs => {
            write_entries(
                alloc,
                parts,
                key_of(table, id),
                element_of(table, id),
                table,
                nils,
                out,
            )
        }
        ValueKind::Fields => write_fields(alloc, parts, fields_of(table, id), table, nils, out),
        ValueKind::Nil => write_nil(alloc, held, table, out),
        kind => {
            let (first, second) = part.numbers();
            write_leaf(alloc, kind, first, second, part.bytes(), out)
        }
    }
}

/// Writes what stands in a nil.
#[cycle(part)]
fn write_nil<S: Shapes, N: Nils>(
    alloc: Global,
    held: Option<Held<N>>,
    table: &S,
    out: &mut Writer,
) -> Result<(), AllocError>
    ensures { WritesJsonOf result out.old out.new (HeldShows N.shows (S.table table.now) held) (λ json. json) }
{
    let Some(
        Held {
            name,
            id,
            tape,
            mut nils,
        },
    ) = held
    else {
        return out.null();
    };
    write_front(alloc, &name, id, out)?;
    let root = tape.root();
    // a view has few enough nodes for the recursion to end
    let _nodes = root.nodes();
    write_part(alloc, root, id, table, &mut nils, out)?;
    out.end_object()?;
    out.end_object()
}

/// Writes what stands before a value that an interface holds: the name and the id of its type.
fn write_front(alloc: Global, name: &[u8], id: TypeId, out: &mut Writer) -> Result<(), AllocError>
    ensures { WritesTokens result out.old out.new (interface_front name.now id) }
{
    out.begin_object()?;
    out.key("interface")?;
    out.begin_object()?;
    out.key("name")?;
    write_text(alloc, name, out)?;
    out.key("type")?;
    out.u64(id.0)?;
    out.key("value")
}

/// Writes an array of the elements, each of this type.
#[cycle(part)]
fn write_elements<S: Shapes, N: Nils>(
    alloc: Global,
    parts: Children<'_>,
    id: TypeId,
    table: &S,
    nils: &mut N,
    out: &mut Writer,
) -> Result<(), AllocError>
    ensures written { WritesOn result out.old out.new (λ vs. Gives parts.entry (elements vs))
        (N.shows (S.table table.now) nils.old) (N.shows (S.table table.now) nils.new) parts_of_all
        (λ N n vs. array (elements_json_with N (S.table table.now) id n vs)) }
    ensures fewer { N.levels nils.new ≤ N.levels nils.old }
{
    out.begin_array()?;
    for part in parts {
        write_part(alloc, part, id, table, nils, out)?;
    }
    out.end_array()
}

/// Writes an array of the entries, each an array of a key and an element of these types.
#[cycle(part)]
fn write_entries<S: Shapes, N: Nils>(
    alloc: Global,
    parts: Children<'_>,
    key_id: TypeId,
    id: TypeId,
    table: &S,
    nils: &mut N,
    out: &mut Writer,
) -> Result<(), AllocError>
    ensures written { WritesOn result out.old out.new (λ ps. Gives parts.entry (alternating ps))
        (N.shows (S.table table.now) nils.old) (N.shows (S.table table.now) nils.new) parts_of_pairs
        (λ N n ps. array (pairs_json_with N (S.table table.now) key_id id n ps)) }
    ensures fewer { N.levels nils.new ≤ N.levels nils.old }
{
    out.begin_array()?;
    let mut is_key = true;
    for part in parts {
        if is_key {
            out.begin_array()?;
            write_part(alloc, part, key_id, table, nils, out)?;
        } else {
            write_part(alloc, part, id, table, nils, out)?;
            out.end_array()?;
        }
        is_key = !is_key;
    }
    out.end_array()
}

/// Writes an array of the fields that are present, each its number, its name and its value. The struct's fields
/// tell the names and the types.
#[cycle(part)]
fn write_fields<S: Shapes, N: Nils>(
    alloc: Global,
    parts: Children<'_>,
    types: &[Field],
    table: &S,
    nils: &mut N,
    out: &mut Writer,
) -> Result<(), AllocError>
    ensures written { WritesOn result out.old out.new (λ fs. Gives parts.entry (present fs))
        (N.shows (S.table table.now) nils.old) (N.shows (S.table table.now) nils.new) parts_of_fields
        (λ N n fs. array (fields_json_with N (S.table table.now) types.now n fs)) }
    ensures fewer { N.levels nils.new ≤ N.levels nils.old }
{
    out.begin_array()?;
    for part in parts {
        let number = part.field().unwrap_or(0);
        out.begin_array()?;
        out.u64(number)?;
        write_text(alloc, name_at(types, number), out)?;
        write_part(alloc, part, type_at(types, number), table, nils, out)?;
        out.end_array()?;
    }
    out.end_array()
}
