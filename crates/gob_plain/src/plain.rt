//! The plain JSON of a value that a tape means, written part by part as the views show it.

ghost use Rattle.std.specs.Prelude.{◌≡◌, true, MatchBool, None};
ghost use Rattle.gob_types.specs.Defined.{types};
ghost use Rattle.gob_types.specs.Table.{shape_of};
ghost use Rattle.gob_json.specs.Json.{element_type, key_type};
ghost use Rattle.gob_value.specs.Tree.{Pairs, Tree};
ghost use Rattle.gob_tape.specs.Meaning.{Means};
ghost use Rattle.gob_tape.specs.Seeing.{Gives, elements, alternating, present};
ghost use Rattle.gob_plain.specs.Plain.{are_bare};
ghost use Rattle.gob_plain.specs.Filled.{nils_in, nils_of_each_in, nils_of_map_in, nils_of_members_in};
ghost use Rattle.gob_plain.specs.Filled.{nils_of_pairs_in, nils_of_fields_in, SaysInWith, SaysElementsIn};
ghost use Rattle.gob_plain.specs.Filled.{listed_pairs, nils_of_value, IsListed, SaysValue, SaysValueWith};
ghost use Rattle.gob_plain.specs.Filled.{SaysMapIn};
ghost use Rattle.gob_plain.specs.Filled.{SaysMembersIn, SaysPairsIn, SaysStructIn, SaysTextsIn};
ghost use Rattle.gob_plain.specs.WritesPlain.{WritesNilsOf, WritesPlainOf, Shows};

use crate::leaf::{write_key, write_leaf, write_name};
use crate::maps::{MapForm, form_of};
use crate::nils::{NilTexts, Nulls};
use crate::opaque::write_opaque;
use crate::style::Style;
use crate::zeros::write_absent;
use gob_json_writer::{element_of, fields_of, key_of, name_at, type_at};
use gob_tape::{Children, Tape, ValueKind, View};
use gob_types::{Field, Shapes, Table, TypeId};
use json::Writer;
use std::alloc::{AllocError, Global};

/// Writes the value that a tape means as one of this type, and `null` for each nil. The writing goes as deep as the
/// value.
pub fn write_plain(
    alloc: Global,
    id: TypeId,
    tape: &Tape,
    table: &Table,
    style: Style<'_>,
    out: &mut Writer,
) -> Result<(), AllocError>
    ensures { WritesPlainOf result out.old out.new (Means tape.now) (SaysValue style.entry (types table.now) id) }
{
    write_plain_with(alloc, id, tape, table, style, &mut Nulls, out)
}

/// Writes the value that a tape means as one of this type. Each nil of it says what the next of `nils` does, in the
/// order in which they stand: the elements in theirs, of an entry of a map the key first, the fields by their numbers.
pub fn write_plain_with<N: NilTexts>(
    alloc: Global,
    id: TypeId,
    tape: &Tape,
    table: &Table,
    style: Style<'_>,
    nils: &mut N,
    out: &mut Writer,
) -> Result<(), AllocError>
    requires { N.fit nils.old }
    ensures said { WritesNilsOf result out.old out.new (N.says nils.old) (N.says nils.new) (Means tape.now)
        (nils_of_value style.entry (types table.now) id)
        (SaysValueWith (N.says nils.old) style.entry (types table.now) id) }
    ensures fit { N.fit nils.new }
{
    let value = tape.root();
    if !is_listed(value, style) {
        return write_part(alloc, value, id, table, style, nils, out);
    }
    write_pairs(
        alloc,
        value.children(),
        entry_types(table, id),
        table,
        style,
        nils,
        out,
    )
}

// Whether the value is a map whose pairs are an array in this style, whatever its keys are.
fn is_listed(value: View<'_>, style: Style<'_>) -> bool
    ensures { (v : Tree) → Shows value.entry v
        → MatchBool result (IsListed style.entry v) (listed_pairs style.entry v ≡ None) }
{
    match value.kind() {
        ValueKind::Pairs => style.pairs,
        _ => false,
    }
}

// The types of a map's entries.
#[derive(Clone, Copy)]
struct EntryTypes {
    key: TypeId,
    element: TypeId,
}

// The types of the entries of a map of this type.
fn entry_types<S: Shapes>(table: &S, id: TypeId) -> EntryTypes
    ensures key { result.key ≡ key_type (shape_of (S.table table.now) id) }
    ensures element { result.element ≡ element_type (shape_of (S.table table.now) id) }
{
    EntryTypes {
        key: key_of(table, id),
        element: element_of(table, id),
    }
}

// Writes the part as one of this type.
#[cycle(part)]
fn write_part<S: Shapes, N: NilTexts>(
    alloc: Global,
    part: View<'_>,
    id: TypeId,
    table: &S,
    style: Style<'_>,
    nils: &mut N,
    out: &mut Writer,
) -> Result<(), AllocError>
    requires { N.fit nils.old }
    ensures said { WritesNilsOf result out.old out.new (N.says nils.old) (N.says nils.new) (Shows part.entry)
        (nils_in style.entry (S.table table.now) id) (SaysInWith (N.says nils.old) style.entry (S.table table.now) id) }
    ensures fit { N.fit nils.new }
{
    let parts = part.children();
    match part.kind() {
        ValueKind::Nil => nils.write_nil(alloc, out),
        ValueKind::Many => write_elements(
            alloc,
            parts,
            element_of(table, id),
            table,
            style,
            nils,
            out,
        ),
        ValueKind::Pairs => write_map(
            alloc,
            parts,
            entry_types(table, id),
            table,
            style,
            nils,
            out,
        ),
        ValueKind::Fields => write_fields(
            alloc,
            parts,
            fields_of(table, id),
            table,
            style,
            nils,
            out,
        ),
        ValueKind::Opaque => {
            write_opaque(alloc, id, table.shape_of(id), part.bytes(), style, out)
        },
        kind => {
            let (first, second) = part.numbers();
            write_leaf(alloc, kind, first, second, part.bytes(), out)
        }
    }
}

// Writes an array of the elements, each of this type.
#[cycle(part)]
fn write_elements<S: Shapes, N: NilTexts>(
    alloc: Global,
    parts: Children<'_>,
    id: TypeId,
    table: &S,
    style: Style<'_>,
    nils: &mut N,
    out: &mut Writer,
) -> Result<(), AllocError>
    requires { N.fit nils.old }
    ensures said { WritesNilsOf result out.old out.new (N.says nils.old) (N.says nils.new)
        (λ vs. Gives parts.entry (elements vs)) (nils_of_each_in style.entry (S.table table.now) id)
        (SaysElementsIn (N.says nils.old) style.entry (S.table table.now) id) }
    ensures fit { N.fit nils.new }
{
    out.begin_array()?;
    for part in parts {
        write_part(alloc, part, id, table, style, nils, out)?;
    }
    out.end_array()
}

// Writes the entries of a map: as an object where the keys or the texts that fill them name them, else as an array.
#[cycle(part)]
fn write_map<S: Shapes, N: NilTexts>(
    alloc: Global,
    parts: Children<'_>,
    types: EntryTypes,
    table: &S,
    style: Style<'_>,
    nils: &mut N,
    out: &mut Writer,
) -> Result<(), AllocError>
    requires { N.fit nils.old }
    ensures said { WritesNilsOf result out.old out.new (N.says nils.old) (N.says nils.new)
        (λ ps. Gives parts.entry (alternating ps))
        (nils_of_map_in style.entry (S.table table.now) types.key types.element)
        (SaysMapIn (N.says nils.old) style.entry (S.table table.now) types.key types.element) }
    ensures fit { N.fit nils.new }
{
    match form_of(alloc, parts, types.key, nils)? {
        MapForm::Named => write_members(alloc, parts, types, table, style, nils, out),
        MapForm::NamedByTexts => write_texts(alloc, parts, types, table, style, nils, out),
        MapForm::Pairs => write_pairs(alloc, parts, types, table, style, nils, out),
    }
}

// Writes an object with a member for each entry, named by its key.
#[cycle(part)]
fn write_members<S: Shapes, N: NilTexts>(
    alloc: Global,
    parts: Children<'_>,
    types: EntryTypes,
    table: &S,
    style: Style<'_>,
    nils: &mut N,
    out: &mut Writer,
) -> Result<(), AllocError>
    requires { N.fit nils.old }
    ensures said { WritesNilsOf result out.old out.new (N.says nils.old) (N.says nils.new)
        (λ ps. Gives parts.entry (alternating ps))
        (nils_of_members_in style.entry (S.table table.now) types.key types.element)
        (SaysMembersIn (N.says nils.old) style.entry (S.table table.now) types.key types.element) }
    ensures fit { N.fit nils.new }
{
    out.begin_object()?;
    let mut is_key = true;
    for part in parts {
        if is_key {
            write_key(alloc, part, out)?;
        } else {
            write_part(alloc, part, types.element, table, style, nils, out)?;
        }
        is_key = !is_key;
    }
    out.end_object()
}

// Writes an object with a member for each entry, named by the text that fills its key.
#[cycle(part)]
fn write_texts<S: Shapes, N: NilTexts>(
    alloc: Global,
    parts: Children<'_>,
    types: EntryTypes,
    table: &S,
    style: Style<'_>,
    nils: &mut N,
    out: &mut Writer,
) -> Result<(), AllocError>
    requires fit { N.fit nils.old }
    requires bare { (ps : Pairs) → Gives parts (alternating ps) → are_bare ps ≡ true }
    ensures said { WritesNilsOf result out.old out.new (N.says nils.old) (N.says nils.new)
        (λ ps. Gives parts.entry (alternating ps))
        (nils_of_pairs_in style.entry (S.table table.now) types.key types.element)
        (SaysTextsIn (N.says nils.old) style.entry (S.table table.now) types.key types.element) }
    ensures fit { N.fit nils.new }
{
    out.begin_object()?;
    let mut is_key = true;
    for part in parts {
        if is_key {
            nils.write_name(alloc, out)?;
        } else {
            write_part(alloc, part, types.element, table, style, nils, out)?;
        }
        is_key = !is_key;
    }
    out.end_object()
}

// Writes an array of the entries, each an array of a key and an element of these types.
#[cycle(part)]
fn write_pairs<S: Shapes, N: NilTexts>(
    alloc: Global,
    parts: Children<'_>,
    types: EntryTypes,
    table: &S,
    style: Style<'_>,
    nils: &mut N,
    out: &mut Writer,
) -> Result<(), AllocError>
    requires { N.fit nils.old }
    ensures said { WritesNilsOf result out.old out.new (N.says nils.old) (N.says nils.new)
        (λ ps. Gives parts.entry (alternating ps))
        (nils_of_pairs_in style.entry (S.table table.now) types.key types.element)
        (SaysPairsIn (N.says nils.old) style.entry (S.table table.now) types.key types.element) }
    ensures fit { N.fit nils.new }
{
    out.begin_array()?;
    let mut is_key = true;
    for part in parts {
        if is_key {
            out.begin_array()?;
            write_part(alloc, part, types.key, table, style, nils, out)?;
        } else {
            write_part(alloc, part, types.element, table, style, nils, out)?;
            out.end_array()?;
        }
        is_key = !is_key;
    }
    out.end_array()
}

// Writes an object with a member for each field that is present, and for the absent ones that the style shows. The
// struct's fields tell the names and the types.
#[cycle(part)]
fn write_fields<S: Shapes, N: NilTexts>(
    alloc: Global,
    parts: Children<'_>,
    types: &[Field],
    table: &S,
    style: Style<'_>,
    nils: &mut N,
    out: &mut Writer,
) -> Result<(), AllocError>
    requires { N.fit nils.old }
    ensures said { WritesNilsOf result out.old out.new (N.says nils.old) (N.says nils.new)
        (λ fs. Gives parts.entry (present fs)) (nils_of_fields_in style.entry (S.table table.now) types.now 0)
        (SaysStructIn (N.says nils.old) style.entry (S.table table.now) types.now) }
    ensures fit { N.fit nils.new }
{
    out.begin_object()?;
    let count = types.len() as u64;
    let mut next = 0;
    for part in parts {
        let number = part.field().unwrap_or(0);
        write_absent(alloc, types, next..number, table, style, out)?;
        write_name(alloc, name_at(types, number), out)?;
        write_part(alloc, part, type_at(types, number), table, style, nils, out)?;
        next = number.saturating_add(1);
    }
    write_absent(alloc, types, next..count, table, style, out)?;
    out.end_object()
}
