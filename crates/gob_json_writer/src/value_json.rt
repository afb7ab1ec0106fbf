//! The JSON of a value, written part by part: the functions call one another down the value.

ghost use Rattle.serde_json.specs.Data.{array};
ghost use Rattle.gob_value.specs.View.{view, views, pair_views, field_views};
ghost use Rattle.gob_json.specs.Json.{value_json, elements_json, pairs_json, fields_json, put_json};
ghost use Rattle.gob_json_writer.specs.WritesJson.{WritesJson};

use crate::leaf::{write_complex, write_hex, write_opaque, write_pattern, write_text};
use crate::part_types::{element_of, fields_of, key_of, name_at, type_at};
use gob_types::{Field, Shapes, TypeId};
use gob_value::Value;
use json::Writer;
use std::alloc::{AllocError, Global};

/// Writes a value as one of this type, with the type: `{"type":t,"value":v}`. The writing goes as deep as the value.
pub fn write_put<S: Shapes>(
    alloc: Global,
    id: TypeId,
    value: &Value,
    table: &S,
    out: &mut Writer,
) -> Result<(), AllocError>
    ensures { WritesJson result out.old out.new
        (put_json (S.table table.now) id (view value.now)) }
{
    out.begin_object()?;
    out.key("type")?;
    out.u64(id.0)?;
    out.key("value")?;
    write_value(alloc, value, id, table, out)?;
    out.end_object()
}

/// Writes the value as one of this type.
#[cycle(value)]
fn write_value<S: Shapes>(
    alloc: Global,
    value: &Value,
    id: TypeId,
    table: &S,
    out: &mut Writer,
) -> Result<(), AllocError>
    ensures { WritesJson result out.old out.new
        (value_json (S.table table.now) id (view value.now)) }
{
    match value {
        Value::Bool(truth) => out.boolean(*truth),
        Value::Int(number) => out.i64(*number),
        Value::Uint(number) => out.u64(*number),
        Value::Float(pattern) => write_pattern(alloc, *pattern, out),
        Value::Complex(real, imaginary) => write_complex(alloc, *real, *imaginary, out),
        Value::Bytes(bytes) => write_hex(alloc, bytes, out),
        Value::Str(text) => write_text(alloc, text, out),
        Value::Nil => out.null(),
        Value::Many(elements) => write_elements(alloc, elements, element_of(table, id), table, out),
        Value::Pairs(pairs) => {
            write_pairs(
                alloc,
                pairs,
                key_of(table, id),
                element_of(table, id),
                table,
                out,
            )
        }
        Value::Fields(fields) => write_fields(alloc, fields, fields_of(table, id), table, out),
        Value::Opaque(bytes) => write_opaque(alloc, bytes, out),
    }
}

/// Writes an array of the elements, each of this type.
#[cycle(value)]
fn write_elements<S: Shapes>(
    alloc: Global,
    elements: &Vec<Value>,
    id: TypeId,
    table: &S,
    out: &mut Writer,
) -> Result<(), AllocError>
    ensures { WritesJson result out.old out.new
        (array (elements_json (S.table table.now) id (views elements.now.items))) }
{
    out.begin_array()?;
    for element in elements {
        write_value(alloc, element, id, table, out)?;
    }
    out.end_array()
}

/// Writes an array of pairs, each of a key and an element of these types.
#[cycle(value)]
fn write_pairs<S: Shapes>(
    alloc: Global,
    pairs: &Vec<(Value, Value)>,
    key_id: TypeId,
    id: TypeId,
    table: &S,
    out: &mut Writer,
) -> Result<(), AllocError>
    ensures { WritesJson result out.old out.new
        (array (pairs_json (S.table table.now) key_id id (pair_views pairs.now.items))) }
{
    out.begin_array()?;
    for (key, element) in pairs {
        out.begin_array()?;
        write_value(alloc, key, key_id, table, out)?;
        write_value(alloc, element, id, table, out)?;
        out.end_array()?;
    }
    out.end_array()
}

/// Writes an array of the fields that are present, each its number, its name and its value. The struct's fields
/// tell the names and the types.
#[cycle(value)]
fn write_fields<S: Shapes>(
    alloc: Global,
    fields: &Vec<(u64, Value)>,
    types: &[Field],
    table: &S,
    out: &mut Writer,
) -> Result<(), AllocError>
    ensures { WritesJson result out.old out.new
        (array (fields_json (S.table table.now) types.now (field_views fields.now.items))) }
{
    out.begin_array()?;
    for (number, value) in fields {
        out.begin_array()?;
        out.u64(*number)?;
        write_text(alloc, name_at(types, *number), out)?;
        write_value(alloc, value, type_at(types, *number), table, out)?;
        out.end_array()?;
    }
    out.end_array()
}
