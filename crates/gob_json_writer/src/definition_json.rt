//! The JSON of a definition: the shape of its type.

ghost use Rattle.std.specs.Prelude.{◌≡◌, ◌∷◌, [], codes};
ghost use Rattle.std.specs.Option.{option_copied};
ghost use Rattle.json.specs.Token as Token;
ghost use Rattle.json.specs.Tree.{json_tokens, members_tokens};
ghost use Rattle.serde_json.specs.Data.{array};
ghost use Rattle.serde_json.specs.Written.{outline, members_outline};
ghost use Rattle.gob_json.specs.Json.{pair_json, text_json, id_json};
ghost use Rattle.gob_json_writer.specs.WritesJson.{WritesJson, WritesTokens};
ghost use Rattle.gob_json.specs.DefinitionJson.{field_types_json, marshal_name, name_member, shape_members};
ghost use Rattle.gob_json.specs.DefinitionJson.{definition_json};

use crate::leaf::write_text;
use gob_types::{Field, Kind, Marshal, Shape, TypeId};
use json::Writer;
use std::alloc::{AllocError, Global};

/// Writes the definition of a type, whose shape this is.
pub fn write_definition(
    alloc: Global,
    id: TypeId,
    shape: Option<&Shape>,
    out: &mut Writer,
) -> Result<(), AllocError>
    ensures { WritesJson result out.old out.new (definition_json id (option_copied shape.entry)) }
{
    out.begin_object()?;
    write_id("define", id, out)?;
    match shape {
        Some(shape) => write_shape(alloc, &shape.kind, shape.name.as_bytes(), out),
        None => out.end_object(),
    }
}

/// Writes the members that tell the kind and the name, and the end of the object.
fn write_shape(alloc: Global, kind: &Kind, name: &[u8], out: &mut Writer) -> Result<(), AllocError>
    ensures { WritesTokens result out.old out.new (members_tokens (members_outline (shape_members kind.now name.now))) }
{
    match kind {
        Kind::Basic(_) => return out.end_object(),
        Kind::Array { elem, len } => {
            write_id("elem", *elem, out)?;
            write_kind("array", out)?;
            out.key("len")?;
            out.u64(*len)?;
        }
        Kind::Slice { elem } => {
            write_id("elem", *elem, out)?;
            write_kind("slice", out)?;
        }
        Kind::Struct { fields } => {
            out.key("fields")?;
            write_field_types(alloc, fields.as_slice(), out)?;
            write_kind("struct", out)?;
        }
        Kind::Map { key, elem } => {
            write_id("elem", *elem, out)?;
            write_id("key", *key, out)?;
            write_kind("map", out)?;
        }
        Kind::Opaque(marshal) => write_kind(marshal_name(*marshal), out)?,
    }
    write_name(alloc, name, out)
}

/// The kind of an opaque type, by its way of marshalling.
fn marshal_name(marshal: Marshal) -> &'static str
    ensures { result.now ≡ marshal_name marshal }
{
    match marshal {
        Marshal::Gob => "gob",
        Marshal::Binary => "binary",
        Marshal::Text => "text",
    }
}

/// Writes an array of the fields, each its name and its type.
fn write_field_types(alloc: Global, fields: &[Field], out: &mut Writer) -> Result<(), AllocError>
    ensures { WritesJson result out.old out.new (array (field_types_json fields.now)) }
{
    out.begin_array()?;
    for field in fields {
        out.begin_array()?;
        write_text(alloc, field.name.as_bytes(), out)?;
        out.u64(field.id.0)?;
        out.end_array()?;
    }
    out.end_array()
}

/// Writes a member whose value is a type id.
fn write_id(key: &str, id: TypeId, out: &mut Writer) -> Result<(), AllocError>
    ensures { WritesTokens result out.old out.new (Token.key key.now ∷ json_tokens (outline (id_json id))) }
{
    out.key(key)?;
    out.u64(id.0)
}

/// Writes the member that tells the kind.
fn write_kind(kind: &str, out: &mut Writer) -> Result<(), AllocError>
    ensures { WritesTokens result out.old out.new (Token.key (codes "kind") ∷ Token.string kind.now ∷ []) }
{
    out.key("kind")?;
    out.string(kind)
}

/// Writes the name, which is a definition's last member, and the end of the object.
fn write_name(alloc: Global, name: &[u8], out: &mut Writer) -> Result<(), AllocError>
    ensures { WritesTokens result out.old out.new (members_tokens (members_outline (name_member name.now))) }
{
    out.key("name")?;
    write_text(alloc, name, out)?;
    out.end_object()
}
