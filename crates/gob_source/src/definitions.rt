//! Definitions.

ghost use Rattle.std.specs.Prelude.{◌≡◌, IfOk};
ghost use Rattle.gob_types.specs.Table.{shape_of};
ghost use Rattle.gob_source.specs.Adds.{Adds};
ghost use Rattle.gob_source.specs.Names.{own_name};
ghost use Rattle.gob_source.specs.Registered.{namings};
ghost use Rattle.gob_source.specs.Source.{declaration_text, decoder_name, decoder_text, definition_text};
ghost use Rattle.gob_source.specs.Source.{definitions_text, encoded_text, encoder_name, encoder_text, go_source};
ghost use Rattle.gob_source.specs.Source.{kind_text, marshal_text, methods_text, named_source, opaque_text};

use crate::by_type::{NamesByType, push_names};
use crate::declared::Declared;
use crate::fields::push_fields;
use crate::library::{Package, package_of, push_imports, push_library_name};
use crate::names::push_own;
use crate::registered::Registered;
use crate::registrations::push_basic_namings;
use crate::text::{push_number, push_text};
use crate::types::push_parts;
use gob_types::{Kind, Marshal, Shape, Shapes, TypeId};
use std::alloc::{AllocError, Global};

/// A file of Go source that declares these types of the table, in order: Go's decoder takes into them what the stream
/// has. The name of each is that which the stream gave it, where Go lets it have that. A type that isn't among them is
/// `struct{}` where another holds it. A type that encodes itself is that of Go's library which has its name, else a
/// string of its bytes. The names under which types are registered stand beside them, in comments.
pub fn named_source_of<S: Shapes>(
    alloc: Global,
    shapes: &S,
    ids: &[TypeId],
    registered: &[Registered],
) -> Result<Vec<u8>, AllocError>
    ensures { IfOk result (λ text. text.items ≡ named_source (S.table shapes.now) ids.now (namings registered.now)) }
{
    let mut out = Vec::new(alloc);
    let types = Declared::new(alloc, shapes, ids)?;
    let names = NamesByType::new(alloc, registered)?;
    push_text(b"package types\n", &mut out)?;
    push_imports(shapes, ids, &mut out)?;
    push_definitions(&types, &names, &mut out)?;
    push_basic_namings(registered, &mut out)?;
    Ok(out)
}

/// The types as [`named_source_of`] declares them, with no name beside them.
pub fn source_of<S: Shapes>(
    alloc: Global,
    shapes: &S,
    ids: &[TypeId],
) -> Result<Vec<u8>, AllocError>
    ensures { IfOk result (λ text. text.items ≡ go_source (S.table shapes.now) ids.now) }
{
    named_source_of(alloc, shapes, ids, &[])
}

/// Appends the definitions of the types.
pub(crate) fn push_definitions<S: Shapes>(
    types: &Declared<'_, S>,
    names: &NamesByType<'_>,
    out: &mut Vec<u8>,
) -> Result<(), AllocError>
    ensures { Adds result out.old.items out.new.items
        (definitions_text (S.table types.now.shapes.now) types.now.ids.now (namings names.now.all.now)
        types.now.ids.now) }
{
    for id in types.ids {
        push_definition(types, names, *id, out)?;
    }
    Ok(())
}

// Appends the definition of a type.
fn push_definition<S: Shapes>(
    types: &Declared<'_, S>,
    names: &NamesByType<'_>,
    of: TypeId,
    out: &mut Vec<u8>,
) -> Result<(), AllocError>
    ensures { Adds result out.old.items out.new.items
        (definition_text (S.table types.now.shapes.now) types.now.ids.now (namings names.now.all.now) of
        (shape_of (S.table types.now.shapes.now) of)) }
{
    let Some(shape) = types.shapes.shape_of(of) else {
        return Ok(());
    };
    push_declaration(types, names, of, shape, out)?;
    push_methods(types, of, shape.name.as_bytes(), &shape.kind, out)
}

// Appends a comment with the type's id and its registered names, and its declaration.
fn push_declaration<S: Shapes>(
    types: &Declared<'_, S>,
    names: &NamesByType<'_>,
    of: TypeId,
    shape: &Shape,
    out: &mut Vec<u8>,
) -> Result<(), AllocError>
    ensures { Adds result out.old.items out.new.items
        (declaration_text (S.table types.now.shapes.now) types.now.ids.now (namings names.now.all.now) of
        shape.now) }
{
    let name = shape.name.as_bytes();
    push_text(b"\n// type ", out)?;
    push_number(of.0, out)?;
    push_encoded(&shape.kind, out)?;
    push_names(names, of, out)?;
    push_text(b"\ntype ", out)?;
    push_own(types, of, name, out)?;
    push_text(b" ", out)?;
    push_kind(types, of, name, &shape.kind, out)?;
    push_text(b"\n", out)
}

// Appends how the values of a type are encoded, where it does it itself.
fn push_encoded(kind: &Kind, out: &mut Vec<u8>) -> Result<(), AllocError>
    ensures { Adds result out.old.items out.new.items (encoded_text kind.now) }
{
    match kind {
        Kind::Opaque(marshal) => push_marshal(*marshal, out),
        _ => Ok(()),
    }
}

// Appends how the values of a type that marshals itself in this way are encoded.
fn push_marshal(marshal: Marshal, out: &mut Vec<u8>) -> Result<(), AllocError>
    ensures { Adds result out.old.items out.new.items (marshal_text marshal) }
{
    match marshal {
        Marshal::Gob => push_text(b", which encodes itself by GobEncode", out),
        Marshal::Binary => push_text(b", which encodes itself by MarshalBinary", out),
        Marshal::Text => push_text(b", which encodes itself by MarshalText", out),
    }
}

// Appends what a type of this name and kind is.
fn push_kind<S: Shapes>(
    types: &Declared<'_, S>,
    of: TypeId,
    name: &[u8],
    kind: &Kind,
    out: &mut Vec<u8>,
) -> Result<(), AllocError>
    ensures { Adds result out.old.items out.new.items
        (kind_text (S.table types.now.shapes.now) types.now.ids.now of name.now kind.now) }
{
    match kind {
        Kind::Struct { fields } => {
            push_text(b"struct {\n", out)?;
            push_fields(types, of, fields.as_slice(), out)?;
            push_text(b"}", out)
        }
        Kind::Opaque(marshal) => push_opaque(package_of(name, *marshal), name, out),
        _ => push_parts(types, of, kind, 2, out),
    }
}

// Appends what a type is that encodes itself: another name for one of Go's library, else a string of its bytes.
fn push_opaque(owner: Option<Package>, name: &[u8], out: &mut Vec<u8>) -> Result<(), AllocError>
    ensures { Adds result out.old.items out.new.items (opaque_text owner name.now) }
{
    let Some(owner) = owner else {
        return push_text(b"string", out);
    };
    push_text(b"= ", out)?;
    push_library_name(owner, name, out)
}

// Appends the methods of a type that encodes itself, where Go's library doesn't have it.
fn push_methods<S: Shapes>(
    types: &Declared<'_, S>,
    of: TypeId,
    name: &[u8],
    kind: &Kind,
    out: &mut Vec<u8>,
) -> Result<(), AllocError>
    ensures { Adds result out.old.items out.new.items
        (methods_text name.now (own_name (S.table types.now.shapes.now) types.now.ids.now of name.now) kind.now) }
{
    match kind {
        Kind::Opaque(marshal) if package_of(name, *marshal).is_none() => {
            push_encoder(types, of, name, *marshal, out)?;
            push_decoder(types, of, name, *marshal, out)
        }
        _ => Ok(()),
    }
}

// Appends the method that gives the bytes of a value.
fn push_encoder<S: Shapes>(
    types: &Declared<'_, S>,
    of: TypeId,
    name: &[u8],
    marshal: Marshal,
    out: &mut Vec<u8>,
) -> Result<(), AllocError>
    ensures { Adds result out.old.items out.new.items
        (encoder_text marshal (own_name (S.table types.now.shapes.now) types.now.ids.now of name.now)) }
{
    push_text(b"\nfunc (value ", out)?;
    push_own(types, of, name, out)?;
    push_text(b") ", out)?;
    push_text(encoder_name(marshal), out)?;
    push_text(
        b"() ([]byte, error) {\n\treturn []byte(value), nil\n}\n",
        out,
    )
}

// Appends the method that keeps the bytes of a value.
fn push_decoder<S: Shapes>(
    types: &Declared<'_, S>,
    of: TypeId,
    name: &[u8],
    marshal: Marshal,
    out: &mut Vec<u8>,
) -> Result<(), AllocError>
    ensures { Adds result out.old.items out.new.items
        (decoder_text marshal (own_name (S.table types.now.shapes.now) types.now.ids.now of name.now)) }
{
    push_text(b"\nfunc (value *", out)?;
    push_own(types, of, name, out)?;
    push_text(b") ", out)?;
    push_text(decoder_name(marshal), out)?;
    push_text(b"(data []byte) error {\n\t*value = ", out)?;
    push_own(types, of, name, out)?;
    push_text(b"(data)\n\treturn nil\n}\n", out)
}

// The method by which Go encodes a type that marshals itself in this way.
fn encoder_name(marshal: Marshal) -> &'static [u8]
    ensures { result.now ≡ encoder_name marshal }
{
    match marshal {
        Marshal::Gob => b"GobEncode",
        Marshal::Binary => b"MarshalBinary",
        Marshal::Text => b"MarshalText",
    }
}

// The method by which Go decodes it.
fn decoder_name(marshal: Marshal) -> &'static [u8]
    ensures { result.now ≡ decoder_name marshal }
{
    match marshal {
        Marshal::Gob => b"GobDecode",
        Marshal::Binary => b"UnmarshalBinary",
        Marshal::Text => b"UnmarshalText",
    }
}
