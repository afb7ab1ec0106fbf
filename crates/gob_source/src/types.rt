//! Types by their names or their parts.

ghost use Rattle.std.specs.Prelude.{◌≡◌};
ghost use Rattle.std.specs.Option.{option_copied};
ghost use Rattle.gob_types.specs.Table.{shape_of};
ghost use Rattle.gob_source.specs.Adds.{Adds};
ghost use Rattle.gob_source.specs.Source.{are_basic_keys, basic_text, defined_text, has_parts, is_basic_key};
ghost use Rattle.gob_source.specs.Source.{is_holder, is_key, is_key_kind};
ghost use Rattle.gob_source.specs.Source.{key_text, parts_text, pointer_text, type_text, used_name};

use crate::declared::Declared;
use crate::library::{Package, is_of_package, package_of, package_of_shape, push_library_name};
use crate::names::{is_identifier, push_own};
use crate::text::{push_number, push_text};
use gob_types::{Field, Kind, Shape, Shapes, TypeId};
use std::alloc::AllocError;

/// Appends the type as Go source names it in the definition of another, written out so many levels down where it has
/// no name.
#[cycle(source)]
pub(crate) fn push_type<S: Shapes>(
    types: &Declared<'_, S>,
    of: TypeId,
    id: TypeId,
    levels: u64,
    out: &mut Vec<u8>,
) -> Result<(), AllocError>
    ensures { Adds result out.old.items out.new.items
        (type_text levels (S.table types.now.shapes.now) types.now.ids.now of id) }
{
    match basic_name(id) {
        Some(name) => push_text(name, out),
        None => push_defined(types, of, id, levels, out),
    }
}

/// The name of a basic type.
pub(crate) fn basic_name(id: TypeId) -> Option<&'static [u8]>
    ensures { option_copied result ≡ basic_text id.0 }
{
    let name: &'static [u8] = match id.0 {
        1 => b"bool",
        2 => b"int",
        3 => b"uint",
        4 => b"float64",
        5 => b"[]byte",
        6 => b"string",
        7 => b"complex128",
        8 => b"interface{}",
        _ => return None,
    };
    Some(name)
}

// Appends a type that isn't basic.
#[cycle(source)]
fn push_defined<S: Shapes>(
    types: &Declared<'_, S>,
    of: TypeId,
    id: TypeId,
    levels: u64,
    out: &mut Vec<u8>,
) -> Result<(), AllocError>
    ensures { Adds result out.old.items out.new.items
        (defined_text levels (S.table types.now.shapes.now) types.now.ids.now of id) }
{
    let Some(shape) = types.shapes.shape_of(id) else {
        return push_text(b"struct{}", out);
    };
    if !types.declares(id) {
        return push_text(b"struct{}", out);
    }
    if levels == 0 || !has_parts(shape) {
        return push_used(types, id, shape, out);
    }
    push_parts(types, of, &shape.kind, levels - 1, out)
}

// Appends the name by which other types refer to one.
fn push_used<S: Shapes>(
    types: &Declared<'_, S>,
    id: TypeId,
    shape: &Shape,
    out: &mut Vec<u8>,
) -> Result<(), AllocError>
    ensures { Adds result out.old.items out.new.items
        (used_name (S.table types.now.shapes.now) types.now.ids.now id shape.now) }
{
    match package_of_shape(shape) {
        Some(owner) => push_library_name(owner, shape.name.as_bytes(), out),
        None => push_own(types, id, shape.name.as_bytes(), out),
    }
}

/// Appends a list or a map by its parts, written out so many levels down.
#[cycle(source)]
pub(crate) fn push_parts<S: Shapes>(
    types: &Declared<'_, S>,
    of: TypeId,
    kind: &Kind,
    levels: u64,
    out: &mut Vec<u8>,
) -> Result<(), AllocError>
    ensures { Adds result out.old.items out.new.items
        (parts_text (pointer_text (S.table types.now.shapes.now) types.now.ids.now of)
        (key_text (S.table types.now.shapes.now))
        (type_text levels (S.table types.now.shapes.now) types.now.ids.now of) kind.now) }
{
    match kind {
        Kind::Array { elem, len } => {
            push_text(b"[", out)?;
            push_number(*len, out)?;
            push_text(b"]", out)?;
            push_pointer(types, of, *elem, out)?;
            push_type(types, of, *elem, levels, out)
        }
        Kind::Slice { elem } => {
            push_text(b"[]", out)?;
            push_type(types, of, *elem, levels, out)
        }
        Kind::Map { key, elem } => {
            push_text(b"map[", out)?;
            push_key(types.shapes, *key, out)?;
            push_type(types, of, *key, levels, out)?;
            push_text(b"]", out)?;
            push_type(types, of, *elem, levels, out)
        }
        _ => push_text(b"struct{}", out),
    }
}

/// Appends the star of a type that stands behind a pointer in the definition of another.
pub(crate) fn push_pointer<S: Shapes>(
    types: &Declared<'_, S>,
    of: TypeId,
    id: TypeId,
    out: &mut Vec<u8>,
) -> Result<(), AllocError>
    ensures { Adds result out.old.items out.new.items
        (pointer_text (S.table types.now.shapes.now) types.now.ids.now of id) }
{
    if types.comes_by(of, id) && is_holder(types.shapes, id) {
        return push_text(b"*", out);
    }
    Ok(())
}

// Appends the star of a type that can't be that of the keys of a map.
fn push_key<S: Shapes>(shapes: &S, id: TypeId, out: &mut Vec<u8>) -> Result<(), AllocError>
    ensures { Adds result out.old.items out.new.items (key_text (S.table shapes.now) id) }
{
    if is_key(shapes, id) {
        return Ok(());
    }
    push_text(b"*", out)
}

// Whether Go can compare the values of a type, as far as is seen one level down.
fn is_key<S: Shapes>(shapes: &S, id: TypeId) -> bool
    ensures { result ≡ is_key (S.table shapes.now) id }
{
    if id.0 <= 8 {
        return id.0 != 5;
    }
    match shapes.shape_of(id) {
        Some(shape) => is_key_kind(shape.name.as_bytes(), &shape.kind),
        None => true,
    }
}

fn is_key_kind(name: &[u8], kind: &Kind) -> bool
    ensures { result ≡ is_key_kind name.now kind.now }
{
    match kind {
        Kind::Array { elem, .. } => is_basic_key(*elem),
        Kind::Struct { fields } => are_basic_keys(fields.as_slice()),
        Kind::Opaque(marshal) => !is_of_package(Package::Big, package_of(name, *marshal)),
        _ => false,
    }
}

fn are_basic_keys(fields: &[Field]) -> bool
    ensures { result ≡ are_basic_keys fields.now }
{
    fields.iter().all(|field| is_basic_key(field.id))
}

// Whether this is a basic type whose values Go can compare.
fn is_basic_key(id: TypeId) -> bool
    ensures { result ≡ is_basic_key id }
{
    id.0 <= 8 && id.0 != 5
}

// Whether the type is a list or a map without a name of its own.
fn has_parts(shape: &Shape) -> bool
    ensures { result ≡ has_parts shape.now }
{
    match shape.kind {
        Kind::Array { .. } | Kind::Slice { .. } | Kind::Map { .. } => {
            !is_identifier(shape.name.as_bytes())
        }
        _ => false,
    }
}

// Whether the type is a struct, or an array with a name: it may hold itself.
fn is_holder<S: Shapes>(shapes: &S, id: TypeId) -> bool
    ensures { result ≡ is_holder (shape_of (S.table shapes.now) id) }
{
    let Some(shape) = shapes.shape_of(id) else {
        return false;
    };
    match shape.kind {
        Kind::Struct { .. } => true,
        Kind::Array { .. } => is_identifier(shape.name.as_bytes()),
        _ => false,
    }
}
