//! The names under which types are registered, in comments and in calls.

ghost use Rattle.std.specs.Prelude.{◌≡◌, []};
ghost use Rattle.gob_types.specs.Table.{shape_of};
ghost use Rattle.gob_source.specs.Adds.{Adds};
ghost use Rattle.gob_source.specs.Machine.{AddsNaming};
ghost use Rattle.gob_source.specs.Program.{begins_with_star, chosen_text, inner_end, inner_text, is_pointer, is_text};
ghost use Rattle.gob_source.specs.Program.{is_text_kind, new_text, place_text, plain_text, quoted, quoted_byte};
ghost use Rattle.gob_source.specs.Program.{quoted_bytes, registration_text, registrations_text, value_text};
ghost use Rattle.gob_source.specs.Registered.{is_element_name, is_go_name, naming, namings};
ghost use Rattle.gob_source.specs.Source.{basic_naming, basic_namings};

use crate::declared::Declared;
use crate::field_names::FieldNames;
use crate::library::package_of;
use crate::names::is_word;
use crate::registered::Registered;
use crate::text::{push_byte, push_escaped, push_text};
use crate::types::{basic_name, push_type};
use gob_types::{Kind, Shape, Shapes, TypeId};
use indexmap::IndexSet;
use std::alloc::AllocError;

// The types that Go itself registers, as it does slices of them.
const GO_NAMES: [&[u8]; 17] = [
    b"bool",
    b"int",
    b"int8",
    b"int16",
    b"int32",
    b"int64",
    b"uint",
    b"uint8",
    b"uint16",
    b"uint32",
    b"uint64",
    b"uintptr",
    b"float32",
    b"float64",
    b"complex64",
    b"complex128",
    b"string",
];

/// Appends the names of basic types, which no definition declares, in comments.
pub(crate) fn push_basic_namings(
    registered: &[Registered],
    out: &mut Vec<u8>,
) -> Result<(), AllocError>
    ensures { Adds result out.old.items out.new.items (basic_namings (namings registered.now)) }
{
    for one in registered {
        push_basic_naming(one, out)?;
    }
    Ok(())
}

// Appends a name, where it is that of a basic type and not Go's own.
fn push_basic_naming(registered: &Registered, out: &mut Vec<u8>) -> Result<(), AllocError>
    ensures { Adds result out.old.items out.new.items (basic_naming (naming registered.now)) }
{
    let Some(basic) = basic_name(registered.id) else {
        return Ok(());
    };
    if is_go_name(&registered.name) {
        return Ok(());
    }
    push_text(b"\n// ", out)?;
    push_text(basic, out)?;
    push_text(b" is registered as ", out)?;
    push_escaped(&registered.name, out)?;
    push_text(b"\n", out)
}

// Whether Go itself has registered a type under the name.
fn is_go_name(name: &[u8]) -> bool
    ensures { result ≡ is_go_name name.now }
{
    match name {
        [91, 93, rest @ ..] if is_element_name(rest) => true,
        _ => is_element_name(name),
    }
}

fn is_element_name(name: &[u8]) -> bool
    ensures { result ≡ is_element_name name.now }
{
    is_word(name, &GO_NAMES)
}

/// Appends the calls that register the names, each name once.
pub(crate) fn push_registrations<S: Shapes>(
    types: &Declared<'_, S>,
    registered: &[Registered],
    out: &mut Vec<u8>,
) -> Result<(), AllocError>
    ensures { Adds result out.old.items out.new.items
        (registrations_text (S.table types.now.shapes.now) types.now.ids.now [] (namings registered.now)) }
{
    let mut names = FieldNames::new(types.alloc);
    let mut ids = IndexSet::new(types.alloc);
    for one in registered {
        push_registration(types, &mut names, &mut ids, one, out)?;
    }
    Ok(())
}

// Appends the call that registers a name behind those that were seen, unless it is one of them or Go's own.
fn push_registration<'a, S: Shapes>(
    types: &Declared<'_, S>,
    names: &mut FieldNames<'a>,
    ids: &mut IndexSet<TypeId>,
    registered: &'a Registered,
    out: &mut Vec<u8>,
) -> Result<(), AllocError>
    ensures { AddsNaming result out.old.items out.new.items names.old names.new ids.old.keys ids.new.keys
        (naming registered.now)
        (λ seen. registration_text (S.table types.now.shapes.now) types.now.ids.now seen (naming registered.now)) }
{
    let new_name = names.add(registered.name.as_slice())?;
    let (_, new_type) = ids.insert_full(registered.id)?;
    push_chosen(types, registered, new_name, new_type, out)
}

// Appends the call for a name that is new or not, of a type that is new or not.
fn push_chosen<S: Shapes>(
    types: &Declared<'_, S>,
    registered: &Registered,
    new_name: bool,
    new_type: bool,
    out: &mut Vec<u8>,
) -> Result<(), AllocError>
    ensures { Adds result out.old.items out.new.items
        (chosen_text (S.table types.now.shapes.now) types.now.ids.now new_name new_type (naming registered.now)) }
{
    if is_go_name(&registered.name) || !new_name {
        return Ok(());
    }
    if registered.id.0 <= 8 || !new_type {
        return push_inner(types, registered, out);
    }
    push_plain(types, registered, out)
}

// Appends a call that registers a value of the type.
fn push_plain<S: Shapes>(
    types: &Declared<'_, S>,
    registered: &Registered,
    out: &mut Vec<u8>,
) -> Result<(), AllocError>
    ensures { Adds result out.old.items out.new.items
        (plain_text (S.table types.now.shapes.now) types.now.ids.now (naming registered.now)) }
{
    push_text(b"\tgob.RegisterName(", out)?;
    push_quoted(&registered.name, out)?;
    push_text(b", ", out)?;
    push_value(types, registered, out)?;
    push_text(b")\n", out)
}

// Appends one that registers a value of a new type: Go lets a type have one name, and the basic types have theirs.
fn push_inner<S: Shapes>(
    types: &Declared<'_, S>,
    registered: &Registered,
    out: &mut Vec<u8>,
) -> Result<(), AllocError>
    ensures { Adds result out.old.items out.new.items
        (inner_text (S.table types.now.shapes.now) types.now.ids.now (naming registered.now)) }
{
    push_text(b"\t{\n\t\ttype value ", out)?;
    push_type(types, registered.id, registered.id, 0, out)?;
    push_text(b"\n\t\tgob.RegisterName(", out)?;
    push_quoted(&registered.name, out)?;
    push_text(inner_end(registered), out)
}

// The end of such a call.
fn inner_end(registered: &Registered) -> &'static [u8]
    ensures { result.now ≡ inner_end (is_pointer (naming registered.now)) }
{
    if is_pointer(registered) {
        b", new(value))\n\t}\n"
    } else {
        b", *new(value))\n\t}\n"
    }
}

// Whether the name is that of a pointer, or an interface's, which only a pointer can fill.
fn is_pointer(registered: &Registered) -> bool
    ensures { result ≡ is_pointer (naming registered.now) }
{
    registered.id.0 == 8 || begins_with_star(&registered.name)
}

fn begins_with_star(name: &[u8]) -> bool
    ensures { result ≡ begins_with_star name.now }
{
    match name {
        [first, ..] => *first == 42,
        [] => false,
    }
}

// Appends a value of the type, or a pointer to one.
fn push_value<S: Shapes>(
    types: &Declared<'_, S>,
    registered: &Registered,
    out: &mut Vec<u8>,
) -> Result<(), AllocError>
    ensures { Adds result out.old.items out.new.items
        (value_text (S.table types.now.shapes.now) types.now.ids.now (naming registered.now)) }
{
    if is_pointer(registered) {
        return push_new(types, registered.id, out);
    }
    if is_text(types.shapes, registered.id) {
        push_text(b"*", out)?;
        return push_new(types, registered.id, out);
    }
    push_type(types, registered.id, registered.id, 0, out)?;
    push_text(b"{}", out)
}

/// Appends a place for a value of the type.
pub(crate) fn push_new<S: Shapes>(
    types: &Declared<'_, S>,
    id: TypeId,
    out: &mut Vec<u8>,
) -> Result<(), AllocError>
    ensures { Adds result out.old.items out.new.items
        (new_text (place_text (S.table types.now.shapes.now) types.now.ids.now id)) }
{
    push_text(b"new(", out)?;
    push_type(types, id, id, 0, out)?;
    push_text(b")", out)
}

// Whether the type is declared as a string.
fn is_text<S: Shapes>(shapes: &S, id: TypeId) -> bool
    ensures { result ≡ is_text (shape_of (S.table shapes.now) id) }
{
    match shapes.shape_of(id) {
        Some(shape) => is_text_shape(shape),
        None => false,
    }
}

fn is_text_shape(shape: &Shape) -> bool
    ensures { result ≡ is_text_kind shape.now.name shape.now.kind }
{
    match shape.kind {
        Kind::Opaque(marshal) => package_of(shape.name.as_bytes(), marshal).is_none(),
        _ => false,
    }
}

// Appends a name as a string of Go.
fn push_quoted(name: &[u8], out: &mut Vec<u8>) -> Result<(), AllocError>
    ensures { Adds result out.old.items out.new.items (quoted name.now) }
{
    push_text(b"\"", out)?;
    push_quoted_bytes(name, out)?;
    push_text(b"\"", out)
}

fn push_quoted_bytes(name: &[u8], out: &mut Vec<u8>) -> Result<(), AllocError>
    ensures { Adds result out.old.items out.new.items (quoted_bytes name.now) }
{
    for byte in name {
        push_quoted_byte(*byte, out)?;
    }
    Ok(())
}

// Appends a byte: as it is where it is printed in one column and no quote, else by its two digits.
fn push_quoted_byte(byte: u8, out: &mut Vec<u8>) -> Result<(), AllocError>
    ensures { Adds result out.old.items out.new.items (quoted_byte byte) }
{
    if byte == 34 {
        push_text(b"\\x22", out)
    } else {
        push_byte(byte, out)
    }
}
