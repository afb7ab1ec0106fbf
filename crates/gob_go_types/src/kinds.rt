//! The kinds of types, part by part: the functions call one another down a type that has no name.

ghost use Rattle.std.specs.Prelude.{◌≡◌, ◌≤◌, [], IfOk, IsTrue, OnOk, false};
ghost use Rattle.gob_types.specs.Definable.{greatest_length};
ghost use Rattle.gob_types.specs.declared.kind.Kind.TheVariants as kind;
ghost use Rattle.gob_go_types.specs.declared.sight.Sight.TheVariants as sight;
ghost use Rattle.gob_go_types.specs.Types.{lacks_fields};
ghost use Rattle.gob_go_types.specs.Machine.{AddsLine, Goes, HasFieldsIn, HasIdIn, HasKindIn, IsLed, IsOfIn, Sound};

use crate::code::Code;
use crate::define::{defined_id, own_id};
use crate::fault::TypesFault;
use crate::fields::{are_none, exported_names, push_fields};
use crate::numbers::Numbers;
use crate::sight::Sight;
use gob_go_source::{GoField, GoType};
use gob_types::{Field, Fields, Kind, TypeId};

// The greatest length of an array that a definition can give.
const GREATEST_LENGTH: u64 = 9223372036854775807;

/// The id of what is seen. No part of it that has no name is deeper than `depth`.
#[cycle(kinds)]
pub(crate) fn id_of<'a>(
    code: &Code<'_, 'a>,
    depth: u64,
    sight: Sight<'a>,
    numbers: &mut Numbers<'a>,
) -> Result<TypeId, TypesFault<'a>>
    requires sound { Sound code.now.source.now numbers.old }
    requires led { IsLed code.now.source.now sight }
    ensures sound { OnOk result (Sound code.now.source.now numbers.new) }
    ensures goes { OnOk result (Goes numbers.old numbers.new) }
    ensures says { IfOk result (λ t. IsOfIn code.now.source.now numbers.new sight.entry t) }
{
    match sight {
        Sight::Basic(id) => Ok(id),
        Sight::Opaque(name, marshal) => defined_id(code, name, Kind::Opaque(marshal), numbers),
        Sight::Own(place, parts) => own_id(code, place, parts, numbers),
        Sight::Parts(place) => id_of_parts(code, depth, place, numbers),
        Sight::Unsent => Err(TypesFault::Unsent),
    }
}

// The id of the type at a place, which has parts and no name.
#[cycle(kinds)]
fn id_of_parts<'a>(
    code: &Code<'_, 'a>,
    depth: u64,
    place: usize,
    numbers: &mut Numbers<'a>,
) -> Result<TypeId, TypesFault<'a>>
    requires { Sound code.now.source.now numbers.old }
    ensures sound { OnOk result (Sound code.now.source.now numbers.new) }
    ensures goes { OnOk result (Goes numbers.old numbers.new) }
    ensures says { IfOk result (λ t. IsOfIn code.now.source.now numbers.new (sight.Parts place) t) }
{
    if depth == 0 {
        return Err(TypesFault::Deep);
    }
    let kind = kind_at(code, depth - 1, place, numbers)?;
    defined_id(code, b"", kind, numbers)
}

// The id of the type at a place.
#[cycle(kinds)]
fn id_at<'a>(
    code: &Code<'_, 'a>,
    depth: u64,
    place: usize,
    numbers: &mut Numbers<'a>,
) -> Result<TypeId, TypesFault<'a>>
    requires { Sound code.now.source.now numbers.old }
    ensures sound { OnOk result (Sound code.now.source.now numbers.new) }
    ensures goes { OnOk result (Goes numbers.old numbers.new) }
    ensures says { IfOk result (λ t. HasIdIn code.now.source.now numbers.new place t) }
{
    let sight = code.look(place)?;
    id_of(code, depth, sight, numbers)
}

/// The kind of the type at a place, which has parts.
#[cycle(kinds)]
pub(crate) fn kind_at<'a>(
    code: &Code<'_, 'a>,
    depth: u64,
    place: usize,
    numbers: &mut Numbers<'a>,
) -> Result<Kind, TypesFault<'a>>
    requires { Sound code.now.source.now numbers.old }
    ensures sound { OnOk result (Sound code.now.source.now numbers.new) }
    ensures goes { OnOk result (Goes numbers.old numbers.new) }
    ensures says { IfOk result (λ kind. HasKindIn code.now.source.now numbers.new place kind) }
{
    let found = code.type_at(place)?;
    match found {
        GoType::Slice(of) => {
            let elem = id_at(code, depth, *of, numbers)?;
            Ok(Kind::Slice { elem })
        }
        GoType::Array(len, of) => {
            check_length(*len)?;
            let member = id_at(code, depth, *of, numbers)?;
            Ok(Kind::Array {
                elem: member,
                len: *len,
            })
        }
        GoType::Map(of, to) => {
            let key = id_at(code, depth, *of, numbers)?;
            let value = id_at(code, depth, *to, numbers)?;
            Ok(Kind::Map { key, elem: value })
        }
        GoType::Struct(lines) => {
            let rows = lines.as_slice();
            let mut fields = Vec::new(code.alloc);
            push_lines(code, depth, rows, &mut fields, numbers)?;
            struct_of(rows, fields)
        }
        _ => Err(TypesFault::Broken),
    }
}

// Appends the fields of these lines that gob sends.
#[cycle(kinds)]
fn push_lines<'a>(
    code: &Code<'_, 'a>,
    depth: u64,
    lines: &[GoField<'a>],
    fields: &mut Vec<Field>,
    numbers: &mut Numbers<'a>,
) -> Result<(), TypesFault<'a>>
    requires sound { Sound code.now.source.now numbers.old }
    requires empty { fields.old.items ≡ [] }
    ensures sound { OnOk result (Sound code.now.source.now numbers.new) }
    ensures goes { OnOk result (Goes numbers.old numbers.new) }
    ensures says { OnOk result (HasFieldsIn code.now.source.now numbers.new lines.now fields.new.items) }
{
    for line in lines {
        push_line(code, depth, line, fields, numbers)?;
    }
    Ok(())
}

// Appends the fields of a line that gob sends.
#[cycle(kinds)]
fn push_line<'a>(
    code: &Code<'_, 'a>,
    depth: u64,
    line: &GoField<'a>,
    fields: &mut Vec<Field>,
    numbers: &mut Numbers<'a>,
) -> Result<(), TypesFault<'a>>
    requires { Sound code.now.source.now numbers.old }
    ensures sound { OnOk result (Sound code.now.source.now numbers.new) }
    ensures goes { OnOk result (Goes numbers.old numbers.new) }
    ensures says { OnOk result
        (AddsLine code.now.source.now numbers.new line.now fields.old.items fields.new.items) }
{
    let names = exported_names(code, line)?;
    let none = are_none(names.as_slice());
    if none {
        return Ok(());
    }
    let sight = code.look(line.of)?;
    let unsent = is_unsent(sight);
    if unsent {
        return Ok(());
    }
    let id = id_of(code, depth, sight, numbers)?;
    push_fields(code.alloc, names.as_slice(), id, fields)?;
    Ok(())
}

// Whether nothing is sent of what is seen.
fn is_unsent(seen: Sight<'_>) -> bool
    ensures { IsTrue result → seen.entry ≡ sight.Unsent }
{
    matches!(seen, Sight::Unsent)
}

// Refuses a length that a definition can't say.
fn check_length<'a>(len: u64) -> Result<(), TypesFault<'a>>
    ensures { OnOk result (len ≤ greatest_length) }
{
    if len > GREATEST_LENGTH {
        return Err(TypesFault::Long(len));
    }
    Ok(())
}

// The kind of a struct of these lines and fields. Go's encoder refuses one that has lines and no fields.
fn struct_of<'a>(lines: &[GoField<'a>], fields: Vec<Field>) -> Result<Kind, TypesFault<'a>>
    ensures says { IfOk result (λ k. k ≡ kind.Struct fields.items) }
    ensures any { OnOk result (lacks_fields lines.now fields.items ≡ false) }
{
    let lacks = lacks_fields(lines, fields.as_slice());
    if lacks {
        return Err(TypesFault::NoFields);
    }
    Ok(Kind::Struct {
        fields: Fields::new(fields),
    })
}

// Whether there are lines, and nothing is sent of them.
fn lacks_fields(lines: &[GoField<'_>], fields: &[Field]) -> bool
    ensures { result ≡ lacks_fields lines.now fields.now }
{
    matches!((lines, fields), ([_, ..], []))
}
