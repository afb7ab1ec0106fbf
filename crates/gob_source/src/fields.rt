//! The fields of a struct.

ghost use Rattle.std.specs.Prelude.{◌≡◌, ◌++◌, ◌∷◌, [], IfOk, List};
ghost use Rattle.gob_types.specs.declared.kind.Field.{Field};
ghost use Rattle.gob_source.specs.Adds.{Adds};
ghost use Rattle.gob_source.specs.Machine.{AddsField, KnowsNames};
ghost use Rattle.gob_source.specs.Source.{comment_line, comment_text, comments_text, declared_width, declared_text};
ghost use Rattle.gob_source.specs.Source.{field_line, field_text, fields_text, type_of_text, width};

use crate::declared::Declared;
use crate::field_names::FieldNames;
use crate::names::name_width;
use crate::text::{push_escaped, push_spaces, push_text};
use crate::types::{push_pointer, push_type};
use gob_types::{Field, Shapes, TypeId};
use std::alloc::{AllocError, Global};

/// Appends the fields, a line each: those that Go lets a struct have, in order, and then the others in comments.
pub(crate) fn push_fields<S: Shapes>(
    types: &Declared<'_, S>,
    of: TypeId,
    fields: &[Field],
    out: &mut Vec<u8>,
) -> Result<(), AllocError>
    ensures { Adds result out.old.items out.new.items
        (fields_text (S.table types.now.shapes.now) types.now.ids.now of fields.now) }
{
    push_declared(types, of, fields, out)?;
    push_comments(types, of, fields, out)
}

// Appends those that are declared.
fn push_declared<S: Shapes>(
    types: &Declared<'_, S>,
    of: TypeId,
    fields: &[Field],
    out: &mut Vec<u8>,
) -> Result<(), AllocError>
    ensures { Adds result out.old.items out.new.items
        (declared_text (S.table types.now.shapes.now) types.now.ids.now of (width [] fields.now) [] fields.now) }
{
    let width = width_of(types.alloc, fields)?;
    let mut seen = FieldNames::new(types.alloc);
    for field in fields {
        push_field(types, of, width, &mut seen, field, out)?;
    }
    Ok(())
}

// Appends the others.
fn push_comments<S: Shapes>(
    types: &Declared<'_, S>,
    of: TypeId,
    fields: &[Field],
    out: &mut Vec<u8>,
) -> Result<(), AllocError>
    ensures { Adds result out.old.items out.new.items
        (comments_text (S.table types.now.shapes.now) types.now.ids.now of [] fields.now) }
{
    let mut seen = FieldNames::new(types.alloc);
    for field in fields {
        push_comment(types, of, &mut seen, field, out)?;
    }
    Ok(())
}

// The columns of the longest name of those that are declared.
fn width_of(alloc: Global, fields: &[Field]) -> Result<usize, AllocError>
    ensures { IfOk result (λ most. most ≡ width [] fields.now) }
{
    let mut seen = FieldNames::new(alloc);
    let mut width = 0;
    for field in fields {
        width = width.max(declared_width(&mut seen, field)?);
    }
    Ok(width)
}

// The columns of the name of a field behind those that were seen, where it is declared.
fn declared_width<'a>(seen: &mut FieldNames<'a>, field: &'a Field) -> Result<usize, AllocError>
    ensures { IfOk result (λ count. (before : List Field) → KnowsNames seen.old before
        → (count ≡ declared_width before field.now) × KnowsNames seen.new (before ++ field.now ∷ [])) }
{
    if !seen.declares(field)? {
        return Ok(0);
    }
    Ok(name_width(field.name.as_bytes()))
}

// Appends the line of a field behind those that were seen, where it is declared.
fn push_field<'a, S: Shapes>(
    types: &Declared<'_, S>,
    of: TypeId,
    width: usize,
    seen: &mut FieldNames<'a>,
    field: &'a Field,
    out: &mut Vec<u8>,
) -> Result<(), AllocError>
    ensures { AddsField result out.old.items out.new.items seen.old seen.new field.now
        (λ before. field_text (S.table types.now.shapes.now) types.now.ids.now of width before field.now) }
{
    if seen.declares(field)? {
        return push_field_line(types, of, width, field, out);
    }
    Ok(())
}

// Appends the line of a field. Its type stands behind the longest name.
fn push_field_line<S: Shapes>(
    types: &Declared<'_, S>,
    of: TypeId,
    width: usize,
    field: &Field,
    out: &mut Vec<u8>,
) -> Result<(), AllocError>
    ensures { Adds result out.old.items out.new.items
        (field_line (S.table types.now.shapes.now) types.now.ids.now of width field.now) }
{
    let name = field.name.as_bytes();
    push_text(b"\t", out)?;
    push_text(name, out)?;
    push_spaces(width.saturating_sub(name_width(name)), out)?;
    push_type_of(types, of, field.id, out)
}

// Appends a field behind those that were seen in a comment, where it isn't declared.
fn push_comment<'a, S: Shapes>(
    types: &Declared<'_, S>,
    of: TypeId,
    seen: &mut FieldNames<'a>,
    field: &'a Field,
    out: &mut Vec<u8>,
) -> Result<(), AllocError>
    ensures { AddsField result out.old.items out.new.items seen.old seen.new field.now
        (λ before. comment_text (S.table types.now.shapes.now) types.now.ids.now of before field.now) }
{
    if seen.declares(field)? {
        return Ok(());
    }
    push_comment_line(types, of, field, out)
}

// Appends a field in a comment.
fn push_comment_line<S: Shapes>(
    types: &Declared<'_, S>,
    of: TypeId,
    field: &Field,
    out: &mut Vec<u8>,
) -> Result<(), AllocError>
    ensures { Adds result out.old.items out.new.items
        (comment_line (S.table types.now.shapes.now) types.now.ids.now of field.now) }
{
    push_text(b"\t// ", out)?;
    push_escaped(field.name.as_bytes(), out)?;
    push_type_of(types, of, field.id, out)
}

// Appends the type of a field, and the end of the line.
fn push_type_of<S: Shapes>(
    types: &Declared<'_, S>,
    of: TypeId,
    id: TypeId,
    out: &mut Vec<u8>,
) -> Result<(), AllocError>
    ensures { Adds result out.old.items out.new.items
        (type_of_text (S.table types.now.shapes.now) types.now.ids.now of id) }
{
    push_text(b" ", out)?;
    push_pointer(types, of, id, out)?;
    push_type(types, of, id, 3, out)?;
    push_text(b"\n", out)
}
