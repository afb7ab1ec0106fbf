//! Fields of structs whose types are named by other ids.

ghost use Rattle.std.specs.Prelude.{IfOk, IsTrue};
ghost use Rattle.gob_join.specs.Renaming.{AreRenamedFields, IsRenamedField, among};

use crate::fault::TakeFault;
use crate::renaming::{NewIds, Renaming, stands_for};
use crate::value::new_id;
use gob_types::{Field, Fields, Name};
use std::alloc::Global;

/// Whether the others are these fields, one by one, with the types that stand for theirs.
pub(crate) fn are_renamed<N: NewIds>(fields: &[Field], others: &[Field], ids: &N) -> bool
    ensures { IsTrue result → AreRenamedFields (N.ids ids.now) fields.now others.now }
{
    if fields.len() != others.len() {
        return false;
    }
    for place in 0..fields.len() {
        if !is_renamed_field(&fields[place], &others[place], ids) {
            return false;
        }
    }
    true
}

// Whether the other is the field.
fn is_renamed_field<N: NewIds>(field: &Field, other: &Field, ids: &N) -> bool
    ensures { IsTrue result → IsRenamedField (N.ids ids.now) field.now other.now }
{
    field.name.as_bytes() == other.name.as_bytes() && stands_for(ids, field.id, other.id)
}

/// The fields, with the types that stand for theirs. Refused where none stands for one.
pub(crate) fn renamed_fields(
    alloc: Global,
    fields: &[Field],
    ids: &Renaming,
) -> Result<Fields, TakeFault>
    ensures { IfOk result (λ new. AreRenamedFields (among ids.now) fields.now new) }
{
    let mut renamed = Vec::new(alloc);
    for field in fields {
        renamed.push(renamed_field(alloc, field, ids)?)?;
    }
    Ok(Fields::new(renamed))
}

// One of them.
fn renamed_field(alloc: Global, field: &Field, ids: &Renaming) -> Result<Field, TakeFault>
    ensures { IfOk result (λ new. IsRenamedField (among ids.now) field.now new) }
{
    let id = new_id(ids, field.id)?;
    let name = Name::new(field.name.as_bytes().to_vec(alloc)?);
    Ok(Field { name, id })
}
