//! The fields of a struct, as the members of an object say them.

ghost use Rattle.std.specs.Prelude.{◌↔◌, IfOk, IsTrue};
ghost use Rattle.gob_value.specs.View.{view, field_views};
ghost use Rattle.gob_make.specs.Plain.{Puts};
ghost use Rattle.gob_make.specs.Zero.{AreKept, IsLeftOut};

use gob_num::Memory;
use gob_types::{Field, Shapes};
use gob_value::{Value, is_dropped};
use std::alloc::Global;
use std::collections::BTreeMap;

/// Puts a field among those of a struct, by its number. False: it was there already.
pub(crate) fn put_field(
    fields: &mut BTreeMap<u64, Value>,
    number: u64,
    value: Value,
) -> Result<bool, Memory>
    ensures { IfOk result (λ put. IsTrue put
        → Puts number (view value) 0 (field_views fields.old.entries) (field_views fields.new.entries)) }
{
    match fields.insert(number, value)? {
        Some(old) => {
            drop(old);
            Ok(false)
        }
        None => Ok(true),
    }
}

/// The fields but those that a struct leaves out.
pub(crate) fn without_zeros<S: Shapes>(
    alloc: Global,
    table: &S,
    types: &[Field],
    fields: BTreeMap<u64, Value>,
) -> Result<Vec<(u64, Value)>, Memory>
    ensures { IfOk result (λ kept.
        AreKept (S.table table.now) types.now (field_views fields.entries) (field_views kept.items)) }
{
    let mut kept = Vec::new(alloc);
    'fields: for (number, value) in fields {
        if is_left_out(table, types, number, &value) {
            drop(value);
        } else {
            kept.push((number, value))?;
        }
    }
    Ok(kept)
}

// Whether a struct leaves the value of this field out.
fn is_left_out<S: Shapes>(table: &S, types: &[Field], number: u64, value: &Value) -> bool
    ensures { IsTrue result ↔ IsLeftOut (S.table table.now) types.now number (view value.now) }
{
    let Some(field) = types.get(number as usize) else {
        return false;
    };
    match table.shape_of(field.id) {
        Some(shape) => is_dropped(&shape.kind, value),
        None => false,
    }
}
