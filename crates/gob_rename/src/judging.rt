//! Whether a word for a field fits the wanted types.

ghost use Rattle.std.specs.Prelude.{◌≡◌, ◌↔◌, IsTrue, MatchResult, Some};
ghost use Rattle.gob_types.specs.Defined.{types};
ghost use Rattle.gob_types.specs.Table.{shape_of};
ghost use Rattle.gob_types.specs.declared.kind.Shape.{Shape};
ghost use Rattle.gob_rename.specs.Fitting.{Defines, Fits, HasTold, HasNamed, IsMisfit, TakesName, TellsOf};
ghost use Rattle.gob_rename.specs.Renaming.{ids_defined};

use crate::fault::Misfit;
use crate::rename::Rename;
use gob_types::{Field, Shape, Shapes, Table, TypeId};

/// Whether it fits the types that the table defines, whose ids these are.
pub(crate) fn judge(rename: &Rename<'_>, table: &Table, ids: &[TypeId]) -> Result<(), Misfit>
    requires { ids.now ≡ ids_defined (types table.now) }
    ensures { MatchResult result (λ _. Fits rename.now (types table.now)) (IsMisfit rename.now (types table.now)) }
{
    if is_taken(rename, table, ids) {
        return Err(Misfit::OldNameTaken);
    }
    if is_found(rename, table, ids) {
        return Ok(());
    }
    Err(Misfit::NoField)
}

/// Whether it tells of a field of one of the types that the table defines.
fn is_found(rename: &Rename<'_>, table: &Table, ids: &[TypeId]) -> bool
    requires { ids.now ≡ ids_defined (types table.now) }
    ensures { IsTrue result ↔ Defines (λ s. TellsOf rename.now s) (types table.now) }
{
    let _known = table.count();
    for id in ids {
        if tells_at(rename, table, *id) {
            return true;
        }
    }
    false
}

/// Whether one of the types that the table defines has a field of which it tells, and one of the old name too.
fn is_taken(rename: &Rename<'_>, table: &Table, ids: &[TypeId]) -> bool
    requires { ids.now ≡ ids_defined (types table.now) }
    ensures { IsTrue result ↔ Defines (λ s. TakesName rename.now s) (types table.now) }
{
    let _known = table.count();
    for id in ids {
        if takes_at(rename, table, *id) {
            return true;
        }
    }
    false
}

/// Whether it tells of a field of this type.
fn tells_at(rename: &Rename<'_>, table: &Table, id: TypeId) -> bool
    ensures { (s : Shape) → shape_of (types table.now) id ≡ Some s → IsTrue result ↔ TellsOf rename.now s }
{
    match table.shape_of(id) {
        None => false,
        Some(shape) => rename.tells_of(shape),
    }
}

/// Whether it does, and the type has a field of the old name too.
fn takes_at(rename: &Rename<'_>, table: &Table, id: TypeId) -> bool
    ensures { (s : Shape) → shape_of (types table.now) id ≡ Some s → IsTrue result ↔ TakesName rename.now s }
{
    match table.shape_of(id) {
        None => false,
        Some(shape) => rename.takes_name(shape),
    }
}

impl Rename<'_> {
    /// Whether it tells of a field of this shape.
    fn tells_of(&self, shape: &Shape) -> bool
        ensures { IsTrue result ↔ TellsOf self.now shape.now }
    {
        match shape.kind.fields() {
            None => false,
            Some(fields) => has_told(self, shape.name.as_bytes(), fields.as_slice()),
        }
    }

    /// Whether it does, and the shape has a field of the old name too.
    fn takes_name(&self, shape: &Shape) -> bool
        ensures { IsTrue result ↔ TakesName self.now shape.now }
    {
        match shape.kind.fields() {
            None => false,
            Some(fields) => {
                has_told(self, shape.name.as_bytes(), fields.as_slice())
                    && has_named(self.old, fields.as_slice())
            }
        }
    }
}

/// Whether it tells of one of the fields of structs of this name.
fn has_told(rename: &Rename<'_>, struct_name: &[u8], fields: &[Field]) -> bool
    ensures { IsTrue result ↔ HasTold rename.now struct_name.now fields.now }
{
    for field in fields {
        if rename.tells(struct_name, field.name.as_bytes()) {
            return true;
        }
    }
    false
}

/// Whether one of the fields has this name.
fn has_named(name: &[u8], fields: &[Field]) -> bool
    ensures { IsTrue result ↔ HasNamed name.now fields.now }
{
    for field in fields {
        if field.name.as_bytes() == name {
            return true;
        }
    }
    false
}
