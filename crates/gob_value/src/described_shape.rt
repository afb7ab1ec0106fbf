//! The shape that a description gives.

ghost use Rattle.std.specs.Prelude.{◌≡◌, ◌↔◌, ◌<◌, ◌≤◌, pos, IsTrue, IfOk, IfErr};
ghost use Rattle.std.specs.Prelude.{MatchOption, MatchResult};
ghost use Rattle.gob_types.specs.Base.{base_table, wire_type};
ghost use Rattle.gob_types.specs.Definable.{IsDefinable};
ghost use Rattle.gob_value.specs.View.{view, views, field_views};
ghost use Rattle.gob_value.specs.Fits.{Fits};
ghost use Rattle.gob_value.specs.Description.{said, said_fields, said_struct, Describes};
ghost use Rattle.gob_value.specs.Description.{present_field, number_in, name_in};
ghost use Rattle.gob_value.specs.Description.{RefersTo, IsBadReference, GivesFields, GivesKind};
ghost use Rattle.gob_value.specs.Machine.Saying.{kind_said, what_said, wire_number, IsTypeNumber, HaveTypes};
ghost use Rattle.gob_value.specs.ShapeFaults.{IsShapeFault, IsKindFault};
ghost use Rattle.gob_value.specs.Loose.{DescribesLoosely, IsLooseFault};
ghost use Rattle.gob_value.specs.Machine.SaidId.{IsOpaqueField, IsReadUnder};

use crate::description_fields::{fields_within, list_of, number_of, struct_of, text_of};
use crate::fault::ShapeFault;
use crate::value::Value;
use gob_num::Memory;
use gob_types::{Field, Fields, Kind, Marshal, Name, Shape, TypeId};
use std::alloc::Global;

// The field of wireType that is present. It tells the kind.
#[derive(Clone, Copy)]
enum WireField {
    ArrayT,
    SliceT,
    StructT,
    MapT,
    GobEncoderT,
    BinaryMarshalerT,
    TextMarshalerT,
}

/// The shape that a value of type 16 gives, as the definition of the type of this id. `KindCount`, `WrongId`,
/// `BadReference` and `BadLength` tell the first of the four demands that it doesn't meet; `Memory` comes
/// only where it meets them all. (Go's encoding/gob documentation, Encoding Details, on wireType.)
pub fn shape_from(alloc: Global, id: TypeId, described: &Value) -> Result<Shape, ShapeFault>
    requires { Fits base_table wire_type (view described.now) }
    ensures shape { IfOk result (λ shape. Describes id (view described.now) shape) }
    ensures definable { IfOk result IsDefinable }
    ensures fault { IfErr result (λ fault. IsShapeFault id (view described.now) fault) }
{
    let Some((wire, fields)) = wire_field(described) else {
        return Err(ShapeFault::KindCount);
    };
    let common = struct_of(fields, 0);
    if !is_id(number_of(common, 1), id) {
        return Err(ShapeFault::WrongId);
    }
    let kind = kind_from(alloc, wire, fields)?;
    let name = name_from(alloc, text_of(common, 0))?;
    Ok(Shape { name, kind })
}

/// The shape that a value of type 16 gives where Go's encoder wrote it. Go says another id than the defined one of a
/// type that encodes itself and that it first met through a pointer, so of an opaque kind an id above this one will do
/// too. Each fault is one that [`shape_from`] has, of a value that gives no shape here either; `Memory` comes only
/// where it gives one.
pub fn shape_from_loosely(alloc: Global, id: TypeId, described: &Value) -> Result<Shape, ShapeFault>
    requires { Fits base_table wire_type (view described.now) }
    ensures shape { IfOk result (λ shape. DescribesLoosely id (view described.now) shape) }
    ensures definable { IfOk result IsDefinable }
    ensures fault { IfErr result (λ fault. IsLooseFault id (view described.now) fault) }
{
    shape_from(alloc, said_id(id, described), described)
}

// The id under which a description of the type of this id is read: the one that it says, if that will do.
fn said_id(id: TypeId, described: &Value) -> TypeId
    ensures { IsReadUnder id (view described.now) result }
{
    let Some((wire, fields)) = wire_field(described) else {
        return id;
    };
    if !is_opaque(wire) {
        return id;
    }
    let number = number_of(struct_of(fields, 0), 1);
    if number < 0 {
        return id;
    }
    let said = number.unsigned_abs();
    if !is_above(said, id) {
        return id;
    }
    TypeId(said)
}

// Whether the number is an id above this one.
fn is_above(said: u64, id: TypeId) -> bool
    ensures { IsTrue result ↔ ((id.0 < said) × (said ≤ 2147483647)) }
{
    said > id.0 && said <= TypeId::GREATEST.0
}

// Whether the field tells an opaque kind.
fn is_opaque(wire: WireField) -> bool
    ensures { IsTrue result ↔ IsOpaqueField wire }
{
    match wire {
        WireField::GobEncoderT => true,
        WireField::BinaryMarshalerT => true,
        WireField::TextMarshalerT => true,
        _ => false,
    }
}

// The one field of wireType that is present, and the fields of the struct in it.
fn wire_field(described: &Value) -> Option<(WireField, &[(u64, Value)])>
    ensures { MatchOption result (said (view described.now) ≡ None)
        (λ given. said (view described.now) ≡ Some (what_said given.0 (field_views given.1.now))) }
{
    let fields = fields_within(described);
    if fields.len() != 1 {
        return None;
    }
    let (number, given) = &fields[0];
    let wire = wire_field_of(*number)?;
    Some((wire, fields_within(given)))
}

// The field of wireType of this number.
fn wire_field_of(number: u64) -> Option<WireField>
    ensures { MatchOption result (6 < number) (λ wire. number ≡ wire_number wire) }
{
    match number {
        0 => Some(WireField::ArrayT),
        1 => Some(WireField::SliceT),
        2 => Some(WireField::StructT),
        3 => Some(WireField::MapT),
        4 => Some(WireField::GobEncoderT),
        5 => Some(WireField::BinaryMarshalerT),
        6 => Some(WireField::TextMarshalerT),
        _ => None,
    }
}

// Whether the number is this id.
fn is_id(number: i64, id: TypeId) -> bool
    ensures { IsTrue result ↔ (number ≡ pos id.0) }
{
    number >= 0 && number as u64 == id.0
}

// The kind that the fields of the struct in this field of wireType give.
fn kind_from(alloc: Global, wire: WireField, fields: &[(u64, Value)]) -> Result<Kind, ShapeFault>
    ensures kind { IfOk result (λ kind. GivesKind (kind_said wire (field_views fields.now)) kind) }
    ensures fault { IfErr result (λ fault. IsKindFault (kind_said wire (field_views fields.now)) fault) }
{
    match wire {
        WireField::ArrayT => array_from(fields),
        WireField::SliceT => slice_from(fields),
        WireField::StructT => struct_from(alloc, list_of(fields, 1)),
        WireField::MapT => map_from(fields),
        WireField::GobEncoderT => Ok(Kind::Opaque(Marshal::Gob)),
        WireField::BinaryMarshalerT => Ok(Kind::Opaque(Marshal::Binary)),
        WireField::TextMarshalerT => Ok(Kind::Opaque(Marshal::Text)),
    }
}

// The array of an arrayType.
fn array_from(fields: &[(u64, Value)]) -> Result<Kind, ShapeFault>
    ensures kind { IfOk result
        (λ kind. GivesKind (kind_said WireField.ArrayT (field_views fields.now)) kind) }
    ensures fault { IfErr result
        (λ fault. IsKindFault (kind_said WireField.ArrayT (field_views fields.now)) fault) }
{
    let elem = reference(number_of(fields, 1))?;
    let len = number_of(fields, 2);
    if len < 0 {
        return Err(ShapeFault::BadLength);
    }
    Ok(Kind::Array {
        elem,
        len: len as u64,
    })
}

// The slice of a sliceType.
fn slice_from(fields: &[(u64, Value)]) -> Result<Kind, ShapeFault>
    ensures kind { IfOk result
        (λ kind. GivesKind (kind_said WireField.SliceT (field_views fields.now)) kind) }
    ensures fault { IfErr result
        (λ fault. IsKindFault (kind_said WireField.SliceT (field_views fields.now)) fault) }
{
    let elem = reference(number_of(fields, 1))?;
    Ok(Kind::Slice { elem })
}

// The map of a mapType.
fn map_from(fields: &[(u64, Value)]) -> Result<Kind, ShapeFault>
    ensures kind { IfOk result (λ kind. GivesKind (kind_said WireField.MapT (field_views fields.now)) kind) }
    ensures fault { IfErr result
        (λ fault. IsKindFault (kind_said WireField.MapT (field_views fields.now)) fault) }
{
    let key = reference(number_of(fields, 1))?;
    let elem = reference(number_of(fields, 2))?;
    Ok(Kind::Map { key, elem })
}

// The struct of these fieldTypes. Each is judged before memory is taken for any.
fn struct_from(alloc: Global, field_types: &[Value]) -> Result<Kind, ShapeFault>
    ensures kind { IfOk result (λ kind. GivesKind (said_struct (said_fields (views field_types.now))) kind) }
    ensures fault { IfErr result
        (λ fault. IsKindFault (said_struct (said_fields (views field_types.now))) fault) }
{
    if !have_types(field_types) {
        return Err(ShapeFault::BadReference);
    }
    let fields = fields_from(alloc, field_types)?;
    Ok(Kind::Struct { fields })
}

// Whether the Id of each fieldType refers to a type.
fn have_types(field_types: &[Value]) -> bool
    ensures { IsTrue result ↔ HaveTypes (said_fields (views field_types.now)) }
{
    for field_type in field_types {
        if !refers(number_of(fields_within(field_type), 1)) {
            return false;
        }
    }
    true
}

// The fields that these fieldTypes give.
fn fields_from(alloc: Global, field_types: &[Value]) -> Result<Fields, Memory>
    requires { HaveTypes (said_fields (views field_types.now)) }
    ensures { IfOk result (λ fields. GivesFields (said_fields (views field_types.now)) fields) }
{
    let mut items = Vec::new(alloc);
    for field_type in field_types {
        items.push(field_from(alloc, fields_within(field_type))?)?;
    }
    Ok(Fields::new(items))
}

// The field that the fields of a fieldType give.
fn field_from(alloc: Global, fields: &[(u64, Value)]) -> Result<Field, Memory>
    requires { IsTypeNumber (number_in (present_field 1 (field_views fields.now))) }
    ensures name { IfOk result (λ field. field.name ≡ name_in (present_field 0 (field_views fields.now))) }
    ensures id { IfOk result (λ field. RefersTo (number_in (present_field 1 (field_views fields.now))) field.id) }
{
    let name = name_from(alloc, text_of(fields, 0))?;
    let id = TypeId(number_of(fields, 1).unsigned_abs());
    Ok(Field { name, id })
}

// The type that the number refers to.
fn reference(number: i64) -> Result<TypeId, ShapeFault>
    ensures { MatchResult result (RefersTo number)
        (λ fault. (fault ≡ ShapeFault.BadReference) × IsBadReference number) }
{
    if refers(number) {
        Ok(TypeId(number.unsigned_abs()))
    } else {
        Err(ShapeFault::BadReference)
    }
}

// Whether the number refers to a type.
fn refers(number: i64) -> bool
    ensures { IsTrue result ↔ IsTypeNumber number }
{
    number >= 0 && TypeId(number as u64).is_reference()
}

// A name of its own.
fn name_from(alloc: Global, text: &[u8]) -> Result<Name, Memory>
    ensures { IfOk result (λ name. name ≡ text.now) }
{
    Ok(Name::new(text.to_vec(alloc)?))
}
