//! The description of a shape.

ghost use Rattle.std.specs.Prelude.{◌≡◌, ◌^◌, ◌<◌, ◌≤◌, IfOk, OnOk, pos};
ghost use Rattle.gob_types.specs.declared.id.TypeId.{TypeId};
ghost use Rattle.gob_types.specs.Base.{base_table, wire_type};
ghost use Rattle.gob_types.specs.Definable.{IsDefinable, IsReference, greatest_length};
ghost use Rattle.gob_types.specs.Ready.{HasFieldOf};
ghost use Rattle.gob_value.specs.Tree.{int, fields};
ghost use Rattle.gob_value.specs.View.{view, views, field_views};
ghost use Rattle.gob_value.specs.Described.{described, described_kind, wire_type_of};
ghost use Rattle.gob_value.specs.Described.{name_and_id, field_types};
ghost use Rattle.gob_value.specs.DescriptionLaws.{IsCountedName, AreCounted, HasCountedFields};
ghost use Rattle.gob_value.specs.Within.{FitsWithin};

use crate::value::Value;
use gob_num::Memory;
use gob_types::{Field, Fields, Kind, Marshal, Name, Shape, TypeId};
use std::alloc::Global;

/// The description of a shape that a description can give, for the type of this id: CommonType, Id, Elem and
/// Key always, Name, Len and Field only where they aren't empty or 0. No definition is of an id from 2^63
/// on; it is described as 2^63-1. (Go's encoding/gob documentation, Encoding Details, on wireType.)
pub fn describe(alloc: Global, id: TypeId, shape: &Shape) -> Result<Value, Memory>
    requires { IsDefinable shape.now }
    ensures described { IfOk result (λ value. id.0 < 2 ^ 63 → view value ≡ described id shape.now) }
    ensures fits { IfOk result (λ value. id.0 < 2 ^ 63 → FitsWithin base_table wire_type 5 (view value)) }
{
    let common = name_and_id(alloc, &shape.name, id)?;
    match &shape.kind {
        Kind::Array { elem, len } => array_type(alloc, common, *elem, *len),
        Kind::Slice { elem } => slice_type(alloc, common, *elem),
        Kind::Struct { fields } => struct_type(alloc, common, fields),
        Kind::Map { key, elem } => map_type(alloc, common, *key, *elem),
        Kind::Opaque(marshal) => opaque_type(alloc, common, *marshal),
        Kind::Basic(_) => unreachable!(),
    }
}

// The arrayType, in its wireType, with this CommonType.
fn array_type(alloc: Global, common: Value, elem: TypeId, len: u64) -> Result<Value, Memory>
    requires elem { IsReference elem }
    requires len { len ≤ greatest_length }
    ensures { IfOk result (λ value. view value ≡ described_kind (view common) (Kind.Array elem len)) }
{
    let mut given = vec![in alloc; (0, common), (1, number(elem.0))]?;
    if len != 0 {
        given.push((2, number(len)))?;
    }
    wire_type(alloc, 0, given)
}

// The sliceType, in its wireType, with this CommonType.
fn slice_type(alloc: Global, common: Value, elem: TypeId) -> Result<Value, Memory>
    requires { IsReference elem }
    ensures { IfOk result (λ value. view value ≡ described_kind (view common) (Kind.Slice elem)) }
{
    let given = vec![in alloc; (0, common), (1, number(elem.0))]?;
    wire_type(alloc, 1, given)
}

// The structType, in its wireType, with this CommonType.
fn struct_type(alloc: Global, common: Value, fields: &Fields) -> Result<Value, Memory>
    requires { (u : TypeId) → HasFieldOf fields.now u → IsReference u }
    ensures described { IfOk result
        (λ value. view value ≡ described_kind (view common) (Kind.Struct fields.now)) }
    ensures counted { OnOk result (HasCountedFields (Kind.Struct fields.now)) }
{
    let mut given = vec![in alloc; (0, common)]?;
    let fields = fields.as_slice();
    if !fields.is_empty() {
        given.push((1, Value::Many(field_types(alloc, fields)?)))?;
    }
    wire_type(alloc, 2, given)
}

// The mapType, in its wireType, with this CommonType.
fn map_type(alloc: Global, common: Value, key: TypeId, elem: TypeId) -> Result<Value, Memory>
    requires key { IsReference key }
    requires elem { IsReference elem }
    ensures { IfOk result (λ value. view value ≡ described_kind (view common) (Kind.Map key elem)) }
{
    let given = vec![in alloc; (0, common), (1, number(key.0)), (2, number(elem.0))]?;
    wire_type(alloc, 3, given)
}

// The type of an opaque type, in its wireType, with this CommonType.
fn opaque_type(alloc: Global, common: Value, marshal: Marshal) -> Result<Value, Memory>
    ensures { IfOk result (λ value. view value ≡ described_kind (view common) (Kind.Opaque marshal)) }
{
    let field = match marshal {
        Marshal::Gob => 4,
        Marshal::Binary => 5,
        Marshal::Text => 6,
    };
    let given = vec![in alloc; (0, common)]?;
    wire_type(alloc, field, given)
}

// The fieldType of each field.
fn field_types(alloc: Global, fields: &[Field]) -> Result<Vec<Value>, Memory>
    requires { (u : TypeId) → HasFieldOf fields.now u → IsReference u }
    ensures described { IfOk result (λ types. views types.items ≡ field_types fields.now) }
    ensures counted { OnOk result (AreCounted fields.now) }
{
    let mut types = Vec::new(alloc);
    for field in fields {
        types.push(name_and_id(alloc, &field.name, field.id)?)?;
    }
    Ok(types)
}

// A wireType of which this field is present: a struct with the given fields.
fn wire_type(alloc: Global, field: u64, given: Vec<(u64, Value)>) -> Result<Value, Memory>
    ensures { IfOk result (λ value. view value ≡ wire_type_of field (field_views given.items)) }
{
    let wire = vec![in alloc; (field, Value::Fields(given))]?;
    Ok(Value::Fields(wire))
}

// A CommonType or a fieldType.
fn name_and_id(alloc: Global, name: &Name, id: TypeId) -> Result<Value, Memory>
    ensures described { IfOk result
        (λ value. id.0 < 2 ^ 63 → view value ≡ fields (name_and_id name.now id)) }
    ensures counted { OnOk result (IsCountedName name.now) }
{
    let text = name.as_bytes();
    let mut given = Vec::new(alloc);
    if !text.is_empty() {
        given.push((0, Value::Str(text.to_vec(alloc)?)))?;
    }
    given.push((1, number(id.0)))?;
    Ok(Value::Fields(given))
}

// A signed number, which is 2^63-1 where it would be greater.
fn number(n: u64) -> Value
    ensures { n < 2 ^ 63 → view result ≡ int (pos n) }
{
    Value::Int(n.min(GREATEST) as i64)
}

// The greatest signed number.
const GREATEST: u64 = 9223372036854775807;
