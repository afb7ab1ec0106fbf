//! The base table, as each stream has it before its first definition.
ghost use Rattle.std.specs.Prelude.{◌≡◌, ℕ, [], ◌++◌, ◌∷◌, IfOk, OnOk, map, take};
ghost use Rattle.gob_types.specs.declared.id.TypeId.{TypeId};
ghost use Rattle.gob_types.specs.Base.{base_table, field, entry, id};
ghost use Rattle.gob_types.specs.Machine.Entered.{with_entry};

use crate::basic::Basic;
use crate::entries::Entries;
use crate::id::TypeId;
use crate::kind::{Field, Fields, Kind, Shape};
use crate::name::Name;
use gob_num::Memory;
use std::alloc::Global;

// The fields of the types of descriptions: their names, and the types of their values.
const WIRE_TYPE: [(&str, u64); 7] = [
    ("ArrayT", 17),
    ("SliceT", 19),
    ("StructT", 20),
    ("MapT", 23),
    ("GobEncoderT", 24),
    ("BinaryMarshalerT", 24),
    ("TextMarshalerT", 24),
];

const ARRAY_TYPE: [(&str, u64); 3] = [("CommonType", 18), ("Elem", 2), ("Len", 2)];

const SLICE_TYPE: [(&str, u64); 2] = [("CommonType", 18), ("Elem", 2)];

const STRUCT_TYPE: [(&str, u64); 2] = [("CommonType", 18), ("Field", 22)];

const MAP_TYPE: [(&str, u64); 3] = [("CommonType", 18), ("Key", 2), ("Elem", 2)];

const OPAQUE_TYPE: [(&str, u64); 1] = [("CommonType", 18)];

// Those of CommonType and of fieldType.
const NAME_AND_ID: [(&str, u64); 2] = [("Name", 6), ("Id", 2)];

/// Enters the types of the base table where none is entered yet, in the order of their ids.
pub(crate) fn enter_base(types: &mut Entries, alloc: Global) -> Result<(), Memory>
    requires { types.old ≡ [] }
    ensures { OnOk result (types.new ≡ base_table) }
{
    enter_basic(types, alloc)?;
    enter_descriptions(types, alloc)
}

// The basic types.
fn enter_basic(types: &mut Entries, alloc: Global) -> Result<(), Memory>
    requires { types.old ≡ [] }
    ensures { OnOk result (types.new ≡ take 8 base_table) }
{
    enter(types, alloc, 1, "bool", Kind::Basic(Basic::Bool))?;
    enter(types, alloc, 2, "int", Kind::Basic(Basic::Int))?;
    enter(types, alloc, 3, "uint", Kind::Basic(Basic::Uint))?;
    enter(types, alloc, 4, "float", Kind::Basic(Basic::Float))?;
    enter(types, alloc, 5, "[]byte", Kind::Basic(Basic::Bytes))?;
    enter(types, alloc, 6, "string", Kind::Basic(Basic::Str))?;
    enter(types, alloc, 7, "complex", Kind::Basic(Basic::Complex))?;
    enter(types, alloc, 8, "interface", Kind::Basic(Basic::Interface))
}

// The types of descriptions.
fn enter_descriptions(types: &mut Entries, alloc: Global) -> Result<(), Memory>
    requires { types.old ≡ take 8 base_table }
    ensures { OnOk result (types.new ≡ base_table) }
{
    enter_struct(types, alloc, 16, "wireType", &WIRE_TYPE)?;
    enter_struct(types, alloc, 17, "arrayType", &ARRAY_TYPE)?;
    enter_struct(types, alloc, 18, "CommonType", &NAME_AND_ID)?;
    enter_struct(types, alloc, 19, "sliceType", &SLICE_TYPE)?;
    enter_struct(types, alloc, 20, "structType", &STRUCT_TYPE)?;
    enter_struct(types, alloc, 21, "fieldType", &NAME_AND_ID)?;
    enter(types, alloc, 22, "", Kind::Slice { elem: TypeId(21) })?;
    enter_struct(types, alloc, 23, "mapType", &MAP_TYPE)?;
    enter_struct(types, alloc, 24, "gobEncoderType", &OPAQUE_TYPE)
}

// Enters a struct type with these fields, each a name and the type of its values.
fn enter_struct(
    types: &mut Entries,
    alloc: Global,
    number: u64,
    name: &str,
    fields: &[(&str, u64)],
) -> Result<(), Memory>
    ensures { OnOk result (types.new ≡ with_entry types.old (id number)
        (record { name = name.now; kind = Kind.Struct (map (λ f. field f.0.now f.1) fields.now) })) }
{
    let mut items = Vec::new(alloc);
    for (name, id) in fields {
        items.push(Field {
            name: copied_name(alloc, name)?,
            id: TypeId(*id),
        })?;
    }
    enter(
        types,
        alloc,
        number,
        name,
        Kind::Struct {
            fields: Fields::new(items),
        },
    )
}

// Enters a type.
fn enter(
    types: &mut Entries,
    alloc: Global,
    number: u64,
    name: &str,
    kind: Kind,
) -> Result<(), Memory>
    ensures { OnOk result (types.new ≡ with_entry types.old (id number)
        (record { name = name.now; kind = kind })) }
{
    let name = copied_name(alloc, name)?;
    types.enter(TypeId(number), Shape { name, kind })?;
    Ok(())
}

// A name of its own.
fn copied_name(alloc: Global, name: &str) -> Result<Name, Memory>
    ensures { IfOk result (λ copy. copy ≡ name.now) }
{
    Ok(Name::new(name.as_bytes().to_vec(alloc)?))
}
