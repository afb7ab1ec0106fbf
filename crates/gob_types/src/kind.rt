//! Shapes: what a type id stands for.

ghost use Rattle.std.specs.Prelude.{◌≡◌, ◌+◌, ◌^◌, ◌<◌, ◌↔◌, IsTrue, IfSome, length, slice_get};
ghost use Rattle.std.specs.Option.{option_copied};

use crate::basic::Basic;
use crate::id::TypeId;
use crate::name::Name;
use std::marker::Model;

/// A field of a struct type. Fields are numbered from 0 in the order of their struct.
#[derive(Drop)]
pub struct Field {
    /// The field's name.
    pub name: Name,
    /// The type of the field's values.
    pub id: TypeId,
}

/// The fields of a struct type, in order.
#[derive(Drop)]
pub struct Fields {
    items: Vec<Field>,
}

impl Model for Fields {
    ghost use Rattle.std.specs.Prelude.{List};
    ghost use Rattle.gob_types.specs.declared.kind.Field.{Field};

    ghost Value = { List Field };

    ghost view = { λ s. s.items.items };
}

impl Fields {
    /// These fields.
    pub fn new(items: Vec<Field>) -> Fields
        ensures { result ≡ items.items }
    {
        Fields { items }
    }

    /// The fields, in order.
    pub fn as_slice(&self) -> &[Field]
        ensures { result.now ≡ self.now }
    {
        &self.items
    }

    /// How many fields there are.
    pub fn count(&self) -> u64
        ensures { result ≡ length self.now }
    {
        self.items.len() as u64
    }

    /// The field of this number, counted from 0.
    pub fn get(&self, number: u64) -> Option<&Field>
        ensures found { option_copied result ≡ slice_get self.now number }
        ensures small { IfSome result (λ _. number + 1 < 2 ^ 64) }
    {
        match usize::try_from(number) {
            Ok(index) => self.items.get(index),
            Err(_) => None,
        }
    }
}

/// Which way of marshalling an opaque type's values come from.
#[derive(Clone, Copy, Debug, PartialEq, Eq)]
pub enum Marshal {
    /// The type's own `GobEncode`.
    Gob,
    /// The type's own `MarshalBinary`.
    Binary,
    /// The type's own `MarshalText`.
    Text,
}

/// What the values of a type are.
#[derive(Drop)]
pub enum Kind {
    /// A basic value. No definition gives this kind.
    Basic(Basic),
    /// As many elements as the type says.
    Array {
        /// The type of the elements.
        elem: TypeId,
        /// How many elements there are.
        len: u64,
    },
    /// Any number of elements.
    Slice {
        /// The type of the elements.
        elem: TypeId,
    },
    /// Fields, of which each may be absent.
    Struct {
        /// The fields, numbered from 0.
        fields: Fields,
    },
    /// Pairs of a key and an element.
    Map {
        /// The type of the keys.
        key: TypeId,
        /// The type of the elements.
        elem: TypeId,
    },
    /// Bytes that only the Go type that wrote them explains.
    Opaque(Marshal),
}

impl Kind {
    ghost use Rattle.gob_types.specs.KindParts.{elem_named, key_named, fields_named};

    /// The type of the elements of an array, a slice or a map.
    pub fn elem(&self) -> Option<TypeId>
        ensures { result ≡ elem_named self.now }
    {
        match self {
            Kind::Array { elem, .. } => Some(*elem),
            Kind::Slice { elem } => Some(*elem),
            Kind::Map { elem, .. } => Some(*elem),
            _ => None,
        }
    }

    /// The type of the keys of a map.
    pub fn key(&self) -> Option<TypeId>
        ensures { result ≡ key_named self.now }
    {
        match self {
            Kind::Map { key, .. } => Some(*key),
            _ => None,
        }
    }

    /// The fields of a struct.
    pub fn fields(&self) -> Option<&Fields>
        ensures { option_copied result ≡ fields_named self.now }
    {
        match self {
            Kind::Struct { fields } => Some(fields),
            _ => None,
        }
    }
}

/// The name and kind of a type.
pub struct Shape {
    /// The type's name, which may be empty.
    pub name: Name,
    /// What its values are.
    pub kind: Kind,
}

// Not derived, so that a drop is one call in the proofs of what owns one.
impl Drop for Shape {
    fn drop(self) {
        let Shape { name: _, kind: _ } = self;
    }
}
