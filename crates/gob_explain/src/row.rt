//! Rows: the bytes of a body one number or one run of raw bytes at a time.

use gob_types::TypeId;

/// What the bytes of a row are in the part that they belong to.
#[derive(Clone, Copy, Debug, PartialEq, Eq)]
pub enum What {
    /// The 0 before a value that is no struct.
    Tag,
    /// The first number of a part that is no struct: a basic number, the first pattern of a complex, a count of raw
    /// bytes, of elements or of pairs; of an interface 0, or the count of the name of what it holds.
    First,
    /// The second pattern of a complex.
    Imaginary,
    /// The raw bytes behind their count; of an interface the name of what it holds.
    Raw,
    /// The delta to the next field of a struct, or 0 at its end.
    Delta,
    /// A type number in a filling: that of what an interface holds, or below 0 that of a definition.
    TypeNumber,
    /// A count in a filling: of the next segment behind a definition, or of the first one of what is held.
    Segment,
}

/// A part of a value: its type, and how deep it lies. The value itself lies at depth 1, the filling of an interface one
/// deeper than that, and what it holds and the types that it defines one deeper than the filling.
#[derive(Clone, Copy, Debug, PartialEq, Eq)]
pub struct RowPart {
    /// The part's type.
    pub id: TypeId,
    /// Its depth, from 1 on.
    pub depth: u64,
}

impl RowPart {
    // What comes next where the part begins.
    pub(crate) fn awaited(self) -> Awaited {
        Awaited {
            what: What::First,
            id: self.id,
            most: u64::MAX,
        }
    }
}

/// One number or one run of raw bytes of a body.
#[derive(Clone, Copy, Debug, PartialEq, Eq)]
pub struct Row {
    /// What the bytes are.
    pub what: What,
    /// The type of the part that they belong to.
    pub id: TypeId,
    /// How deep that part lies; for a tag, how deep what is around the value does, which is 0 for that of an item.
    pub depth: u64,
    /// The number that the bytes spell, or how many raw bytes they are.
    pub number: u64,
    /// Where the bytes begin, counted from the first byte behind the type number.
    pub begin: usize,
    /// Where they end.
    pub end: usize,
}

/// What comes next behind rows, in the part that it belongs to.
#[derive(Clone, Copy, Debug, PartialEq, Eq)]
pub struct Awaited {
    /// What it is.
    pub what: What,
    /// The type of the part.
    pub id: TypeId,
    /// The greatest number that it may be, or how many raw bytes it is.
    pub most: u64,
}

/// One step from a value into a part of it.
#[derive(Clone, Copy, Debug, PartialEq, Eq)]
pub enum PartStep {
    /// Into the element of this index of a slice or an array, counted from 0.
    Element(u64),
    /// Into the key of the pair of this index of a map, counted from 0.
    Key(u64),
    /// Into the element of the pair of this index of a map.
    Value(u64),
    /// Into a field of a struct.
    Field {
        /// The struct's type.
        of: TypeId,
        /// The number of the field, counted from 0.
        number: u64,
    },
    /// Into the value of this type that an interface holds, or into the description of a type that is defined in front
    /// of that, which has the type 16.
    Held(TypeId),
}
