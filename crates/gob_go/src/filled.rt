//! Filled values.

use gob_types::TypeId;
use gob_value::Value;

/// A value whose interfaces may hold others. Those count as parts of it: with them it is no deeper than 1000.
#[derive(Drop)]
#[cycle(filled)]
pub struct Filled {
    /// The spelling of the value with nil, a byte 0, in the place of each value that an interface holds. It begins
    /// behind the type number, and where the value is no struct with the tag 0. A `gob_read::BodyReader` reads it.
    pub skeleton: Vec<u8>,
    /// What fills nils of it, in the order of their places. Any other nil is nil in the stream too.
    pub fillings: Vec<Filling>,
}

/// What fills a nil.
#[derive(Drop)]
#[cycle(filled)]
pub struct Filling {
    /// How many bytes of the skeleton around stand before the nil, which is a byte 0.
    pub place: u64,
    /// The name under which the writer registered the concrete type, one byte at least. It need not be UTF-8.
    pub name: Vec<u8>,
    /// The types that are defined between the name and the value, in their order. Later items may use them too.
    pub definitions: Vec<Definition>,
    /// The id of the concrete type.
    pub id: TypeId,
    /// The value, of that type, which is spelled also where it is zero.
    pub value: Filled,
}

/// A type that is defined in front of a value that an interface holds.
#[derive(Drop)]
pub struct Definition {
    /// The id of the type.
    pub id: TypeId,
    /// Its description, a value of type 16, as it was spelled. Of a type that encodes itself it may say a higher
    /// id, which means nothing.
    pub described: Value,
}
