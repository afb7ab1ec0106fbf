//! The items of a stream.

use gob_types::TypeId;
use gob_value::Value;

/// An item of a stream, whose values are kept as `V`.
#[derive(Drop)]
pub enum Item<V> {
    /// A type is defined.
    Define {
        /// The id of the type.
        id: TypeId,
        /// Its description, a value of type 16, as it was spelled.
        described: Value,
    },
    /// A value is given.
    Put {
        /// The id of its type.
        id: TypeId,
        /// The value.
        value: V,
    },
}
