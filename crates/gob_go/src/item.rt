//! The items of a stream.

use crate::filled::Filled;
use gob_types::TypeId;
use gob_value::Value;

/// An item of a stream of Go's encoder.
#[derive(Drop)]
pub enum GoItem {
    /// A type is defined. One that is defined within a value is no item: it stands in a filling of that value.
    Define {
        /// The id of the type.
        id: TypeId,
        /// Its description, a value of type 16, as it was spelled. Of a type that encodes itself it may say a higher
        /// id, which means nothing.
        described: Value,
    },
    /// A value is given.
    Put {
        /// The id of its type.
        id: TypeId,
        /// The value.
        value: Filled,
    },
}
