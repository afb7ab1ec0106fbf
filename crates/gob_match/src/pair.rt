//! Pairs of types.

use gob_types::TypeId;

/// A type of the stream, and the type that its values are wanted as.
#[derive(Clone, Copy, Debug, PartialEq, Eq, Hash)]
pub struct TypePair {
    /// The type in the stream's table.
    pub stream: TypeId,
    /// The type in the wanted table.
    pub wanted: TypeId,
}
