//! Fields that aren't wanted.

use gob_match::TypePair;

/// A field of the stream's struct of a pair of struct types, of which the wanted struct has none of that name.
#[derive(Clone, Copy, Debug, PartialEq, Eq, Hash)]
pub struct UnwantedField {
    /// The two struct types.
    pub pair: TypePair,
    /// The field's number in the stream's struct, counted from 0.
    pub number: u64,
}
