//! How a value of the stream's type becomes one of the wanted type.

use crate::common::CommonField;
use crate::pair::TypePair;

/// What becomes of a value of the stream's type of a pair, to be received as a value of the wanted type. It is
/// worked out once for each pair, while the pair is matched.
#[derive(Drop)]
pub(crate) enum Conversion {
    /// It stays as it is.
    Unchanged,
    /// Each element is received under this pair.
    Elements(TypePair),
    /// Each key and each element is received under its pair.
    Entries { key: TypePair, elem: TypePair },
    /// These fields are received, in this order, where they are present.
    Fields(Vec<CommonField>),
}
