//! What the events of a value name.

/// A kind of part that is raw bytes.
#[derive(Clone, Copy, Debug, PartialEq, Eq)]
pub enum RawKind {
    /// A `[]byte`.
    Bytes,
    /// A string.
    Str,
    /// What a type of its own way of marshalling wrote.
    Opaque,
}

/// A kind of part that has parts.
#[derive(Clone, Copy, Debug, PartialEq, Eq)]
pub enum GroupKind {
    /// The elements of a slice or an array.
    Many,
    /// The keys of a map, each followed by its element.
    Pairs,
    /// The fields of a struct that are present, each behind its number.
    Fields,
}
