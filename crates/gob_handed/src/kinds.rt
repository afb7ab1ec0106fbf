//! The kinds of nodes. (docs/LIBRARY.md, Flat nodes.)

/// A truth value.
pub(crate) const BOOL: u16 = 1;

/// A signed number.
pub(crate) const INT: u16 = 2;

/// An unsigned number.
pub(crate) const UINT: u16 = 3;

/// A float.
pub(crate) const FLOAT: u16 = 4;

/// Bytes.
pub(crate) const BYTES: u16 = 5;

/// A text.
pub(crate) const TEXT: u16 = 6;

/// A complex number.
pub(crate) const COMPLEX: u16 = 7;

/// An interface that holds nothing.
pub(crate) const NIL: u16 = 8;

/// A slice or an array; of types a slice.
pub(crate) const LIST: u16 = 9;

/// A map.
pub(crate) const MAP: u16 = 10;

/// A struct.
pub(crate) const STRUCT: u16 = 11;

/// A value of a type that encodes itself, or that type.
pub(crate) const OPAQUE: u16 = 12;

/// Of types alone: an array.
pub(crate) const ARRAY: u16 = 13;

/// Of types alone: one that is named.
pub(crate) const REFERENCE: u16 = 14;

/// An interface that holds a value.
pub(crate) const HELD: u16 = 15;
