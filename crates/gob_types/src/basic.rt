//! The basic types.

/// A basic type: one whose values have no parts. The variants are those of the ids 1 to 8, in order.
/// (Go's encoding/gob documentation, Encoding Details.)
#[derive(Clone, Copy, Debug, PartialEq, Eq)]
pub enum Basic {
    /// Type 1: true or false.
    Bool,
    /// Type 2: a signed number of 64 bits.
    Int,
    /// Type 3: an unsigned number of 64 bits.
    Uint,
    /// Type 4: the 64 bits of a floating-point number, its pattern.
    Float,
    /// Type 5: a byte string.
    Bytes,
    /// Type 6: text, as a byte string; UTF-8 isn't demanded.
    Str,
    /// Type 7: two patterns, the real part first.
    Complex,
    /// Type 8: an interface, of which only nil is read.
    Interface,
}
