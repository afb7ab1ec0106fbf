//! Values.

/// A value of a gob stream.
#[derive(Drop)]
pub enum Value {
    /// A truth value.
    Bool(bool),
    /// A signed number.
    Int(i64),
    /// An unsigned number.
    Uint(u64),
    /// The 64 bits of a floating-point number.
    Float(u64),
    /// The 64 bits of each part of a complex number, the real part first.
    Complex(u64, u64),
    /// A byte string.
    Bytes(Vec<u8>),
    /// Text, which need not be UTF-8.
    Str(Vec<u8>),
    /// The nil value of an interface.
    Nil,
    /// The elements of a slice or an array.
    Many(Vec<Value>),
    /// The keys of a map, each with its element, in the order of the stream. A key may stand twice.
    Pairs(Vec<(Value, Value)>),
    /// The fields of a struct that are present, each behind its number. Numbers count from 0 and rise.
    Fields(Vec<(u64, Value)>),
    /// The bytes of a value that only the Go type that wrote it explains.
    Opaque(Vec<u8>),
}
