//! A writer of streams of Go's encoder, of values whose bytes the caller has.
//!
//! ```text
//! 1a ff81 03 .. 00                        the definition of a type, by its shape
//! 0a 10 00 03 69 6e 74 04 02 00 06        the value of an interface that holds the int 3, by its bytes behind 10
//! ```
//!
//! The bytes of a value are those behind its type's number, with what its interfaces hold in their places, and define
//! nothing: each definition has an item of its own. An item goes out as its count, its number and these bytes, which
//! aren't copied.
#![tactic(auto)]

mod head;
mod writer;

pub use writer::FilledWriter;
