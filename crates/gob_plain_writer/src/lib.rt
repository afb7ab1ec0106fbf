//! A writer of a stream whose values are given as plain JSON, under types that Go source or another stream gives. What
//! it writes is kept until it is taken.
//!
//! ```text
//! type Point struct { X, Y int }          the types
//! 1f ff 81 03 01 01 05 50 6f 69 6e 74 ..  what the stream begins with: the definition of Point
//! {"X":22,"Y":33}                         a text
//! 07 ff 82 01 2c 01 42 00                 the value that goes on the stream
//! ```
#![tactic(auto)]

mod fault;
mod opening;
mod writer;

pub use fault::{OpenFault, PutFault};
pub use opening::{writer_of_source, writer_of_stream};
pub use writer::PlainWriter;
