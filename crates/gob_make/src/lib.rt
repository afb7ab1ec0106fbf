//! Plain JSON, read as a value of a type of a gob stream.
//!
//! ```text
//! {"X":22,"Y":33}                         a text
//! 01 2c 01 42 00                          the value that it says, of a struct with fields X and Y
//! ```
#![tactic(auto)]

mod fields;
mod float;
mod integer;
mod known;
mod leaf;
mod names;
mod opaque;
mod plain;
mod said;
mod time;
mod value;
mod zero;

pub use plain::{Making, read_plain};
