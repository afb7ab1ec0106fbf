//! The lines of `show` and `show --go`, read back: what a line says, also where interfaces hold values.
//!
//! ```text
//! {"type":8,"value":{"interface":{"name":"int","type":2,"value":3}}}      a line
//! 00 03 69 6e 74 04 02 00 06                                              the value's bytes, behind its tag
//! ```
//!
//! The bytes are made as the line is read, with those of what interfaces hold in their places: no tree is made. A
//! session of `gob_go` reads them, behind their count and their type's number, as the item.
#![tactic(auto)]

mod held;
pub mod laws;
mod line;
mod put;
mod value;

pub use line::{Form, GoLine, read_go_line};
