//! Gob values and definitions as JSON: what stands in the lines of a stream, and the line of a value straight from the
//! bytes that spell it.
//!
//! ```text
//! 02 04 06 08                             a slice of ints, 65: 3, 4
//! {"type":65,"value":[3,4]}               its line
//! ```
//!
//! - [`line_of_whole`] appends the line of a value, where a value stands whole in the bytes.
//! - [`send_line`] puts the line out to any [`TextOut`] while it is made, of a body that is known to spell a value.
#![tactic(auto)]

mod text;

pub use text::{Exact, PartOut, TextOut, line_of_whole, put_head, send_line};
