//! Why a stream is refused, in words, for a person: in which item and where in its value, what is due there and what
//! stands there, what is usually behind it, and what to do. Of a whole stream, how many values of each type it has.
//!
//! ```text
//! refused 22 Ended at 36 seen 36
//! what: The file ends within an item.
//! where: item 1, Point.X: a value of type 65, Point, which begins at byte 32
//! expected: a whole number
//! found: the end of the input, at byte 36
//! cause: The file was cut off, or isn't all written yet. What stands before this item is whole.
//! next: Get the whole file.
//! ```
//!
//! A cause is looked for in the bytes, and said where they show it; where they show none, the usual one is said.
//!
//! [`why_of`] says so of bytes in memory.
//!
//! [`run_explain`] prints the bytes themselves, row by row, each with what it is, up to the refused ones.
#![tactic(auto)]

mod alike;
mod cause;
mod due;
mod explain;
mod explained;
mod flushing;
mod front_cause;
mod in_memory;
mod item_cause;
mod kept;
mod length;
mod marks;
mod place;
mod reading;
mod refused;
mod report;
mod run;
mod said;
mod scene;
mod sending;
mod sentence;
mod step;
mod trial;
mod words;

pub use explain::run_explain;
pub use explained::Explained;
pub use in_memory::why_of;
pub use run::run_why;
pub use said::Said;
