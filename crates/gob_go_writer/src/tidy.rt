//! The tidy form of items of streams of Go's encoder.
//!
//! Go's encoder leaves out of each struct the fields that are 0, false or empty, also of those that interfaces hold. In
//! the tidy form of an item each value is so, at every level, and each description, which is a value too:
//!
//! ```text
//! Pair { N 0, I Reg { X 0, Y 33 } }     01 00 01 03 "Reg" ff86 05 01 00 01 42 00 00
//! its tidy form                         02 03 "Reg" ff86 03 02 42 00 00
//! ```
//!
//! - [`tidy_item`] makes the tidy form of an item. Names, ids and types stay.

mod description;
mod item;
mod places;
mod skeleton;
mod value;

pub use item::tidy_item;
