//! Tests of `gob_read` by its public calls: bodies of each shape, whole and in pieces, bodies that are refused, values
//! as deep as builders take them, how much is held of a body under way, parts that stand whole in a piece, interfaces
//! that are filled, and reading where memory may be refused.
//!
//! Rows are lines of text, one for each body:
//!
//! ```text
//! X 22, Y 33 | 65 | 01 2c 01 42 00 | 3 0       what, its type, the body, and what is due: here its parts and raw bytes
//! ```
#![tactic(auto)]

#[cfg(test)]
mod bodies;
#[cfg(test)]
mod held;
#[cfg(test)]
mod lists;
#[cfg(test)]
mod skipped;
#[cfg(test)]
mod to_nil;
