//! Tests of `gob_tape` by its public calls: tapes of bodies of each shape, read in pieces, their views, their spelling,
//! their values and their tidy forms, and the same where memory may be refused.
//!
//! Rows are lines of text, one for each body:
//!
//! ```text
//! a map | 69 | 00 01 01 61 02 | 2 | Pairs - 1 0 - Str - 1 0 a Int - 2 0 -
//!
//! what, its type, the body, the depth, and its parts level by level: each part's kind, field number, two numbers and
//! bytes
//! ```
//!
//! `sums` is a caller's loop over the parts of a list, with a contract of its own.
#![tactic(auto)]

#[cfg(test)]
mod flat;
#[cfg(test)]
mod lists;
pub mod sums;
#[cfg(test)]
mod tapes;
#[cfg(test)]
mod tidied;
#[cfg(test)]
mod views;
