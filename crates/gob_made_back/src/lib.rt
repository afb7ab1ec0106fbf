//! What `values` prints of a value that `make` reads from plain JSON: JSON that is alike to it. No code rests on it, so
//! it is a crate of its own.
//!
//! ```text
//! {"Y":33,"X":22.0e0}                     a text, for a struct with the fields X, a float, and Y, an int
//! {"X":22.0,"Y":33}                       what is printed of the value that it says
//! ```
#![tactic(auto)]

pub mod laws;
