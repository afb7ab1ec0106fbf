//! The walk over the bytes of a value that stands whole, which tells a visitor of the value's parts. No tree is made,
//! and nothing is kept.
//!
//! ```text
//! 02 01 78 01 79                          a slice of two texts, x and y
//! list_begins, element, text x,           what the visitor is told
//! element, text y, list_ends
//! ```
//!
//! - [`Visitor`] is what is told. Its contract is one relation: which events it was told.
//! - [`walk_whole`] goes over a body.
#![tactic(auto)]

mod basic;
mod number;
mod visitor;
mod walk;
mod walk_end;
mod whole;

pub use basic::{walk_basic, walk_raw};
pub use number::{bytes_at, next_field, number_at};
pub use visitor::Visitor;
pub use walk_end::{WalkEnd, closed};
pub use whole::walk_whole;
