//! The walk over the bytes of a value that stands whole, and through its interfaces, which tells a visitor of the
//! value's parts and of what interfaces hold. No tree is made, and nothing is kept.
//!
//! ```text
//! 02 01 00 03 69 6e 74 04 02 00 06        a slice of two interfaces: nil, and the int 3
//! list_begins, element, nil,              what the visitor is told
//! element, held_begins int, int 3, held_ends, list_ends
//! ```
//!
//! - [`HeldVisitor`] is what is told. Its contract is one relation: which events it was told.
//! - [`walk_filled`] goes over a body. It says only yes: then the body is such a value, and the visitor was told of it.
//! - [`line_of_filled`] makes the line of a value so.
#![tactic(auto)]

mod exact;
mod held;
mod line;
mod visitor;
mod walk;

pub use line::line_of_filled;
pub use visitor::HeldVisitor;
pub use walk::walk_filled;
