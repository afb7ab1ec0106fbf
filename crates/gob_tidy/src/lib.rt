//! The tidy form of a value, straight from the bytes that spell the value.
//!
//! Go's encoder leaves out of each struct the fields that are 0, false or empty. A stream may have them all the same:
//!
//! ```text
//! Point { X 0, Y 33 }      01 00 01 42 00      each field behind its delta, and 0 at the end
//! Point { Y 33 }           02 42 00            its tidy form
//! ```
//!
//! - [`tidy_whole`] makes of the bytes that spell a value those that spell its tidy form. It is one walk over the
//!   bytes, which makes no tree.
//! - [`tidy_with_nils`] also tells where nils of the value stand in its tidy form.
#![tactic(auto)]

mod dropped;
mod part;
mod tidying;

pub use tidying::{tidy_whole, tidy_with_nils};
