//! Values whose interfaces hold others, received as values of a wanted type.
//!
//! The skeleton of a value is received as any value is. What an interface holds goes along as it is, where a field, an
//! element or a key that is received holds it. Which interface that is is told by numbers: each nil that is filled is
//! the number of what fills it while the value is received, as if interfaces were unsigned numbers.
//!
//! ```text
//! a value       struct { A int; B, C interface }      { A 1, B nil, C nil }     two fillings: "x" of B, 7 of C
//! in numbers    struct { A int; B, C uint }           { A 1, B 1, C 2 }
//! received      struct { C, A uint, int }             { C 2, A 1 }
//! so            struct { C interface; A int }         { C nil, A 1 }            one filling: 7 of C
//! ```
//!
//! [`receive_filled`] does so, by the bytes of skeletons. [`left_out_of`] finds the fields that a value leaves out.
#![tactic(auto)]

mod left;
mod matching;
mod moving;
mod numbered;
mod numbering;
mod receiving;
mod skeleton;
mod taking;

pub use left::{LastLoss, left_out_of};
pub use matching::{LastMatch, Wanted};
pub use receiving::receive_filled;
