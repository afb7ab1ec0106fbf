//! The parts of JSON, each as a text of its own.
//!
//! ```text
//! [{"a":1},[2]]         elements: {"a":1} and [2]
//! [["a",1],[3,[2]]]     pairs: {"key":"a","value":1} and {"key":3,"value":[2]}
//! ```
#![tactic(auto)]

mod copy;
mod part;
mod parts;

pub use part::text_of;
pub use parts::{Form, Parts};
