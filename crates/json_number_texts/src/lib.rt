//! JSON text with each number outside of strings as a text of its digits, for readers that round large numbers.
//!
//! ```text
//! {"type":2,"value":[-9223372036854775808,"5",true]}
//! {"type":"2","value":["-9223372036854775808","5",true]}
//! ```
//!
//! The text may come in pieces that are cut anywhere: a [`Place`] says where a piece begins. (RFC 8259, sections 6
//! and 7.)
#![tactic(auto)]

mod laws;
mod lines_out;
mod pieces;
mod place;
mod writer;

pub use laws::{lines_become_texts, pieces_are_one};
pub use lines_out::LinesOut;
pub use pieces::push_texts;
pub use place::Place;
pub use writer::TextsWriter;
