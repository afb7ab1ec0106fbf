//! What a value leaves out that is received as one of a wanted type: fields that the wanted struct lacks.
//!
//! ```text
//! the stream's type               the wanted type         what of a value { A 1, B [{ C 2, D 3 }] } is left out
//! struct { A int; B []S }         struct { B []R }        .A
//! S struct { C int; D int }       R struct { C int }      .B[].D
//! ```
//!
//! - [`left_out`] finds the fields that a value leaves out, each once, with the steps to the first of them.
//! - [`may_leave_out`] says of two types that match whether a value of theirs may leave out any.
//! - [`Tally`] counts over many values how many of them leave out each field.
#![tactic(auto)]

mod field;
mod kinds;
mod may;
mod noted;
mod tally;
mod tally_text;
mod walk;

pub use field::UnwantedField;
pub use may::may_leave_out;
pub use noted::LeftOut;
pub use tally::{TalliedField, Tally};
pub use walk::left_out;
