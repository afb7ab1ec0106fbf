//! A reader that tells how far it is, on a line that is renewed in place, as of a file of 67 MB:
//!
//! ```text
//! gob: 21 of 67 MB, 31%, 105 MB/s
//! ```
//!
//! Each line begins with a carriage return and has no line feed; the last is blank, so nothing is left of them. They
//! are text of this crate and numbers alone, so nothing of a file reaches the terminal by them.
#![tactic(auto)]

mod line;
mod meter;
mod watched;

pub use meter::Meter;
pub use watched::Watched;
