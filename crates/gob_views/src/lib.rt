//! What is in a stream, for people and for programs that know nothing of gob.
//!
//! ```text
//! {"X":22,"Y":33}                         run_values: a line of plain JSON for each value, or for each of its elements
//!
//! // type 65                              run_types: the types, as Go source
//! type Point struct {
//!     X int
//!     Y int
//! }
//!
//! a.gob: ok: 2 items, 1 types, 40 bytes   tell_file: a line for a file
//! ```
//!
//! [`types_of`] makes the source of bytes in memory, and [`values_of`] their lines. [`run_view`] is the run of any of
//! these, and of `gob why`, `gob explain` and `gob salvage`, which are those of `gob_why` and `gob_salvage`.
#![tactic(auto)]

mod body_lines;
mod each;
mod gathered;
mod in_memory;
mod part_stream;
mod run;
mod types;
mod value_line;
mod values;
mod verify;

pub use each::run_each;
pub use gob_plain::Style;
pub use in_memory::{types_of, values_of};
pub use run::{limits_of, run_view};
pub use types::{SourceForm, run_types};
pub use value_line::ValueLines;
pub use values::run_values;
pub use verify::{ToldFile, tell_file};
