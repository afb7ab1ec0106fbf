//! The run of the command `write`: JSON lines in, as `show` or `show --go` writes them, and their stream out.
//!
//! ```text
//! {"type":2,"value":3}                    a line
//! 03 04 00 06                             its item: the int 3
//! ```
#![tactic(auto)]

mod fault;
mod lines;
mod place;
mod run;
mod shown;
mod source;
mod texts;
mod types;
mod writer;

pub use fault::LinesFault;
pub use run::run_make;
pub use shown::{ShownLines, run_write};
pub use source::{SourceTypesFault, types_of_source};
pub use types::{Definition, Types, TypesFault, read_types};
