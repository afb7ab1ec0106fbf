//! Fields of a wanted type that have another name in a stream.
//!
//! Types match by the names of fields. Where a field has another name in a stream, the stream's values are received by
//! the wanted types with that name in place of the field's own: their values have the same bytes.
//!
//! ```text
//! User=Name                               the wanted field Name takes the stream's field User
//! Login.User=Name                         of the wanted structs named Login alone
//! struct Login { Name; At }               the wanted type
//! struct Login { User; At }               by which its values are received
//! ```
//!
//! - [`Rename::said_by`] reads what such a word says, and [`renames_said_by`] what several do.
//! - [`renamed_by`] makes the table in which the fields have those names, or says which of them doesn't fit.
#![tactic(auto)]

mod fault;
mod judging;
pub mod laws;
mod rename;
mod renaming;
mod shapes;
mod word;

pub use fault::{Misfit, RenameFault, WordFault, WordsFault};
pub use rename::Rename;
pub use renaming::renamed_by;
pub use word::renames_said_by;
