//! A stream of Go's encoder, split into parts that each are a whole stream.
//!
//! ```text
//! stream   dP p p dQ q p            the definitions of P and Q, and values
//! parts    dP p p | dP dQ q p       the definitions in force, and then the items in their bytes
//! ```
//!
//! A definition that stands in a value stands in an item of its own in front of it, as
//! [`hoist_item`](gob_go_writer::hoist_item) puts it: so each part has the definitions of its values in front of them.
//!
//! [`run_split`] splits what a reader gives, over [`Parts`], which say where parts go. That each part is a stream is a
//! law: [`laws`]. [`push_definitions`] gives the definitions alone.
#![tactic(auto)]

mod cutter;
mod definitions;
mod item_text;
pub mod laws;
mod next_text;
mod part_size;
mod parts;
mod run;

pub use definitions::push_definitions;
pub use part_size::PartSize;
pub use parts::{NotWritten, Parts};
pub use run::run_split;
