//! What isn't damaged of a stream of Go's encoder: items that stand whole in the bytes, one behind another, under the
//! definitions of those before them.
//!
//! ```text
//! 1f ff 81 03 01 ..     an item: kept
//! 07 ff 82 09 2c ..     an item with a changed byte: left out, up to where items go on
//! 07 ff 82 01 2c ..     items: kept
//! ```
//!
//! [`salvage`] keeps what it can of bytes, and [`salvage_all`] of an input; what they leave out is said in [`Gap`]s.
//! [`run_salvage`] is the run of the program, [`run_salvage_behind`] that with the types of another stream, [`report`]
//! what they tell on standard error, and [`kept_line`] how `gob why` tells what they would keep.
#![tactic(auto)]

mod again;
mod behind;
mod frame;
mod front;
mod gap;
mod item;
mod keeping;
mod kept_types;
mod later;
pub mod laws;
mod lines;
mod run;
mod search;
mod streams;

pub use behind::run_salvage_behind;
pub use gap::Gap;
pub use keeping::Salvaged;
pub use lines::{kept_line, report};
pub use run::{run_salvage, salvage_all};
pub use streams::salvage;
