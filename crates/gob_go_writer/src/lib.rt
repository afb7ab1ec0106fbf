//! Items of streams of Go's encoder, written: as they were read, or as a caller made them; and their tidy form.
//!
//! [`write_item`] appends the bytes of an item as a [`GoSession`](gob_go::GoSession) gave it, and [`write_again`] those
//! of all items of a stream. A value is spelled level by level: the skeleton, where a name, definitions, a type number
//! and a value stand in the place of each nil that is filled. A segment ends behind each definition that stands in a
//! value, and a count is put in front of each:
//!
//! ```text
//! skeleton  01 02 01 00 01 08 00          place 3
//! spelled   01 02 01 | 09 "main.Wrap" ff83 .. | ff84 23 .. 0a .. | 01 08 00
//! segments  33 .. 01 02 01 09 "main.Wrap" ff83 ..      34 ff84 23 .. 0a .. 01 08 00
//! ```
//!
//! A [`GoWriter`] writes a stream of items that a caller made. It appends an item exactly where some bytes are this
//! item there, and refuses any other one: it spells the item, reads its own bytes, and compares what it reads.
//!
//! [`hoist_item`] gives each definition in a value an item of its own, in front of the value's: a stream of such items
//! has the types of the other one, and no definition in a value.
//!
//! [`tidy_item`] makes the tidy form of an item.
//!
//! [`laws`] says that hoisted items have bytes where the item has, and that what is put is read.
#![tactic(auto)]

mod again;
mod hoist;
mod item;
pub mod laws;
mod plain;
mod put_fault;
mod same;
mod segments;
mod tidy;
mod value;
mod writer;

pub use again::write_again;
pub use hoist::hoist_item;
pub use item::write_item;
pub use put_fault::PutFault;
pub use tidy::tidy_item;
pub use writer::GoWriter;
