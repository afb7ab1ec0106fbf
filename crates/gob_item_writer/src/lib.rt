//! A writer of a stream whose items are given as flat nodes and bytes, as a reader for C hands them out. What it writes
//! is kept until it is taken.
//!
//! ```text
//! define 65  struct Point | type 2 X | type 2 Y        an item, and what stands in the stream for it
//!            1f ff 81 03 01 01 05 50 6f 69 6e 74 ..
//! value 65   struct 2 fields, 3 nodes | int | int
//!            07 ff 82 01 2c 01 42 00
//! ```
//!
//! Whatever is given, what is written is a stream: an item that isn't whole, or that the stream can't go on with, is
//! refused, and nothing of it is written.
#![tactic(auto)]

mod fault;
mod writer;

pub use fault::ItemFault;
pub use writer::ItemWriter;
