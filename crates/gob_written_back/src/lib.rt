//! What `write` makes of the lines that `show` prints of a stream: that stream, each description as a writer makes it.
//! No code rests on it, so it is a crate of its own.
//!
//! ```text
//! 03 04 00 06                             an item: the int 3
//! {"type":2,"value":3}                    its line, of which the same item is written
//! ```
#![tactic(auto)]

pub mod laws;
