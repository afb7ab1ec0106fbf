//! The bodies of gob items, read as they come.
//!
//! What stands in an item behind its type number is read here, in pieces of any lengths, and told to a builder:
//!
//! ```text
//! 01 2c 01 42 00                the value of an item of type 65, Point { X int, Y int }
//!
//! 01        the first delta     enter struct, field 0
//! 2c        an int's number     number int 44
//! 01        the next delta      field 1
//! 42        an int's number     number int 66
//! 00        the end             leave
//!
//! 00 02 67 6f                   a string: the tag, as for each value that is no struct, the count, two raw bytes
//! ```
//!
//! - [`BodyReader`] reads one body. It refuses at the place and for the reason that the grammar gives, in the
//!   call that brings the last byte that shows it. It keeps a stack of the open parts, and nothing of what is
//!   only announced. It reads on to the end, or up to the number of an interface, which the caller fills: then
//!   [`Reached`] tells how far it came.
//! - A [`Builder`] makes something of what is told: [`TreeBuilder`] the value, [`CheckBuilder`] its [`Counts`],
//!   and [`SkipBuilder`] nothing.
//! - [`laws`] has the laws that readers, writers and builders rely on: of bodies, of events and weights, of readers.
#![tactic(auto)]

mod basic_parts;
mod builder;
mod check_builder;
mod event;
mod fields;
mod frame;
mod frames;
pub mod laws;
mod next;
mod part;
mod reached;
mod reader;
mod run;
mod skip;
mod skip_builder;
mod state;
mod stop;
mod to_nil;
mod tree_builder;
mod tree_part;
mod tree_stack;

pub use builder::{Builder, Stores};
pub use check_builder::{CheckBuilder, Counts};
pub use event::{GroupKind, RawKind};
pub use reached::Reached;
pub use reader::{BodyReader, Progress};
pub use skip_builder::SkipBuilder;
pub use stop::Stop;
pub use tree_builder::TreeBuilder;
