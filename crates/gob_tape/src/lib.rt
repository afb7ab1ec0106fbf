//! Values kept flat.
//!
//! A tape has one node for each part of a value, in the order of their first bytes, and the raw bytes of all parts in
//! one pool. So a value of any depth takes two vectors, is let go of at once, and is gone over from front to back:
//!
//! ```text
//! 02 01 61 02 01 61 04          the map "a": 1, "a": 2
//!
//! 0   map, 2 pairs, 5 nodes                      pool   61 61
//! 1     string, 1 byte from 0 of the pool
//! 2     int, unsigned number 2
//! 3     string, 1 byte from 1 of the pool
//! 4     int, unsigned number 4
//! ```
//!
//! - [`TapeBuilder`] makes a [`Tape`] while a body is read.
//! - [`Tape::root`] is a [`View`] of the whole value, and [`View::children`] goes over the views of its parts.
//! - [`Tape::spell_tape`] appends the spelling, in one pass over the nodes, and [`Tape::to_value`] makes the value.
//! - [`tidy_tape`] makes a tape of the tidy form of a value of a type.
//! - [`laws`] has what the definitions in `specs/` entail: a tape means one value.
#![tactic(auto)]

mod flat;
mod kind;
pub mod laws;
mod node;
mod raw;
mod spelling;
mod tape;
mod tape_builder;
mod tidying;
mod values;
mod view;

pub use flat::FlatNode;
pub use kind::ValueKind;
pub use tape::Tape;
pub use tape_builder::TapeBuilder;
pub use tidying::tidy_tape;
pub use view::{Children, View};
