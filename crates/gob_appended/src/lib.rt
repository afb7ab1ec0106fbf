//! A reader of gob streams to which several encoders of one program wrote.
//!
//! Each encoder sends a type before its first value of it, so a file to which a program appended in three runs defines
//! each type three times, mostly in the very same bytes. [`Appended`] hands on what another reader gives without the
//! definitions that are said again, and tells where in the input a byte stood that it gave, and how many encoders
//! wrote.
#![tactic(auto)]

mod appended;
mod encoders;
mod front;
mod known;
mod laws;
mod left;
mod places;
mod waiting;

pub use appended::Appended;
pub use laws::{definitions_are_said_once, nothing_else_is_lost, offsets_are_those_of_the_input};

#[cfg(test)]
mod tests;
