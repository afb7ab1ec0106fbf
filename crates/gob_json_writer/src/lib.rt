//! Gob values and definitions told to a writer of JSON, part by part.
//!
//! - [`write_put`] and [`write_tape`] tell it a value with its type: `{"type":65,"value":[3,4]}`; the one of a tree,
//!   the other of a tape.
//! - [`write_filled_tape`] tells it a value of a tape whose interfaces may hold others: [`Nils`] says what stands in
//!   its nils.
//! - [`write_filled`] tells it a value of a stream of Go's encoder with its type, and with what its interfaces hold.
//! - [`tape_of`] and [`gaps_of`] read a skeleton anew: its tape, and in which of its parts the fillings stand.
//! - [`write_definition`] tells it the shape of a type: `{"define":65,"elem":2,"kind":"slice","name":""}`.
//! - [`laws`] has what the definitions in `specs/` entail: each value of a stream of Go's encoder shows one JSON.
//!
//! ```text
//! 0a 10 00 03 69 6e 74 04 02 00 0a        an item: the int 5 in an interface, under the name int
//! {"type":8,"value":{"interface":{"name":"int","type":2,"value":5}}}
//! ```
#![tactic(auto)]

mod definition_json;
mod go;
mod held;
pub mod laws;
mod leaf;
mod nils;
mod part_types;
mod tape_json;
mod value_json;

pub use definition_json::write_definition;
pub use go::{gaps_of, tape_of, write_filled};
pub use held::Held;
pub use leaf::write_text;
pub use nils::{Empty, Nils};
pub use part_types::{element_of, fields_of, key_of, name_at, type_at};
pub use tape_json::{write_filled_tape, write_tape};
pub use value_json::write_put;
