//! The JSON lines of a stream, read back: what a line says.
//!
//! ```text
//! {"type":2,"value":3}                    a line
//! 03 04 00 06                             its item: the int 3
//! ```
#![tactic(auto)]

mod definition;
mod definition_parts;
mod fault;
pub mod laws;
mod leaf;
mod part;
mod path;

pub use definition::read_shape;
pub use fault::{Due, LineFault, Wrong};
pub use leaf::{
    int_of, is_same, read_basic, read_hex, read_opaque, read_text, read_uint, take_array,
    take_array_end, take_key, take_object_end, uint_of,
};
pub use part::{field_from, take_name};
pub use path::{PathStep, path_text};
