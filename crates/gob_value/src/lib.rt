//! The values of a gob stream.
//!
//! A value is a tree: numbers, byte strings and text at its leaves, and lists, maps and structs above them.
//! A struct keeps which of its fields are present, since an absent field isn't the same as a present zero.
//! Which values a type has, and how they are spelled, is told by its shape:
//!
//! ```text
//! int 3                       06
//! string "go"                 02 67 6f
//! Point { X 22, Y 33 }        01 2c 01 42 00      each field behind its delta, and 0 at the end
//! Point { Y 33 }              02 42 00
//! ```
//!
//! - [`fits`] says whether a value is one of a type, and shallow enough.
//! - [`spell`] appends the one spelling of a value that is.
//! - [`shape_from`] gives the shape that a description gives, and [`describe`] a description of a shape.
//!   [`shape_from_loosely`] takes a description that Go wrote under another id, too.
//! - [`is_whole`] says whether bytes are a value of a type, and keeps nothing of it. [`is_tidy_whole`] says so of one
//!   that is its own tidy form. [`whole_end`] says where a value ends that stands in more bytes, [`whole_elements`] and
//!   [`whole_entries`] how much of a list or a map stands whole in a piece of it.
//! - [`number_at`] reads a number where it stands in a body, [`number_end`] says where it ends, and [`field_number`]
//!   tells the field by the delta.
//! - [`tidy`] leaves out of each struct the fields that Go's encoder leaves out.
//! - [`laws`] has the laws that readers and writers rely on: of spellings, of descriptions and of the tidy form.
#![tactic(auto)]

mod depth;
mod described_shape;
mod description;
mod description_fields;
mod fault;
mod fitting;
pub mod laws;
mod leaf;
mod number;
mod spelling;
mod tidying;
mod top;
mod value;
mod value_bytes;
mod whole;
mod whole_parts;

pub use described_shape::{shape_from, shape_from_loosely};
pub use description::describe;
pub use fault::{Misfit, ShapeFault, SpellFault};
pub use fitting::fits;
pub use number::{field_number, number_at, number_end};
pub use spelling::spell;
pub use tidying::{is_dropped, tidy};
pub use top::has_structs;
pub use value::Value;
pub use whole::{is_tidy_whole, is_whole, whole_end};
pub use whole_parts::{WholeParts, whole_elements, whole_entries};
