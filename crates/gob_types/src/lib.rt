//! The types of a gob stream.
//!
//! A stream describes its own types. Each type has a number, its type id: the basic types and the types of
//! the descriptions themselves have the ids 1 to 24, and a stream defines its own from 64 on. What a type id
//! stands for is a shape: a name, and whether its values are basic, arrays, slices, structs, maps or opaque.
//!
//! ```text
//! 2   int                                 a basic type
//! 65  struct Point { X 2, Y 2 }           two fields, both of type 2
//! 66  slice of 65                         a shape names other types by their ids
//! 67  array of 1 element of type 67       defined, but without a finite value
//! ```
//!
//! - [`Table`] holds the types of one stream, in the order of arrival: the base table that each stream has,
//!   and behind it the definitions, each of a new id. [`Table::ready`] says whether values of a type can be
//!   read.
//! - [`Shapes`] is any table that gives the shape of a type id, and [`Shape::definable`] says which shapes a
//!   description can give.
//! - [`Reason`] says why bytes or values are refused, and [`Denial`] that they are, or that memory was wanting.
//! - [`laws`] has what stays true of a table when it grows.
#![tactic(auto)]

mod base;
mod basic;
mod definable;
mod definitions;
mod denial;
mod entries;
mod grounds;
mod id;
mod kind;
pub mod laws;
mod learning;
mod name;
mod places;
mod reaching;
mod readiness;
mod reason;
mod sets;
mod shapes;
mod table;
mod type_set;
mod waits;

pub use basic::Basic;
pub use denial::Denial;
pub use id::TypeId;
pub use kind::{Field, Fields, Kind, Marshal, Shape};
pub use name::Name;
pub use readiness::NotReady;
pub use reason::Reason;
pub use shapes::Shapes;
pub use table::{DefineFault, Table};
