//! Streams of Go's encoder joined: one stream whose values are those of several, in order.
//!
//! Ids are those of a process, so two streams may mean two types by one id, or one type by two ids. What is known of a
//! stream's types, [`KnownTypes`], says which id of the joined stream stands for each of its ids. A type that has the
//! same shape there, with what it leads to, is shared; one whose id is taken by another shape gets the least free id:
//!
//! ```text
//! first.gob    65: struct { Name string }   66: []65            a value of 66
//! second.gob   65: []66                     66: struct { X int }    a value of 65
//! joined       65, 66 as in the first; 67: []68, 68: struct { X int }; the values of 66 and of 67
//! ```
//!
//! A skeleton has no ids, so a value keeps its skeletons, and only its type, and the types of what its interfaces hold,
//! are renamed. Definitions stand in items of their own, in front of the first value that they come with.
//!
//! [`take_item`] takes an item of a stream into the one that a [`GoWriter`](gob_go_writer::GoWriter) writes, and
//! [`join_file`] all items of a stream. [`take_held`] takes in a value that was made to be one of a type of the joined
//! stream, whose interfaces hold values of the other stream: of those alone the types are renamed, and defined by need.
#![tactic(auto)]

mod fault;
mod fields;
mod join_fault;
mod needed;
mod numbering;
mod renaming;
mod run;
mod same;
mod shape;
mod taking;
mod value;

pub use fault::TakeFault;
pub use join_fault::JoinFault;
pub use run::join_file;
pub use taking::{KnownTypes, take_held, take_item};
