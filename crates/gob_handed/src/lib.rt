//! Items of a stream, handed out as flat nodes and bytes, for programs in other languages.
//!
//! A [`Reader`] takes a stream in any pieces, in the grammar of its session: the documented format, or all that Go's
//! encoder writes. The items that are whole wait in it, until [`Reader::take`] writes as many of them as there is room
//! for into three slices: a [`Head`] for each item, and the nodes and the bytes of all of them, one item's behind
//! another's. A value's nodes are those of its tape, and behind them of each interface in it that holds a value the
//! name of its type and the nodes of that; a definition's are its kind and name and the types that it names
//! (docs/LIBRARY.md, Flat nodes):
//!
//! ```text
//! heads    define 65: 3 nodes from 0, 7 bytes from 0     value of 65: 3 nodes from 3, 0 bytes from 7
//! nodes    struct, name 5 from 0                         struct, 2 fields, 3 nodes
//!            type 2, name 1 from 5                         field 0: int 44
//!            type 2, name 1 from 6                         field 1: int 66
//! bytes    P o i n t X Y
//! ```
//!
//! Where all that Go's encoder writes is read, a value that stands whole in a piece and holds no others goes from its
//! bytes to nodes in one walk; any other goes part by part.
//!
//! The definitions that stand in a value are handed out in front of it. [`Reader::shape`] writes the nodes of one
//! type's definition, at any time and for the types of descriptions too. An [`AnyReader`] is a reader of either
//! grammar.
#![tactic(auto)]

mod any_reader;
mod definition;
mod exact;
mod flat;
mod flat_visitor;
mod go;
mod handing;
mod handout;
mod hands;
mod head;
mod kinds;
mod reader;
mod room;

pub use any_reader::AnyReader;
pub use hands::Hands;
pub use head::{HandedOut, Head};
pub use reader::Reader;
