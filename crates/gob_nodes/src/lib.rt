//! Values and definitions that a caller gives as flat nodes and bytes, as a reader for C hands them out: judged, and
//! spelled.
//!
//! ```text
//! nodes  list 2 elements, 3 nodes | int first 2 | int first 4        of the type []int
//! bytes  00 02 02 04                                                 the value, behind its tag
//! ```
//!
//! Whatever the nodes and the bytes are, [`spell_nodes`] spells the value of the type that they say, or tells the node
//! at which they say none, and [`shape_of_nodes`] makes the shape of a definition. Each node is looked at once. Bytes
//! may stand in several parts, and [`size_of_bytes`] tells how many they are in all of them.
#![tactic(auto)]

mod definition;
mod fault;
mod held;
pub mod laws;
mod nodes;
mod part;
mod size;
mod value;

pub use definition::shape_of_nodes;
pub use fault::NodesFault;
pub use nodes::Nodes;
pub use size::size_of_bytes;
pub use value::spell_nodes;
