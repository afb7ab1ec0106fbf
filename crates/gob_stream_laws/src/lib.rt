//! What the contracts of gob_stream say together, each as the contract of one function: what is written is read back
//! ([`write_and_read`]), a stream that comes in pieces has the outcome of all its bytes ([`read_pieces`]), and an item
//! takes exactly its bytes ([`read_prefix`]).
#![tactic(auto)]

mod pieces;
mod prefix;
mod read_back;

pub use pieces::read_pieces;
pub use prefix::read_prefix;
pub use read_back::{Stopped, write_and_read};
