//! Streams that are counted as they come, and of which nothing is kept.
//!
//! A [`Counter`] takes a stream in any pieces, and tells at any time how much there is in its whole items. Values that
//! stand whole in a piece are passed without building anything; of any other item the session keeps what it needs, and
//! lets it go once the item is whole. [`check_bytes`] counts a stream that is held in memory.
#![tactic(auto)]

mod apart;
mod check;
mod counter;
mod go_apart;
pub mod laws;
mod strict_apart;
mod tally;

pub use apart::TellsApart;
pub use check::{Checked, check_bytes};
pub use counter::Counter;
pub use tally::Tally;
