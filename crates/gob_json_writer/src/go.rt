//! The JSON of values of streams of Go's encoder, with what their interfaces hold.

mod filled_json;
mod filling_here;
mod holding;
mod level;

pub use filled_json::write_filled;
pub use level::{gaps_of, tape_of};
