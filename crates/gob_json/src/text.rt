//! The line of a value, written straight from the bytes that spell it: no tree is made, and nothing is kept of a
//! part once its text stands.

mod between;
mod block;
mod digits;
mod escape;
mod exact;
mod gathered;
mod heads;
mod integers;
mod leaf;
mod out;
mod piece;
mod plain;
mod whole;

pub use exact::Exact;
pub use gathered::PartOut;
pub use out::TextOut;
pub use whole::{line_of_whole, put_head, send_line};
