//! Numbers as gob streams spell them.
//!
//! Every count, tag, delta, id and value in a gob stream is a number, and a number is one to nine bytes:
//!
//! ```text
//! 07                           7: below 128 a number is its own byte
//! ff 80                        128: one digit to base 256 follows, as the head 256 - 1 says
//! fe 01 00                     256: two digits follow, the high one first
//! f8 ff ff ff ff ff ff ff ff   2^64 - 1: eight digits, which is the most
//! ```
//!
//! There are as few digits as hold the number, so each number has one spelling. A signed number `i` is
//! spelled as the unsigned `2 * i`, or `2 * (-i - 1) + 1` where it is below 0. A float is spelled by its
//! 64-bit pattern with the bytes in the other order, since the low bytes of common floats are 0.
//!
//! - [`write_uint`], [`write_int`] and [`write_pattern`] append the one spelling.
//! - [`take_uint`] takes a whole number from the front of a piece of a stream, and [`Number`] one byte after
//!   another, for a number that is cut in two. Both refuse what is no spelling at the byte that shows it.
//! - [`uint_at`] gives a number that stands whole at a place of bytes, [`uint_end`] where it ends, and [`uints_end`]
//!   where so many end. They judge as the others do, and are made for what is read over and over. [`known_uint_at`]
//!   gives one that is known to stand there.
//! - [`to_signed`] and [`to_pattern`] turn the unsigned number that was read into the one that it stands for.
//! - [`laws`] states what follows from the definitions of the spellings alone.
#![tactic(auto)]

pub mod laws;
mod memory;
mod number;
mod pattern;
mod place;
mod signed;
mod unsigned;

pub use memory::Memory;
pub use number::{Number, Step};
pub use pattern::{to_pattern, write_pattern};
pub use place::{known_uint_at, uint_at, uint_end, uints_end};
pub use signed::{to_signed, write_int};
pub use unsigned::{Taken, take_uint, write_uint};
