//! Which types match, and values received.

mod clashes;
mod large;
mod received;
mod rows;
