//! The runs over streams of Go's encoder, by the public calls of `gob_tool`.

mod checks;
mod faults;
mod memory;
mod rewrites;
mod runs;
mod shows;
