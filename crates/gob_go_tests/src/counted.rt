//! Streams counted as they come.

mod counts;
mod rows;
