//! What is kept of damaged bytes, where devices fail too.

mod behind;
mod faults;
mod rows;
mod runs;
