//! The Go source of the definitions of streams, and the same where memory may be refused.

mod rows;
mod sources;
