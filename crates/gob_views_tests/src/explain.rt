//! The lines of bodies, and the path of their end.

mod bodies;
mod rows;
