//! What `gob why` says, and what is left where a device fails.

mod explained;
mod faults;
