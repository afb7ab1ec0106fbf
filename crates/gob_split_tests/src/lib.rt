//! Tests of streams that are split into parts, and of joined ones, by the public calls: rows worked out by hand from
//! docs/FORMAT.md over bytes that Go's encoder wrote, and what no row shows: parts that fail, want of memory.
#![tactic(auto)]

#[cfg(test)]
mod definitions;
#[cfg(test)]
mod faults;
#[cfg(test)]
mod held;
#[cfg(test)]
mod joins;
#[cfg(test)]
mod rows;
#[cfg(test)]
mod splits;
