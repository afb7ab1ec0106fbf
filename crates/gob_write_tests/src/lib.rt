//! Tests of what `gob_write` makes of lines, by its public call: each kind of line, worked out by hand from
//! docs/FORMAT.md, and what no line shows: devices that fail, want of memory, the limit for lines.
#![tactic(auto)]

#[cfg(test)]
mod devices;
#[cfg(test)]
mod failures;
#[cfg(test)]
mod go;
#[cfg(test)]
mod lines;
#[cfg(test)]
mod made;
#[cfg(test)]
mod memory;
#[cfg(test)]
mod runs;
#[cfg(test)]
mod sourced;
