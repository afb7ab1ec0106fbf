//! Tests of gob_stream by its public calls: what no proof sees. They stand in a crate of their own, so that
//! gob_stream is proved once and its edits don't wait for them.
#![tactic(auto)]

#[cfg(test)]
mod devices;
#[cfg(test)]
mod lists;
#[cfg(test)]
mod memory;
#[cfg(test)]
mod readers;
#[cfg(test)]
mod reading;
#[cfg(test)]
mod rows;
#[cfg(test)]
mod values;
#[cfg(test)]
mod whole;
#[cfg(test)]
mod writing;
