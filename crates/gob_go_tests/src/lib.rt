//! Tests of gob_go, gob_counted, gob_go_writer by their public calls: what no proof sees. They stand in
//! a crate of their own, so that these are proved once and their edits don't wait for them.
#![tactic(auto)]

#[cfg(test)]
mod counted;
#[cfg(test)]
mod faults;
#[cfg(test)]
mod hoisted;
#[cfg(test)]
mod putting;
#[cfg(test)]
mod readers;
#[cfg(test)]
mod refusals;
#[cfg(test)]
mod rows;
#[cfg(test)]
mod session_tests;
#[cfg(test)]
mod sessions;
#[cfg(test)]
mod streams;
#[cfg(test)]
mod tidied;
#[cfg(test)]
mod walks;
#[cfg(test)]
mod written;
