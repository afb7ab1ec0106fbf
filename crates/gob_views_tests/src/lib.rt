//! Tests of the views, by the public calls of `gob_views`, `gob_why`, `gob_explain`, `gob_source` and `gob_salvage`.
//! The text of each kind of value has its rows in `gob_plain_tests`, what `gob why` says of each reason is tested by
//! `tools/test-why`, and many damaged streams are judged by `tools/judge-salvage`; here are rows by hand, streams of
//! several items, faults, and devices that fail.
#![tactic(auto)]

#[cfg(test)]
mod devices;
#[cfg(test)]
mod each;
#[cfg(test)]
mod ending;
#[cfg(test)]
mod explain;
#[cfg(test)]
mod faults;
#[cfg(test)]
mod flushes;
#[cfg(test)]
mod held;
#[cfg(test)]
mod rows;
#[cfg(test)]
mod runs;
#[cfg(test)]
mod salvage;
#[cfg(test)]
mod source;
#[cfg(test)]
mod why;
