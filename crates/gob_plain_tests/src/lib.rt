//! Tests of `gob_plain` by its public calls: the JSON of values of each kind, and the same where memory may be refused.
//! What is due was worked out by hand from what Go's encoding/json makes of such values; where that has no text, as of
//! a NaN, from docs/FORMAT.md.
#![tactic(auto)]

#[cfg(test)]
mod filled_values;
#[cfg(test)]
mod go;
#[cfg(test)]
mod opaque_rows;
#[cfg(test)]
mod rows;
#[cfg(test)]
mod values;
#[cfg(test)]
mod zero_rows;
