//! Tests of numbers, types, values, tidy forms, matching and renames, by their public calls alone. Each row is one of
//! docs/FORMAT.md, or worked out by hand from it. What the rows of a list say behind what they are, stands before the
//! list: numbers, a value, bytes, and what is due.
#![tactic(auto)]

#[cfg(test)]
mod descriptions;
#[cfg(test)]
mod lists;
#[cfg(test)]
mod matching;
#[cfg(test)]
mod memory;
#[cfg(test)]
mod numbers;
#[cfg(test)]
mod renames;
#[cfg(test)]
mod tables;
#[cfg(test)]
mod texts;
#[cfg(test)]
mod tidied;
#[cfg(test)]
mod values;
#[cfg(test)]
mod whole;
