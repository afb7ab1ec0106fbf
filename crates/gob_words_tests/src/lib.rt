//! Tests of the words of the command line, by the public calls of `gob_words`.
#![tactic(auto)]

#[cfg(test)]
mod conversions;
#[cfg(test)]
mod files;
#[cfg(test)]
mod help;
#[cfg(test)]
mod lines;
#[cfg(test)]
mod paths;
#[cfg(test)]
mod splits;
#[cfg(test)]
mod takings;
#[cfg(test)]
mod views;
#[cfg(test)]
mod words;
