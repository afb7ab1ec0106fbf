//! Tests of what the commands do, by the public calls of `gob_tool`. What the program shows of a
//! stream is in `interop/rows`; here is what no stream shows: devices that fail, other limits, lines without a stream.
#![tactic(auto)]

#[cfg(test)]
mod checks;
#[cfg(test)]
mod commands;
#[cfg(test)]
mod conversions;
#[cfg(test)]
mod converts;
#[cfg(test)]
mod device_faults;
#[cfg(test)]
mod devices;
#[cfg(test)]
mod faults;
#[cfg(test)]
mod flushes;
#[cfg(test)]
mod go;
#[cfg(test)]
mod large;
#[cfg(test)]
mod large_rewrites;
#[cfg(test)]
mod large_shows;
#[cfg(test)]
mod large_takes;
#[cfg(test)]
mod lines;
#[cfg(test)]
mod memory;
#[cfg(test)]
mod nested;
#[cfg(test)]
mod rewrites;
#[cfg(test)]
mod runs;
#[cfg(test)]
mod streams;
#[cfg(test)]
mod takes;
#[cfg(test)]
mod trials;
