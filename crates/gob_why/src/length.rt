//! A length before a stream.

use crate::cause::Cause;
use crate::front_cause::FRONT;
use crate::trial::tried;
use gob_num::Memory;
use gob_stream::Limits;
use std::alloc::Global;

// In how many bytes a length stands, the more usual first.
const SIZES: [usize; 4] = [4, 8, 2, 1];

// So many frames tell enough of those that follow.
const ENOUGH: u64 = 64;

// How a length is spelled.
#[derive(Clone, Copy)]
struct Spelt {
    bytes: usize,
    is_high_first: bool,
}

/// A length of what follows: of all other bytes, or of a frame behind which others stand up to the end.
pub(crate) fn length_cause(
    alloc: Global,
    front: &[u8],
    limits: Limits,
) -> Result<Option<Cause>, Memory> {
    for bytes in SIZES {
        for is_high_first in [true, false] {
            let spelt = Spelt {
                bytes,
                is_high_first,
            };
            if is_length(alloc, front, spelt, limits)? {
                return Ok(Some(Cause::Length {
                    bytes,
                    is_high_first,
                }));
            }
        }
    }
    Ok(None)
}

// Whether a length spelled so stands at the front, and the bytes that it counts are items.
fn is_length(alloc: Global, front: &[u8], spelt: Spelt, limits: Limits) -> Result<bool, Memory> {
    if !spelt.are_frames(front) {
        return Ok(false);
    }
    let rest = front.get(spelt.bytes..).unwrap_or(&[]);
    let count = spelt.number_at(front, 0).unwrap_or(0);
    let there = count.min(rest.len() as u64) as usize;
    let trial = tried(alloc, &rest[..there], limits)?;
    Ok(trial.is_front() && (trial.end == there || count > there as u64))
}

impl Spelt {
    // The length that stands at the place, where that is whole.
    fn number_at(self, bytes: &[u8], place: usize) -> Option<u64> {
        let number = bytes.get(place..)?.get(..self.bytes)?;
        Some(if self.is_high_first {
            high_first(number)
        } else {
            low_first(number)
        })
    }

    // The other end first.
    fn turned(self) -> Spelt {
        Spelt {
            bytes: self.bytes,
            is_high_first: !self.is_high_first,
        }
    }

    // Whether the bytes are frames, each with its length before it, up to the end. Where no more was read of a long
    // input, one that goes on behind what was read is the last, if its length isn't less with the other end first.
    fn are_frames(self, bytes: &[u8]) -> bool {
        let mut place = 0usize;
        for _ in 0..ENOUGH {
            let Some(number) = self.number_at(bytes, place) else {
                return place == bytes.len() && place > 0;
            };
            let begin = place.saturating_add(self.bytes);
            let left = bytes.len().saturating_sub(begin) as u64;
            if number > left {
                return bytes.len() >= FRONT && Some(number) < self.turned().number_at(bytes, place);
            }
            place = begin.saturating_add(number as usize);
        }
        true
    }
}

// The number that the bytes are.
fn high_first(bytes: &[u8]) -> u64 {
    let mut number = 0u64;
    for byte in bytes {
        number = number.wrapping_mul(256).wrapping_add(u64::from(*byte));
    }
    number
}

fn low_first(bytes: &[u8]) -> u64 {
    let mut number = 0u64;
    for byte in bytes.iter().rev() {
        number = number.wrapping_mul(256).wrapping_add(u64::from(*byte));
    }
    number
}
