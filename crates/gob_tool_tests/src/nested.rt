//! Slices in slices.

use gob_num::{Memory, write_uint};
use gob_stream::Limits;
use std::alloc::Global;

// A slice of itself: an item of 14 bytes.
const NEST: &[u8] = b"\x0d\xff\x81\x02\x01\x02\xff\x82\x00\x01\xff\x82\x00\x00";

/// The definition of a slice of itself, and a value that is so many slices deep: each but the last begins with the
/// byte 1, and the last is the byte 0.
pub(crate) fn nested(alloc: Global, depth: u64) -> Result<Vec<u8>, Memory> {
    let mut bytes = NEST.to_vec(alloc)?;
    write_uint(alloc, depth.saturating_add(3), &mut bytes)?;
    bytes.extend_from_slice(b"\xff\x82\x00")?;
    for _ in 1..depth {
        bytes.push(1)?;
    }
    bytes.push(0)?;
    Ok(bytes)
}

/// The standard limits, but for values of the greatest depth of all where these are asked for.
pub(crate) fn limits_of(is_deep: bool) -> Limits {
    let standard = Limits::standard();
    if is_deep {
        let deepest = Limits::DEEPEST;
        Limits::deep(67108864, deepest, 10000, 68719476736).unwrap_or(standard)
    } else {
        standard
    }
}
