//! A piece of text with its numbers as texts.

ghost use Rattle.std.specs.Prelude.{◌≡◌, ◌+◌, ◌*◌, ◌<◌, ◌≤◌, ◌++◌, IfOk, OnErr, OnOk, length, vec_capacity, vec_len};
ghost use Rattle.json_number_texts.specs.Texts.{place_after, with_texts};

use crate::place::Place;
use std::alloc::AllocError;

/// Appends a piece of JSON text with a quote before and behind each number, and gives the place behind the piece. A
/// number that the piece ends in gets the quote behind it with the piece that comes next.
///
/// What is appended has twice as many bytes at the most, and memory is asked for where there is no room for so many. On
/// its want some of it may stand there.
pub fn push_texts(place: Place, piece: &[u8], out: &mut Vec<u8>) -> Result<Place, AllocError>
    ensures texts { OnOk result (out.new.items ≡ out.old.items ++ with_texts place piece.now) }
    ensures behind { IfOk result (λ behind. behind ≡ place_after place piece.now) }
    ensures memory { OnErr result (vec_capacity out.old < vec_len out.old + 2 * length piece.now) }
    ensures room { vec_capacity out.old ≤ vec_capacity out.new }
{
    let mut place = place;
    let mut start = 0;
    for (i, byte) in piece.iter().enumerate() {
        if place.is_edge(*byte) {
            out.extend_from_slice(&piece[start..i])?;
            out.push(b'"')?;
            start = i;
        }
        place = place.after(*byte);
    }
    out.extend_from_slice(&piece[start..])?;
    Ok(place)
}
