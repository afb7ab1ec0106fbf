//! What may be an item, by its first bytes alone.

ghost use Rattle.std.specs.Prelude.{◌<◌, ◌≤◌, length, IfSome, IsTrue};
ghost use Rattle.gob_salvage.specs.Evidence.{IsFrame};
ghost use Rattle.gob_salvage.specs.Again.{IsNumbered};
ghost use Rattle.gob_salvage.specs.Salvage.{HasTypeAt, StandsIn};

use gob_num::{to_signed, uint_at};
use gob_stream::Limits;

/// What may be an item: a count whose bytes are there, and a type number among them.
#[derive(Clone, Copy)]
pub(crate) struct Frame {
    /// Where it ends.
    pub end: usize,
    /// Where the type number begins.
    pub head: usize,
    /// The type number: below 0 where a type is defined.
    pub number: i64,
    /// Where the body begins, behind that number.
    pub body: usize,
}

impl Frame {
    /// The body, in the bytes that the item may be one of. None: the count ends before it.
    pub fn body_in(self, bytes: &[u8]) -> Option<&[u8]> {
        bytes.get(self.body..self.end)
    }
}

/// What may be an item at the place.
pub(crate) fn frame_at(limits: &Limits, bytes: &[u8], at: usize) -> Option<Frame>
    ensures number { IfSome result (λ frame. HasTypeAt bytes.now at frame.number) }
    ensures frame { IfSome result (λ frame. IsFrame bytes.now at frame.end) }
    ensures numbered { IfSome result (λ frame.
        IsNumbered limits.now.item bytes.now at frame.head frame.body frame.end frame.number) }
    ensures behind { IfSome result (λ frame. at < frame.end) }
    ensures within { IfSome result (λ frame. frame.end ≤ length bytes.now) }
{
    let (count, head) = uint_at(bytes, at)?;
    if count < 2 || count > limits.item() || count > (bytes.len() - head) as u64 {
        return None;
    }
    let (number, body) = uint_at(bytes, head)?;
    Some(Frame {
        end: head + count as usize,
        head,
        number: to_signed(number),
        body,
    })
}

/// Where bytes stand in others.
#[derive(Clone, Copy)]
pub(crate) struct Span {
    pub begin: usize,
    pub end: usize,
}

/// Whether the bytes have this piece at one of the places.
pub(crate) fn has_piece(bytes: &[u8], places: &[Span], piece: &[u8]) -> bool
    ensures { IsTrue result → StandsIn piece.now bytes.now }
{
    for place in places {
        if let Some(found) = bytes.get(place.begin..place.end) {
            if found == piece {
                return true;
            }
        }
    }
    false
}
