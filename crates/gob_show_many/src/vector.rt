//! What is to be shown.

use crate::pieces::Pieces;
use gob_stream::Limits;

/// A stream, the limits under which it is read, and the pieces in which it comes.
///
/// It is written as seven numbers of eight bytes, high byte first, and then the bytes of the stream. The numbers are
/// the limits `item`, `depth`, `types` and `stream`, the length of the first piece, that of each other piece, and how
/// many bytes the stream has.
#[derive(Drop)]
pub(crate) struct Vector<'a> {
    pub(crate) limits: Limits,
    pub(crate) pieces: Pieces<'a>,
}

impl<'a> Vector<'a> {
    /// The vector at the front of these bytes, and what follows it. None where there is no whole one, or where its
    /// limits are none.
    pub(crate) fn split_from(bytes: &'a [u8]) -> Option<(Vector<'a>, &'a [u8])> {
        let (item, bytes) = split_number(bytes)?;
        let (depth, bytes) = split_number(bytes)?;
        let (types, bytes) = split_number(bytes)?;
        let (stream, bytes) = split_number(bytes)?;
        let (first, bytes) = split_number(bytes)?;
        let (other, bytes) = split_number(bytes)?;
        let (length, bytes) = split_number(bytes)?;
        let (stream_bytes, behind) = bytes.split_at_checked(length as usize)?;
        let limits = Limits::new(item, depth, types, stream)?;
        let pieces = Pieces::new(stream_bytes, first as usize, other as usize);
        Some((Vector { limits, pieces }, behind))
    }
}

// The number at the front, in eight bytes.
fn split_number(bytes: &[u8]) -> Option<(u64, &[u8])> {
    let (number, behind) = bytes.split_first_chunk::<8>()?;
    Some((u64::from_be_bytes(*number), behind))
}
