//! What a step is taken in.

ghost use Rattle.std.specs.Prelude.{◌≡◌, ◌+◌, ◌-◌, ◌≤◌, ◌^◌, ◌<◌, min, length};
ghost use Rattle.gob_stream.specs.Bounds.{greatest_depth};
ghost use Rattle.gob_go.specs.Machine.Parts.{GoesOn};

use gob_stream::{Fault, Limits, refusal};
use gob_types::Reason;
use std::alloc::Global;

/// What a step is taken in. The types of the stream aren't part of it, since a step adds to them.
#[derive(Clone, Copy)]
pub(crate) struct Around {
    /// Where memory comes from.
    pub(crate) alloc: Global,
    /// The limits of the stream.
    pub(crate) limits: Limits,
    /// How many bytes of the stream were taken.
    pub(crate) taken: u64,
    /// Whether values are kept, as skeletons and what fills their nils.
    pub(crate) keeps: bool,
}

impl Around {
    /// Behind so many more bytes.
    pub(crate) fn behind(&self, used: usize) -> Around
        requires { self.now.taken + used < 2 ^ 64 }
        ensures taken { result.taken ≡ self.now.taken + used }
        ensures limits { result.limits ≡ self.now.limits }
        ensures keeps { result.keeps ≡ self.now.keeps }
    {
        Around {
            alloc: self.alloc,
            limits: self.limits,
            taken: self.taken + used as u64,
            keeps: self.keeps,
        }
    }

    /// How many bytes of the piece stand before the end of the segment.
    pub(crate) fn room(&self, end: u64, piece: &[u8]) -> usize
        requires { self.now.taken ≤ end }
        ensures { result ≡ min (end - self.now.taken) (length piece.now) }
    {
        (end - self.taken).min(piece.len() as u64) as usize
    }

    /// Whether a segment that ends there goes on behind the bytes that were taken. What is expected in it, and isn't
    /// there, is refused with its last byte.
    pub(crate) fn goes_on(&self, end: u64) -> Result<(), Fault>
        requires { self.now.taken ≤ end }
        ensures { GoesOn self.now.taken end result }
    {
        if self.taken == end {
            return Err(Fault::Refused(refusal(end, end, Reason::Short)));
        }
        Ok(())
    }

    /// The greatest depth of a value or a description: no deeper than what is kept as a tree.
    pub(crate) fn depth(&self) -> u64
        ensures { result ≡ min self.now.limits.depth greatest_depth }
    {
        self.limits.depth().min(Limits::GREATEST_DEPTH)
    }
}
