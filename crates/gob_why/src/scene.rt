//! What is known where a stream is refused.

ghost use Rattle.std.specs.Prelude.{◌≡◌, ◌-◌, take};
ghost use Rattle.gob_why.specs.Explain.{explained_up_to};

use crate::kept::Kept;
use crate::marks::front_to;
use gob_forms::head_of;
use gob_stream::{Limits, Refusal};
use gob_types::{Reason, Table};

/// No stream defines a type under a lower id.
pub(crate) const FIRST_DEFINED: u64 = 64;

/// A refusal, and what is known of the stream up to there.
#[derive(Drop)]
pub(crate) struct Scene<'a> {
    pub(crate) refusal: Refusal,
    pub(crate) table: &'a Table,
    pub(crate) limits: Limits,
    pub(crate) kept: &'a Kept,
}

impl<'a> Scene<'a> {
    /// The bytes from the start of the refused item on, as far as they were read.
    pub(crate) fn item(&self) -> &'a [u8] {
        self.kept.item.as_slice()
    }

    /// The place of the refusal in them.
    pub(crate) fn place(&self) -> usize {
        let place = self.refusal.place.saturating_sub(self.kept.begin);
        place.min(self.item().len() as u64) as usize
    }

    /// Whether its count or its type number is refused.
    pub(crate) fn is_in_head(&self) -> bool {
        head_of(self.before()).is_none()
    }

    /// The first bytes of the item, up to the place to which it is explained: that of the refusal, or the end of a
    /// description whose bytes are well formed.
    pub(crate) fn explained(&self) -> &'a [u8]
        ensures { result.now
            ≡ take (explained_up_to self.now.refusal - self.now.kept.now.begin) self.now.kept.now.item.items }
    {
        let most = explained_to(&self.refusal).saturating_sub(self.kept.begin);
        front_to(self.kept.item.as_slice(), most as usize)
    }

    /// The bytes before that place.
    pub(crate) fn before(&self) -> &'a [u8] {
        front_to(self.item(), self.place())
    }
}

// Up to which offset a refused item is explained.
fn explained_to(refusal: &Refusal) -> u64
    ensures { result ≡ explained_up_to refusal.now }
{
    match refusal.reason {
        Reason::KindCount | Reason::WrongId | Reason::BadReference | Reason::BadLength =>
            refusal.seen,
        _ => refusal.place,
    }
}
