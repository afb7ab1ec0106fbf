//! The open parts of a value.

use crate::next::NextNumber;
use gob_types::TypeId;

/// A part that has begun and has parts, as far as its reader needs to know it.
#[derive(Clone, Copy)]
pub(crate) enum Frame {
    /// A slice or an array, of which an element is read.
    Many {
        /// The type of the elements.
        elem: TypeId,
        /// How many elements are to come after this one.
        left: u64,
    },
    /// A map, of which a key is read.
    Key {
        /// The type of the keys.
        key: TypeId,
        /// The type of the elements.
        elem: TypeId,
        /// How many pairs are to come after this one.
        left: u64,
    },
    /// A map, of which the element of a key is read.
    Elem {
        /// The type of the keys.
        key: TypeId,
        /// The type of the elements.
        elem: TypeId,
        /// How many pairs are to come after this one.
        left: u64,
    },
    /// A struct, of which a field is read.
    Fields {
        /// The struct's type.
        id: TypeId,
        /// The number of that field, and one more.
        next: u64,
    },
}

impl Frame {
    ghost use Rattle.std.specs.Prelude.{◌≡◌, MatchOption};
    ghost use Rattle.gob_read.specs.Machine.Frames.{IsOver, FrameGoesOn, item_of};

    /// The open part behind the part that is read, where another part, or the end of the fields, is to come there.
    #[inline(always)]
    pub(crate) fn next(self) -> Option<Frame>
        ensures { MatchOption result (IsOver self) (λ next. FrameGoesOn self next) }
    {
        match self {
            Frame::Many { elem, left } => {
                if left == 0 {
                    return None;
                }
                Some(Frame::Many {
                    elem,
                    left: left - 1,
                })
            }
            Frame::Key { key, elem, left } => Some(Frame::Elem { key, elem, left }),
            Frame::Elem { key, elem, left } => {
                if left == 0 {
                    return None;
                }
                Some(Frame::Key {
                    key,
                    elem,
                    left: left - 1,
                })
            }
            Frame::Fields { id, next } => Some(Frame::Fields { id, next }),
        }
    }

    /// The number that is expected where the next part in this one is to come.
    #[inline(always)]
    pub(crate) fn item(self) -> NextNumber
        ensures { result ≡ item_of self }
    {
        match self {
            Frame::Many { elem, left: _ } => NextNumber::Part { id: elem },
            Frame::Key {
                key,
                elem: _,
                left: _,
            } => NextNumber::Part { id: key },
            Frame::Elem {
                key: _,
                elem,
                left: _,
            } => NextNumber::Part { id: elem },
            Frame::Fields { id: _, next: _ } => NextNumber::Delta,
        }
    }
}
