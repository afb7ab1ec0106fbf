//! A match that is kept while the stream of its types goes on.

ghost use Rattle.std.specs.Prelude.{◌≡◌};
ghost use Rattle.gob_match.specs.Calls.Matched.{IsKeptMatch, IsMatchOf, IsSound, kept_type};
ghost use Rattle.gob_match.specs.Calls.Matched.{stream_of, stream_type, wanted_type, wanted_types_of};

use crate::conversion::Conversion;
use crate::found::Found;
use crate::matched::Matched;
use gob_types::{Shapes, TypeId};

/// What a match holds without the tables that its types stand in. While a reader goes on its table can't be borrowed:
/// so a match is kept from one value to the next, and stands [`over`](KeptMatch::over) the table again for each.
#[derive(Drop)]
pub struct KeptMatch {
    id: TypeId,
    found: Found,
    conversions: Vec<Conversion>,
}

impl KeptMatch {
    /// What this match holds. It takes no memory.
    pub fn of<S: Shapes, T: Shapes>(matched: Matched<'_, S, T>) -> KeptMatch
        ensures { let m = matched.entry in IsSound S.table T.table m
            → IsKeptMatch (S.table (stream_of m)) (T.table (wanted_types_of m)) (stream_type m) (wanted_type m) result }
    {
        let Matched {
            stream: _,
            id,
            wanted: _,
            wanted_id: _,
            found,
            conversions,
        } = matched;
        KeptMatch {
            id,
            found,
            conversions,
        }
    }

    /// The type of the stream that was matched.
    pub fn id(&self) -> TypeId
        ensures { result ≡ kept_type self.now }
    {
        self.id
    }

    /// The match over tables in which its types are what they were. It takes no memory.
    pub fn over<'a, S: Shapes, T: Shapes>(
        self,
        stream: &'a S,
        wanted: &'a T,
        wanted_id: TypeId,
    ) -> Matched<'a, S, T>
        ensures of { IsMatchOf stream.now (kept_type self) wanted.now wanted_id result }
        ensures sound { IsKeptMatch (S.table stream.now) (T.table wanted.now) (kept_type self) wanted_id self
            → IsSound S.table T.table result }
    {
        let KeptMatch {
            id,
            found,
            conversions,
        } = self;
        Matched {
            stream,
            id,
            wanted,
            wanted_id,
            found,
            conversions,
        }
    }
}
