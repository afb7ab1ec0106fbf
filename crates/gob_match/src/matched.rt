//! Two types that match.

ghost use Rattle.std.specs.Prelude.{◌≡◌, ◌<◌, Some, length, slice_get};
ghost use Rattle.gob_match.specs.Calls.Matched.{pairs_of};

use crate::conversion::Conversion;
use crate::found::Found;
use crate::pair::TypePair;
use gob_types::{Shapes, TypeId};

/// Two types that match, with the tables that they stand in, and what becomes of a value of each pair of types
/// that their shapes lead to: what [`receive`](crate::receive) needs. It takes memory for each such pair, and
/// for each name that two structs of a pair share.
#[derive(Drop)]
pub struct Matched<'a, S, T> {
    pub(crate) stream: &'a S,
    pub(crate) id: TypeId,
    pub(crate) wanted: &'a T,
    pub(crate) wanted_id: TypeId,
    // A closed list of pairs of types, the two types first.
    pub(crate) found: Found,
    // The conversion of the pair at each place.
    pub(crate) conversions: Vec<Conversion>,
}

impl<S: Shapes, T: Shapes> Matched<'_, S, T> {
    /// How many pairs of types there are that the shapes of the two types lead to, these two among them.
    pub fn pair_count(&self) -> usize
        ensures { result ≡ length (pairs_of self.now) }
    {
        self.found.count()
    }

    /// The pair at a place, counted from 0 in the order in which they are led to.
    pub fn pair_at(&self, place: usize) -> TypePair
        requires { place < length (pairs_of self.now) }
        ensures { slice_get (pairs_of self.now) place ≡ Some result }
    {
        self.found.pair_at(place)
    }
}
