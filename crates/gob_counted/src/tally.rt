//! How much there is in a stream.

/// How much there is in the whole items in front of a stream.
#[derive(Clone, Copy, Debug, PartialEq, Eq)]
pub struct Tally {
    /// How many items: definitions and values.
    pub items: u64,
    /// How many types they define. In a stream of Go's encoder those too that are defined within a value, in front of
    /// what an interface holds, which are no items.
    pub types: u64,
    /// How many of the items are values.
    pub values: u64,
    /// How many bytes they are: the offset in the stream at which the next item begins.
    pub bytes: u64,
}

impl Tally {
    /// That of no items.
    pub const NONE: Tally = Tally {
        items: 0,
        types: 0,
        values: 0,
        bytes: 0,
    };
}
