//! What a reader expects next.

use gob_types::TypeId;

/// What the next bytes are.
#[derive(Clone, Copy)]
pub(crate) enum Next {
    /// What a body of the type begins with, before anything is looked up.
    Top {
        /// The type of the body's value.
        id: TypeId,
    },
    /// A number.
    Number(NextNumber),
    /// Raw bytes of the part that is read.
    Raw {
        /// How many, above 0.
        left: u64,
    },
}

/// What an expected number is.
#[derive(Clone, Copy)]
pub(crate) enum NextNumber {
    /// The tag before the body's value, which is no struct.
    Tag {
        /// The value's type.
        id: TypeId,
    },
    /// The first number of a part.
    Part {
        /// The part's type.
        id: TypeId,
    },
    /// The imaginary part of a complex number.
    Second {
        /// The pattern of the real part.
        pattern: u64,
    },
    /// The delta behind a field of the innermost open struct.
    Delta,
}

/// Where the reader has moved with what it took.
#[derive(Clone, Copy)]
pub(crate) enum Moved {
    /// To the next expected item, or on within the one that was expected.
    ToNext,
    /// Past the whole value.
    PastValue,
}
