//! How values are written.

ghost use Rattle.std.specs.Prelude.{◌≡◌};
ghost use Rattle.gob_plain.specs.Filled.{within};

use crate::opaque::Content;
use gob_types::TypeId;

/// What the values of a type are said to be.
#[derive(Clone, Copy, Debug, PartialEq, Eq)]
pub struct Taken {
    /// The type. Of a type that doesn't encode itself nothing is said.
    pub id: TypeId,
    /// What the bytes of its values are taken for.
    pub content: Content,
}

/// How values are written, where there is a choice. The default has none of these.
#[derive(Clone, Copy, Debug, Default, PartialEq, Eq)]
pub struct Style<'a> {
    /// Whether the fields that Go's encoder leaves out are written too, as zeros.
    pub zeros: bool,
    /// Whether each opaque value is written in base64, also a time or a text that is known by its type.
    pub raw: bool,
    /// What the values of these types are, over any guess and over `raw`. Of what is said of a type twice the later
    /// counts.
    pub taken: &'a [Taken],
    /// Whether the pairs of a value that is a map are an array of `[key,element]`, whatever its keys are. Maps within a
    /// value are written as ever.
    pub pairs: bool,
}

impl<'a> Style<'a> {
    /// The style of what a value holds.
    pub(crate) fn within(self) -> Style<'a>
        ensures { result ≡ within self.entry }
    {
        Style {
            zeros: self.zeros,
            raw: self.raw,
            taken: self.taken,
            pairs: false,
        }
    }
}
