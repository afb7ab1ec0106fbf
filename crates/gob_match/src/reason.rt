//! Why two types clash.

ghost use Rattle.std.specs.Prelude.{◌≡◌};

use std::fmt;

/// Why the shapes of a pair of types don't match. Display writes its name.
#[derive(Clone, Copy, Debug, PartialEq, Eq)]
pub enum ClashReason {
    /// One of the two structs has two fields of one name.
    RepeatedName,
    /// No name is in both structs.
    NoCommonField,
    /// The shapes are of different kinds, or of different basic types.
    DifferentKind,
    /// The arrays have different lengths.
    DifferentLength,
}

impl ClashReason {
    ghost use Rattle.gob_match.specs.Reasons.{clash_number};
    ghost use Rattle.gob_match.specs.ClashText.{clash_name};

    /// The number of the reason. It goes on where those of [`gob_types::Reason`] end.
    pub fn number(&self) -> u8
        ensures { result ≡ clash_number self.now }
    {
        match self {
            ClashReason::RepeatedName => 31,
            ClashReason::NoCommonField => 32,
            ClashReason::DifferentKind => 33,
            ClashReason::DifferentLength => 34,
        }
    }

    // The reason's name, which is that of its variant.
    fn name(&self) -> &'static str
        ensures { result.now ≡ clash_name self.now }
    {
        match self {
            ClashReason::RepeatedName => "RepeatedName",
            ClashReason::NoCommonField => "NoCommonField",
            ClashReason::DifferentKind => "DifferentKind",
            ClashReason::DifferentLength => "DifferentLength",
        }
    }
}

impl fmt::Display for ClashReason {
    ghost use Rattle.std.specs.Prelude.{Some};
    ghost use Rattle.gob_match.specs.ClashText.{clash_name};

    ghost output = { λ reason. Some (clash_name reason) };

    fn fmt<W: fmt::Write>(&self, f: &mut fmt::Formatter<W>) -> fmt::Result {
        f.write_str(self.name())
    }
}
