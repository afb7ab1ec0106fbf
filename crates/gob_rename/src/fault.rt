//! Why fields can't be renamed.

ghost use Rattle.std.specs.Prelude.{◌≡◌};

use gob_num::Memory;

/// Why a word says nothing of a field.
#[derive(Clone, Copy, Debug, PartialEq, Eq)]
pub enum WordFault {
    /// No equals sign stands between two names.
    NoEqualsSign,
    /// One of its names is empty.
    EmptyName,
}

/// Why words say nothing of fields.
#[derive(Clone, Copy, Debug, PartialEq, Eq)]
pub enum WordsFault {
    /// One of the words doesn't: no earlier one.
    Word {
        /// Which one, counted from 0.
        number: usize,
        /// Why.
        fault: WordFault,
    },
    /// No memory was had.
    Memory,
}

impl From<Memory> for WordsFault {
    ghost use Rattle.std.specs.Prelude.{◌≡◌};
    ghost use Rattle.gob_rename.specs.declared.fault.WordsFault.TheVariants as fault;

    ghost from_gives = { λ _ given. given ≡ fault.Memory };

    fn from(_: Memory) -> WordsFault {
        WordsFault::Memory
    }
}

/// Why a word for a field doesn't fit the wanted types.
#[derive(Clone, Copy, Debug, PartialEq, Eq)]
pub enum Misfit {
    /// No wanted struct that it tells of has a field of the new name.
    NoField,
    /// A wanted struct with that field has one of the old name too.
    OldNameTaken,
}

/// Why no table is made in which the fields are renamed.
#[derive(Clone, Copy, Debug, PartialEq, Eq)]
pub enum RenameFault {
    /// One of the words doesn't fit the wanted types.
    Misfits {
        /// Which one, counted from 0.
        number: usize,
        /// Why.
        misfit: Misfit,
    },
    /// No memory was had.
    Memory,
}

impl From<Memory> for RenameFault {
    ghost use Rattle.std.specs.Prelude.{◌≡◌};
    ghost use Rattle.gob_rename.specs.declared.fault.RenameFault.TheVariants as fault;

    ghost from_gives = { λ _ given. given ≡ fault.Memory };

    fn from(_: Memory) -> RenameFault {
        RenameFault::Memory
    }
}
