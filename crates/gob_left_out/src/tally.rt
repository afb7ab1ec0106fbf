//! How many values leave out which fields.

ghost use Rattle.std.specs.Prelude.{◌≡◌, ◌↔◌, ◌+◌, ◌<◌, ◌≤◌, ◌++◌, ◌∷◌, [], length, slice_get};
ghost use Rattle.std.specs.Prelude.{IsTrue, List, OnErr, OnOk};
ghost use Rattle.std.specs.Option.{option_copied, option_map};
ghost use Rattle.indexmap.specs.IndexMap.{spare};
ghost use Rattle.gob_left_out.specs.LeftOut.{Row};
ghost use Rattle.gob_left_out.specs.Machine.Tallying.{with_row};
ghost use Rattle.gob_left_out.specs.Tally.{tally_of, tallied};

use crate::field::UnwantedField;
use crate::noted::LeftOut;
use gob_match::TypeStep;
use gob_num::Memory;
use indexmap::IndexMap;
use std::alloc::Global;
use std::marker::Model;

/// A field that values leave out.
#[derive(Drop)]
pub struct TalliedField {
    /// The steps to it, where it was first met.
    pub path: Vec<TypeStep>,
    /// How many of the values leave it out, and at most `u64::MAX`.
    pub values: u64,
}

/// The fields that values leave out, each once, in the order in which they were first met. Display writes the line that
/// the program prints of them, without the line feed.
#[derive(Drop)]
pub struct Tally {
    rows: IndexMap<UnwantedField, TalliedField>,
}

impl Model for Tally {
    ghost use Rattle.std.specs.Prelude.{List};
    ghost use Rattle.gob_left_out.specs.Tally.{TallyRow};

    ghost Value = { List TallyRow };

    ghost view = { λ s. s.rows.entries };
}

impl Tally {
    /// That of no value.
    pub fn new(alloc: Global) -> Tally
        ensures { result ≡ [] }
    {
        Tally {
            rows: IndexMap::new(alloc),
        }
    }

    /// Adds what one value more leaves out. On `Memory` the tally is as it was.
    pub fn add(&mut self, left: LeftOut) -> Result<(), Memory>
        ensures tallied { OnOk result ((all : List (List Row)) → self.old ≡ tally_of all
            → self.new ≡ tally_of (all ++ left ∷ [])) }
        ensures kept { OnErr result (self.new ≡ self.old) }
    {
        self.rows.reserve(left.rows.len())?;
        for (field, path) in left.rows {
            add_row(&mut self.rows, field, path);
        }
        Ok(())
    }

    /// How many fields there are.
    pub fn len(&self) -> usize
        ensures { result ≡ length self.now }
    {
        self.rows.len()
    }

    /// Whether the values leave out nothing.
    pub fn is_empty(&self) -> bool
        ensures { IsTrue result ↔ (self.now ≡ []) }
    {
        self.rows.is_empty()
    }

    /// The field of this place in the order, counted from 0.
    pub fn field_at(&self, place: usize) -> Option<&TalliedField>
        ensures { option_copied result ≡ option_map tallied (slice_get self.now place) }
    {
        let (_, field) = self.rows.get_index(place)?;
        Some(field)
    }
}

// Counts one more value that leaves out the field, for which there is room.
fn add_row(
    rows: &mut IndexMap<UnwantedField, TalliedField>,
    field: UnwantedField,
    path: Vec<TypeStep>,
)
    requires { 0 < spare rows.old }
    ensures row { rows.new.entries ≡ with_row rows.old.entries (field, path) }
    ensures room { spare rows.old ≤ spare rows.new + 1 }
{
    if let Some(known) = rows.get_mut(&field) {
        known.values = known.values.saturating_add(1);
        return;
    }
    let first = TalliedField { path, values: 1 };
    let Ok(_) = rows.insert(field, first) else {
        unreachable!()
    };
}
