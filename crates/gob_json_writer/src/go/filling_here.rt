//! Which filling is due, as the parts of a value are gone over.

ghost use Rattle.std.specs.Prelude.{ℕ};
ghost use Rattle.std.specs.Option.{option_copied};
ghost use Rattle.serde_json.specs.Data.{Data};
ghost use Rattle.gob_types.specs.Table.{Table};
ghost use Rattle.gob_json_writer.specs.Machine.Holding.{AreDue, GapsShow, IsPassed};

use gob_go::Filling;

/// The fillings of a value that are due.
#[derive(Drop)]
pub(crate) struct Due<'a> {
    /// All fillings of the value.
    pub(crate) fillings: &'a [Filling],
    /// For each how many parts begin before its nil, behind that of the filling before.
    pub(crate) gaps: Vec<u64>,
    /// The number of the next filling.
    pub(crate) next: usize,
    /// How many parts come before its nil.
    pub(crate) ahead: u64,
}

impl<'a> Due<'a> {
    /// Before the first part of the value.
    pub(crate) fn new(fillings: &'a [Filling], gaps: Vec<u64>) -> Due<'a>
        ensures { (T : Table) (N : ℕ → Data) → GapsShow T 0 fillings.entry.now gaps.items N → AreDue T result N 0 }
    {
        let ahead = gaps.first().copied().unwrap_or(0);
        Due {
            fillings,
            gaps,
            next: 0,
            ahead,
        }
    }

    /// Goes past a part: what fills it, if it is a nil that is filled.
    pub(crate) fn pass(&mut self) -> Option<&'a Filling>
        ensures { (T : Table) (N : ℕ → Data) (n : ℕ) → AreDue T self.old N n
            → IsPassed T self.new (option_copied result) N n }
    {
        if self.ahead > 0 {
            self.ahead -= 1;
            return None;
        }
        let filling = self.fillings.get(self.next)?;
        self.next += 1;
        self.ahead = self.gaps.get(self.next).copied().unwrap_or(0);
        Some(filling)
    }
}
