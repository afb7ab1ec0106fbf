//! What stands in the nils of a value.

ghost use Rattle.std.specs.Prelude.{◌≡◌, ℕ, ◌+◌, ◌<◌, ◌≤◌, IfOk};
ghost use Rattle.std.specs.Option.{IfSome};
ghost use Rattle.serde_json.specs.Data.{Data, null};
ghost use Rattle.gob_types.specs.Table.{Table};
ghost use Rattle.gob_json_writer.specs.Nils.{HeldShows};

use crate::held::Held;
use std::alloc::{AllocError, Global};

/// What stands in the nils of a value, asked for as its parts are gone over in the order of their first bytes.
pub trait Nils: Drop {
    // They show what the function has, under the table, where the next part has this number.
    ghost shows: { Table → Self → (ℕ → Data) → ℕ → Type 0 };

    // How deep they may hold one another.
    ghost levels: { Self → ℕ };

    /// Goes past the next part: what the interface holds, if that part is an interface which holds a value; none where
    /// it is nil or no interface. After an `Err` nothing is said of the parts to come.
    fn pass(&mut self, alloc: Global) -> Result<Option<Held<Self>>, AllocError>
        ensures shown { IfOk result (λ held. (T : Table) (N : ℕ → Data) (n : ℕ) → shows T self.old N n
            → HeldShows shows T held (N n) × shows T self.new N (n + 1)) }
        ensures inner { IfOk result (λ held. IfSome held (λ h. levels h.nils < levels self.old)) }
        ensures fewer { levels self.new ≤ levels self.old };
}

/// Nils in which nothing stands: each shows as `null`.
#[derive(Drop)]
pub struct Empty;

impl Nils for Empty {
    ghost shows = { λ T nils N n. (m : ℕ) → N m ≡ null };

    ghost levels = { λ nils. 0 };

    fn pass(&mut self, _alloc: Global) -> Result<Option<Held<Empty>>, AllocError> {
        Ok(None)
    }
}
