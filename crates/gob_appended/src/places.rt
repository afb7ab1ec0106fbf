//! Where in the input the bytes stood that were given.

ghost use Rattle.std.specs.Prelude.{◌≡◌, ◌+◌, ◌-◌, ◌^◌, ◌<◌, OnErr, OnOk, min, true, ℕ};
ghost use Rattle.gob_appended.specs.Cuts.{Leaves, are_before, has_cut, left_out_at};

use std::alloc::{AllocError, Global};

// Something was left out at this offset among the bytes that were given, and so many bytes before it.
#[derive(Clone, Copy, Drop)]
struct Cut {
    at: u64,
    before: u64,
}

/// How many bytes were given and left out, and where: a cut for each place, whatever was left out there.
#[derive(Drop)]
pub(crate) struct Places {
    given: u64,
    left_out: u64,
    cuts: Vec<Cut>,
    // The last cut is behind all that was given.
    is_cut: bool,
    ghost ordered: { are_before given cuts.items ≡ true },
    ghost last: { is_cut ≡ true → has_cut given cuts.items ≡ true },
    ghost given_fits: { given < 2 ^ 64 },
    ghost left_out_fits: { left_out < 2 ^ 64 },
}

impl Places {
    /// None.
    pub(crate) fn new(alloc: Global) -> Places
        ensures given { result.given ≡ 0 }
        ensures left_out { result.left_out ≡ 0 }
    {
        Places {
            given: 0,
            left_out: 0,
            cuts: Vec::new(alloc),
            is_cut: false,
        }
    }

    /// The offset in the input of what comes. It stays at 2^64-1 once there.
    pub(crate) fn reached(&self) -> u64 {
        self.given.saturating_add(self.left_out)
    }

    /// How many bytes were left out.
    pub(crate) fn left_out(&self) -> u64
        ensures { result ≡ self.now.left_out }
    {
        self.left_out
    }

    /// So many bytes were given.
    pub(crate) fn give(&mut self, count: usize)
        ensures given { self.new.given ≡ min (self.old.given + count) (2 ^ 64 - 1) }
        ensures left_out { self.new.left_out ≡ self.old.left_out }
        ensures cuts { self.new.cuts.items ≡ self.old.cuts.items }
    {
        self.given = self.given.saturating_add(count as u64);
        self.is_cut = false;
    }

    /// So many bytes were left out. Without memory for that nothing is noted.
    pub(crate) fn leave(&mut self, count: usize) -> Result<(), AllocError>
        ensures given { self.new.given ≡ self.old.given }
        ensures left_out { OnOk result (self.new.left_out ≡ min (self.old.left_out + count) (2 ^ 64 - 1)) }
        ensures places { OnOk result (Leaves self.old.given self.old.left_out self.new.left_out self.old.cuts.items
            self.new.cuts.items) }
        ensures kept { OnErr result ((self.new.left_out ≡ self.old.left_out)
            × (self.new.cuts.items ≡ self.old.cuts.items)) }
    {
        self.cut()?;
        self.left_out = self.left_out.saturating_add(count as u64);
        Ok(())
    }

    // Cuts behind all that was given, if that isn't done.
    fn cut(&mut self) -> Result<(), AllocError>
        ensures given { self.new.given ≡ self.old.given }
        ensures left_out { self.new.left_out ≡ self.old.left_out }
        ensures cut { OnOk result (self.new.is_cut ≡ true) }
        ensures places { OnOk result ((more : ℕ) → Leaves self.old.given self.old.left_out more self.old.cuts.items
            self.new.cuts.items) }
        ensures kept { OnErr result (self.new.cuts.items ≡ self.old.cuts.items) }
    {
        if self.is_cut {
            return Ok(());
        }
        let cut = Cut {
            at: self.given,
            before: self.left_out,
        };
        self.cuts.push(cut)?;
        self.is_cut = true;
        Ok(())
    }

    /// The offset in the input of this offset among the bytes that were given.
    pub(crate) fn in_input(&self, place: u64) -> u64
        ensures { result ≡ min (place + left_out_at self.now.left_out self.now.cuts.items place) (2 ^ 64 - 1) }
    {
        place.saturating_add(self.left_out_at(place))
    }

    // How many bytes were left out before it.
    fn left_out_at(&self, place: u64) -> u64
        ensures { result ≡ left_out_at self.now.left_out self.now.cuts.items place }
    {
        for cut in &self.cuts {
            if cut.at > place {
                return cut.before;
            }
        }
        self.left_out
    }
}
