//! Items that define nothing, which are gone past where they stand whole at the front of a piece.

ghost use Rattle.std.specs.Prelude.{◌≡◌, ◌+◌, length, IsTrue, Bool};
ghost use Rattle.gob_go.specs.Calls.Session.{HasItemNext, HasItemsNext, IsBetweenItems};
ghost use Rattle.gob_go.specs.Calls.Session.{HasFailed, ReadsAllSo, ReadsOn, ReadsOnSo, limits_of, table_of, taken_of};

use crate::count::ItemCount;
use crate::session::GoSession;
use crate::stage::Stage;

impl GoSession {
    /// Whether no byte of an item is under way, and there was no fault.
    #[inline(always)]
    pub(crate) fn is_between(&self) -> bool
        ensures between { IsTrue result → IsBetweenItems self.now }
        ensures failed { IsTrue result → ¬ HasFailed self.now }
    {
        match &self.stage {
            Stage::Count(count) => count.number.rest.begin == self.taken,
            _ => false,
        }
    }

    /// Goes past these bytes, which the caller has found to be an item of the format that defines nothing.
    pub fn pass(&mut self, item: &[u8])
        requires between { IsBetweenItems self.old }
        requires item { HasItemNext self.old item.now }
        ensures passed { ReadsOn self.old self.new item.now }
        ensures any { (keep : Bool) → ReadsOnSo keep self.old self.new item.now }
        ensures between { IsBetweenItems self.new }
        ensures taken { taken_of self.new ≡ taken_of self.old + length item.now }
        ensures types { table_of self.new ≡ table_of self.old }
        ensures limits { limits_of self.new ≡ limits_of self.old }
    {
        self.go_past(item);
    }

    /// Goes past these bytes, which are items that define nothing.
    pub(crate) fn go_past(&mut self, items: &[u8])
        requires between { IsBetweenItems self.old }
        requires items { HasItemsNext self.old items.now }
        ensures passed { (keep : Bool) → ReadsAllSo keep self.old self.new items.now }
        ensures between { IsBetweenItems self.new }
        ensures taken { taken_of self.new ≡ taken_of self.old + length items.now }
        ensures types { table_of self.new ≡ table_of self.old }
        ensures limits { limits_of self.new ≡ limits_of self.old }
    {
        // its contract says that no stream is so long that the sum wraps
        let _most = self.limits.stream();
        self.taken += items.len() as u64;
        self.stage = Stage::Count(ItemCount::new(self.taken));
    }
}
