//! Items of values that stand whole one behind another in front of a piece, and define nothing.

ghost use Rattle.std.specs.Prelude.{◌≡◌, ◌+◌, ◌<◌, ◌≤◌, length, Bool};
ghost use Rattle.gob_types.specs.Defined.{types};
ghost use Rattle.gob_stream.specs.Bounds.{within_trees};
ghost use Rattle.gob_go.specs.Calls.Session.{HasFailed, IsBetweenItems, ReadsItems, ReadsItemsSo, StaysAsItWas};
ghost use Rattle.gob_go.specs.Calls.Session.{table_of, taken_of, limits_of};
ghost use Rattle.gob_go.specs.Whole.{AreFilledBefore};

use crate::filled_whole::is_filled_whole;
use crate::session::GoSession;
use gob_stream::{Limits, Passed, whole_value, whole_values};
use gob_types::Table;

impl GoSession {
    /// Goes past the items of values that stand whole at the front of the piece, one behind another, and define
    /// nothing, also in front of what interfaces hold. It keeps nothing of the values, and takes no memory. It may pass
    /// fewer than stand there, or none, which says nothing of the piece: [`GoSession::step`] reads on, and refuses what
    /// is to be refused. After a fault it passes none.
    pub fn pass_values(&mut self, piece: &[u8]) -> Passed
        ensures passed { ReadsItems self.old self.new result.items result.used piece.now }
        ensures any { (keep : Bool) → ReadsItemsSo keep self.old self.new result.items result.used piece.now }
        ensures between { 0 < result.used → IsBetweenItems self.new }
        ensures both { 0 < result.items → IsBetweenItems self.old × IsBetweenItems self.new }
        ensures stays { HasFailed self.old → (result.items ≡ 0) × (result.used ≡ 0) × StaysAsItWas self.old self.new }
        ensures taken { taken_of self.new ≡ taken_of self.old + result.used }
        ensures types { table_of self.new ≡ table_of self.old }
        ensures limits { limits_of self.new ≡ limits_of self.old }
    {
        if !self.is_between() {
            return Passed::NONE;
        }
        let passed = filled_values(&self.types, &self.limits, self.taken, piece);
        self.go_past(&piece[..passed.used]);
        passed
    }
}

// The items of values that stand whole at the front of the piece and define nothing, where the piece begins between two
// items at this offset of a stream that has these types and limits.
fn filled_values(table: &Table, limits: &Limits, offset: u64, piece: &[u8]) -> Passed
    ensures { AreFilledBefore (within_trees limits.now) (types table.now) offset result.items piece.now result.used }
{
    // its contract says that no stream is so long that a sum wraps
    let _most = limits.stream();
    let mut passed = Passed::NONE;
    'runs: for _ in 0..piece.len() {
        let begin = passed.used;
        let run = next_values(table, limits, offset + begin as u64, &piece[begin..]);
        if run.items == 0 {
            return passed;
        }
        passed = Passed {
            items: passed.items + run.items,
            used: begin + run.used,
        };
    }
    passed
}

// The next of them: those in which no interface holds anything, or else those up to one that isn't whole.
fn next_values(table: &Table, limits: &Limits, offset: u64, piece: &[u8]) -> Passed
    ensures { AreFilledBefore (within_trees limits.now) (types table.now) offset result.items piece.now result.used }
{
    let unfilled = whole_values(table, limits, Limits::GREATEST_DEPTH, offset, piece);
    if unfilled.items > 0 {
        return unfilled;
    }
    values_looked_into(table, limits, offset, piece)
}

// Those of which each is looked at alone, and what its interfaces hold too.
fn values_looked_into(table: &Table, limits: &Limits, offset: u64, piece: &[u8]) -> Passed
    ensures { AreFilledBefore (within_trees limits.now) (types table.now) offset result.items piece.now result.used }
{
    // its contract says that no stream is so long that a sum wraps
    let _most = limits.stream();
    let depth = limits.depth().min(Limits::GREATEST_DEPTH);
    let mut passed = Passed::NONE;
    'values: for _ in 0..piece.len() {
        let begin = passed.used;
        let Some(next) = whole_value(table, limits, offset + begin as u64, &piece[begin..]) else {
            return passed;
        };
        if !is_filled_whole(table, next.id, next.body, depth) {
            return passed;
        }
        passed = Passed {
            items: passed.items + 1,
            used: begin + next.used,
        };
    }
    passed
}
