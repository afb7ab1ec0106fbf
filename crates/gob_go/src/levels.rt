//! The item of a value under way: a level for each value that is open.

ghost use Rattle.std.specs.Prelude.{◌≡◌, ◌+◌, ◌-◌, ◌<◌, ◌≤◌, [], IfOk, min};
ghost use Rattle.gob_stream.specs.Bounds.{within_trees, greatest_depth};
ghost use Rattle.gob_go.specs.Machine.Parts.{LevelIsNew, Opens, NilIsShallow};
ghost use Rattle.gob_go.specs.Machine.Stages.{IsBeforeNilByte, NilAnswers, IsBehindValue, EndAnswers};
ghost use Rattle.gob_go.specs.Machine.Stages.{IsBeforeFilling, FillingAnswers};

use crate::around::Around;
use crate::level::Level;
use gob_num::Memory;
use gob_stream::Fault;
use gob_types::{Table, TypeId};
use std::mem;

/// The values of an item that are open, and what the limit of the item leaves.
pub(crate) struct Levels {
    /// The value that is read now.
    pub(crate) innermost: Level,
    /// Those in whose interfaces it stands, the innermost last.
    pub(crate) outer: Vec<Level>,
    /// How many bytes the limit of an item leaves for further segments.
    pub(crate) left: u64,
}

// Not derived, so that a drop is one call in the proofs of what owns one.
impl Drop for Levels {
    fn drop(self) {
        let Levels {
            innermost: _,
            outer: _,
            left: _,
        } = self;
    }
}

/// Whether the item goes on behind a value.
#[derive(Clone, Copy)]
pub(crate) enum Goes {
    /// More of the innermost value comes next.
    On,
    /// The item is whole.
    ToEnd,
}

impl Levels {
    /// Before the value of an item, whose first segment begins behind the bytes taken and ends there.
    pub(crate) fn new(around: &Around, id: TypeId, end: u64, left: u64) -> Result<Levels, Memory>
        requires { around.now.taken ≤ end }
        ensures innermost { IfOk result (λ levels. LevelIsNew id (min around.now.limits.depth greatest_depth) end
            (end - around.now.taken) levels.innermost) }
        ensures outer { IfOk result (λ levels. levels.outer.items ≡ []) }
        ensures left { IfOk result (λ levels. levels.left ≡ left) }
    {
        let innermost = Level::new(around, id, around.depth(), end)?;
        Ok(Levels {
            innermost,
            outer: Vec::new(around.alloc),
            left,
        })
    }

    /// Opens a value of the type in the interface at hand. Its first segment begins behind the bytes taken and ends
    /// there.
    pub(crate) fn open(&mut self, around: &Around, id: TypeId, end: u64) -> Result<(), Memory>
        requires order { around.now.taken ≤ end }
        requires shallow { NilIsShallow self.old.innermost }
        ensures { IfOk result (λ _. Opens self.old self.new id end (end - around.now.taken)) }
    {
        let depth = self.innermost.depth - self.innermost.reader.depth_of_nil();
        let inner = Level::new(around, id, depth, end)?;
        let outer = mem::replace(&mut self.innermost, inner);
        self.outer.push(outer)?;
        Ok(())
    }

    /// Takes the number of the interface at hand as nil, behind whose byte the bytes taken end.
    pub(crate) fn fill(&mut self, around: &Around, table: &Table) -> Result<Goes, Fault>
        requires { IsBeforeNilByte around.now.keeps (within_trees around.now.limits) table.now around.now.taken
            self.old }
        ensures { NilAnswers around.now.keeps (within_trees around.now.limits) table.now around.now.taken self.old
            self.new result }
    {
        if self.innermost.fill(around, table)? {
            return self.end_values(around, table);
        }
        Ok(Goes::On)
    }

    /// Ends the innermost value, which is whole, and those around it that are whole with it.
    pub(crate) fn end_values(&mut self, around: &Around, table: &Table) -> Result<Goes, Fault>
        requires { IsBehindValue around.now.keeps (within_trees around.now.limits) table.now around.now.taken self.old }
        ensures { EndAnswers around.now.keeps (within_trees around.now.limits) table.now around.now.taken self.old
            self.new result }
    {
        while let Some(outer) = self.outer.pop() {
            if !self.fill_outer(outer, around, table)? {
                return Ok(Goes::On);
            }
        }
        Ok(Goes::ToEnd)
    }

    // The innermost value, which is whole, fills the nil at hand of the one around it. True where that is whole too.
    fn fill_outer(&mut self, outer: Level, around: &Around, table: &Table) -> Result<bool, Fault>
        requires { IsBeforeFilling around.now.keeps (within_trees around.now.limits) table.now around.now.taken
            self.old outer }
        ensures steps { FillingAnswers around.now.keeps (within_trees around.now.limits) table.now around.now.taken
            self.old self.new outer result }
        ensures outer { self.new.outer.items ≡ self.old.outer.items }
    {
        let inner = mem::replace(&mut self.innermost, outer);
        self.innermost.hold(around, inner)?;
        self.innermost.fill(around, table)
    }

    /// The value that is read now.
    pub(crate) fn into_innermost(self) -> Level
        ensures { result ≡ self.innermost }
    {
        let Levels {
            innermost,
            outer: _,
            left: _,
        } = self;
        innermost
    }
}
