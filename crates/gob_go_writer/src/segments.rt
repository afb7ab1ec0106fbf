//! Segments under way.

ghost use Rattle.std.specs.Prelude.{◌≡◌, ℕ, List, [], ◌∷◌, ◌++◌, OnErr, OnOk};
ghost use Rattle.gob_num.specs.Signed.{IsSigned};
ghost use Rattle.gob_num.specs.Spelled.{Appends};
ghost use Rattle.gob_filled.specs.Filled.{cut, AreSegments};
ghost use Rattle.gob_go_writer.specs.Machine.Letters.{HasLetters, IsSegment, Takes, TakesSpelled};
ghost use Rattle.gob_go_writer.specs.Spelling.{SpellsName};

use gob_num::{Memory, write_int, write_uint};
use std::alloc::Global;

/// The segments of a value or an item, as far as they came.
pub(crate) struct Segments {
    /// Those that have ended, each behind its count.
    pub(crate) ended: Vec<u8>,
    /// The bytes of the last one, whose count isn't known yet.
    pub(crate) last: Vec<u8>,
}

// Not derived, so that a drop is one call in the proofs of what owns one.
impl Drop for Segments {
    fn drop(self) {
        let Segments { ended: _, last: _ } = self;
    }
}

impl Segments {
    /// Nothing came.
    pub(crate) fn new(alloc: Global) -> Segments
        ensures { HasLetters result [] }
    {
        Segments {
            ended: Vec::new(alloc),
            last: Vec::new(alloc),
        }
    }

    /// Goes on with these bytes.
    pub(crate) fn put(&mut self, bytes: &[u8]) -> Result<(), Memory>
        ensures { OnOk result (Takes self.old self.new bytes.now) }
    {
        self.last.extend_from_slice(bytes)?;
        Ok(())
    }

    /// Goes on with the spelling of a number.
    pub(crate) fn put_int(&mut self, alloc: Global, number: i64) -> Result<(), Memory>
        ensures { OnOk result (TakesSpelled (IsSigned number) self.old self.new) }
    {
        write_int(alloc, number, &mut self.last)
    }

    /// Goes on with a name, behind its count.
    pub(crate) fn put_name(&mut self, alloc: Global, name: &[u8]) -> Result<(), Memory>
        ensures { OnOk result (TakesSpelled (SpellsName name.now) self.old self.new) }
    {
        write_uint(alloc, name.len() as u64, &mut self.last)?;
        self.last.extend_from_slice(name)?;
        Ok(())
    }

    /// Ends the last segment, and begins the next.
    pub(crate) fn cut(&mut self, alloc: Global) -> Result<(), Memory>
        ensures { OnOk result (Takes self.old self.new (cut ∷ [])) }
    {
        write_segment(alloc, &self.last, &mut self.ended)?;
        self.last.clear();
        Ok(())
    }

    /// Appends all segments, with which the last one ends. After `Memory` the vector may have grown.
    pub(crate) fn append_to(self, alloc: Global, out: &mut Vec<u8>) -> Result<(), Memory>
        ensures ok { OnOk result ((letters : List ℕ) → HasLetters self letters
            → Appends (AreSegments letters) out.old.items out.new.items) }
        ensures err { OnErr result (Appends (λ _. Unit {0}) out.old.items out.new.items) }
    {
        out.extend_from_slice(&self.ended)?;
        write_segment(alloc, &self.last, out)
    }
}

// Appends a segment, behind its count. After `Memory` the vector may have grown.
fn write_segment(alloc: Global, segment: &[u8], out: &mut Vec<u8>) -> Result<(), Memory>
    ensures ok { OnOk result (Appends (IsSegment segment.now) out.old.items out.new.items) }
    ensures err { OnErr result (Appends (λ _. Unit {0}) out.old.items out.new.items) }
{
    write_uint(alloc, segment.len() as u64, out)?;
    out.extend_from_slice(segment)?;
    Ok(())
}
