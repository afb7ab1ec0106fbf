//! A value under way.

ghost use Rattle.std.specs.Prelude.{◌≡◌, ℕ, ◌+◌, ◌-◌, ◌^◌, ◌<◌, ◌≤◌, List, [], ◌∷◌, ◌++◌, IfOk, length, min};
ghost use Rattle.gob_types.specs.Defined.{types};
ghost use Rattle.gob_types.specs.Table.{Table};
ghost use Rattle.gob_types.specs.Ready.{IsReady};
ghost use Rattle.gob_read.specs.Calls.Builders.{skip_building};
ghost use Rattle.gob_read.specs.Calls.UnderWay.{HasReadBody, FitsTable};
ghost use Rattle.gob_read.specs.Calls.UpToNil.{NoNilBegun, IsBeforeNil};
ghost use Rattle.gob_go.specs.declared.filled.Filling.{out-Filling};
ghost use Rattle.gob_go.specs.declared.filled.Filled.{out-Filled};
ghost use Rattle.gob_go.specs.Machine.Parts.{LevelAnswers, FillAnswers, LevelIsNew, KeepsLevel, Holds};
ghost use Rattle.gob_go.specs.Machine.Parts.{came_of, used_of};

use crate::around::Around;
use crate::description::fault_of_stop;
use crate::filled::{Definition, Filled, Filling};
use crate::skeleton::Skeleton;
use gob_num::Memory;
use gob_read::{BodyReader, Progress, Reached, SkipBuilder};
use gob_stream::Fault;
use gob_types::{Table, TypeId};
use std::alloc::Global;
use std::mem;

/// A value under way: that of an item, or one that an interface holds.
pub(crate) struct Level {
    /// The id of its type.
    pub(crate) id: TypeId,
    /// The greatest depth of its parts.
    pub(crate) depth: u64,
    /// What reads its skeleton. It keeps nothing.
    pub(crate) reader: BodyReader<SkipBuilder>,
    /// Its skeleton, as far as it came.
    pub(crate) skeleton: Skeleton,
    /// What fills nils of it, as far as that is whole.
    pub(crate) fillings: Vec<Filling>,
    /// What fills the nil at hand, as far as it came.
    pub(crate) held: HeldFront,
    /// Where its open segment ends in the stream.
    pub(crate) end: u64,
}

// Not derived, so that a drop is one call in the proofs of what owns one.
impl Drop for Level {
    fn drop(self) {
        let Level {
            id: _,
            depth: _,
            reader: _,
            skeleton: _,
            fillings: _,
            held: _,
            end: _,
        } = self;
    }
}

/// What stands in front of a value that an interface holds.
pub(crate) struct HeldFront {
    /// The name of the concrete type.
    pub(crate) name: Vec<u8>,
    /// The types that are defined behind it.
    pub(crate) definitions: Vec<Definition>,
}

impl Drop for HeldFront {
    fn drop(self) {
        let HeldFront {
            name: _,
            definitions: _,
        } = self;
    }
}

impl HeldFront {
    /// Nothing of it came.
    pub(crate) fn new(alloc: Global) -> HeldFront
        ensures name { result.name.items ≡ [] }
        ensures definitions { result.definitions.items ≡ [] }
    {
        HeldFront {
            name: Vec::new(alloc),
            definitions: Vec::new(alloc),
        }
    }

    // What fills the nil at the place: the value behind this.
    fn filled_with(self, place: u64, value: Level) -> Filling
        ensures place { (out-Filling result).place ≡ place }
        ensures name { (out-Filling result).name ≡ self.name }
        ensures definitions { (out-Filling result).definitions ≡ self.definitions }
        ensures id { (out-Filling result).id ≡ value.id }
        ensures skeleton { (out-Filled (out-Filling result).value).skeleton ≡ value.skeleton.bytes }
        ensures fillings { (out-Filled (out-Filling result).value).fillings ≡ value.fillings }
    {
        let HeldFront { name, definitions } = self;
        Filling {
            place,
            name,
            definitions,
            id: value.id,
            value: value.into_filled(),
        }
    }
}

/// How far a level came in a piece.
#[derive(Clone, Copy)]
pub(crate) enum Came {
    /// The whole piece was taken, and the value goes on.
    ToEnd,
    /// The number of an interface comes next, behind so many bytes of the piece.
    ToNil { used: usize },
    /// The value is whole, and its segment ends with it, behind so many bytes.
    PastValue { used: usize },
}

impl Level {
    /// Before the first byte of a value of the type, whose first segment begins behind the bytes taken and ends there.
    pub(crate) fn new(around: &Around, id: TypeId, depth: u64, end: u64) -> Result<Level, Memory>
        requires { around.now.taken ≤ end }
        ensures { IfOk result (LevelIsNew id depth end (end - around.now.taken)) }
    {
        let reader = BodyReader::new(around.alloc, id, end - around.taken, depth)?;
        Ok(Level {
            id,
            depth,
            reader,
            skeleton: Skeleton::new(around.alloc),
            fillings: Vec::new(around.alloc),
            held: HeldFront::new(around.alloc),
            end,
        })
    }

    /// Takes bytes of the skeleton from the front of the piece, up to the number of an interface.
    pub(crate) fn take(
        &mut self,
        around: &Around,
        table: &Table,
        piece: &[u8],
    ) -> Result<Came, Fault>
        requires fits { FitsTable skip_building (types table.now) self.old.reader }
        requires clear { NoNilBegun (types table.now) self.old.reader }
        requires order { self.old.skeleton.length ≤ around.now.taken }
        requires end { around.now.taken ≤ self.old.end }
        requires read { (t : TypeId) (limit announced : ℕ) (z : List ℕ)
            → HasReadBody skip_building (types table.now) t limit announced self.old.reader z
            → length z ≡ self.old.skeleton.length }
        requires room { (t : TypeId) (limit announced : ℕ) (z : List ℕ)
            → HasReadBody skip_building (types table.now) t limit announced self.old.reader z
            → around.now.taken + announced ≡ self.old.skeleton.length + self.old.end }
        ensures { LevelAnswers around.now.keeps (types table.now) around.now.taken self.old self.new piece.now result }
    {
        let begin = self.begin(around.taken);
        match self.reader.push_to_nil(around.alloc, table, piece) {
            Ok(reached) => {
                let came = Came::of(reached);
                let bytes = &piece[..came.used(piece)];
                match self.skeleton.extend(around.keeps, bytes) {
                    Ok(()) => Ok(came),
                    Err(_) => Err(Fault::Memory),
                }
            }
            Err(stop) => Err(fault_of_stop(begin, stop)),
        }
    }

    /// Takes the number of the interface that comes next as nil, which is behind the bytes taken with its byte. True
    /// where the value is whole with it, and its segment ends.
    pub(crate) fn fill(&mut self, around: &Around, table: &Table) -> Result<bool, Fault>
        requires fits { FitsTable skip_building (types table.now) self.old.reader }
        requires clear { NoNilBegun (types table.now) self.old.reader }
        requires at_nil { IsBeforeNil (types table.now) self.old.reader }
        requires order { self.old.skeleton.length < around.now.taken }
        requires end { around.now.taken ≤ self.old.end }
        requires read { (t : TypeId) (limit announced : ℕ) (z : List ℕ)
            → HasReadBody skip_building (types table.now) t limit announced self.old.reader z
            → length z ≡ self.old.skeleton.length }
        ensures { FillAnswers around.now.keeps (types table.now) around.now.taken self.old self.new result }
    {
        let taken = around.taken;
        if self.skeleton.extend(around.keeps, &[0]).is_err() {
            return Err(Fault::Memory);
        }
        let begin = self.begin(taken);
        self.reader.announce(self.end - taken + 1);
        match self.reader.fill(around.alloc, table) {
            Ok(Progress::More) => Ok(false),
            Ok(Progress::Done { out: _, used: _ }) => Ok(true),
            Err(stop) => Err(fault_of_stop(begin, stop)),
        }
    }

    /// Fills the nil at hand with the value, which is whole, where that is kept.
    pub(crate) fn hold(&mut self, around: &Around, value: Level) -> Result<(), Memory>
        ensures { IfOk result (λ _. Holds around.now.keeps value self.old self.new) }
    {
        let place = self.skeleton.length();
        let held = mem::replace(&mut self.held, HeldFront::new(around.alloc));
        if around.keeps {
            self.fillings.push(held.filled_with(place, value))?;
        }
        Ok(())
    }

    /// The value, which is whole.
    pub(crate) fn into_filled(self) -> Filled
        ensures skeleton { (out-Filled result).skeleton ≡ self.skeleton.bytes }
        ensures fillings { (out-Filled result).fillings ≡ self.fillings }
    {
        let Level {
            id: _,
            depth: _,
            reader: _,
            skeleton,
            fillings,
            held: _,
            end: _,
        } = self;
        Filled {
            skeleton: skeleton.into_bytes(),
            fillings,
        }
    }

    // Where the skeleton would begin in the stream if it stood there without what fills its nils.
    fn begin(&self, taken: u64) -> u64
        requires { self.now.skeleton.length ≤ taken }
        ensures begin { result ≡ taken - self.now.skeleton.length }
        ensures range { self.now.end < 2 ^ 64 }
    {
        // read for its range
        let _end = self.end;
        taken - self.skeleton.length()
    }
}

impl Came {
    // How far the reader of a skeleton came.
    fn of(reached: Reached<()>) -> Came
        ensures { result ≡ came_of reached }
    {
        match reached {
            Reached::More => Came::ToEnd,
            Reached::Nil { used } => Came::ToNil { used },
            Reached::Done { out: _, used } => Came::PastValue { used },
        }
    }

    // How many bytes of the piece were taken.
    fn used(&self, piece: &[u8]) -> usize
        ensures { result ≡ used_of piece.now self.now }
    {
        match self {
            Came::ToEnd => piece.len(),
            Came::ToNil { used } => *used,
            Came::PastValue { used } => *used,
        }
    }
}
