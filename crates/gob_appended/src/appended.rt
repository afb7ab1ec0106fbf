//! The reader.

use crate::front::{Front, LIMIT, front_of, run_end};
use crate::known::Known;
use crate::left::Left;
use crate::places::Places;
use crate::waiting::Waiting;
use std::alloc::{AllocError, Global};
use std::io;
use std::io::{ErrorKind, Read};

/// A reader that hands on what another gives, without the definitions that are said again in the same bytes.
#[derive(Drop)]
pub struct Appended<R> {
    reader: R,
    waiting: Waiting,
    known: Known,
    left: Left,
    // The reader has given all, and isn't read any more.
    ended: bool,
    places: Places,
    // The last fault was that there was no memory.
    lacks_memory: bool,
}

impl<R: Drop> Appended<R> {
    ghost use Rattle.std.specs.Prelude.{◌≡◌, [], IfOk};
    ghost use Rattle.gob_appended.specs.Offsets.{Begins};
    ghost use Rattle.gob_appended.specs.Reader.{IsFresh};

    /// Over this reader, which is to be at the beginning of a stream. Without memory the reader is dropped.
    pub fn new(alloc: Global, reader: R) -> Result<Appended<R>, AllocError>
        ensures fresh { IfOk result (IsFresh reader) }
        ensures begins { IfOk result (Begins reader) }
    {
        Ok(Appended {
            reader,
            waiting: Waiting::new(alloc)?,
            known: Known::new(alloc),
            left: Left::Bytes(0),
            ended: false,
            places: Places::new(alloc),
            lacks_memory: false,
        })
    }
}

impl<R> Appended<R> {
    ghost use Rattle.std.specs.Prelude.{◌≡◌, length, min};
    ghost use Rattle.gob_appended.specs.Offsets.{TellsEnd, TellsPlace};
    ghost use Rattle.gob_appended.specs.Reader.{end_in, place_in};

    /// The offset in the input of an offset among the bytes that were given. It stays at 2^64-1 once there.
    pub fn place_in_input(&self, place: u64) -> u64
        ensures place { result ≡ place_in self.now place }
        ensures told { TellsPlace self.now place result }
    {
        self.places.in_input(place)
    }

    /// How many bytes of the input end with the last of so many that were given. It stays at 2^64-1 once there.
    pub fn end_in_input(&self, count: u64) -> u64
        ensures end { result ≡ end_in self.now count }
        ensures told { TellsEnd self.now count result }
    {
        match count.checked_sub(1) {
            None => 0,
            Some(last) => self.places.in_input(last).saturating_add(1),
        }
    }

    /// How many bytes were left out, all of them definitions that were said again. It stays at 2^64-1 once there.
    pub fn left_out(&self) -> u64
        ensures { result ≡ self.now.places.left_out }
    {
        self.places.left_out()
    }

    /// How many encoders are seen to have begun anew: each by a definition that the one before it has said too. It
    /// stays at 2^64-1 once there.
    pub fn encoders_anew(&self) -> u64
        ensures { result ≡ self.now.known.encoders.count }
    {
        self.known.encoders().count()
    }

    /// The offsets in the input of these definitions, of the first ten such encoders.
    pub fn places_anew(&self) -> &[u64]
        ensures { length result.now ≡ min self.now.known.encoders.count 10 }
    {
        self.known.encoders().places()
    }

    /// Whether the last read that failed did for want of memory, its own or that of the other reader.
    pub fn lacks_memory(&self) -> bool
        ensures { result ≡ self.now.lacks_memory }
    {
        self.lacks_memory
    }

    /// The reader, as the reads so far left it.
    pub fn into_inner(self) -> R
    where
        R: Drop,
        ensures { result ≡ self.reader }
    {
        self.reader
    }
}

impl<R: Read> Appended<R> {
    ghost use Rattle.std.specs.Prelude.{◌≡◌, ◌<◌, ◌≤◌, OnOk, false, length, take, true};
    ghost use Rattle.std.specs.Io.{ReadsAtMost};
    ghost use Rattle.std.specs.Io.KnownBytes.{Consumes, IsAtEnd, Keeps};
    ghost use Rattle.gob_appended.specs.Front.{front_at};
    ghost use Rattle.gob_appended.specs.Left.{goes_on, part_of};
    ghost use Rattle.gob_appended.specs.Offsets.{GivesMore, GivesNone};
    ghost use Rattle.gob_appended.specs.Reader.{Gives, is_ready, to_give};
    ghost use Rattle.gob_appended.specs.Waiting.{waiting};
    ghost use Rattle.gob_appended.specs.declared.front.Front.TheVariants as front;

    // Goes on until something may be given, or all was.
    fn prepare(&mut self) -> io::Result<()>
        ensures bytes { Keeps (to_give R.remaining self.old) (to_give R.remaining self.new) }
        ensures offsets { GivesNone R.remaining self.old self.new }
        ensures memory { self.new.lacks_memory ≡ self.old.lacks_memory }
        ensures ready { OnOk result (is_ready self.new ≡ true) }
    {
        for _ in 0..u64::MAX {
            if self.is_ready() {
                return Ok(());
            }
            self.step()?;
        }
        Err(io::Error::from(ErrorKind::Other))
    }

    // Whether something may be given, or all was.
    fn is_ready(&self) -> bool
        ensures { result ≡ is_ready self.now }
    {
        self.left.goes_on() && (self.ended || self.waiting.bytes().len() > 0)
    }

    // Judges what stands where an item is to begin, or reads on.
    fn step(&mut self) -> io::Result<()>
        requires { is_ready self.old ≡ false }
        ensures bytes { Keeps (to_give R.remaining self.old) (to_give R.remaining self.new) }
        ensures offsets { GivesNone R.remaining self.old self.new }
        ensures memory { self.new.lacks_memory ≡ self.old.lacks_memory }
    {
        if self.left.goes_on() {
            return self.fill();
        }
        let bytes = self.waiting.bytes();
        let len = bytes.len();
        match front_of(bytes) {
            Front::Plain(size) => self.left = Left::Bytes(run_end(bytes, size)),
            Front::Definition(size) => return self.meet(size),
            Front::Nothing if self.ended => self.left = Left::All,
            Front::Nothing if len >= LIMIT => self.left = Left::All,
            Front::Nothing => return self.fill(),
        }
        Ok(())
    }

    // Leaves a definition out if it was met before, else takes note of it and gives it.
    fn meet(&mut self, size: usize) -> io::Result<()>
        requires due { goes_on (part_of self.old.left) ≡ false }
        requires stands { front_at (waiting self.old.waiting) ≡ front.Definition size }
        requires size { (0 < size) × (size ≤ length (waiting self.old.waiting)) }
        ensures bytes { Keeps (to_give R.remaining self.old) (to_give R.remaining self.new) }
        ensures offsets { GivesNone R.remaining self.old self.new }
        ensures memory { self.new.lacks_memory ≡ self.old.lacks_memory }
    {
        match self.known.place_of(&self.waiting.bytes()[..size])? {
            Some(place) => {
                let offset = self.places.reached();
                self.places.leave(size)?;
                self.known.say_again(place, offset);
                self.waiting.pass(size);
            }
            None => {
                self.known.add(&self.waiting.bytes()[..size])?;
                self.left = Left::Bytes(size as u128);
            }
        }
        Ok(())
    }

    // Reads once.
    fn fill(&mut self) -> io::Result<()>
        requires open { self.old.ended ≡ false }
        requires room { length (waiting self.old.waiting) < 65536 }
        ensures bytes { Keeps (to_give R.remaining self.old) (to_give R.remaining self.new) }
        ensures offsets { GivesNone R.remaining self.old self.new }
        ensures memory { self.new.lacks_memory ≡ self.old.lacks_memory }
    {
        let count = self.waiting.read_more(&mut self.reader)?;
        if count == 0 {
            self.ended = true;
        }
        Ok(())
    }

    // Gives what there is room for, none only at the end.
    fn give(&mut self, buf: &mut [u8]) -> usize
        requires { is_ready self.old ≡ true }
        ensures bytes { Gives (to_give R.remaining self.old) (to_give R.remaining self.new) buf.new result }
        ensures offsets { GivesMore R.remaining self.old self.new result }
        ensures memory { self.new.lacks_memory ≡ self.old.lacks_memory }
    {
        let count = self.left.of(buf.len().min(self.waiting.bytes().len()));
        buf[..count].copy_from_slice(&self.waiting.bytes()[..count]);
        self.waiting.pass(count);
        self.left = self.left.without(count);
        self.places.give(count);
        count
    }
}

impl<R: Read> Read for Appended<R> {
    ghost use Rattle.std.specs.Io.{ReadsAtMost};
    ghost use Rattle.std.specs.Io.KnownBytes.{ReadConsumes};
    ghost use Rattle.gob_appended.specs.Offsets.{ReadGives};
    ghost use Rattle.gob_appended.specs.Reader.{NotesMemory, to_give};

    ghost remaining = { to_give R.remaining };

    fn read(&mut self, buf: &mut [u8]) -> io::Result<usize>
        ensures bound { ReadsAtMost result buf.new }
        ensures bytes { ReadConsumes (to_give R.remaining self.old) (to_give R.remaining self.new) result buf.new }

        // Of its input it has given so many bytes more, none behind an error, and tells where they stood there.
        ensures offsets { ReadGives R.remaining self.old self.new result }
        ensures memory { NotesMemory self.old.lacks_memory self.new.lacks_memory result }
    {
        if buf.is_empty() {
            return Ok(0);
        }
        if let Err(error) = self.prepare() {
            self.lacks_memory = error.kind() == ErrorKind::OutOfMemory;
            return Err(error);
        }
        Ok(self.give(buf))
    }
}
