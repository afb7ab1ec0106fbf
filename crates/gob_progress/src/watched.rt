//! The reader.

ghost use Rattle.std.specs.Prelude.{◌≡◌, None};
ghost use Rattle.std.specs.Io.KnownBytes.{Keeps, ReadConsumes};
ghost use Rattle.std.specs.Io.{ReadsAtMost};
ghost use Rattle.gob_progress.specs.Telling.{TellsOnce, CountsRead};

use crate::meter::Meter;
use std::alloc::Global;
use std::io;
use std::io::{Read, Write};
use std::time::Clock;

/// A reader that passes each read on, and has a meter count the bytes.
#[derive(Drop)]
pub struct Watched<'a, R, W, C> {
    reader: R,
    meter: Meter<'a, W, C>,
    alloc: Global,
}

impl<'a, R, W: Write, C: Clock> Watched<'a, R, W, C> {
    /// Over this reader, with this meter.
    pub fn new(alloc: Global, reader: R, meter: Meter<'a, W, C>) -> Watched<'a, R, W, C>
        ensures reader { result.reader ≡ reader }
        ensures writer { result.meter.writer ≡ meter.entry.writer }
        ensures kept { (result.meter.started ≡ meter.entry.started) × (result.meter.total ≡ meter.entry.total) }
    {
        Watched {
            reader,
            meter,
            alloc,
        }
    }

    /// Takes the line of the meter away.
    pub fn end(&mut self)
        ensures { TellsOnce self.new.meter.passed self.old.meter.total (W.contents self.old.meter.writer)
            (W.contents self.new.meter.writer) }
    {
        self.meter.end();
    }
}

impl<'a, R: Read, W: Write, C: Clock> Read for Watched<'a, R, W, C> {
    ghost remaining = { λ s. R.remaining s.reader };

    fn read(&mut self, buf: &mut [u8]) -> io::Result<usize>
        ensures bound { ReadsAtMost result buf.new }
        ensures bytes { ReadConsumes (R.remaining self.old.reader) (R.remaining self.new.reader) result buf.new }
        ensures told { TellsOnce self.new.meter.passed self.old.meter.total (W.contents self.old.meter.writer)
            (W.contents self.new.meter.writer) }
        ensures silent { self.old.meter.started ≡ None
            → Keeps (W.contents self.old.meter.writer) (W.contents self.new.meter.writer) }
        ensures kept { (self.new.meter.started ≡ self.old.meter.started)
            × (self.new.meter.total ≡ self.old.meter.total) }
        ensures counted { CountsRead self.old.meter.passed self.new.meter.passed result }
    {
        let result = self.reader.read(buf);
        if let Ok(count) = &result {
            self.meter.pass(self.alloc, *count);
        }
        result
    }
}
