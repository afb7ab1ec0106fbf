//! A reader that counts its failed calls.

ghost use Rattle.std.specs.Prelude.{◌≡◌, ◌^◌, ◌<◌};
ghost use Rattle.gob_stream.specs.Devices.{ReadCounted};
ghost use Rattle.std.specs.Io.KnownBytes.{ReadConsumes};
ghost use Rattle.std.specs.Io.{ReadsAtMost};

use std::io;
use std::io::Read;

/// A reader that passes each read on, and counts the bytes that it was given and the calls that failed.
#[derive(Drop)]
pub struct Input<R> {
    reader: R,
    taken: u64,
    failures: u64,
    ghost taken_fits: { taken < 2 ^ 64 },
    ghost failures_fit: { failures < 2 ^ 64 },
}

impl<R> Input<R> {
    ghost use Rattle.gob_stream.specs.Calls.Ends.{bytes_read, failed_reads, reader_of};

    /// Over this reader, of which nothing is taken yet.
    pub fn new(reader: R) -> Input<R>
        ensures reader { reader_of result ≡ reader }
        ensures taken { bytes_read result ≡ 0 }
        ensures failures { failed_reads result ≡ 0 }
    {
        Input {
            reader,
            taken: 0,
            failures: 0,
        }
    }

    /// The reader, as the reads so far left it.
    pub fn into_inner(self) -> R
        ensures { result ≡ reader_of self }
    {
        self.reader
    }

    /// How many bytes were read so far. It stays at 2^64-1 once there.
    pub fn taken(&self) -> u64
        ensures { result ≡ bytes_read self.now }
    {
        self.taken
    }

    /// How many reads failed so far. It stays at 2^64-1 once there.
    pub fn failures(&self) -> u64
        ensures { result ≡ failed_reads self.now }
    {
        self.failures
    }
}

impl<R: Read> Read for Input<R> {
    ghost use Rattle.gob_stream.specs.Calls.Ends.{bytes_read, failed_reads, reader_of};

    ghost remaining = { λ s. R.remaining (reader_of s) };

    fn read(&mut self, buf: &mut [u8]) -> io::Result<usize>
        ensures bound { ReadsAtMost result buf.new }
        ensures bytes { ReadConsumes (R.remaining (reader_of self.old)) (R.remaining (reader_of self.new))
            result buf.new }
        ensures counted { ReadCounted (bytes_read self.old) (failed_reads self.old) (bytes_read self.new)
            (failed_reads self.new) result }
    {
        let result = self.reader.read(buf);
        match &result {
            Ok(n) => self.taken = self.taken.saturating_add(*n as u64),
            Err(_) => self.failures = self.failures.saturating_add(1),
        }
        result
    }
}
