//! A stream that comes in pieces.

ghost use Rattle.std.specs.Prelude.{◌≡◌, Some, Ok, length, min, max};
ghost use Rattle.std.specs.Io.{ReadsAtMost};
ghost use Rattle.std.specs.Io.KnownBytes.{ReadConsumes};

use std::io;
use std::io::Read;

/// A reader that gives these bytes a piece a call.
#[derive(Drop)]
pub(crate) struct Pieces<'a> {
    bytes: &'a [u8],
    next: usize,
    other: usize,
}

impl<'a> Pieces<'a> {
    /// Gives these bytes: first so many of them, and then so many in each other piece, but one at least.
    pub(crate) fn new(bytes: &'a [u8], first: usize, other: usize) -> Pieces<'a>
        ensures bytes { result.bytes.now ≡ bytes.now }
        ensures next { result.next ≡ first }
        ensures other { result.other ≡ other }
    {
        Pieces {
            bytes,
            next: first,
            other,
        }
    }
}

impl Read for Pieces<'_> {
    ghost remaining = { λ s. Some s.bytes.now };

    fn read(&mut self, buf: &mut [u8]) -> io::Result<usize>
        ensures bound { ReadsAtMost result buf.new }
        ensures consumes { ReadConsumes (Some self.old.bytes.now) (Some self.new.bytes.now) result buf.new }
        ensures piece { result ≡ Ok (min (length self.old.bytes.now) (min (max self.old.next 1) (length buf.old))) }
        ensures next { self.new.next ≡ self.old.other }
        ensures other { self.new.other ≡ self.old.other }
    {
        let most = self.next.max(1).min(buf.len());
        self.next = self.other;
        self.bytes.read(&mut buf[..most])
    }
}
