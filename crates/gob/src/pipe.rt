//! A writer that notes whether anybody reads what it writes.

ghost use Rattle.std.specs.Prelude.{◌≡◌, false};
ghost use Rattle.std.specs.Io.KnownBytes.{WriteAppends, Keeps};
ghost use Rattle.std.specs.Io.{WritesAtMost};
ghost use Rattle.gob.specs.Closing.{NotesClosed, NotesError};

use std::io;
use std::io::{ErrorKind, Write};

/// A writer that passes each call on, and notes where the other end of its pipe was closed.
#[derive(Drop)]
pub(crate) struct Pipe<W> {
    writer: W,
    is_closed: bool,
}

impl<W> Pipe<W> {
    /// Over this writer.
    pub(crate) fn new(writer: W) -> Pipe<W>
        ensures writer { result.writer ≡ writer }
        ensures open { result.is_closed ≡ false }
    {
        Pipe {
            writer,
            is_closed: false,
        }
    }

    /// Whether a call failed since the other end is closed.
    pub(crate) fn is_closed(&self) -> bool
        ensures { result ≡ self.now.is_closed }
    {
        self.is_closed
    }

    // Notes it where this error says so.
    fn note(&mut self, error: &io::Error)
        ensures writer { self.new.writer ≡ self.old.writer }
        ensures noted { NotesError self.old.is_closed self.new.is_closed error.now }
    {
        if error.kind() == ErrorKind::BrokenPipe {
            self.is_closed = true;
        }
    }
}

impl<W: Write> Write for Pipe<W> {
    ghost contents = { λ s. W.contents s.writer };

    fn write(&mut self, buf: &[u8]) -> io::Result<usize>
        ensures bound { WritesAtMost result buf.now }
        ensures bytes { WriteAppends (W.contents self.old.writer) (W.contents self.new.writer) result buf.now }
        ensures noted { NotesClosed self.old.is_closed self.new.is_closed result }
    {
        let result = self.writer.write(buf);
        if let Err(error) = &result {
            self.note(error);
        }
        result
    }

    fn flush(&mut self) -> io::Result<()>
        ensures bytes { Keeps (W.contents self.old.writer) (W.contents self.new.writer) }
        ensures noted { NotesClosed self.old.is_closed self.new.is_closed result }
    {
        let result = self.writer.flush();
        if let Err(error) = &result {
            self.note(error);
        }
        result
    }
}
