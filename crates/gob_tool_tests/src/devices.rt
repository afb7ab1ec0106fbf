//! Readers and writers that pass little a call, and fail in one of their calls.

use std::alloc::Global;
use std::io;
use std::io::{ErrorKind, Read, Write};

/// What a writer does in the call in which it makes trouble.
#[derive(Clone, Copy)]
pub(crate) enum Trouble {
    Error(ErrorKind),
    TakesNothing,
}

/// A reader that gives so many bytes a call at most, and fails in one of its calls, counted from 0.
#[derive(Drop)]
pub(crate) struct PieceReader<'a> {
    bytes: &'a [u8],
    most: usize,
    fails_at: usize,
    kind: ErrorKind,
    calls: usize,
}

impl<'a> Read for PieceReader<'a> {
    fn read(&mut self, buf: &mut [u8]) -> io::Result<usize> {
        let call = self.calls;
        self.calls = self.calls.saturating_add(1);
        if call == self.fails_at {
            return Err(io::Error::from(self.kind));
        }
        let count = self.most.min(buf.len());
        self.bytes.read(&mut buf[..count])
    }
}

impl<'a> PieceReader<'a> {
    /// Before its first call.
    pub(crate) fn new(bytes: &'a [u8], most: usize) -> PieceReader<'a> {
        PieceReader::failing(bytes, most, usize::MAX, ErrorKind::Other)
    }

    /// Before its first call, of which one is to fail so.
    pub(crate) fn failing(
        bytes: &'a [u8],
        most: usize,
        fails_at: usize,
        kind: ErrorKind,
    ) -> PieceReader<'a> {
        PieceReader {
            bytes,
            most,
            fails_at,
            kind,
            calls: 0,
        }
    }
}

/// A writer that takes a byte a call, and makes trouble in one of its calls, counted from 0.
#[derive(Drop)]
pub(crate) struct SlowWriter {
    pub(crate) held: Vec<u8>,
    fails_at: usize,
    trouble: Trouble,
    calls: usize,
    flush_fails: bool,
}

impl Write for SlowWriter {
    fn write(&mut self, buf: &[u8]) -> io::Result<usize> {
        let call = self.calls;
        self.calls = self.calls.saturating_add(1);
        if call == self.fails_at {
            return match self.trouble {
                Trouble::Error(kind) => Err(io::Error::from(kind)),
                Trouble::TakesNothing => Ok(0),
            };
        }
        let count = buf.len().min(1);
        self.held.extend_from_slice(&buf[..count])?;
        Ok(count)
    }

    fn flush(&mut self) -> io::Result<()> {
        if self.flush_fails {
            return Err(io::Error::from(ErrorKind::Other));
        }
        Ok(())
    }
}

impl SlowWriter {
    pub(crate) fn new(
        alloc: Global,
        fails_at: usize,
        trouble: Trouble,
        flush_fails: bool,
    ) -> SlowWriter {
        SlowWriter {
            held: Vec::new(alloc),
            fails_at,
            trouble,
            calls: 0,
            flush_fails,
        }
    }
}
