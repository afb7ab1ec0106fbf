//! A reader and a writer that pass a byte a call, and fail in one of their calls.

use std::alloc::Global;
use std::io;
use std::io::{ErrorKind, Read, Write};

/// A reader that gives a byte a call, and fails in one of its calls, counted from 0.
#[derive(Drop)]
pub(crate) struct ByteReader<'a> {
    bytes: &'a [u8],
    fails_at: usize,
    calls: usize,
}

impl<'a> Read for ByteReader<'a> {
    fn read(&mut self, buf: &mut [u8]) -> io::Result<usize> {
        let call = self.calls;
        self.calls = self.calls.saturating_add(1);
        if call == self.fails_at {
            return Err(io::Error::from(ErrorKind::Other));
        }
        let count = buf.len().min(1);
        self.bytes.read(&mut buf[..count])
    }
}

impl<'a> ByteReader<'a> {
    /// Before its first call.
    pub(crate) fn new(bytes: &'a [u8], fails_at: usize) -> ByteReader<'a> {
        ByteReader {
            bytes,
            fails_at,
            calls: 0,
        }
    }
}

/// A writer that takes a byte a call, and fails in one of its calls, counted from 0, or in each flush.
#[derive(Drop)]
pub(crate) struct ByteWriter {
    pub(crate) held: Vec<u8>,
    fails_at: usize,
    flush_fails: bool,
    calls: usize,
}

impl Write for ByteWriter {
    fn write(&mut self, buf: &[u8]) -> io::Result<usize> {
        let call = self.calls;
        self.calls = self.calls.saturating_add(1);
        if call == self.fails_at {
            return Err(io::Error::from(ErrorKind::Other));
        }
        let count = buf.len().min(1);
        self.held.extend_from_slice(&buf[..count])?;
        Ok(count)
    }

    fn flush(&mut self) -> io::Result<()> {
        if self.flush_fails {
            return Err(io::Error::from(ErrorKind::Other));
        }
        Ok(())
    }
}

impl ByteWriter {
    /// Before its first call.
    pub(crate) fn new(alloc: Global, fails_at: usize, flush_fails: bool) -> ByteWriter {
        ByteWriter {
            held: Vec::new(alloc),
            fails_at,
            flush_fails,
            calls: 0,
        }
    }
}
