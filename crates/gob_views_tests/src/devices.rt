//! Readers that give some bytes a call, and writers that take one, and fail at a byte.

use std::alloc::Global;
use std::io;
use std::io::{ErrorKind, Read, Write};

/// A reader that gives so many bytes a call, and fails where one of its bytes is due, counted from 0.
#[derive(Drop)]
pub(crate) struct SlowReader {
    pub bytes: Vec<u8>,
    pub piece: usize,
    pub fails_at: usize,
    pub at: usize,
}

impl Read for SlowReader {
    fn read(&mut self, buf: &mut [u8]) -> io::Result<usize> {
        if self.at == self.fails_at {
            return Err(io::Error::from(ErrorKind::Other));
        }
        let end = self.fails_at.min(self.bytes.len());
        let left = self.bytes.get(self.at..end).unwrap_or(&[]);
        let count = left.len().min(self.piece).min(buf.len());
        buf[..count].copy_from_slice(&left[..count]);
        self.at = self.at.saturating_add(count);
        Ok(count)
    }
}

/// A writer that takes a byte a call, fails in one of its calls, counted from 0, and notes what it holds at flushes.
#[derive(Drop)]
pub(crate) struct SlowWriter {
    pub held: Vec<u8>,
    pub fails_at: usize,
    pub flush_fails: bool,
    pub at_flushes: Vec<usize>,
}

impl Write for SlowWriter {
    fn write(&mut self, buf: &[u8]) -> io::Result<usize> {
        if self.held.len() == self.fails_at {
            return Err(io::Error::from(ErrorKind::Other));
        }
        let count = buf.len().min(1);
        self.held.extend_from_slice(&buf[..count])?;
        Ok(count)
    }

    fn flush(&mut self) -> io::Result<()> {
        if self.flush_fails {
            return Err(io::Error::from(ErrorKind::Other));
        }
        self.at_flushes.push(self.held.len())?;
        Ok(())
    }
}

impl SlowWriter {
    pub(crate) fn new(alloc: Global, fails_at: usize, flush_fails: bool) -> SlowWriter {
        SlowWriter {
            held: Vec::new(alloc),
            fails_at,
            flush_fails,
            at_flushes: Vec::new(alloc),
        }
    }
}
