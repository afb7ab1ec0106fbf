//! Readers and writers that give and take little at a time, fail, or never end.

use std::alloc::Global;
use std::io;
use std::io::{ErrorKind, Read, Write};

/// A reader that gives these bytes over and over, one a call.
#[derive(Drop)]
pub(crate) struct Endless {
    bytes: &'static [u8],
    at: usize,
}

impl Endless {
    /// Before the first of them.
    pub(crate) fn new(bytes: &'static [u8]) -> Endless {
        Endless { bytes, at: 0 }
    }
}

impl Read for Endless {
    fn read(&mut self, buf: &mut [u8]) -> io::Result<usize> {
        if self.at >= self.bytes.len() {
            self.at = 0;
        }
        match (buf.first_mut(), self.bytes.get(self.at)) {
            (Some(to), Some(from)) => {
                *to = *from;
                self.at += 1;
                Ok(1)
            }
            _ => Ok(0),
        }
    }
}

/// A reader that gives a byte a call, and fails in one of its calls, counted from 0.
#[derive(Drop)]
pub(crate) struct Failing {
    bytes: &'static [u8],
    fails_at: usize,
    kind: ErrorKind,
    calls: usize,
    at: usize,
}

impl Failing {
    /// Before its first call.
    pub(crate) fn new(bytes: &'static [u8], fails_at: usize, kind: ErrorKind) -> Failing {
        Failing {
            bytes,
            fails_at,
            kind,
            calls: 0,
            at: 0,
        }
    }
}

impl Read for Failing {
    fn read(&mut self, buf: &mut [u8]) -> io::Result<usize> {
        let call = self.calls;
        self.calls = self.calls.saturating_add(1);
        if call == self.fails_at {
            return Err(io::Error::from(self.kind));
        }
        match (buf.first_mut(), self.bytes.get(self.at)) {
            (Some(to), Some(from)) => {
                *to = *from;
                self.at = self.at.saturating_add(1);
                Ok(1)
            }
            _ => Ok(0),
        }
    }
}

/// How a device answers the call that goes wrong.
#[derive(Clone, Copy, Debug, PartialEq, Eq)]
pub(crate) enum Wrong {
    Nothing,
    Interrupted,
    Broken,
    Zero,
}

/// A writer that takes so many bytes at a time, and goes wrong at one call, counted from 1.
#[derive(Drop)]
pub(crate) struct Device {
    pub(crate) taken: Vec<u8>,
    most: usize,
    pub(crate) calls: u64,
    wrong_at: u64,
    wrong: Wrong,
    flushes: bool,
}

impl Device {
    /// Takes all that it is given, in one call each.
    pub(crate) fn sound(alloc: Global) -> Device {
        Device {
            taken: Vec::new(alloc),
            most: usize::MAX,
            calls: 0,
            wrong_at: 0,
            wrong: Wrong::Nothing,
            flushes: true,
        }
    }

    /// Takes one byte a call, and goes wrong at this one.
    pub(crate) fn slow(alloc: Global, wrong_at: u64, wrong: Wrong) -> Device {
        Device {
            most: 1,
            wrong_at,
            wrong,
            ..Device::sound(alloc)
        }
    }

    /// Fails to flush.
    pub(crate) fn clogged(alloc: Global) -> Device {
        Device {
            flushes: false,
            ..Device::sound(alloc)
        }
    }
}

impl Write for Device {
    fn write(&mut self, buf: &[u8]) -> io::Result<usize> {
        self.calls = self.calls.saturating_add(1);
        if self.calls == self.wrong_at {
            match self.wrong {
                Wrong::Interrupted => return Err(io::ErrorKind::Interrupted.into()),
                Wrong::Broken => return Err(io::ErrorKind::BrokenPipe.into()),
                Wrong::Zero => return Ok(0),
                Wrong::Nothing => {}
            }
        }
        let count = buf.len().min(self.most);
        match self.taken.extend_from_slice(&buf[..count]) {
            Ok(()) => Ok(count),
            Err(_) => Err(io::ErrorKind::OutOfMemory.into()),
        }
    }

    fn flush(&mut self) -> io::Result<()> {
        if self.flushes {
            Ok(())
        } else {
            Err(io::ErrorKind::BrokenPipe.into())
        }
    }
}

/// A writer of a few bytes, which needs no memory.
#[derive(Drop)]
pub(crate) struct Small {
    bytes: [u8; 64],
    count: usize,
}

impl Small {
    /// It has taken nothing.
    pub(crate) fn new() -> Small {
        Small {
            bytes: [0; 64],
            count: 0,
        }
    }

    /// What it has taken, up to what it holds.
    pub(crate) fn taken(&self) -> &[u8] {
        self.bytes.get(..self.count).unwrap_or(b"")
    }
}

impl Write for Small {
    fn write(&mut self, buf: &[u8]) -> io::Result<usize> {
        for byte in buf {
            if let Some(to) = self.bytes.get_mut(self.count) {
                *to = *byte;
                self.count = self.count.saturating_add(1);
            }
        }
        Ok(buf.len())
    }

    fn flush(&mut self) -> io::Result<()> {
        Ok(())
    }
}
