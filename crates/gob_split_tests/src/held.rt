//! Parts that are held in memory.

use gob_split::{NotWritten, Parts};
use std::alloc::Global;

/// Parts that hold so many bytes more, and take so many calls more that begin or finish one.
#[derive(Drop)]
pub(crate) struct Held {
    pub(crate) alloc: Global,
    pub(crate) parts: Vec<Vec<u8>>,
    pub(crate) bytes_left: usize,
    pub(crate) calls_left: usize,
    // Whether nothing was sent since the last part was finished.
    pub(crate) is_finished: bool,
    pub(crate) has_failed: bool,
}

impl Held {
    /// There are none yet.
    pub(crate) fn new(alloc: Global, bytes_left: usize, calls_left: usize) -> Held {
        Held {
            alloc,
            parts: Vec::new(alloc),
            bytes_left,
            calls_left,
            is_finished: true,
            has_failed: false,
        }
    }
}

impl Parts for Held {
    ghost use Rattle.std.specs.Prelude.{◌≡◌, true};

    ghost are = { λ held parts. ⊥ };

    ghost has_failed = { λ held. held.has_failed ≡ true };

    ghost is_finished = { λ held. held.is_finished ≡ true };

    fn begin(&mut self) -> Result<(), NotWritten> {
        if self.calls_left == 0 || self.parts.push(Vec::new(self.alloc)).is_err() {
            self.has_failed = true;
            return Err(NotWritten);
        }
        self.calls_left -= 1;
        self.is_finished = false;
        Ok(())
    }

    fn send(&mut self, bytes: &[u8]) -> Result<(), NotWritten> {
        self.is_finished = false;
        let count = bytes.len().min(self.bytes_left);
        let sent = match self.parts.last_mut() {
            Some(part) => part.extend_from_slice(&bytes[..count]).is_ok(),
            None => false,
        };
        self.bytes_left -= count;
        if !sent || count < bytes.len() {
            self.has_failed = true;
            return Err(NotWritten);
        }
        Ok(())
    }

    fn finish(&mut self) -> Result<(), NotWritten> {
        if self.calls_left == 0 {
            self.has_failed = true;
            return Err(NotWritten);
        }
        self.calls_left -= 1;
        self.is_finished = true;
        Ok(())
    }
}
