//! The work stack.

ghost use Rattle.std.specs.Prelude.{◌≡◌, ◌^◌, ◌<◌, [], ◌∷◌, OnOk, length, drop, slice_get};

use crate::frame::Frame;
use gob_num::Memory;
use std::alloc::Global;
use std::marker::Model;

/// The open parts, which contracts see as a list with the innermost one first.
pub(crate) struct Frames {
    // The innermost one last.
    frames: Vec<Frame>,
}

// Not derived, so that a drop is one call in the proofs of what owns one.
impl Drop for Frames {
    fn drop(self) {
        let Frames { frames: _ } = self;
    }
}

impl Model for Frames {
    ghost use Rattle.std.specs.Prelude.{List, reverse};
    ghost use Rattle.gob_read.specs.declared.frame.Frame.{Frame};

    ghost Value = { List Frame };

    ghost view = { λ s. reverse s.frames.items };
}

impl Frames {
    /// No open part.
    pub(crate) fn new(alloc: Global) -> Self
        ensures { result ≡ [] }
    {
        Frames {
            frames: Vec::new(alloc),
        }
    }

    /// How many open parts there are.
    pub(crate) fn depth(&self) -> u64
        ensures count { result ≡ length self.now }
        ensures small { result < 2 ^ 63 }
    {
        self.frames.len() as u64
    }

    /// The innermost open part.
    #[inline(always)]
    pub(crate) fn innermost(&self) -> Option<Frame>
        ensures { result ≡ slice_get self.now 0 }
    {
        self.frames.last().copied()
    }

    /// Opens a part in the innermost one.
    #[inline(always)]
    pub(crate) fn open(&mut self, frame: Frame) -> Result<(), Memory>
        ensures { OnOk result (self.new ≡ frame ∷ self.old) }
    {
        self.frames.push(frame)?;
        Ok(())
    }

    /// Closes the innermost open part, if there is one.
    #[inline(always)]
    pub(crate) fn close(&mut self)
        ensures { self.new ≡ drop 1 self.old }
    {
        self.frames.pop();
    }

    /// Says how far the innermost open part has come.
    #[inline(always)]
    pub(crate) fn replace(&mut self, frame: Frame)
        requires { 0 < length self.old }
        ensures { self.new ≡ frame ∷ drop 1 self.old }
    {
        let last = self.frames.len() - 1;
        self.frames[last] = frame;
    }
}
