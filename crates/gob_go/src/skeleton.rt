//! The skeleton of a value under way.

ghost use Rattle.std.specs.Prelude.{◌≡◌, ◌+◌, ◌^◌, ◌<◌, [], IfOk, length};
ghost use Rattle.gob_go.specs.Machine.Skeleton.{SkeletonGrows};

use gob_num::Memory;
use std::alloc::Global;

/// The skeleton of a value, as far as it came: what it takes of memory doesn't grow with it where it isn't kept.
pub(crate) struct Skeleton {
    /// Its bytes, where they are kept, or else none.
    bytes: Vec<u8>,
    /// How many they are, kept or not.
    length: u64,
}

// Not derived, so that a drop is one call in the proofs of what owns one.
impl Drop for Skeleton {
    fn drop(self) {
        let Skeleton {
            bytes: _,
            length: _,
        } = self;
    }
}

impl Skeleton {
    /// Nothing of it came.
    pub(crate) fn new(alloc: Global) -> Skeleton
        ensures length { result.length ≡ 0 }
        ensures bytes { result.bytes.items ≡ [] }
    {
        Skeleton {
            bytes: Vec::new(alloc),
            length: 0,
        }
    }

    /// More bytes of it came, which are kept or only counted.
    pub(crate) fn extend(&mut self, keeps: bool, bytes: &[u8]) -> Result<(), Memory>
        requires { self.old.length + length bytes.now < 2 ^ 64 }
        ensures { IfOk result (λ _. SkeletonGrows keeps self.old self.new bytes.now) }
    {
        if keeps {
            self.bytes.extend_from_slice(bytes)?;
        }
        self.length += bytes.len() as u64;
        Ok(())
    }

    /// How many bytes of it came.
    pub(crate) fn length(&self) -> u64
        ensures { result ≡ self.now.length }
    {
        self.length
    }

    /// What was kept of its bytes.
    pub(crate) fn into_bytes(self) -> Vec<u8>
        ensures { result ≡ self.bytes }
    {
        let Skeleton { bytes, length: _ } = self;
        bytes
    }
}
