//! The bytes that were read and not yet given.

ghost use Rattle.std.specs.Prelude.{◌≡◌, ◌+◌, ◌<◌, ◌≤◌, [], length, take, drop, vec_len, IfOk, OnErr};
ghost use Rattle.std.specs.Io.KnownBytes.{Consumes, IsAtEnd, Keeps};

use crate::front::LIMIT;
use std::alloc::{AllocError, Global};
use std::io;
use std::io::Read;

/// The bytes that were read and not yet given, with room for as many as a definition has at the most, and as many more.
#[derive(Drop)]
pub(crate) struct Waiting {
    room: Vec<u8>,
    // The bytes are those of the room from here to the end.
    start: usize,
    end: usize,
    ghost ordered: { start ≤ end },
    ghost in_bounds: { end ≤ vec_len room },
    ghost size: { vec_len room ≡ 131072 },
}

impl Waiting {
    ghost use Rattle.gob_appended.specs.Waiting.{Brings, waiting};

    /// No bytes.
    pub(crate) fn new(alloc: Global) -> Result<Waiting, AllocError>
        ensures { IfOk result (λ new. waiting new ≡ []) }
    {
        Ok(Waiting {
            room: vec![in alloc; 0; 2 * LIMIT]?,
            start: 0,
            end: 0,
        })
    }

    /// The bytes.
    pub(crate) fn bytes(&self) -> &[u8]
        ensures { result.now ≡ waiting self.now }
    {
        &self.room.as_slice()[self.start..self.end]
    }

    /// Lets go of so many of them, from the first on.
    pub(crate) fn pass(&mut self, count: usize)
        requires { count ≤ length (waiting self.old) }
        ensures { waiting self.new ≡ drop count (waiting self.old) }
    {
        self.start += count;
    }

    /// Reads once, behind them. How many bytes came: none only at the end. After an error the same bytes wait.
    pub(crate) fn read_more<R: Read>(&mut self, reader: &mut R) -> io::Result<usize>
        requires { length (waiting self.old) < 65536 }
        ensures ok { IfOk result (λ count. Brings (R.remaining reader.old) (R.remaining reader.new)
            (waiting self.old) (waiting self.new) count) }
        ensures kept { OnErr result (waiting self.new ≡ waiting self.old) }
        ensures err { OnErr result (Keeps (R.remaining reader.old) (R.remaining reader.new)) }
    {
        self.put_in_front();
        let count = read_behind(reader, &mut self.room, self.end)?;
        self.end += count;
        Ok(count)
    }

    // Puts the bytes in front, so that there is room behind them.
    fn put_in_front(&mut self)
        requires { length (waiting self.old) < 65536 }
        ensures kept { waiting self.new ≡ waiting self.old }
        ensures room { self.new.end < vec_len self.new.room }
    {
        let (start, end) = (self.start, self.end);
        self.room.as_mut_slice().copy_within(start..end, 0);
        self.start = 0;
        self.end = end - start;
    }
}

// Reads once into the room behind the first bytes of it, which stay.
fn read_behind<R: Read>(reader: &mut R, room: &mut Vec<u8>, end: usize) -> io::Result<usize>
    requires { end < vec_len room.old }
    ensures len { vec_len room.new ≡ vec_len room.old }
    ensures prefix { take end room.new.items ≡ take end room.old.items }
    ensures bound { IfOk result (λ count. end + count ≤ vec_len room.new) }
    ensures ok { IfOk result (λ count. Consumes (R.remaining reader.old) (R.remaining reader.new)
        (take count (drop end room.new.items))) }
    ensures size { IfOk result (λ count. length (take count (drop end room.new.items)) ≡ count) }
    ensures at_end { IfOk result (λ count. count ≡ 0 → IsAtEnd (R.remaining reader.new)) }
    ensures err { OnErr result (Keeps (R.remaining reader.old) (R.remaining reader.new)) }
{
    reader.read(&mut room.as_mut_slice()[end..])
}
