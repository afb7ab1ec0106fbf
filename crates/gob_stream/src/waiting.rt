//! The bytes of a stream that were read and not yet taken.

ghost use Rattle.std.specs.Prelude.{◌≡◌, ◌+◌, ◌<◌, ◌≤◌, [], length, take, drop, vec_len, IfOk, OnErr, OnOk};
ghost use Rattle.std.specs.Prelude.{MatchBool, MatchResult};
ghost use Rattle.gob_stream.specs.Devices.{counts_up};
ghost use Rattle.gob_stream.specs.Calls.Ends.{failed_reads, reader_of};
ghost use Rattle.gob_stream.specs.Reading.{CountsReads};
ghost use Rattle.std.specs.Io.KnownBytes.{Consumes, IsAtEnd, Keeps};

use crate::fault::Fault;
use crate::input::Input;
use gob_num::Memory;
use std::alloc::Global;
use std::io;
use std::io::Read;

// How many bytes there is room for at first, and by how many it grows at least.
const PIECE: usize = 65536;

/// The bytes of a stream that were read and not yet taken. A reader keeps them beside its session: it reads behind
/// them, gives them to the session, and lets go of what that has taken.
#[derive(Drop)]
pub struct Waiting {
    room: Vec<u8>,
    // The bytes are those of the room from here to the end.
    start: usize,
    end: usize,
    ghost ordered: { start ≤ end },
    ghost in_bounds: { end ≤ vec_len room },
}

impl Waiting {
    ghost use Rattle.gob_stream.specs.Calls.Waiting.{waiting, room_for, Grows, HasRoom, ReadsMore};

    /// No bytes, with room for 65536.
    pub fn new(alloc: Global) -> Result<Waiting, Memory>
        ensures none { IfOk result (λ new. waiting new ≡ []) }
        ensures room { IfOk result (λ new. room_for new ≡ 65536) }
    {
        let room = vec![in alloc; 0; PIECE].map_err(Memory::from)?;
        Ok(Waiting {
            room,
            start: 0,
            end: 0,
        })
    }

    /// The bytes.
    #[inline(always)]
    pub fn bytes(&self) -> &[u8]
        ensures { result.now ≡ waiting self.now }
    {
        &self.room.as_slice()[self.start..self.end]
    }

    /// Lets go of so many of them, from the first on.
    #[inline(always)]
    pub fn pass(&mut self, used: usize)
        requires { used ≤ length (waiting self.old) }
        ensures bytes { waiting self.new ≡ drop used (waiting self.old) }
        ensures room { room_for self.new ≡ room_for self.old }
    {
        self.start += used;
    }

    /// Whether there is room behind them: the last read gave less than was asked for, or there was none.
    #[inline(always)]
    pub fn has_room(&self) -> bool
        ensures { MatchBool result (HasRoom self.now) (¬ HasRoom self.now) }
    {
        self.end < self.room.len()
    }

    /// Reads once, behind them. How many bytes came: none only at the end of the input. It makes room for more where
    /// there is none. After [`Fault::Read`] or [`Fault::Memory`] the same bytes wait, and it may be called again.
    pub fn read_more<R: Read>(&mut self, input: &mut Input<R>) -> Result<usize, Fault>
        ensures read { ReadsMore (R.remaining (reader_of input.old)) (R.remaining (reader_of input.new))
            (waiting self.old) (waiting self.new) result }
        ensures grown { Grows (room_for self.old) (room_for self.new) (length (waiting self.old)) }
        ensures reads { CountsReads (failed_reads input.old) (failed_reads input.new) result }
    {
        self.make_room()?;
        match read_behind(input, &mut self.room, self.end) {
            Ok(count) => {
                self.end += count;
                Ok(count)
            }
            Err(_) => Err(Fault::Read),
        }
    }

    // Puts the bytes in front, and sees to it that there is room behind them.
    fn make_room(&mut self) -> Result<(), Memory>
        ensures kept { waiting self.new ≡ waiting self.old }
        ensures room { OnOk result (self.new.end < vec_len self.new.room) }
        ensures grown { Grows (room_for self.old) (room_for self.new) (length (waiting self.old)) }
    {
        let (start, end) = (self.start, self.end);
        if start > 0 {
            self.room.as_mut_slice().copy_within(start..end, 0);
            self.start = 0;
            self.end = end - start;
        }
        let size = self.room.len();
        if self.end == size {
            self.room
                .resize(size + PIECE.max(size / 4), 0)
                .map_err(Memory::from)?;
        }
        Ok(())
    }
}

// Reads once into the room behind the first bytes of it, which stay.
fn read_behind<R: Read>(input: &mut Input<R>, room: &mut Vec<u8>, end: usize) -> io::Result<usize>
    requires { end < vec_len room.old }
    ensures len { vec_len room.new ≡ vec_len room.old }
    ensures prefix { take end room.new.items ≡ take end room.old.items }
    ensures bound { IfOk result (λ count. end + count ≤ vec_len room.new) }
    ensures ok { IfOk result (λ count. Consumes (R.remaining (reader_of input.old)) (R.remaining (reader_of input.new))
        (take count (drop end room.new.items))) }
    ensures size { IfOk result (λ count. length (take count (drop end room.new.items)) ≡ count) }
    ensures at_end { IfOk result (λ count. count ≡ 0 → IsAtEnd (R.remaining (reader_of input.new))) }
    ensures err { OnErr result (Keeps (R.remaining (reader_of input.old)) (R.remaining (reader_of input.new))) }
    ensures reads { MatchResult result (λ _. failed_reads input.new ≡ failed_reads input.old)
        (λ _. failed_reads input.new ≡ counts_up (failed_reads input.old) 1) }
{
    input.read(&mut room.as_mut_slice()[end..])
}
