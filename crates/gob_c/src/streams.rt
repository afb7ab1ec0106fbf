//! Streams that are made of lines in memory, put into room of the caller.

ghost use Rattle.std.specs.Prelude.{◌≡◌};
ghost use Rattle.gob_c.specs.Streams.{LinesStreamTold, PutsStream, PutsUnobeyed, stream_told, told_of_lines};

use crate::in_memory::stream_of_lines;
use crate::texts::put_front;
use gob_words::escaped;
use gob_write::LinesFault;
use std::alloc::Global;
use std::fmt;

/// What is told of a stream.
#[repr(C)]
#[derive(Clone, Copy)]
pub struct StreamTold {
    /// 0 no fault, 1 refused, 2 no memory, 4 these are no limits.
    pub status: u32,
    /// The number of the reason for which a stream is refused, or doesn't go on; else 0.
    pub reason: u32,
    /// The byte of the line, from 1, at which it says no item; else 0.
    pub column: u64,
    /// How many bytes the words about a fault have.
    pub words: u64,
    /// How many bytes the stream has, which is written up to the fault.
    pub length: u64,
    /// How many bytes the words about what a conversion leaves out have.
    pub left_out: u64,
}

/// Makes the stream of the items that lines say, as `gob write --go` writes it, up to the first line that says none,
/// and tells how that ended. As much of the stream is put into the room as there is room for, and so is what is said of
/// a fault.
#[unsafe(no_mangle)]
pub extern "C" fn gob_raw_lines_stream(
    alloc: Global,
    lines: &[u8],
    room: &mut [u8],
    told: &mut StreamTold,
    said: &mut [u8],
)
    ensures { LinesStreamTold lines.now room.old room.new said.old said.new told.new }
{
    let made = stream_of_lines(alloc, lines);
    put_front(made.stream.as_slice(), room);
    *told = StreamTold::of_lines(alloc, &made.answer, made.stream.len() as u64, said);
}

impl StreamTold {
    /// A status alone.
    pub(crate) fn plain(status: u32) -> StreamTold
        ensures { result ≡ stream_told status 0 0 0 0 }
    {
        StreamTold {
            status,
            reason: 0,
            column: 0,
            words: 0,
            length: 0,
            left_out: 0,
        }
    }

    // What is told where lines said so many bytes of a stream and the run answered this, and said in the room.
    fn of_lines(
        alloc: Global,
        answer: &Result<(), LinesFault>,
        length: u64,
        said: &mut [u8],
    ) -> StreamTold
        ensures { PutsStream (told_of_lines answer.now length) said.old said.new result }
    {
        let (status, reason, column) = match answer {
            Ok(()) => (0, 0, 0),
            Err(LinesFault::Wrong { column, .. }) => (1, 0, *column),
            Err(LinesFault::Refused { reason, .. }) => (1, reason.number() as u32, 0),
            Err(LinesFault::TooLong { .. }) => (1, 0, 0),
            Err(LinesFault::Read | LinesFault::Write | LinesFault::Memory) => (2, 0, 0),
        };
        StreamTold {
            status,
            reason,
            column,
            words: put_fault(alloc, answer, said),
            length,
            left_out: 0,
        }
    }
}

/// Puts as much of what is said of a fault, if there is one, into the room as there is room for, and answers how long
/// it is.
pub(crate) fn put_fault<F: fmt::Display>(
    alloc: Global,
    answer: &Result<(), F>,
    room: &mut [u8],
) -> u64
    ensures { PutsUnobeyed room.old room.new result }
{
    match answer {
        Ok(()) => 0,
        Err(fault) => put_words(alloc, fault, room),
    }
}

/// Puts as much of what a fault says into the room as there is room for, with what a terminal obeys as `\u{..}`, and
/// answers how long it is. Without memory nothing is said.
pub(crate) fn put_words<F: fmt::Display>(alloc: Global, fault: &F, room: &mut [u8]) -> u64
    ensures { PutsUnobeyed room.old room.new result }
{
    let mut words = String::new(alloc);
    let _ = write!(words, "{fault}");
    match escaped(alloc, words.as_str()) {
        Ok(line) => {
            put_front(line.as_bytes(), room);
            line.len() as u64
        }
        Err(_) => 0,
    }
}
