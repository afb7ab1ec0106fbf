//! The streams of the values of others, received as values of a wanted type, put into room of the caller.

ghost use Rattle.std.specs.Prelude.{◌≡◌, ℕ, IfOk, length, string_bytes};
ghost use Rattle.gob_stream.specs.Bounds.{within_trees};
ghost use Rattle.gob_c.specs.Asked.{asked_bounds};
ghost use Rattle.gob_c.specs.Converting.{ConvertTold, IsWantedOfSource, IsWantedOfStream, PutsConverted, PutsMade};
ghost use Rattle.gob_c.specs.Converting.{TellsLeftOut, converted_told, told_of_fault, told_of_renames, told_of_run};
ghost use Rattle.gob_c.specs.Converting.{told_of_wanted};
ghost use Rattle.gob_c.specs.Streams.{PutsStream, PutsUnobeyed};
ghost use Rattle.gob_c.specs.Writing.{named_by};

use crate::in_memory::{Converted, conversion_of};
use crate::limits::Asked;
use crate::renames::{RenamesFault, renames_in};
use crate::stop_text::StopText;
use crate::streams::{StreamTold, put_words};
use crate::texts::put_front;
use crate::wanted::{WantedFault, wanted_of_source, wanted_of_stream};
use gob_convert::{ConvertFault, ConvertOptions};
use gob_left_out::Tally;
use gob_plain_writer::OpenFault;
use gob_stream::Limits;
use gob_tool::ToolFault;
use gob_words::escaped;
use std::alloc::{AllocError, Global};

/// Makes the stream of the values of another, each received as a value of a type that Go source declares, as `gob
/// convert` does: of the named type, or without a name of the first that is declared. It is told how that ended. Each
/// of the renames ends before a byte 0. As much of the stream is put into the room as there is room for, and so is what
/// is said of a fault, and the line of the fields that the values leave out.
#[unsafe(no_mangle)]
pub extern "C" fn gob_raw_convert(
    alloc: Global,
    bytes: &[u8],
    asked: &Asked,
    source: &[u8],
    named: &[u8],
    renames: &[u8],
    room: &mut [u8],
    told: &mut StreamTold,
    said: &mut [u8],
    left_out: &mut [u8],
)
    ensures { ConvertTold (asked_bounds asked.now) asked.now.all renames.now
        (IsWantedOfSource source.now (named_by named.now)) bytes.now
        (record { stream = room.old; said = said.old; left_out = left_out.old })
        (record { stream = room.new; said = said.new; left_out = left_out.new }) told.new }
{
    let Some(limits) = asked.limits() else {
        *told = StreamTold::plain(4);
        return;
    };
    let asking = Asking {
        bytes,
        renames,
        all: asked.all,
        limits,
    };
    match wanted_of_source(alloc, source, named) {
        Ok(wanted) => *told = convert(alloc, wanted.as_slice(), &asking, room, said, left_out),
        Err(fault) => *told = StreamTold::of_wanted(alloc, &fault, said),
    }
}

/// So it makes the stream of values of a type of a third stream: of the named type there, or without a name of that of
/// its first value.
#[unsafe(no_mangle)]
pub extern "C" fn gob_raw_convert_like(
    alloc: Global,
    bytes: &[u8],
    asked: &Asked,
    stream: &[u8],
    named: &[u8],
    renames: &[u8],
    room: &mut [u8],
    told: &mut StreamTold,
    said: &mut [u8],
    left_out: &mut [u8],
)
    ensures { ConvertTold (asked_bounds asked.now) asked.now.all renames.now
        (λ wanted. IsWantedOfStream stream.now wanted (named_by named.now)) bytes.now
        (record { stream = room.old; said = said.old; left_out = left_out.old })
        (record { stream = room.new; said = said.new; left_out = left_out.new }) told.new }
{
    let Some(limits) = asked.limits() else {
        *told = StreamTold::plain(4);
        return;
    };
    let asking = Asking {
        bytes,
        renames,
        all: asked.all,
        limits,
    };
    if named.is_empty() {
        *told = convert(alloc, stream, &asking, room, said, left_out);
        return;
    }
    match wanted_of_stream(alloc, stream, named) {
        Ok(wanted) => *told = convert(alloc, wanted.as_slice(), &asking, room, said, left_out),
        Err(fault) => *told = StreamTold::of_wanted(alloc, &fault, said),
    }
}

/// What is converted, and how.
#[derive(Clone, Copy)]
struct Asking<'a> {
    /// All of the stream.
    bytes: &'a [u8],
    /// The words of the renames, of which each ends before a byte 0.
    renames: &'a [u8],
    /// Whether no field of a value may be left out.
    all: bool,
    /// The limits of each of the streams.
    limits: Limits,
}

impl StreamTold {
    // What is told of what was converted, where the line of what the values leave out has so many bytes, and said in
    // the room.
    fn of_run(
        alloc: Global,
        made: &Converted,
        words: &[&str],
        left_out: u64,
        said: &mut [u8],
    ) -> StreamTold
        ensures { PutsStream (told_of_run made.now.answer (length made.now.stream.items) left_out) said.old said.new
            result }
    {
        let (status, reason) = match &made.answer {
            Ok(()) => (0, 0),
            Err(ConvertFault::Run(fault)) => numbers_of(fault),
            Err(ConvertFault::Full(reason)) => (1, reason.number() as u32),
            Err(ConvertFault::Clash(_) | ConvertFault::Misfits { .. }) => (1, 0),
        };
        StreamTold {
            status,
            reason,
            column: 0,
            words: put_stop(alloc, &made.answer, words, said),
            length: made.stream.len() as u64,
            left_out,
        }
    }

    // What is told where the renames say nothing, and said in the room.
    fn of_renames(alloc: Global, fault: &RenamesFault<'_>, said: &mut [u8]) -> StreamTold
        ensures { PutsStream (told_of_renames fault.now) said.old said.new result }
    {
        let status = match fault {
            RenamesFault::Memory => 2,
            RenamesFault::NotUtf8 | RenamesFault::Word { .. } => 1,
        };
        StreamTold {
            words: put_words(alloc, fault, said),
            ..StreamTold::plain(status)
        }
    }

    // What is told where there is no wanted type, and said in the room.
    fn of_wanted(alloc: Global, fault: &WantedFault<'_>, said: &mut [u8]) -> StreamTold
        ensures { PutsStream (told_of_wanted fault.now) said.old said.new result }
    {
        let (status, reason) = match fault {
            WantedFault::Types(OpenFault::Memory) | WantedFault::Memory => (2, 0),
            WantedFault::Types(OpenFault::Refused(reason)) => (1, reason.number() as u32),
            WantedFault::Types(_) | WantedFault::NoZero => (1, 0),
        };
        StreamTold {
            status,
            reason,
            column: 0,
            words: put_words(alloc, fault, said),
            length: 0,
            left_out: 0,
        }
    }
}

// The status and the number of the reason that are told of what stops any run.
fn numbers_of(fault: &ToolFault) -> (u32, u32)
    ensures { (length left_out words : ℕ) → told_of_fault fault.now length left_out words
        ≡ converted_told result.0 result.1 length left_out words }
{
    match fault {
        ToolFault::Refused(refusal) | ToolFault::Wanted(refusal) => {
            (1, refusal.reason.number() as u32)
        }
        ToolFault::NoWantedType | ToolFault::Clash { .. } | ToolFault::LeftOut { .. } => (1, 0),
        ToolFault::Read | ToolFault::Write | ToolFault::Memory => (2, 0),
    }
}

// Puts the stream of the values, received as those of the type of the wanted stream, into the room, and tells of it.
fn convert(
    alloc: Global,
    wanted: &[u8],
    asking: &Asking<'_>,
    room: &mut [u8],
    said: &mut [u8],
    left_out: &mut [u8],
) -> StreamTold
    ensures { PutsConverted asking.now.all (within_trees asking.now.limits) asking.now.renames.now wanted.now
        asking.now.bytes.now (record { stream = room.old; said = said.old; left_out = left_out.old })
        (record { stream = room.new; said = said.new; left_out = left_out.new }) result }
{
    match renames_in(alloc, asking.renames) {
        Ok(renames) => {
            let options = ConvertOptions {
                renames: renames.renames.as_slice(),
                all: asking.all,
                limits: asking.limits,
            };
            let made = conversion_of(alloc, &options, wanted, asking.bytes);
            put_made(alloc, &made, renames.words.as_slice(), room, said, left_out)
        }
        Err(fault) => StreamTold::of_renames(alloc, &fault, said),
    }
}

// Puts what was converted into the rooms, and tells of it.
fn put_made(
    alloc: Global,
    made: &Converted,
    words: &[&str],
    room: &mut [u8],
    said: &mut [u8],
    left_out: &mut [u8],
) -> StreamTold
    ensures { PutsMade made.now.stream.items made.now.left_out made.now.answer
        (record { stream = room.old; said = said.old; left_out = left_out.old })
        (record { stream = room.new; said = said.new; left_out = left_out.new }) result }
{
    let Ok(line) = left_out_line(alloc, &made.left_out) else {
        return StreamTold::plain(2);
    };
    put_front(line.as_bytes(), left_out);
    put_front(made.stream.as_slice(), room);
    StreamTold::of_run(alloc, made, words, line.len() as u64, said)
}

// The line of what the values leave out, with what a terminal obeys as `\u{..}`: none where they leave out nothing.
fn left_out_line(alloc: Global, left_out: &Tally) -> Result<String, AllocError>
    ensures { IfOk result (λ line. TellsLeftOut left_out.now (string_bytes line)) }
{
    if left_out.is_empty() {
        return Ok(String::new(alloc));
    }
    let line = left_out.to_string(alloc)?;
    escaped(alloc, line.as_str())
}

// Puts as much of what is said of a conversion that stopped, if it did, into the room as there is room for, and answers
// how long it is.
fn put_stop(
    alloc: Global,
    answer: &Result<(), ConvertFault>,
    words: &[&str],
    room: &mut [u8],
) -> u64
    ensures { PutsUnobeyed room.old room.new result }
{
    match answer {
        Ok(()) => 0,
        Err(fault) => put_words(alloc, &StopText { fault, words }, room),
    }
}
