//! A writer of values that are given as plain JSON. It stands behind a pointer that C keeps, as a reader does.

ghost use Rattle.std.specs.Prelude.{◌≡◌, IfOk, IsSome, length};
ghost use Rattle.gob_words.specs.Words.{text_of};
ghost use Rattle.gob_plain_writer.specs.Opening.{IsWriterOfSource, IsWriterOfStream};
ghost use Rattle.gob_c.specs.Held.{GoesOn};
ghost use Rattle.gob_c.specs.Writing.{IsTold, OpensWriter, PutTold, TakesWaiting, named_by, standard};
ghost use Rattle.gob_c.specs.Writing.{told_of_opening, told_of_putting, writer_told};

use crate::parts::Parts;
use crate::streams::put_words;
use crate::texts::put_front;
use crate::writer_handle::WriterHandle;
use gob_plain_writer::{OpenFault, PlainWriter, PutFault, writer_of_source, writer_of_stream};
use gob_stream::Limits;
use gob_write::TypesFault;
use std::alloc::Global;
use std::mem::replace;
use std::str;

/// What is told of a call of a writer.
#[repr(C)]
#[derive(Clone, Copy)]
pub struct WriterTold {
    /// 0 no fault, 1 refused, 2 no memory, 3 there was none before.
    pub status: u32,
    /// The number of the reason for which no stream goes on with a value or a definition; else 0.
    pub reason: u32,
    /// The byte of the text, or the node, from 1, at which it says no value of the wanted type; else 0.
    pub column: u64,
    /// How many bytes the words about it have.
    pub length: u64,
}

/// Makes a writer under the types that Go source declares, of values of the named type, or without a name of the first
/// that is declared, and tells how that ended. The handle holds it where one was made. What is said of a fault is put
/// into the room, as much as there is room for.
#[unsafe(no_mangle)]
pub extern "C" fn gob_raw_writer_open(
    alloc: Global,
    source: &[u8],
    named: &[u8],
    writer: &mut WriterHandle,
    told: &mut WriterTold,
    room: &mut [u8],
)
    ensures { OpensWriter (IsWriterOfSource standard source.now (named_by named.now)) told.new
        room.old room.new writer.old.value writer.new.value }
{
    match of_source(alloc, source, named) {
        Ok(boxed) => {
            give(boxed, writer);
            *told = WriterTold::plain(0);
        }
        Err(fault) => *told = WriterTold::of_opening(alloc, &fault, room),
    }
}

/// Makes a writer under the types of a stream, of values of the named type, or without a name of that of its first
/// value, and tells how that ended. The handle holds it where one was made. What is said of a fault is put into the
/// room, as much as there is room for.
#[unsafe(no_mangle)]
pub extern "C" fn gob_raw_writer_open_like(
    alloc: Global,
    bytes: &[u8],
    named: &[u8],
    writer: &mut WriterHandle,
    told: &mut WriterTold,
    room: &mut [u8],
)
    ensures { OpensWriter (IsWriterOfStream standard bytes.now (named_by named.now)) told.new
        room.old room.new writer.old.value writer.new.value }
{
    match of_stream(alloc, bytes, named) {
        Ok(boxed) => {
            give(boxed, writer);
            *told = WriterTold::plain(0);
        }
        Err(fault) => *told = WriterTold::of_opening(alloc, &fault, room),
    }
}

/// Writes the value that the text says in plain JSON, and tells how that ended. What is said of a fault is put into the
/// room, as much as there is room for.
#[unsafe(no_mangle)]
pub extern "C" fn gob_raw_writer_put(
    alloc: Global,
    writer: &mut WriterHandle,
    text: &[u8],
    told: &mut WriterTold,
    room: &mut [u8],
)
    requires { IsSome writer.old.value }
    ensures { GoesOn writer.old.value writer.new.value (λ old new.
        PutTold old new text.now room.old room.new told.new) }
{
    let mut boxed = taken(alloc, writer);
    let answer = boxed.put(alloc, text);
    *told = WriterTold::of_putting(alloc, &answer, room);
    give(boxed, writer);
}

/// Puts what is written and not yet taken into the room, where there is room for all of it, and tells how much it is.
/// It is taken then.
#[unsafe(no_mangle)]
pub extern "C" fn gob_raw_writer_take(
    alloc: Global,
    writer: &mut WriterHandle,
    room: &mut [u8],
    count: &mut u64,
)
    requires { IsSome writer.old.value }
    ensures { GoesOn writer.old.value writer.new.value (λ old new.
        TakesWaiting old new room.old room.new count.new) }
{
    let mut boxed = taken(alloc, writer);
    *count = take_waiting(&mut *boxed, room);
    give(boxed, writer);
}

/// Lets the writer go.
#[unsafe(no_mangle)]
pub extern "C" fn gob_raw_writer_close(writer: WriterHandle)
    requires { IsSome writer.value }
{
    drop(writer.into_parts().into_box());
}

impl WriterTold {
    /// A status alone.
    pub(crate) fn plain(status: u32) -> WriterTold
        ensures { result ≡ writer_told status 0 0 0 }
    {
        WriterTold {
            status,
            reason: 0,
            column: 0,
            length: 0,
        }
    }

    // What is told where there is no writer for this fault, and said in the room.
    fn of_opening(alloc: Global, fault: &OpenFault<'_>, room: &mut [u8]) -> WriterTold
        ensures { IsTold (told_of_opening fault.now) room.old room.new result }
    {
        let (status, reason) = match fault {
            OpenFault::Source(_) | OpenFault::Types(_) => (1, 0),
            OpenFault::Refused(reason) => (1, reason.number() as u32),
            OpenFault::Memory => (2, 0),
        };
        WriterTold {
            status,
            reason,
            column: 0,
            length: put_words(alloc, fault, room),
        }
    }

    // What is told where writing a value answered this, and said in the room.
    fn of_putting(alloc: Global, answer: &Result<(), PutFault>, room: &mut [u8]) -> WriterTold
        ensures { IsTold (told_of_putting answer.now) room.old room.new result }
    {
        let Err(fault) = answer else {
            return WriterTold::plain(0);
        };
        let (status, reason, column) = match fault {
            PutFault::Wrong { column, .. } => (1, 0, *column),
            PutFault::Refused(reason) => (1, reason.number() as u32, 0),
            PutFault::Memory => (2, 0, 0),
            PutFault::Failed => (3, 0, 0),
        };
        WriterTold {
            status,
            reason,
            column,
            length: put_words(alloc, fault, room),
        }
    }
}

// The name that the bytes are, of which no bytes mean that there is none.
fn name_of(named: &[u8]) -> Result<Option<&str>, TypesFault>
    ensures { IfOk result (λ name. text_of name ≡ named_by named.now) }
{
    if named.is_empty() {
        return Ok(None);
    }
    match str::from_utf8(named) {
        Ok(name) => Ok(Some(name)),
        Err(_) => Err(TypesFault::NoType),
    }
}

/// A new writer under the types of Go source, on the heap.
pub(crate) fn of_source<'a>(
    alloc: Global,
    source: &'a [u8],
    named: &'a [u8],
) -> Result<Box<PlainWriter>, OpenFault<'a>>
    ensures { IfOk result (λ boxed. IsWriterOfSource standard source.now (named_by named.now) boxed.value) }
{
    let named = name_of(named)?;
    let writer = writer_of_source(alloc, source, named, Limits::standard())?;
    boxed(alloc, writer)
}

/// A new writer under the types of a stream, on the heap.
pub(crate) fn of_stream<'a>(
    alloc: Global,
    bytes: &[u8],
    named: &[u8],
) -> Result<Box<PlainWriter>, OpenFault<'a>>
    ensures { IfOk result (λ boxed. IsWriterOfStream standard bytes.now (named_by named.now) boxed.value) }
{
    let named = name_of(named)?;
    let writer = writer_of_stream(alloc, bytes, named, Limits::standard())?;
    boxed(alloc, writer)
}

// The writer, on the heap.
fn boxed<'a>(alloc: Global, writer: PlainWriter) -> Result<Box<PlainWriter>, OpenFault<'a>>
    ensures { IfOk result (λ boxed. boxed.value ≡ writer) }
{
    match Box::new(alloc, writer) {
        Ok(boxed) => Ok(boxed),
        Err(_) => Err(OpenFault::Memory),
    }
}

// Puts what waits into the room, where there is room for all of it, and says how much it is. It waits no more then.
fn take_waiting(writer: &mut PlainWriter, room: &mut [u8]) -> u64
    ensures { TakesWaiting writer.old writer.new room.old room.new result }
{
    let count = writer.waiting().len();
    if count <= room.len() {
        put_front(writer.waiting(), room);
        writer.pass();
    }
    count as u64
}

// The writer that the handle holds, which holds none then.
fn taken(alloc: Global, handle: &mut WriterHandle) -> Box<PlainWriter>
    requires { IsSome handle.old.value }
    ensures { handle.old.value ≡ Some result.value }
{
    replace(handle, WriterHandle::empty(alloc))
        .into_parts()
        .into_box()
}

// Gives the handle a writer.
fn give(writer: Box<PlainWriter>, handle: &mut WriterHandle)
    ensures { handle.new.value ≡ Some writer.value }
{
    *handle = WriterHandle::of(Parts::of(writer));
}
