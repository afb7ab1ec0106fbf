//! The reader and the writer of gob streams for C: a static library. Only the layer of C in bindings/c calls its
//! exports. That layer has the memory functions, the room for items and the public header.
//!
//! A reader stands behind a pointer that C keeps, its [`Handle`]. Each call is lent the handle, takes the reader out of
//! it, and leaves there the one that it tells of. The counter of a check in pieces and a writer stand so behind handles
//! of their own, since no export may take a struct with type arguments. What is said of a stream is text, put into room
//! that C gives, and so is a stream that is made of lines or of another.
#![tactic(auto)]

ghost use Rattle.std.specs.Prelude.{◌≡◌, IfSome, IsSome};
ghost use Rattle.gob_c.specs.Asked.{asked_bounds};
ghost use Rattle.gob_c.specs.Held.{GoesOn};
ghost use Rattle.gob_c.specs.Calls.{OpenTold, IsNewReader, FeedTold, FinishTold, TakeTold, ShapeTold, CheckTold};

mod any_counter;
mod check;
mod converting;
mod counter_handle;
mod counts;
mod handle;
mod in_memory;
mod in_pieces;
mod item_writing;
mod items_handle;
mod limits;
mod parts;
mod renames;
mod stop_text;
mod streams;
mod texts;
mod told;
mod wanted;
mod writer_handle;
mod writing;

use check::check;
use counts::Counts;
use gob_handed::{AnyReader, HandedOut, Head};
use gob_stream::Limits;
use gob_tape::FlatNode;
use gob_types::TypeId;
use handle::Handle;
use limits::Asked;
use parts::Parts;
use std::alloc::Global;
use std::mem::replace;
use told::Told;

/// Makes a reader that has taken no byte and keeps to these limits, and tells how that ended. The handle holds it where
/// one was made.
#[unsafe(no_mangle)]
pub extern "C" fn gob_raw_open(alloc: Global, asked: &Asked, told: &mut Told, reader: &mut Handle)
    ensures { OpenTold (asked_bounds asked.now) (IsNewReader (asked_bounds asked.now) asked.now.exact) told.new
        reader.old.value reader.new.value }
{
    let Some(limits) = asked.limits() else {
        *told = Told::plain(4);
        return;
    };
    match opened(alloc, limits, asked.exact) {
        Some(boxed) => {
            give(boxed, reader);
            *told = Told::plain(0);
        }
        None => *told = Told::plain(2),
    }
}

/// Takes the next piece of the stream, and tells how that ended. The items that are whole with it wait from then on,
/// also those before a fault.
#[unsafe(no_mangle)]
pub extern "C" fn gob_raw_feed(alloc: Global, reader: &mut Handle, piece: &[u8], told: &mut Told)
    requires { IsSome reader.old.value }
    ensures { GoesOn reader.old.value reader.new.value (λ old new. FeedTold old new piece.now told.new) }
{
    let mut boxed = taken(alloc, reader);
    let ended = boxed.feed(alloc, piece);
    *told = Told::of(ended, boxed.begin());
    give(boxed, reader);
}

/// Says that no byte follows, and tells how that ended.
#[unsafe(no_mangle)]
pub extern "C" fn gob_raw_finish(alloc: Global, reader: &mut Handle, told: &mut Told)
    requires { IsSome reader.old.value }
    ensures { GoesOn reader.old.value reader.new.value (λ old new. FinishTold old new told.new) }
{
    let mut boxed = taken(alloc, reader);
    let ended = boxed.finish();
    *told = Told::of(ended, boxed.begin());
    give(boxed, reader);
}

/// Hands out the items that wait, as many as there is room for, and tells how many, and how much room the next needs.
#[unsafe(no_mangle)]
pub extern "C" fn gob_raw_take(
    alloc: Global,
    reader: &mut Handle,
    heads: &mut [Head],
    nodes: &mut [FlatNode],
    pool: &mut [u8],
    told: &mut HandedOut,
)
    requires { IsSome reader.old.value }
    ensures { GoesOn reader.old.value reader.new.value (λ old new. TakeTold old new
        (record { heads = heads.old; nodes = nodes.old; pool = pool.old })
        (record { heads = heads.new; nodes = nodes.new; pool = pool.new }) told.new) }
{
    let mut boxed = taken(alloc, reader);
    *told = boxed.take(heads, nodes, pool);
    give(boxed, reader);
}

/// Hands out the definition of a type, where the stream has one by now and there is room for it, and tells whether.
#[unsafe(no_mangle)]
pub extern "C" fn gob_raw_type(
    alloc: Global,
    reader: &mut Handle,
    id: u64,
    nodes: &mut [FlatNode],
    pool: &mut [u8],
    told: &mut HandedOut,
)
    requires { IsSome reader.old.value }
    ensures { GoesOn reader.old.value reader.new.value (λ old new. ShapeTold old new (record { 0 = id })
        nodes.old nodes.new pool.old pool.new told.new) }
{
    let boxed = taken(alloc, reader);
    *told = boxed.shape(TypeId(id), nodes, pool);
    give(boxed, reader);
}

/// Lets the reader go.
#[unsafe(no_mangle)]
pub extern "C" fn gob_raw_close(reader: Handle)
    requires { IsSome reader.value }
{
    drop(reader.into_parts().into_box());
}

/// Goes through a stream that is held in memory, and keeps nothing of it. What there is in its whole items is written
/// to `counts`, and how that ended is told.
#[unsafe(no_mangle)]
pub extern "C" fn gob_raw_check(
    alloc: Global,
    bytes: &[u8],
    asked: &Asked,
    counts: &mut Counts,
    told: &mut Told,
)
    ensures { CheckTold (asked_bounds asked.now) asked.now.exact bytes.now counts.new told.new }
{
    let Some(limits) = asked.limits() else {
        *told = Told::plain(4);
        return;
    };
    let checked = check(alloc, bytes, limits, asked.exact);
    *counts = Counts::of(checked.tally);
    *told = Told::of(checked.ended, checked.tally.bytes);
}

// A new reader, on the heap; None for want of memory.
fn opened(alloc: Global, limits: Limits, exact: bool) -> Option<Box<AnyReader>>
    ensures { IfSome result (λ boxed. IsNewReader limits exact boxed.value) }
{
    let reader = AnyReader::new(alloc, limits, exact).ok()?;
    Box::new(alloc, reader).ok()
}

// The reader that the handle holds, which holds none then.
fn taken(alloc: Global, handle: &mut Handle) -> Box<AnyReader>
    requires { IsSome handle.old.value }
    ensures { handle.old.value ≡ Some result.value }
{
    replace(handle, Handle::empty(alloc))
        .into_parts()
        .into_box()
}

// Gives the handle a reader.
fn give(reader: Box<AnyReader>, handle: &mut Handle)
    ensures { handle.new.value ≡ Some reader.value }
{
    *handle = Handle::of(Parts::of(reader));
}
