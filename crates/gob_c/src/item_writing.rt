//! A writer of items that are given as nodes. It stands behind a pointer that C keeps, as a reader does.

ghost use Rattle.std.specs.Prelude.{◌≡◌, ℕ, List, IfSome, IsSome};
ghost use Rattle.gob_types.specs.Table as known;
ghost use Rattle.gob_filled.specs.Stream.{FilledItem};
ghost use Rattle.gob_filled_writer.specs.Writing.{HasFailed};
ghost use Rattle.gob_item_writer.specs.Writing.{HasWritten, StaysFailed};
ghost use Rattle.gob_c.specs.Asked.{asked_bounds};
ghost use Rattle.gob_c.specs.Held.{GoesOn};
ghost use Rattle.gob_c.specs.ItemWriting.{IsNewWriter, ItemAnswers, ItemTold, OpensItems, TakesItems, told_of_item};
ghost use Rattle.gob_c.specs.Writing.{IsTold};

use crate::items_handle::ItemsHandle;
use crate::limits::Asked;
use crate::parts::Parts;
use crate::streams::put_words;
use crate::texts::put_front;
use crate::writing::WriterTold;
use gob_item_writer::{ItemFault, ItemWriter};
use gob_nodes::Nodes;
use gob_stream::Limits;
use gob_tape::FlatNode;
use gob_types::TypeId;
use std::alloc::Global;
use std::mem::replace;

/// Which item is given: the definition of a type, or a value of it.
#[repr(C)]
#[derive(Clone, Copy)]
pub struct Given {
    /// The type.
    pub id: u64,
    /// Whether it is the type's definition.
    pub defines: bool,
}

/// Makes a writer that has written nothing and keeps to these limits, and tells how that ended. The handle holds it
/// where one was made.
#[unsafe(no_mangle)]
pub extern "C" fn gob_raw_items_open(
    alloc: Global,
    asked: &Asked,
    writer: &mut ItemsHandle,
    told: &mut WriterTold,
)
    ensures { OpensItems (asked_bounds asked.now) told.new writer.old.value writer.new.value }
{
    let Some(limits) = asked.limits() else {
        *told = WriterTold::plain(4);
        return;
    };
    match opened(alloc, limits) {
        Some(boxed) => {
            give(boxed, writer);
            *told = WriterTold::plain(0);
        }
        None => *told = WriterTold::plain(2),
    }
}

/// Writes the item that the nodes and the bytes say, and tells how that ended. What is said of a fault is put into the
/// room, as much as there is room for.
#[unsafe(no_mangle)]
pub extern "C" fn gob_raw_items_put(
    alloc: Global,
    writer: &mut ItemsHandle,
    given: &Given,
    nodes: &[FlatNode],
    bytes: &[u8],
    told: &mut WriterTold,
    room: &mut [u8],
)
    requires { IsSome writer.old.value }
    ensures { GoesOn writer.old.value writer.new.value (λ old new. ItemTold given.now.defines old new
        (record { 0 = given.now.id }) nodes.now bytes.now room.old room.new told.new) }
{
    let mut boxed = taken(alloc, writer);
    let id = TypeId(given.id);
    let nodes = Nodes { nodes, bytes };
    let answer = put_item(alloc, &mut *boxed, given.defines, id, nodes);
    *told = told_of(alloc, answer, room);
    give(boxed, writer);
}

/// Puts what is written and not yet taken into the room, where there is room for all of it, and tells how much it is.
/// It is taken then.
#[unsafe(no_mangle)]
pub extern "C" fn gob_raw_items_take(
    alloc: Global,
    writer: &mut ItemsHandle,
    room: &mut [u8],
    count: &mut u64,
)
    requires { IsSome writer.old.value }
    ensures { GoesOn writer.old.value writer.new.value (λ old new.
        TakesItems old new room.old room.new count.new) }
{
    let mut boxed = taken(alloc, writer);
    *count = take_waiting(&mut *boxed, room);
    give(boxed, writer);
}

/// Lets the writer go.
#[unsafe(no_mangle)]
pub extern "C" fn gob_raw_items_close(writer: ItemsHandle)
    requires { IsSome writer.value }
{
    drop(writer.into_parts().into_box());
}

// Writes the definition of the type, or a value of it.
fn put_item(
    alloc: Global,
    writer: &mut ItemWriter,
    defines: bool,
    id: TypeId,
    nodes: Nodes<'_>,
) -> Result<(), ItemFault>
    ensures puts { (items : List FilledItem) (bytes : List ℕ) (T : known.Table) → HasWritten writer.old items bytes T
        → ItemAnswers defines writer.old writer.new items bytes T id nodes.entry.nodes.now nodes.entry.bytes.now
        result }
    ensures stays { HasFailed writer.old.stream → StaysFailed writer.old writer.new result }
{
    if defines {
        return writer.define(alloc, id, nodes);
    }
    writer.put(alloc, id, nodes)
}

// What is told where writing an item answered this, and said in the room.
fn told_of(alloc: Global, answer: Result<(), ItemFault>, room: &mut [u8]) -> WriterTold
    ensures { IsTold (told_of_item answer) room.old room.new result }
{
    let Err(fault) = answer else {
        return WriterTold::plain(0);
    };
    let (status, reason, column) = match fault {
        ItemFault::Nodes(node) => (1, 0, node.saturating_add(1)),
        ItemFault::Refused(reason) => (1, reason.number() as u32, 0),
        ItemFault::Memory => (2, 0, 0),
        ItemFault::Failed => (3, 0, 0),
    };
    WriterTold {
        status,
        reason,
        column,
        length: put_words(alloc, &fault, room),
    }
}

// A new writer, on the heap; None for want of memory.
fn opened(alloc: Global, limits: Limits) -> Option<Box<ItemWriter>>
    ensures { IfSome result (λ boxed. IsNewWriter limits boxed.value) }
{
    let writer = ItemWriter::new(alloc, limits).ok()?;
    Box::new(alloc, writer).ok()
}

// Puts what waits into the room, where there is room for all of it, and says how much it is. It waits no more then.
fn take_waiting(writer: &mut ItemWriter, room: &mut [u8]) -> u64
    ensures { TakesItems writer.old writer.new room.old room.new result }
{
    let count = writer.waiting().len();
    if count <= room.len() {
        put_front(writer.waiting(), room);
        writer.pass();
    }
    count as u64
}

// The writer that the handle holds, which holds none then.
fn taken(alloc: Global, handle: &mut ItemsHandle) -> Box<ItemWriter>
    requires { IsSome handle.old.value }
    ensures { handle.old.value ≡ Some result.value }
{
    replace(handle, ItemsHandle::empty(alloc))
        .into_parts()
        .into_box()
}

// Gives the handle a writer.
fn give(writer: Box<ItemWriter>, handle: &mut ItemsHandle)
    ensures { handle.new.value ≡ Some writer.value }
{
    *handle = ItemsHandle::of(Parts::of(writer));
}
