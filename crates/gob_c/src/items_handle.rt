//! A writer behind a pointer that C keeps.

ghost use Rattle.std.specs.Prelude.{◌≡◌, Option, IsSome};
ghost use Rattle.gob_item_writer.specs.declared.writer.ItemWriter.{ItemWriter};
ghost use Rattle.gob_c.specs.Held.{items_owned, items_coded};

use crate::parts::Parts;
use gob_item_writer::ItemWriter;
use std::alloc::Global;
use std::marker::Model;
use std::ptr::null_mut;

/// The pointer by which C keeps a writer. It owns what a box of the writer does, or holds none and owns nothing. That
/// C leaves the pointer as a call wrote it, and gives it to one call at a time, is C's duty, and taken as given here.
/// One that is let go frees nothing: what it holds is C's until `gob_raw_items_close`.
#[repr(C)]
#[derive(Drop)]
pub struct ItemsHandle {
    at: *mut u8,
    alloc: Global,
    ghost value: { Option ItemWriter } by { items_coded },
}

impl Model for ItemsHandle {
    ghost also_owns = { λ h. items_owned h.alloc h.at h.value };
}

impl ItemsHandle {
    /// One that holds no writer.
    pub fn empty(alloc: Global) -> ItemsHandle
        ensures { result.value ≡ None }
    {
        let at = null_mut();
        ItemsHandle { at, alloc }
    }

    /// One that holds the writer of a box, which was taken apart.
    pub fn of(parts: Parts<ItemWriter, Global>) -> ItemsHandle
        ensures { result.value ≡ Some parts.value }
    {
        let Parts { ptr, alloc } = parts;
        let at = ptr as *mut u8;
        ItemsHandle { at, alloc }
    }

    /// The box of its writer, in parts.
    pub fn into_parts(self) -> Parts<ItemWriter, Global>
        requires { IsSome self.value }
        ensures { self.value ≡ Some result.value }
    {
        let ItemsHandle { at, alloc } = self;
        let ptr = at as *mut ItemWriter;
        Parts { ptr, alloc }
    }
}
