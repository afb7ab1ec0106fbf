//! A writer behind a pointer that C keeps.

ghost use Rattle.std.specs.Prelude.{◌≡◌, Option, IsSome};
ghost use Rattle.gob_plain_writer.specs.declared.writer.PlainWriter.{PlainWriter};
ghost use Rattle.gob_c.specs.Held.{writer_owned, writer_coded};

use crate::parts::Parts;
use gob_plain_writer::PlainWriter;
use std::alloc::Global;
use std::marker::Model;
use std::ptr::null_mut;

/// The pointer by which C keeps a writer. It owns what a box of the writer does, or holds none and owns nothing. That
/// C leaves the pointer as a call wrote it, and gives it to one call at a time, is C's duty, and taken as given here.
/// One that is let go frees nothing: what it holds is C's until `gob_raw_writer_close`.
#[repr(C)]
#[derive(Drop)]
pub struct WriterHandle {
    at: *mut u8,
    alloc: Global,
    ghost value: { Option PlainWriter } by { writer_coded },
}

impl Model for WriterHandle {
    ghost also_owns = { λ h. writer_owned h.alloc h.at h.value };
}

impl WriterHandle {
    /// One that holds no writer.
    pub fn empty(alloc: Global) -> WriterHandle
        ensures { result.value ≡ None }
    {
        let at = null_mut();
        WriterHandle { at, alloc }
    }

    /// One that holds the writer of a box, which was taken apart.
    pub fn of(parts: Parts<PlainWriter, Global>) -> WriterHandle
        ensures { result.value ≡ Some parts.value }
    {
        let Parts { ptr, alloc } = parts;
        let at = ptr as *mut u8;
        WriterHandle { at, alloc }
    }

    /// The box of its writer, in parts.
    pub fn into_parts(self) -> Parts<PlainWriter, Global>
        requires { IsSome self.value }
        ensures { self.value ≡ Some result.value }
    {
        let WriterHandle { at, alloc } = self;
        let ptr = at as *mut PlainWriter;
        Parts { ptr, alloc }
    }
}
