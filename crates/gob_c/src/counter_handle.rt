//! A counter behind a pointer that C keeps. Its handle is a struct beside the reader's, since no export may take a
//! struct with type arguments.

ghost use Rattle.std.specs.Prelude.{◌≡◌, Option, IsSome};
ghost use Rattle.gob_c.specs.declared.any_counter.AnyCounter.{AnyCounter};
ghost use Rattle.gob_c.specs.Held.{counter_owned, counter_coded};

use crate::any_counter::AnyCounter;
use crate::parts::Parts;
use std::alloc::Global;
use std::marker::Model;
use std::ptr::null_mut;

/// The pointer by which C keeps a counter. It owns what a box of the counter does, or holds none and owns nothing. That
/// C leaves the pointer as a call wrote it, and gives it to one call at a time, is C's duty, and taken as given here.
/// One that is let go frees nothing: what it holds is C's until `gob_raw_check_close`.
#[repr(C)]
#[derive(Drop)]
pub struct CounterHandle {
    at: *mut u8,
    alloc: Global,
    ghost value: { Option AnyCounter } by { counter_coded },
}

impl Model for CounterHandle {
    ghost also_owns = { λ h. counter_owned h.alloc h.at h.value };
}

impl CounterHandle {
    /// One that holds no counter.
    pub fn empty(alloc: Global) -> CounterHandle
        ensures { result.value ≡ None }
    {
        let at = null_mut();
        CounterHandle { at, alloc }
    }

    /// One that holds the counter of a box, which was taken apart.
    pub fn of(parts: Parts<AnyCounter, Global>) -> CounterHandle
        ensures { result.value ≡ Some parts.value }
    {
        let Parts { ptr, alloc } = parts;
        let at = ptr as *mut u8;
        CounterHandle { at, alloc }
    }

    /// The box of its counter, in parts.
    pub fn into_parts(self) -> Parts<AnyCounter, Global>
        requires { IsSome self.value }
        ensures { self.value ≡ Some result.value }
    {
        let CounterHandle { at, alloc } = self;
        let ptr = at as *mut AnyCounter;
        Parts { ptr, alloc }
    }
}
