//! A check of a stream that comes in pieces. Its counter stands behind a pointer that C keeps, as a reader does.

ghost use Rattle.std.specs.Prelude.{◌≡◌, IfSome, IsSome};
ghost use Rattle.gob_c.specs.Asked.{asked_bounds};
ghost use Rattle.gob_c.specs.Calls.{CheckFeedTold, CheckFinishTold, IsNewCheck, OpenTold};
ghost use Rattle.gob_c.specs.Held.{GoesOn};

use crate::any_counter::AnyCounter;
use crate::counter_handle::CounterHandle;
use crate::counts::Counts;
use crate::limits::Asked;
use crate::parts::Parts;
use crate::told::Told;
use gob_stream::Limits;
use std::alloc::Global;
use std::mem::replace;

/// Makes a counter that has taken no byte and keeps to these limits, and tells how that ended. The handle holds it
/// where one was made.
#[unsafe(no_mangle)]
pub extern "C" fn gob_raw_check_open(
    alloc: Global,
    asked: &Asked,
    told: &mut Told,
    counter: &mut CounterHandle,
)
    ensures { OpenTold (asked_bounds asked.now) (IsNewCheck (asked_bounds asked.now) asked.now.exact) told.new
        counter.old.value counter.new.value }
{
    let Some(limits) = asked.limits() else {
        *told = Told::plain(4);
        return;
    };
    match opened(alloc, limits, asked.exact) {
        Some(boxed) => {
            give(boxed, counter);
            *told = Told::plain(0);
        }
        None => *told = Told::plain(2),
    }
}

/// Takes the next piece of the stream, and tells how that ended. What there is in the items that are whole by then is
/// written to `counts`, also behind a fault.
#[unsafe(no_mangle)]
pub extern "C" fn gob_raw_check_feed(
    alloc: Global,
    counter: &mut CounterHandle,
    piece: &[u8],
    counts: &mut Counts,
    told: &mut Told,
)
    requires { IsSome counter.old.value }
    ensures { GoesOn counter.old.value counter.new.value (λ old new.
        CheckFeedTold old new piece.now counts.new told.new) }
{
    let mut boxed = taken(alloc, counter);
    let ended = boxed.feed(alloc, piece);
    let tally = boxed.tally();
    *counts = Counts::of(tally);
    *told = Told::of(ended, tally.bytes);
    give(boxed, counter);
}

/// Says that no byte follows, and tells how that ended. What there is in the items that are whole is written to
/// `counts`.
#[unsafe(no_mangle)]
pub extern "C" fn gob_raw_check_finish(
    alloc: Global,
    counter: &mut CounterHandle,
    counts: &mut Counts,
    told: &mut Told,
)
    requires { IsSome counter.old.value }
    ensures { GoesOn counter.old.value counter.new.value (λ old new. CheckFinishTold old new counts.new told.new) }
{
    let mut boxed = taken(alloc, counter);
    let ended = boxed.finish();
    let tally = boxed.tally();
    *counts = Counts::of(tally);
    *told = Told::of(ended, tally.bytes);
    give(boxed, counter);
}

/// Lets the counter go.
#[unsafe(no_mangle)]
pub extern "C" fn gob_raw_check_close(counter: CounterHandle)
    requires { IsSome counter.value }
{
    drop(counter.into_parts().into_box());
}

// A new counter, on the heap; None for want of memory.
fn opened(alloc: Global, limits: Limits, exact: bool) -> Option<Box<AnyCounter>>
    ensures { IfSome result (λ boxed. IsNewCheck limits exact boxed.value) }
{
    let counter = AnyCounter::new(alloc, limits, exact).ok()?;
    Box::new(alloc, counter).ok()
}

// The counter that the handle holds, which holds none then.
fn taken(alloc: Global, handle: &mut CounterHandle) -> Box<AnyCounter>
    requires { IsSome handle.old.value }
    ensures { handle.old.value ≡ Some result.value }
{
    replace(handle, CounterHandle::empty(alloc))
        .into_parts()
        .into_box()
}

// Gives the handle a counter.
fn give(counter: Box<AnyCounter>, handle: &mut CounterHandle)
    ensures { handle.new.value ≡ Some counter.value }
{
    *handle = CounterHandle::of(Parts::of(counter));
}
