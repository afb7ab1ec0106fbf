//! What is true of sessions that a counter counts with. Each function does nothing: its contract is a law that is
//! proved here, once.

ghost use Rattle.gob_stream.specs.StrictStepping.{strict_stepping};
ghost use Rattle.gob_go.specs.GoStepping.{go_stepping};
ghost use Rattle.gob_counted.specs.Apart.{IsCountable};

use gob_read::Builder;

/// The sessions can be counted with: two streams of the same items at the front of the same bytes are one, items that
/// leave the types as they are are values, and between two items a session has read the stream of its items.
pub fn sessions_are_countable<B: Builder>()
    ensures strict { IsCountable (strict_stepping B.building) }
    ensures go { IsCountable go_stepping }
{}
