//! Counting a whole stream, in either grammar.

ghost use Rattle.gob_c.specs.Calls.{ChecksFor};

use gob_counted::{Checked, check_bytes, laws};
use gob_go::GoSession;
use gob_read::SkipBuilder;
use gob_stream::{Limits, Session};
use std::alloc::Global;

/// What there is in the bytes: in the documented format alone where they are to be exact, else in all that Go's encoder
/// writes.
pub(crate) fn check(alloc: Global, bytes: &[u8], limits: Limits, exact: bool) -> Checked
    ensures { ChecksFor exact limits bytes.now result.tally result.ended }
{
    laws::sessions_are_countable::<SkipBuilder>();
    if exact {
        return check_bytes::<Session<SkipBuilder>>(alloc, bytes, limits);
    }
    check_bytes::<GoSession>(alloc, bytes, limits)
}
