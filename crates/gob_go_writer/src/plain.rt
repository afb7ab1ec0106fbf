//! Reading back a value in which no interface holds anything, where it stands whole: nothing of it is kept.

ghost use Rattle.std.specs.Prelude.{◌≡◌, ℕ, List, IsTrue, false};
ghost use Rattle.gob_filled.specs.Stream.{FilledItem};
ghost use Rattle.gob_go.specs.Calls.Session.{IsBetweenItems, limits_of, types_of};
ghost use Rattle.gob_go_writer.specs.Calls.Writer.{HasReadWhole};
ghost use Rattle.gob_go_writer.specs.Machine.ReadingBack.{IsPlainNext, IsPlainSpelling, ReadsBack};
ghost use Rattle.gob_go_writer.specs.Spelling.{IsSpelling};

use gob_go::{GoItem, GoSession};
use gob_stream::{Limits, Steps};
use gob_types::TypeId;
use gob_value::is_whole;

/// Has the session read the spelling of an item, where that is a whole value in which no interface holds anything. It
/// takes no memory. False says nothing of the item, and then nothing has changed.
pub(crate) fn read_plain(session: &mut GoSession, item: &GoItem, bytes: &[u8]) -> bool
    requires { IsSpelling (types_of session.old) item.now bytes.now }
    ensures read { IsTrue result → (items : List FilledItem) (z : List ℕ) → HasReadWhole session.old items z
        → ReadsBack session.old session.new items z item.now bytes.now }
    ensures stays { result ≡ false → session.new ≡ session.old }
    ensures limits { limits_of session.new ≡ limits_of session.old }
{
    let GoItem::Put { id, value } = item else {
        return false;
    };
    if !value.fillings.is_empty() {
        return false;
    }
    if !is_plain_next(session, *id, &value.skeleton, bytes) {
        return false;
    }
    session.pass(bytes);
    true
}

// Whether the bytes, which are the number of the type and a skeleton behind their count, may come next, and the
// skeleton is a whole value in which no interface holds anything.
fn is_plain_next(session: &GoSession, id: TypeId, skeleton: &[u8], bytes: &[u8]) -> bool
    requires { IsPlainSpelling id skeleton.now bytes.now }
    ensures between { IsTrue result → IsBetweenItems session.now }
    ensures plain { IsTrue result → IsPlainNext session.now id skeleton.now bytes.now }
{
    let Some(_) = session.whole_value(bytes) else {
        return false;
    };
    let depth = session.limits().depth().min(Limits::GREATEST_DEPTH);
    is_whole(session.table(), id, skeleton, depth)
}
