//! Writing a stream of items that the caller made.

ghost use Rattle.std.specs.Prelude.{◌≡◌, ℕ, List, [], Err, IfOk, OnErr};
ghost use Rattle.gob_filled.specs.Stream.{FilledItem};
ghost use Rattle.gob_go.specs.Calls.Session.{limits_of as session_limits, types_of as session_types};
ghost use Rattle.gob_go_writer.specs.Calls.Writer.{HasFailed, HasPut, HasReadWhole, PutAnswers, limits_of};
ghost use Rattle.gob_go_writer.specs.Machine.ReadingBack.{ReadBackAnswers};
ghost use Rattle.gob_go_writer.specs.Spelling.{IsSpelling};

use crate::item::spell_item;
use crate::plain::read_plain;
use crate::put_fault::PutFault;
use crate::same::same_item;
use gob_go::{GoItem, GoSession};
use gob_num::Memory;
use gob_stream::Limits;
use gob_types::{Reason, Table};
use std::alloc::Global;

/// A writer of one stream of Go's encoder, from its first byte on. What it appends is read back as the items that were
/// put: it reads the bytes of each item before it appends them.
pub struct GoWriter {
    // It has read all that was appended.
    session: GoSession,
    // Whether there was a fault.
    failed: bool,
}

// Not derived, so that a drop is one call in the proofs of what owns one.
impl Drop for GoWriter {
    fn drop(self) {
        let GoWriter {
            session: _,
            failed: _,
        } = self;
    }
}

impl GoWriter {
    ghost use Rattle.gob_go.specs.Calls.Session.{table_of};

    /// A writer that has written nothing. It keeps to the limits as [`GoSession::new`] says of what is read.
    pub fn new(alloc: Global, limits: Limits) -> Result<GoWriter, Memory>
        ensures nothing { IfOk result (λ writer. HasPut writer [] []) }
        ensures limits { IfOk result (λ writer. limits_of writer ≡ limits) }
    {
        Ok(GoWriter {
            session: GoSession::new(alloc, limits)?,
            failed: false,
        })
    }

    /// Appends the bytes of an item: the definition of a type, or a value with what its interfaces hold. A session that
    /// has read what the writer wrote before reads these bytes as that very item. Ok wherever some bytes are the item
    /// there and there is memory. Else it is refused, as where its type isn't ready, where its skeleton spells no value
    /// of the type, where a place isn't that of a nil of an interface or comes before the last one, where a name is
    /// empty, where a description isn't that of the id, or beyond a limit, for the one reason that
    /// [`PutFault::Refused`] tells. After a fault `out` holds what it held, and each call answers [`PutFault::Failed`].
    /// It takes memory for the bytes, and for the item once more where interfaces hold values.
    pub fn put(&mut self, alloc: Global, item: &GoItem, out: &mut Vec<u8>) -> Result<(), PutFault>
        ensures puts { (items : List FilledItem) (bytes : List ℕ) → HasPut self.old items bytes
            → PutAnswers self.old self.new items bytes item.now out.old.items out.new.items result }
        ensures as_before { OnErr result (out.new.items ≡ out.old.items) }
        ensures failed { OnErr result (HasFailed self.new) }
        ensures stays { HasFailed self.old → (result ≡ Err PutFault.Failed) × (self.new ≡ self.old) }
        ensures limits { limits_of self.new ≡ limits_of self.old }
    {
        if self.failed {
            return Err(PutFault::Failed);
        }
        self.failed = true;
        let mut bytes = Vec::new(alloc);
        read_back(alloc, &mut self.session, item, &mut bytes)?;
        out.extend_from_slice(&bytes)?;
        self.failed = false;
        Ok(())
    }

    /// The types of the stream so far, those too that were defined in front of values in interfaces. After a fault they
    /// may be those of the item that wasn't put.
    pub fn table(&self) -> &Table
        ensures { result.now ≡ table_of self.now.session }
    {
        self.session.table()
    }

    /// The limits that it was made with.
    pub fn limits(&self) -> Limits
        ensures { result ≡ limits_of self.now }
    {
        self.session.limits()
    }
}

// Spells an item into the vector, which is empty, and has the session read its bytes.
fn read_back(
    alloc: Global,
    session: &mut GoSession,
    item: &GoItem,
    bytes: &mut Vec<u8>,
) -> Result<(), PutFault>
    requires { bytes.old.items ≡ [] }
    ensures read { (items : List FilledItem) (z : List ℕ) → HasReadWhole session.old items z
        → ReadBackAnswers session.old session.new items z item.now bytes.new.items result }
    ensures limits { session_limits session.new ≡ session_limits session.old }
{
    spell_item(alloc, session.table(), item, bytes)?;
    if read_plain(session, item, bytes) {
        return Ok(());
    }
    let mut given = Vec::new(alloc);
    let read = read_given(alloc, session, item, bytes, &mut given);
    drop(given);
    read
}

// Has the session read the spelling of an item. What that gives is put into `given`, which is empty.
fn read_given(
    alloc: Global,
    session: &mut GoSession,
    item: &GoItem,
    bytes: &[u8],
    given: &mut Vec<GoItem>,
) -> Result<(), PutFault>
    requires spelled { IsSpelling (session_types session.old) item.now bytes.now }
    requires given { given.old.items ≡ [] }
    ensures read { (items : List FilledItem) (z : List ℕ) → HasReadWhole session.old items z
        → ReadBackAnswers session.old session.new items z item.now bytes.now result }
    ensures limits { session_limits session.new ≡ session_limits session.old }
{
    session.feed(alloc, bytes, given)?;
    session.finish()?;
    if given.len() != 1 {
        return Err(PutFault::Refused(Reason::DoesNotFit));
    }
    same_item(alloc, session.table(), &given[0], item)?;
    Ok(())
}
