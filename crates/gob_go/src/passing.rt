//! A session that keeps nothing of a value.

use crate::item::GoItem;
use crate::session::GoSession;
use gob_num::Memory;
use gob_stream::{Advance, Awaited, Fault, Limits, Passed, Steps, Whole};
use gob_types::Table;
use std::alloc::Global;
use std::marker::Model;

/// A reader of one stream of Go's encoder for whoever asks only whether it is one: it takes and refuses what a
/// [`GoSession`] takes and refuses, and keeps nothing of a value: an item takes memory for the values that are open in
/// it, with the names and definitions in front of them, and none for their bytes. Of what a step hands out only that
/// there is an item says anything.
pub struct PassingSession {
    session: GoSession,
}

// Not derived, so that a drop is one call in the proofs of what owns one.
impl Drop for PassingSession {
    fn drop(self) {
        let PassingSession { session: _ } = self;
    }
}

impl Model for PassingSession {
    ghost use Rattle.std.specs.Coded.{codes};
    ghost use Rattle.gob_value.specs.contracts.value.Value as value;
    ghost use Rattle.gob_go.specs.contracts.filled.Filling as filling;
    ghost use Rattle.gob_go.specs.Machine.SessionState.{SessionState};

    ghost Value = { SessionState };

    ghost coded = { Prim.hlevel (codes, value.the_row.coded, filling.the_row.coded) };

    ghost view = { λ passing. passing.session };
}

impl PassingSession {
    ghost use Rattle.std.specs.Prelude.{◌≡◌};

    // One that goes on with this session.
    pub(crate) fn of(session: GoSession) -> PassingSession
        ensures { result ≡ session }
    {
        PassingSession { session }
    }

    // The session with which it goes on.
    pub(crate) fn into_session(self) -> GoSession
        ensures { result ≡ self }
    {
        let PassingSession { session } = self;
        session
    }
}

impl Steps for PassingSession {
    ghost use Rattle.gob_filled.specs.Stream.{FilledItem};
    ghost use Rattle.gob_go.specs.GoStepping.{passing_stepping};

    type Item = GoItem;

    ghost Told = { FilledItem };

    ghost stepping = { passing_stepping };

    fn begin(alloc: Global, limits: Limits) -> Result<PassingSession, Memory> {
        let session = GoSession::start(alloc, limits, false)?;
        Ok(PassingSession { session })
    }

    fn step(&mut self, alloc: Global, piece: &[u8]) -> Result<Advance<GoItem>, Fault> {
        self.session.step(alloc, piece)
    }

    fn finish(&mut self) -> Result<(), Fault> {
        self.session.finish()
    }

    fn awaited(&self, piece: &[u8]) -> Option<Awaited> {
        self.session.awaited(piece)
    }

    #[inline(always)]
    fn whole_value<'a>(&self, piece: &'a [u8]) -> Option<Whole<'a>> {
        self.session.whole_value(piece)
    }

    fn pass(&mut self, item: &[u8]) {
        self.session.go_past(item);
    }

    fn pass_values(&mut self, piece: &[u8]) -> Passed {
        self.session.pass_values(piece)
    }

    #[inline(always)]
    fn has_failed(&self) -> bool {
        self.session.has_failed()
    }

    fn fail(&mut self) {
        self.session.fail();
    }

    fn table(&self) -> &Table {
        self.session.table()
    }

    fn limits(&self) -> Limits {
        self.session.limits()
    }
}
