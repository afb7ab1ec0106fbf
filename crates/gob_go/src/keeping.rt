//! Sessions that keep something of some items, and nothing of others.

ghost use Rattle.std.specs.Prelude.{◌≡◌, ℕ, List, Bool, false};
ghost use Rattle.gob_filled.specs.Stream.{FilledItem};
ghost use Rattle.gob_go.specs.Calls.Session.{HasRead, IsBetweenItems, StandsAfter, limits_of, table_of, taken_of};

use crate::passing::PassingSession;
use crate::session::GoSession;

impl GoSession {
    /// The session, where no byte of an item is under way, as one that reads on where it stands and keeps nothing of
    /// what fills nils in the items to come.
    pub fn into_passing(self) -> PassingSession
        requires between { IsBetweenItems self }
        ensures stands { (items : List FilledItem) (bytes : List ℕ) → HasRead self items bytes
            → StandsAfter false result items bytes }
        ensures between { IsBetweenItems result }
        ensures table { table_of result ≡ table_of self }
        ensures taken { taken_of result ≡ taken_of self }
        ensures limits { limits_of result ≡ limits_of self }
    {
        let mut session = self;
        session.keep(false);
        PassingSession::of(session)
    }

    // From now on, where no byte of an item is under way, what fills nils is kept, or nothing of it.
    pub(crate) fn keep(&mut self, keeps: bool)
        requires between { IsBetweenItems self.old }
        ensures stands { (keep : Bool) (items : List FilledItem) (bytes : List ℕ)
            → StandsAfter keep self.old items bytes → StandsAfter keeps self.new items bytes }
        ensures between { IsBetweenItems self.new }
        ensures table { table_of self.new ≡ table_of self.old }
        ensures taken { taken_of self.new ≡ taken_of self.old }
        ensures limits { limits_of self.new ≡ limits_of self.old }
    {
        self.keeps = keeps;
    }
}

impl PassingSession {
    /// The session, where no byte of an item is under way, as one that reads on where it stands and hands out the items
    /// to come.
    pub fn into_keeping(self) -> GoSession
        requires between { IsBetweenItems self }
        ensures has_read { (items : List FilledItem) (bytes : List ℕ) → StandsAfter false self items bytes
            → HasRead result items bytes }
        ensures between { IsBetweenItems result }
        ensures table { table_of result ≡ table_of self }
        ensures taken { taken_of result ≡ taken_of self }
        ensures limits { limits_of result ≡ limits_of self }
    {
        let mut session = self.into_session();
        session.keep(true);
        session
    }
}
