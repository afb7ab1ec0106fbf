//! Laws of hoisted items, of spellings and of what is put. The functions do nothing: their contracts are laws, proved
//! here once.

ghost use Rattle.gob_go_writer.specs.HoistingLaws.{HoistedHaveBytes};
ghost use Rattle.gob_go_writer.specs.PutRefusal.{PutsHaveOneReason};
ghost use Rattle.gob_go_writer.specs.PuttingLaws.{PutIsRead};
ghost use Rattle.gob_go_writer.specs.SpellingLaws.{AreSpelled, HaveOneSpelling};

/// Where an item is one of a stream, the items that come of it are, too: they have bytes there, and behind them the
/// types are those behind the item. The bytes may be more than the item's, so that limits may have to be wider.
pub fn hoisted_items_have_bytes()
    ensures { HoistedHaveBytes }
{}

/// What a [`GoWriter`](crate::GoWriter) has written is one whole stream under its limits: whoever reads these bytes, in
/// pieces of any lengths, is given the items that were put, and no other one.
pub fn what_is_put_is_read()
    ensures { PutIsRead }
{}

/// An item has one spelling, and that of an item of a stream is its bytes there.
pub fn items_are_spelled()
    ensures one { HaveOneSpelling }
    ensures bytes { AreSpelled }
{}

/// There is one reason at most for which an item isn't put behind a stream.
pub fn one_refusal()
    ensures { PutsHaveOneReason }
{}
