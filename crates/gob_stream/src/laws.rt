//! Laws of streams. Each function does nothing: its contract is a law that is proved here, once.

ghost use Rattle.gob_stream.specs.Laws.{HaveOneReading, BeginOneAnother, GiveOneList};
ghost use Rattle.gob_stream.specs.Laws.{StayStreams, HaveOneOutcome, HaveAnOutcome, RefuseNoItem, StreamsStayShown};
ghost use Rattle.gob_stream.specs.Laws.{HaveOneTable, StayLimits};
ghost use Rattle.gob_stream.specs.Calls.SessionLaws.{GivesWhatItRead};
ghost use Rattle.gob_stream.specs.Laws.{AreReadBack, ShowNoRefusal};
ghost use Rattle.gob_stream.specs.Calls.SessionLaws.{AreReadBackInPieces};
ghost use Rattle.gob_stream.specs.Honest.{OutcomesAreHonest};
ghost use Rattle.gob_stream.specs.WriterRefusal.{WritersHaveOneReason, AreNoItem};

use gob_read::Builder;

/// A stream has one list of items, and one table of types behind it.
pub fn streams_have_one_reading()
    ensures { HaveOneReading }
{}

/// Of two streams with which bytes begin, one begins the other, so that there is a longest, whose items are
/// what the bytes give.
pub fn bytes_give_one_list()
    ensures begin { BeginOneAnother }
    ensures give { GiveOneList }
{}

/// A stream stays one under limits that are each at least its own.
pub fn streams_stay()
    ensures { StayStreams }
{}

/// What `write_stream` writes, `read_stream` reads back as that list, under limits that are each at least the
/// writer's. No prefix of it shows a refusal.
pub fn streams_are_read_back()
    ensures whole { AreReadBack }
    ensures prefixes { ShowNoRefusal }
{}

/// What `write_stream` writes, a session reads back in whatever pieces it is fed, under limits that are each at least
/// the writer's and with a builder that takes values as deep: no feed is refused, behind the last byte those items
/// were given, and finishing answers Ok.
pub fn streams_are_read_back_in_pieces<B: Builder>()
    ensures { AreReadBackInPieces B.building }
{}

/// There is one reason at most for which an item isn't written, and none where some bytes are the item.
pub fn one_refusal()
    ensures reason { WritersHaveOneReason }
    ensures not_counted { AreNoItem }
{}

/// What a session has given are the items that the grammar finds in the bytes so far, which show no refusal; its types
/// are those behind the items.
pub fn sessions_give_what_they_read<B: Builder>()
    ensures { GivesWhatItRead B.building }
{}

/// Behind the items with which bytes begin there is one table of types.
pub fn items_have_one_table()
    ensures { HaveOneTable }
{}

/// Limits that are no deeper than a builder goes are those that its session keeps to.
pub fn limits_stay()
    ensures { StayLimits }
{}

/// Bytes have one outcome under each limits: one list of items, and behind these one ending. None are without one.
pub fn bytes_have_one_outcome()
    ensures one { HaveOneOutcome }
    ensures some { HaveAnOutcome }
{}

/// What is refused behind a stream is no item there.
pub fn refused_bytes_are_no_item()
    ensures { RefuseNoItem }
{}

/// The refusal that the bytes show is the same for all bytes that begin with those that show it, and so are the
/// items before it.
pub fn shown_refusals_stay()
    ensures { StreamsStayShown }
{}

/// The place of a refusal is honest. Where what stands behind a type number is refused for a number, the bytes between
/// the two begin a value of the type, or a description, in the grammar without limits, and those up to the number's
/// end begin none; where a part is too deep, those before it begin one, and only such as are too deep.
pub fn places_are_honest()
    ensures { OutcomesAreHonest }
{}
