//! A law of the parts of a stream. Its function does nothing: its contract is a law that is proved here, once.

ghost use Rattle.gob_split.specs.Laws.{PartsAreStreams};

/// Each part is a stream: of the definitions in the items before its own, and of its own, each behind the definitions
/// in it. Each item is of one part, in order, so the values of the parts are those of the stream.
pub fn parts_are_streams()
    ensures { PartsAreStreams }
{}
