//! What follows from what `show` prints and what lines say.

ghost use Rattle.gob_written_back.specs.Once.{LinesSayOneStream};
ghost use Rattle.gob_written_back.specs.Shown.{ShownStreamsAreWrittenBack};

/// Lines say one stream: of two lists of items that they say, each by the types of those before, whose streams consist
/// of bytes, the items, the bytes and the types behind them are one.
pub fn lines_say_one_stream()
    ensures { LinesSayOneStream }
{}

/// The text that `show` prints of the items of a stream is cut into the lines of its items, and these say the stream of
/// the same items, each description as a writer makes it of its shape, and no other: it is what `write` makes of the
/// text. The text is the same whatever the descriptions are, since a line shows the shape.
pub fn shown_streams_are_written_back()
    ensures { ShownStreamsAreWrittenBack }
{}
