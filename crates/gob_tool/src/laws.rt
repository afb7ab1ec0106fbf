//! Laws of the lines of items, and of streams that the format has too. The functions do nothing: the contract of each
//! is a law that is proved here, once.

ghost use Rattle.gob_tool.specs.HoistedLines.{HoistingKeepsLines};
ghost use Rattle.gob_tool.specs.StrictForms.{StrictStreamsAreRewrittenAlike};

/// The lines of an item are those of the items that come of it when each definition in its value stands in an item of
/// its own before it.
pub fn hoisting_keeps_lines()
    ensures { HoistingKeepsLines }
{}

/// What is written of a stream of the format, each item in its tidy form, is one text in the format and in the profile:
/// `gob rewrite --go` writes of it what `gob rewrite` does.
pub fn strict_streams_are_rewritten_alike()
    ensures { StrictStreamsAreRewrittenAlike }
{}
