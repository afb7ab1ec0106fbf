//! Laws of what is given of a stream's bytes. Each function does nothing: its contract is a law that is proved here,
//! once.

ghost use Rattle.gob_appended.specs.Laws.{NothingIsLost, SaysOnce, StandsInInput};

/// What is given of any bytes are these bytes without the items that define a type again, in the very bytes of a
/// definition that was given before, and no other bytes are that.
pub fn definitions_are_said_once()
    ensures { SaysOnce }
{}

/// Each byte that is given of an input is the one that stands there at its offset, and behind the one before.
pub fn offsets_are_those_of_the_input()
    ensures { StandsInInput }
{}

/// Bytes in which no item defines a type again in the same bytes are given as they are.
pub fn nothing_else_is_lost()
    ensures { NothingIsLost }
{}
