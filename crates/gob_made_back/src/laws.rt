//! What follows from how plain JSON is read and how values are printed.

ghost use Rattle.gob_made_back.specs.Alike.{MadeValuesAreAlike};

/// What is printed of a value that was read from plain JSON is alike to that JSON: it says as a value of the type what
/// the JSON says, as `values` writes it.
pub fn made_values_are_alike()
    ensures { MadeValuesAreAlike }
{}
