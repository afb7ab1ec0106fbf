//! What renaming keeps, as functions that do nothing: the contract of each is a law that is proved here, once.

ghost use Rattle.gob_rename.specs.Laws.{KeepsReadiness, KeepsSpellings};

/// A value has the same bytes by the types with fields renamed, and a type that is ready stays ready.
pub fn renaming_keeps_values()
    ensures spellings { KeepsSpellings }
    ensures ready { KeepsReadiness }
{}
