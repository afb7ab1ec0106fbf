//! What follows from how source is written, and how it is read.

ghost use Rattle.gob_source_back.specs.Alike.{WrittenTypesAreReadBack};
ghost use Rattle.gob_source_back.specs.Differ.{SourceNamesDiffer};

/// What is read of the source of a stream's types, as types for a writer, is alike to them: also types that encode
/// themselves, by the same method. One of Go's library may have the name that was sent where source declares it under
/// another.
pub fn written_types_are_read_back()
    ensures { WrittenTypesAreReadBack }
{}

/// No two types that source declares have one name there, under ids that definitions give.
pub fn source_names_differ()
    ensures { SourceNamesDiffer }
{}
