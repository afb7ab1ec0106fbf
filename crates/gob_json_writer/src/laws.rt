//! Laws of what values show. Each function does nothing: its contract is a law that is proved here, once.

ghost use Rattle.gob_json_writer.specs.Laws.{ShowAsEver, ShowInStreams, ShowOnce, ShowSome};

/// A filled value shows one JSON.
pub fn values_show_once()
    ensures { ShowOnce }
{}

/// Each filled value shows a JSON, where the types are those behind it; so each value of a stream does, where the types
/// are those behind the stream.
pub fn values_show()
    ensures value { ShowSome }
    ensures stream { ShowInStreams }
{}

/// A value of which no nil is filled shows the JSON that it has in the format.
pub fn unfilled_values_show_as_ever()
    ensures { ShowAsEver }
{}
