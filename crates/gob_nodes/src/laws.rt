//! Laws of nodes. Each function does nothing: its contract is a law that is proved here, once.

ghost use Rattle.gob_nodes.specs.Laws.{TapesSayTheirValues};

/// The nodes and the bytes that a tape moves out say the value that it means, so [`spell_nodes`](crate::spell_nodes)
/// takes them: at each type at which the value has a spelling, by this spelling.
pub fn tapes_say_their_values()
    ensures { TapesSayTheirValues }
{}
