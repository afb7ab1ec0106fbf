//! Laws of tables and readiness. Each function does nothing: its contract is a law that is proved here, once.
ghost use Rattle.gob_types.specs.Laws.{KeepsShapes, StaysReady, KeepsReach, KeepsReachedShapes};
ghost use Rattle.gob_types.specs.Laws.{NamesReady, RanksArrays, HasOneRank};

/// What a table says of its types, it says when definitions have come behind it: a defined type keeps its
/// shape, and a ready type stays ready, with the same reached types and the same shapes on them.
pub fn stays_ready()
    ensures shapes { KeepsShapes }
    ensures ready { StaysReady }
    ensures reach { KeepsReach }
    ensures reached_shapes { KeepsReachedShapes }
{}

/// Each type that the shape of a ready type names is ready.
pub fn names_ready()
    ensures { NamesReady }
{}

/// A ready array that holds something has a rank, one above that of its elements, and no other.
pub fn ranks_arrays()
    ensures above { RanksArrays }
    ensures one { HasOneRank }
{}
