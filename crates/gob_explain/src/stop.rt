//! Why a walk ends before the end of the value.

ghost use Rattle.std.specs.Prelude.{◌≡◌};

use crate::row::Awaited;

/// What ends a walk before the end of the value.
#[derive(Drop)]
pub(crate) enum RowStop<E: Drop> {
    /// What comes next at this place doesn't stand there, or lies too deep.
    Here(usize, Awaited),
    /// The sink is told no more.
    Sink(E),
}

impl<E: Drop> From<E> for RowStop<E> {
    ghost use Rattle.std.specs.Prelude.{◌≡◌};
    ghost use Rattle.gob_explain.specs.declared.stop.RowStop.TheVariants as stops;

    ghost from_gives = { λ fault stop. stop ≡ stops.Sink fault };

    fn from(fault: E) -> RowStop<E> {
        RowStop::Sink(fault)
    }
}
