//! What ends a walk before the end of the value.

ghost use Rattle.std.specs.Prelude.{◌≡◌, Ok};
ghost use Rattle.std.specs.Result.{result_and};
ghost use Rattle.gob_walk.specs.Told.{as_stop};

/// What ends a walk before the end of the value.
#[derive(Drop)]
pub enum WalkEnd<E: Drop> {
    /// The bytes spell no value of the type that is shallow enough. The visitor was told of some parts.
    NotWhole,
    /// The visitor takes no more.
    Out(E),
}

impl<E: Drop> From<E> for WalkEnd<E> {
    ghost use Rattle.std.specs.Prelude.{◌≡◌};
    ghost use Rattle.gob_walk.specs.declared.walk_end.WalkEnd.TheVariants as stops;

    ghost from_gives = { λ fault end. end ≡ stops.Out fault };

    fn from(fault: E) -> WalkEnd<E> {
        WalkEnd::Out(fault)
    }
}

/// Where a part ends of which the visitor was told last.
#[inline(always)]
pub fn closed<E: Drop>(told: Result<(), E>, end: usize) -> Result<usize, WalkEnd<E>>
    ensures { result ≡ result_and (as_stop told) (Ok end) }
{
    match told {
        Ok(()) => Ok(end),
        Err(fault) => Err(WalkEnd::Out(fault)),
    }
}
