//! What a counter asks of a session.

use gob_stream::Steps;

/// A session that tells its items apart: values, and definitions of types.
pub trait TellsApart: Steps {
    ghost use Rattle.std.specs.Prelude.{◌≡◌, MatchBool};
    ghost use Rattle.gob_types.specs.Table.{Table};
    ghost use Rattle.gob_counted.specs.Apart.{IsDefinition};

    /// Whether the item is a value. Else it defines a type.
    fn is_value(item: &Self::Item) -> bool
        ensures { (T : Table) (told : Self.Told) → Self.stepping.means T item.now told
            → MatchBool result (¬ IsDefinition Self.stepping told) (IsDefinition Self.stepping told) };
}
