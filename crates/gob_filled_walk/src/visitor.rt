//! What is told of the parts of a value, and of what its interfaces hold.

use gob_types::TypeId;
use gob_walk::Visitor;

/// Is told of the parts of a value one behind another, and of what stands in its interfaces.
pub trait HeldVisitor: Visitor {
    ghost use Rattle.std.specs.Prelude.{ℕ, List, [], ◌∷◌, ◌++◌, Ok, OnOk};
    ghost use Rattle.gob_walk.specs.Event.{Event};
    ghost use Rattle.gob_filled_walk.specs.HeldEvent.{HeldEvent, all_told, held_begins, held_ends};

    /// It was told of all these events.
    ghost hears: { Self → Self → List HeldEvent → Type 0 };

    /// That an interface holds a value of this type, which has the name.
    fn held_begins(&mut self, name: &[u8], id: TypeId) -> Result<(), Self::Fault>
        ensures { OnOk result (hears self.old self.new (held_begins name.now id ∷ [])) };

    /// That what the interface holds ends.
    fn held_ends(&mut self) -> Result<(), Self::Fault>
        ensures { OnOk result (hears self.old self.new (held_ends ∷ [])) };

    /// What any visitor is told it was told.
    ghost any: { (a b : Self) (es : List Event) → Self.tells a b es (Ok tt) → hears a b (all_told es) };

    /// Events behind others are one list of them.
    ghost both: { (a b c : Self) (x y : List HeldEvent) → hears a b x → hears b c y → hears a c (x ++ y) };
}
