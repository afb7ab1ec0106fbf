//! What rows are told to.

use crate::row::{PartStep, Row};

/// Is told of the rows of a body one behind another, and of the parts that they stand in. It stands at a path, the
/// steps from the value to the part at hand: none at first, one more with each step in, and one less with each step
/// out.
pub trait RowSink {
    ghost use Rattle.std.specs.Prelude.{List, [], ◌∷◌, ◌++◌, Result, Ok, Err};
    ghost use Rattle.gob_explain.specs.declared.row.Row.{Row};
    ghost use Rattle.gob_explain.specs.declared.row.PartStep.{PartStep};

    /// Why it isn't told more.
    type Fault: Drop;

    /// With this answer it was told of the rows, and stands at the second path where it stood at the first; after an
    /// error of no more than they are.
    ghost tells: { Self × List PartStep → Self × List PartStep → List Row → Result (Unit {0}) Self.Fault → Type 0 };

    /// Is told of the next row.
    fn put(&mut self, row: Row) -> Result<(), Self::Fault>
        ensures { (way : List PartStep) → tells (self.old, way) (self.new, way) (row ∷ []) result };

    /// Is told that the next rows stand in this part of the part at hand.
    fn enter(&mut self, step: PartStep) -> Result<(), Self::Fault>
        ensures { (way : List PartStep) → tells (self.old, way) (self.new, way ++ step ∷ []) [] result };

    /// Is told that the part which was entered last is whole.
    fn leave(&mut self)
        ensures { (way : List PartStep) (step : PartStep)
            → tells (self.old, way ++ step ∷ []) (self.new, way) [] (Ok tt) };

    /// What was told nothing stayed as it was.
    ghost nothing: { (a : Self × List PartStep) → tells a a [] (Ok tt) };

    /// Rows behind rows are one list of them.
    ghost joined: { (a b c : Self × List PartStep) (x y : List Row) (r : Result (Unit {0}) Self.Fault)
        → tells a b x (Ok tt) → tells b c y r → tells a c (x ++ y) r };
}
