//! Tables of types.

use crate::basic::Basic;
use crate::id::TypeId;
use crate::kind::Shape;

/// A table of types. What it means is a finite list of type ids with their shapes, `table`, in which each id
/// stands at most once.
pub trait Shapes {
    ghost use Rattle.gob_types.specs.Table.{Table, shape_of, basic_of, HasDistinctIds};
    ghost use Rattle.std.specs.Option.{option_copied};
    ghost use Rattle.std.specs.Prelude.{◌≡◌};

    /// The types of the table, in the order in which they were defined.
    ghost table: { Self → Table };

    /// Each id has one shape.
    ghost distinct: { (s : Self) → HasDistinctIds (table s) };

    /// The shape of a type, where the table has one.
    fn shape_of(&self, id: TypeId) -> Option<&Shape>
        ensures { option_copied result ≡ shape_of (table self.now) id };

    /// The basic type that a type is, where it is one. A table may know that without looking the type up.
    fn basic_of(&self, id: TypeId) -> Option<Basic>
        ensures { result ≡ basic_of (table self.now) id };
}
