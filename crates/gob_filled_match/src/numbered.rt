//! Types in which interfaces are unsigned numbers.

ghost use Rattle.std.specs.Prelude.{◌≡◌, ◌↔◌, IsTrue};
ghost use Rattle.gob_filled_match.specs.Numbered.{numbered_basic, uint_shape};

use gob_types::{Basic, Kind, Shape, Shapes, Table, TypeId};

// The id of unsigned numbers in each table.
const UINT: TypeId = TypeId(3);

/// The types of a table, in which each interface is an unsigned number.
#[derive(Drop)]
pub(crate) struct Numbered<'a> {
    table: &'a Table,
    // The shape of unsigned numbers.
    uint: &'a Shape,
    ghost known: { uint.now ≡ uint_shape },
}

impl<'a> Numbered<'a> {
    /// Those of this table.
    pub(crate) fn new(table: &'a Table) -> Numbered<'a>
        ensures { result.table ≡ table.entry }
    {
        // A count says that this is a table, which has the base table in front.
        let _count = table.count();
        let Some(uint) = table.shape_of(UINT) else {
            unreachable!()
        };
        Numbered { table, uint }
    }
}

impl Shapes for Numbered<'_> {
    ghost use Rattle.gob_types.specs.Defined.{types};
    ghost use Rattle.gob_filled_match.specs.Numbered.{numbered};
    ghost use Rattle.gob_filled_match.specs.Machine.Distinct.{distinct-types-numbered};

    ghost table = { λ s. numbered (types s.table.now) };

    ghost distinct = { λ s. distinct-types-numbered s.table.now };

    fn shape_of(&self, id: TypeId) -> Option<&Shape> {
        let shape = self.table.shape_of(id)?;
        if is_interface(&shape.kind) {
            return Some(self.uint);
        }
        Some(shape)
    }

    fn basic_of(&self, id: TypeId) -> Option<Basic> {
        let basic = self.table.basic_of(id)?;
        Some(number_for(basic))
    }
}

// Whether values of this kind are interfaces.
fn is_interface(kind: &Kind) -> bool
    ensures { IsTrue result ↔ kind.now ≡ Kind.Basic Basic.Interface }
{
    matches!(kind, Kind::Basic(Basic::Interface))
}

// The basic type, or unsigned numbers for interfaces.
fn number_for(basic: Basic) -> Basic
    ensures { result ≡ numbered_basic basic }
{
    match basic {
        Basic::Interface => Basic::Uint,
        other => other,
    }
}
