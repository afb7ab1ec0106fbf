//! The matches that are kept from one value to the next.

ghost use Rattle.std.specs.Prelude.{IfErr, IfOk, IfSome, OnOk};
ghost use Rattle.gob_types.specs.Ready.{IsReady};
ghost use Rattle.gob_types.specs.Table.{Table as Types};
ghost use Rattle.gob_types.specs.declared.id.TypeId.{TypeId};
ghost use Rattle.gob_match.specs.Calls.Matched.{IsMatchOf, IsSound};
ghost use Rattle.gob_match.specs.Faults.{IsMatchFault};
ghost use Rattle.gob_match.specs.Matching.{Match};
ghost use Rattle.gob_filled_match.specs.Calls.{IsKnown};

use gob_match::{KeptMatch, MatchFault, Matched, match_types};
use gob_types::{Shapes, Table, TypeId};
use std::alloc::Global;

/// The wanted type, and the table in which it stands.
#[derive(Clone, Copy)]
pub struct Wanted<'a> {
    /// The table.
    pub table: &'a Table,
    /// The type's id in it.
    pub id: TypeId,
}

/// The matches of the type of the last value with the wanted type, since the next value is mostly of that type too.
#[derive(Drop)]
pub struct LastMatch {
    // That of the types.
    pub(crate) plain: Option<KeptMatch>,
    // That of the types in which interfaces are numbers.
    pub(crate) numbered: Option<KeptMatch>,
}

impl LastMatch {
    ghost use Rattle.gob_filled_match.specs.Calls.{KeepsKnown};

    /// None, before the first value.
    pub fn none() -> LastMatch
        ensures { (T U : Types) (u : TypeId) → KeepsKnown T U u result }
    {
        LastMatch {
            plain: None,
            numbered: None,
        }
    }
}

/// The match of a type with the wanted one: the last one, where that is of this type.
pub(crate) fn match_again<'a, S: Shapes>(
    alloc: Global,
    last: Option<KeptMatch>,
    stream: &'a S,
    id: TypeId,
    wanted: &'a S,
    wanted_id: TypeId,
) -> Result<Matched<'a, S, S>, MatchFault>
    requires known { IfSome last (IsKnown (S.table stream.now) (S.table wanted.now) wanted_id) }
    requires ready { IsReady (S.table stream.now) id }
    requires wanted_ready { IsReady (S.table wanted.now) wanted_id }
    ensures matched { OnOk result (Match (S.table stream.now) (S.table wanted.now) id wanted_id) }
    ensures of { IfOk result (IsMatchOf stream.now id wanted.now wanted_id) }
    ensures sound { IfOk result (IsSound S.table S.table) }
    ensures fault { IfErr result (IsMatchFault (S.table stream.now) (S.table wanted.now) id wanted_id) }
{
    if let Some(kept) = last {
        if kept.id() == id {
            return Ok(kept.over(stream, wanted, wanted_id));
        }
    }
    match_types(alloc, stream, id, wanted, wanted_id)
}
