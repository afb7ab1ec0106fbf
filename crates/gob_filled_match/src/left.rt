//! The fields that a value leaves out when it is received.

ghost use Rattle.std.specs.Prelude.{◌≡◌, IfErr, IfOk, IfSome, OnOk};
ghost use Rattle.gob_types.specs.Defined.{types};
ghost use Rattle.gob_types.specs.Ready.{IsReady};
ghost use Rattle.gob_types.specs.Table.{Table as Types};
ghost use Rattle.gob_types.specs.declared.id.TypeId.{TypeId};
ghost use Rattle.gob_value.specs.Tree.{Tree};
ghost use Rattle.gob_match.specs.Faults.{IsMatchFault};
ghost use Rattle.gob_match.specs.Matching.{Match};
ghost use Rattle.gob_match.specs.Pairs.{of_types};
ghost use Rattle.gob_left_out.specs.LeftOut.{AreLeftOut};
ghost use Rattle.gob_filled.specs.Filled.{filled, Fillings};
ghost use Rattle.gob_go.specs.Meaning.{IsFilled};
ghost use Rattle.gob_filled_match.specs.Loss.{IsKnownLoss, KnowsLoss};

use crate::matching::Wanted;
use crate::skeleton::tree_of;
use gob_go::Filled;
use gob_left_out::{LeftOut, left_out, may_leave_out};
use gob_match::{MatchFault, TypePair, match_types};
use gob_types::{Table, TypeId};
use std::alloc::Global;

/// Whether values of the type of the last one may leave out a field, since the next value is mostly of that type too.
#[derive(Clone, Copy)]
pub struct LastLoss {
    pub(crate) known: Option<KnownLoss>,
}

/// Whether values of this type of the stream may leave out a field.
#[derive(Clone, Copy)]
pub(crate) struct KnownLoss {
    pub(crate) id: TypeId,
    pub(crate) may_leave_out: bool,
}

impl LastLoss {
    /// Nothing is known, before the first value.
    pub fn none() -> LastLoss
        ensures { (T U : Types) (u : TypeId) → KnowsLoss T U u result }
    {
        LastLoss { known: None }
    }
}

/// The fields that a value of this type of the stream leaves out when it is received, but for what its interfaces hold,
/// which goes along whole. A clash says where the types don't match. `Memory` also where this is no value of the type.
/// Where values of the type can leave out nothing, the value isn't looked at. What is known of the last type is used
/// again, and what was used is kept.
pub fn left_out_of(
    alloc: Global,
    stream: &Table,
    id: TypeId,
    value: &Filled,
    wanted: Wanted<'_>,
    last: &mut LastLoss,
) -> Result<LeftOut, MatchFault>
    requires known { KnowsLoss (types stream.now) (types wanted.table.now) wanted.id last.old }
    requires ready { IsReady (types stream.now) id }
    requires wanted_ready { IsReady (types wanted.table.now) wanted.id }
    ensures known { KnowsLoss (types stream.now) (types wanted.entry.table.now) wanted.entry.id last.new }
    ensures matched { OnOk result (Match (types stream.now) (types wanted.entry.table.now) id wanted.entry.id) }
    ensures left { IfOk result (λ left. (v : Tree) (fs : Fillings)
        → IsFilled (types stream.now) id value.now (filled v fs)
        → AreLeftOut (types stream.now) (types wanted.entry.table.now) (of_types id wanted.entry.id) v left) }
    ensures fault { IfErr result (IsMatchFault (types stream.now) (types wanted.entry.table.now) id wanted.entry.id) }
{
    let known = loss_of(alloc, stream, id, wanted, last.known)?;
    last.known = Some(known);
    if !known.may_leave_out {
        return Ok(LeftOut::new(alloc));
    }
    let value = tree_of(alloc, stream, id, &value.skeleton)?;
    let pair = TypePair {
        stream: id,
        wanted: wanted.id,
    };
    Ok(left_out(alloc, stream, wanted.table, pair, &value)?)
}

// What is known of a type: what was, where that is of this type.
fn loss_of(
    alloc: Global,
    stream: &Table,
    id: TypeId,
    wanted: Wanted<'_>,
    last: Option<KnownLoss>,
) -> Result<KnownLoss, MatchFault>
    requires known { IfSome last (IsKnownLoss (types stream.now) (types wanted.table.now) wanted.id) }
    requires ready { IsReady (types stream.now) id }
    requires wanted_ready { IsReady (types wanted.table.now) wanted.id }
    ensures known { IfOk result (IsKnownLoss (types stream.now) (types wanted.entry.table.now) wanted.entry.id) }
    ensures of { IfOk result (λ known. known.id ≡ id) }
    ensures fault { IfErr result (IsMatchFault (types stream.now) (types wanted.entry.table.now) id wanted.entry.id) }
{
    if let Some(known) = last {
        if known.id == id {
            return Ok(known);
        }
    }
    let matched = match_types(alloc, stream, id, wanted.table, wanted.id)?;
    let may_leave_out = may_leave_out(&matched, stream, wanted.table);
    Ok(KnownLoss { id, may_leave_out })
}
