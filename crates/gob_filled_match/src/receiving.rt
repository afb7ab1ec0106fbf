//! Values received with what their interfaces hold.

ghost use Rattle.std.specs.Prelude.{IfErr, IfOk, OnOk};
ghost use Rattle.gob_types.specs.Defined.{types};
ghost use Rattle.gob_types.specs.Ready.{IsReady};
ghost use Rattle.gob_match.specs.Faults.{IsMatchFault};
ghost use Rattle.gob_match.specs.Matching.{Match};
ghost use Rattle.gob_filled.specs.Filled as spelled;
ghost use Rattle.gob_go.specs.Meaning.{IsFilled};
ghost use Rattle.gob_filled_match.specs.Calls.{KeepsKnown, MakesReceived};
ghost use Rattle.gob_filled_match.specs.Numbered.{numbered};
ghost use Rattle.gob_filled_match.specs.Machine.Bytes.{ReceivesBytes};

use crate::matching::{LastMatch, Wanted, match_again};
use crate::moving::move_fillings;
use crate::numbered::Numbered;
use crate::numbering::number_fillings;
use crate::skeleton::{TypeIn, receive_bytes};
use crate::taking::{Skeleton, take_numbers};
use gob_go::Filled;
use gob_match::{KeptMatch, MatchFault};
use gob_num::Memory;
use gob_types::{Table, TypeId};
use std::alloc::Global;

/// What is received of a value of this type of the stream as a value of the wanted type. What interfaces hold goes
/// along as it is, and keeps its types, which are the stream's. A clash says where the two types don't match. `Memory`
/// also where the value is none of its type, or deeper than 1000.
///
/// The matches that `last` has of the value before are used again where that had the same type; behind the call it has
/// those of this type. Behind a fault it has some that fit both tables, or none.
pub fn receive_filled(
    alloc: Global,
    stream: &Table,
    id: TypeId,
    value: Filled,
    wanted: Wanted<'_>,
    last: &mut LastMatch,
) -> Result<Filled, MatchFault>
    requires known { KeepsKnown (types stream.now) (types wanted.table.now) wanted.id last.old }
    requires ready { IsReady (types stream.now) id }
    requires wanted_ready { IsReady (types wanted.table.now) wanted.id }
    ensures known { KeepsKnown (types stream.now) (types wanted.entry.table.now) wanted.entry.id last.new }
    ensures matched { OnOk result (Match (types stream.now) (types wanted.entry.table.now) id wanted.entry.id) }
    ensures received { IfOk result (λ made. (v : spelled.Filled) → IsFilled (types stream.now) id value v
        → MakesReceived (types stream.now) (types wanted.entry.table.now) id wanted.entry.id made v) }
    ensures fault { IfErr result (IsMatchFault (types stream.now) (types wanted.entry.table.now) id wanted.entry.id) }
{
    let Filled { skeleton, fillings } = value;
    if fillings.is_empty() {
        let skeleton = receive_skeleton(alloc, stream, id, wanted, &skeleton, last)?;
        return Ok(Filled { skeleton, fillings });
    }
    keep_match(alloc, stream, id, wanted, last)?;
    let numbers = number_fillings(alloc, &skeleton, &fillings)?;
    let received = receive_numbers(alloc, stream, id, wanted, &numbers, last)?;
    let Skeleton { bytes, nils } = take_numbers(alloc, wanted.table, wanted.id, &received)?;
    let fillings = move_fillings(alloc, fillings, &nils)?;
    Ok(Filled {
        skeleton: bytes,
        fillings,
    })
}

// The bytes of what is received of the value that is spelled so, which holds nothing.
fn receive_skeleton(
    alloc: Global,
    stream: &Table,
    id: TypeId,
    wanted: Wanted<'_>,
    skeleton: &[u8],
    last: &mut LastMatch,
) -> Result<Vec<u8>, MatchFault>
    requires known { KeepsKnown (types stream.now) (types wanted.table.now) wanted.id last.old }
    requires ready { IsReady (types stream.now) id }
    requires wanted_ready { IsReady (types wanted.table.now) wanted.id }
    ensures known { KeepsKnown (types stream.now) (types wanted.entry.table.now) wanted.entry.id last.new }
    ensures matched { OnOk result (Match (types stream.now) (types wanted.entry.table.now) id wanted.entry.id) }
    ensures received { IfOk result (λ bytes. ReceivesBytes (types stream.now) (types wanted.entry.table.now) id
        wanted.entry.id skeleton.now bytes.items) }
    ensures fault { IfErr result (IsMatchFault (types stream.now) (types wanted.entry.table.now) id wanted.entry.id) }
{
    let plain = last.plain.take();
    let matched = match_again(alloc, plain, stream, id, wanted.table, wanted.id)?;
    let from = TypeIn { types: stream, id };
    let to = TypeIn {
        types: wanted.table,
        id: wanted.id,
    };
    let received = receive_bytes(alloc, &matched, from, to, skeleton)?;
    last.plain = Some(KeptMatch::of(matched));
    Ok(received)
}

// Sees to it that the match of the type is kept.
fn keep_match(
    alloc: Global,
    stream: &Table,
    id: TypeId,
    wanted: Wanted<'_>,
    last: &mut LastMatch,
) -> Result<(), MatchFault>
    requires known { KeepsKnown (types stream.now) (types wanted.table.now) wanted.id last.old }
    requires ready { IsReady (types stream.now) id }
    requires wanted_ready { IsReady (types wanted.table.now) wanted.id }
    ensures known { KeepsKnown (types stream.now) (types wanted.entry.table.now) wanted.entry.id last.new }
    ensures matched { OnOk result (Match (types stream.now) (types wanted.entry.table.now) id wanted.entry.id) }
    ensures fault { IfErr result (IsMatchFault (types stream.now) (types wanted.entry.table.now) id wanted.entry.id) }
{
    let plain = last.plain.take();
    let matched = match_again(alloc, plain, stream, id, wanted.table, wanted.id)?;
    last.plain = Some(KeptMatch::of(matched));
    Ok(())
}

// The bytes of what is received of the value that is spelled with numbers in the places of its filled nils, with the
// same numbers, as if interfaces were numbers.
fn receive_numbers(
    alloc: Global,
    stream: &Table,
    id: TypeId,
    wanted: Wanted<'_>,
    numbers: &[u8],
    last: &mut LastMatch,
) -> Result<Vec<u8>, Memory>
    requires known { KeepsKnown (types stream.now) (types wanted.table.now) wanted.id last.old }
    requires ready { IsReady (types stream.now) id }
    requires wanted_ready { IsReady (types wanted.table.now) wanted.id }
    ensures known { KeepsKnown (types stream.now) (types wanted.entry.table.now) wanted.entry.id last.new }
    ensures received { IfOk result (λ bytes. ReceivesBytes (numbered (types stream.now))
        (numbered (types wanted.entry.table.now)) id wanted.entry.id numbers.now bytes.items) }
{
    let types = Numbered::new(stream);
    let wanted_types = Numbered::new(wanted.table);
    let numbered = last.numbered.take();
    let Ok(matched) = match_again(alloc, numbered, &types, id, &wanted_types, wanted.id) else {
        return Err(Memory);
    };
    let from = TypeIn { types: &types, id };
    let to = TypeIn {
        types: &wanted_types,
        id: wanted.id,
    };
    let received = receive_bytes(alloc, &matched, from, to, numbers)?;
    last.numbered = Some(KeptMatch::of(matched));
    Ok(received)
}
