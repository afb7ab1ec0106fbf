//! Whether two types match.

ghost use Rattle.std.specs.Prelude.{◌≡◌, ◌<◌, length, IfOk, OnOk, IfErr};
ghost use Rattle.gob_types.specs.Ready.{IsReady};
ghost use Rattle.gob_match.specs.Matching.{Match};
ghost use Rattle.gob_match.specs.Calls.Matched.{IsMatchOf, IsSound};
ghost use Rattle.gob_match.specs.Faults.{IsMatchFault};
ghost use Rattle.gob_match.specs.Machine.Exploring.{Explores, IsExploreFault};
ghost use Rattle.gob_match.specs.Machine.Exploring.{KeepsExplored, EndsAt};
ghost use Rattle.gob_match.specs.Machine.Search.{AreReadyAt, HasPath};

use crate::adding::add_named;
use crate::conversion::Conversion;
use crate::fault::{MatchFault, PairFault};
use crate::found::Found;
use crate::kinds::match_kinds;
use crate::matched::Matched;
use crate::pair::TypePair;
use gob_types::{Shapes, TypeId};
use std::alloc::Global;

/// Whether values of a stream's type can be received as values of a wanted type.
pub fn match_types<'a, S: Shapes, T: Shapes>(
    alloc: Global,
    stream: &'a S,
    id: TypeId,
    wanted: &'a T,
    wanted_id: TypeId,
) -> Result<Matched<'a, S, T>, MatchFault>
    requires stream_ready { IsReady (S.table stream.now) id }
    requires wanted_ready { IsReady (T.table wanted.now) wanted_id }
    ensures matched { OnOk result (Match (S.table stream.now) (T.table wanted.now) id wanted_id) }
    ensures of { IfOk result (IsMatchOf stream.now id wanted.now wanted_id) }
    ensures sound { IfOk result (IsSound S.table T.table) }
    ensures fault { IfErr result (IsMatchFault (S.table stream.now) (T.table wanted.now) id wanted_id) }
{
    let start = TypePair {
        stream: id,
        wanted: wanted_id,
    };
    let mut found = Found::start(alloc, start)?;
    let mut conversions = Vec::new(alloc);
    let mut next = 0;
    while next < found.count() {
        keep_explored(alloc, &mut found, &mut conversions, next, stream, wanted)?;
        next += 1;
    }
    Ok(Matched {
        stream,
        id,
        wanted,
        wanted_id,
        found,
        conversions,
    })
}

// Explores the pair at a place and keeps its conversion, last. Where its shapes clash, it gives the path to the pair.
fn keep_explored<S: Shapes, T: Shapes>(
    alloc: Global,
    found: &mut Found,
    conversions: &mut Vec<Conversion>,
    place: usize,
    stream: &S,
    wanted: &T,
) -> Result<(), MatchFault>
    requires there { place < length found.old }
    requires ready { AreReadyAt (S.table stream.now) (T.table wanted.now) found.old place }
    requires path { HasPath found.old place }
    ensures kept { OnOk result (KeepsExplored (S.table stream.now) (T.table wanted.now) found.old found.new place
        conversions.old.items conversions.new.items) }
    ensures fault { IfErr result (EndsAt (S.table stream.now) (T.table wanted.now) found.old place) }
{
    match explore(alloc, found, place, stream, wanted) {
        Ok(conversion) => Ok(conversions.push(conversion)?),
        Err(PairFault::Memory) => Err(MatchFault::Memory),
        Err(PairFault::Clash(reason)) => {
            let path = found.path_to(alloc, place)?;
            Err(MatchFault::Clash { path, reason })
        }
    }
}

// The conversion of the pair at a place. The pairs that it leads to are added.
fn explore<S: Shapes, T: Shapes>(
    alloc: Global,
    found: &mut Found,
    place: usize,
    stream: &S,
    wanted: &T,
) -> Result<Conversion, PairFault>
    requires there { place < length found.old }
    requires ready { AreReadyAt (S.table stream.now) (T.table wanted.now) found.old place }
    ensures explored { IfOk result (Explores (S.table stream.now) (T.table wanted.now) found.old found.new place) }
    ensures fault { IfErr result (IsExploreFault (S.table stream.now) (T.table wanted.now) found.old found.new place) }
{
    let pair = found.pair_at(place);
    let Some(shape) = stream.shape_of(pair.stream) else {
        unreachable!()
    };
    let Some(other) = wanted.shape_of(pair.wanted) else {
        unreachable!()
    };
    let conversion = match_kinds(alloc, &shape.kind, &other.kind)?;
    add_named(alloc, found, place, &conversion)?;
    Ok(conversion)
}
