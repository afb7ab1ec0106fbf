//! Values of a stream received as values of a wanted type.

ghost use Rattle.std.specs.Prelude.{IfErr, IfOk, IfSome, IsTrue, OnOk};
ghost use Rattle.gob_types.specs.Defined.{types};
ghost use Rattle.gob_types.specs.Ready.{IsReady};
ghost use Rattle.gob_types.specs.Table.{Table as Types};
ghost use Rattle.gob_value.specs.View.{view};
ghost use Rattle.gob_value.specs.Within.{FitsWithin};
ghost use Rattle.gob_match.specs.Calls.Matched.{IsMatchOf, IsSound};
ghost use Rattle.gob_match.specs.Matching.{Match};
ghost use Rattle.gob_match.specs.Received.{Receives};
ghost use Rattle.gob_match.specs.Faults.{IsMatchFault};
ghost use Rattle.gob_match.specs.ReceivedWhole.{ReceivesWhole};
ghost use Rattle.gob_stream.specs.Bounds.{greatest_depth};
ghost use Rattle.gob_tool.specs.Machine.Receiver.{IsKnown, KeepsKnown};

use crate::received_form::ReceivedForm;
use gob_match::{KeptMatch, MatchFault, Matched, match_types, receive, receive_whole};
use gob_stream::Whole;
use gob_types::{Table, TypeId};
use gob_value::Value;
use std::alloc::Global;

/// What receives values of a stream as values of the wanted type. Where an item with more bytes than `MOST` waits as a
/// whole it makes no tree of the value.
#[derive(Drop)]
pub(crate) struct Receiver<'a, const MOST: usize> {
    pub(crate) wanted: &'a Table,
    pub(crate) wanted_id: TypeId,
    pub(crate) form: ReceivedForm,
}

/// What a receiver keeps from one value to the next: the match of the type of the last one, since the next value is
/// mostly of that type too, and room for the bytes of what is received.
#[derive(Drop)]
pub(crate) struct LastMatch {
    pub(crate) last: Option<KeptMatch>,
    pub(crate) room: Vec<u8>,
}

impl LastMatch {
    /// What is kept before the first value.
    pub(crate) fn new(alloc: Global) -> LastMatch
        ensures { (T U : Types) (u : TypeId) → KeepsKnown T U u result }
    {
        LastMatch {
            last: None,
            room: Vec::new(alloc),
        }
    }

    /// Lets go of the match, before the types of the stream change.
    pub(crate) fn forget(&mut self)
        ensures { (T U : Types) (u : TypeId) → KeepsKnown T U u self.new }
    {
        drop(self.last.take());
    }
}

impl<const MOST: usize> Receiver<'_, MOST> {
    /// What is received of a value of this type of the stream.
    pub(crate) fn receive(
        &self,
        alloc: Global,
        stream: &Table,
        id: TypeId,
        value: &Value,
        kept: &mut LastMatch,
    ) -> Result<Value, MatchFault>
        requires known { KeepsKnown (types stream.now) (types self.now.wanted.now) self.now.wanted_id kept.old }
        requires ready { IsReady (types stream.now) id }
        requires wanted_ready { IsReady (types self.now.wanted.now) self.now.wanted_id }
        requires fits { FitsWithin (types stream.now) id 1000 (view value.now) }
        ensures known { OnOk result (KeepsKnown (types stream.now) (types self.now.wanted.now) self.now.wanted_id
            kept.new) }
        ensures matched { OnOk result (Match (types stream.now) (types self.now.wanted.now) id self.now.wanted_id) }
        ensures received { IfOk result (λ w. Receives (types stream.now) (types self.now.wanted.now) id
            self.now.wanted_id (view value.now) (view w)) }
        ensures fits { IfOk result (λ w. FitsWithin (types self.now.wanted.now) self.now.wanted_id greatest_depth
            (view w)) }
        ensures fault { IfErr result (IsMatchFault (types stream.now) (types self.now.wanted.now) id
            self.now.wanted_id) }
    {
        let last = kept.last.take();
        let matched = match_again(alloc, last, stream, id, self.wanted, self.wanted_id)?;
        let received = receive(alloc, &matched, value)?;
        kept.last = Some(KeptMatch::of(matched));
        Ok(received)
    }

    /// Makes in the room that is kept the bytes of what is received of the value of a whole item of the stream. False
    /// says nothing of the value: it may need a tree or memory, or its type may clash.
    pub(crate) fn receive_whole(
        &self,
        alloc: Global,
        stream: &Table,
        item: &Whole<'_>,
        depth: u64,
        kept: &mut LastMatch,
    ) -> bool
        requires known { KeepsKnown (types stream.now) (types self.now.wanted.now) self.now.wanted_id kept.old }
        requires ready { IsReady (types stream.now) item.now.id }
        requires wanted_ready { IsReady (types self.now.wanted.now) self.now.wanted_id }
        ensures known { KeepsKnown (types stream.now) (types self.now.wanted.now) self.now.wanted_id kept.new }
        ensures matched { IsTrue result → Match (types stream.now) (types self.now.wanted.now) item.now.id
            self.now.wanted_id }
        ensures received { IsTrue result → ReceivesWhole (types stream.now) (types self.now.wanted.now) item.now.id
            self.now.wanted_id depth item.now.body.now kept.new.room.items }
    {
        let last = kept.last.take();
        let Ok(matched) = match_again(alloc, last, stream, item.id, self.wanted, self.wanted_id)
        else {
            return false;
        };
        let received = receive_whole(alloc, &matched, item.body, depth, &mut kept.room);
        kept.last = Some(KeptMatch::of(matched));
        received
    }
}

/// The match of a type of the stream with the wanted one: the last one, where that is of this type.
fn match_again<'a>(
    alloc: Global,
    last: Option<KeptMatch>,
    stream: &'a Table,
    id: TypeId,
    wanted: &'a Table,
    wanted_id: TypeId,
) -> Result<Matched<'a, Table, Table>, MatchFault>
    requires known { IfSome last (IsKnown (types stream.now) (types wanted.now) wanted_id) }
    requires ready { IsReady (types stream.now) id }
    requires wanted_ready { IsReady (types wanted.now) wanted_id }
    ensures matched { OnOk result (Match (types stream.now) (types wanted.now) id wanted_id) }
    ensures of { IfOk result (IsMatchOf stream.now id wanted.now wanted_id) }
    ensures sound { IfOk result (IsSound types types) }
    ensures fault { IfErr result (IsMatchFault (types stream.now) (types wanted.now) id wanted_id) }
{
    if let Some(kept) = last {
        if kept.id() == id {
            return Ok(kept.over(stream, wanted, wanted_id));
        }
        drop(kept);
    }
    match_types(alloc, stream, id, wanted, wanted_id)
}
