//! Values converted, one behind another.

ghost use Rattle.std.specs.Prelude.{◌≡◌, ◌+◌, ◌-◌, ◌^◌, ℕ, List, IfErr, IfOk, OnErr, OnOk, min};
ghost use Rattle.gob_types.specs.Defined.{types};
ghost use Rattle.gob_types.specs.Ready.{IsReady};
ghost use Rattle.gob_types.specs.Table.{Table as Types};
ghost use Rattle.gob_types.specs.declared.id.TypeId.{TypeId as Id};
ghost use Rattle.gob_filled.specs.Filled as spelled;
ghost use Rattle.gob_filled.specs.Stream.{FilledItem};
ghost use Rattle.gob_filled_match.specs.Loss.{KnowsLoss};
ghost use Rattle.gob_go.specs.Meaning.{IsFilled};
ghost use Rattle.gob_go_writer.specs.Calls.Writer.{HasPut, limits_of, types_of};
ghost use Rattle.gob_join.specs.Renaming.{IsRenaming};
ghost use Rattle.gob_convert.specs.Machine.Converting.{AreValues, IsNumbered, IsPutStop, Knows, LeavesRows, PutAnswers};
ghost use Rattle.gob_convert.specs.Machine.Converting.{StopsAt, ids_of};

use crate::clashing::unmatched;
use crate::fault::ConvertFault;
use crate::wanted::Target;
use gob_filled_match::{LastLoss, LastMatch, left_out_of, receive_filled};
use gob_go::Filled;
use gob_go_writer::GoWriter;
use gob_join::{KnownTypes, take_held};
use gob_left_out::{LeftOut, Tally};
use gob_num::Memory;
use gob_tool::ToolFault;
use gob_types::{Table, TypeId};
use std::alloc::Global;

/// A value of the stream.
#[derive(Drop)]
pub(crate) struct GivenValue {
    pub(crate) id: TypeId,
    pub(crate) value: Filled,
}

/// What converts the values of a stream.
pub(crate) struct Conversion {
    last: LastMatch,
    loss: LastLoss,
    known: KnownTypes,
    writer: GoWriter,
    // How many values were met.
    met: u64,
    /// What those leave out that were put.
    pub(crate) left_out: Tally,
}

// Not derived, so that a drop is one call in the proofs of what owns one.
impl Drop for Conversion {
    fn drop(self) {
        let Conversion {
            last: _,
            loss: _,
            known: _,
            writer: _,
            met: _,
            left_out: _,
        } = self;
    }
}

impl Conversion {
    /// No value was met. What is put goes behind what this writer has put.
    pub(crate) fn new(alloc: Global, writer: GoWriter, base: &Table) -> Result<Conversion, Memory>
        ensures known { IfOk result (λ made. (T U : Types) (u : Id) → Knows T U u made) }
        ensures none { IfOk result (λ made. (T U : Types) → IsRenaming (ids_of made) T U) }
        ensures writer { IfOk result (λ made. made.writer ≡ writer) }
    {
        Ok(Conversion {
            last: LastMatch::none(),
            loss: LastLoss::none(),
            known: KnownTypes::new(alloc, base)?,
            writer,
            met: 0,
            left_out: Tally::new(alloc),
        })
    }

    /// Puts what is received of a value of the stream, whose types are those of the table.
    pub(crate) fn put(
        &mut self,
        alloc: Global,
        given: GivenValue,
        table: &Table,
        target: &Target,
        text: &mut Vec<u8>,
    ) -> Result<(), ConvertFault>
        requires known { Knows (types table.now) (types target.now.table) target.now.id self.old }
        requires ready { IsReady (types table.now) given.id }
        requires wanted_ready { IsReady (types target.now.table) target.now.id }
        ensures known { OnOk result (Knows (types table.now) (types target.now.table) target.now.id self.new) }
        ensures put { (w : spelled.Filled) (items : List FilledItem) (bytes : List ℕ)
            → IsFilled (types table.now) given.id given.value w → HasPut self.old.writer items bytes
            → IsRenaming (ids_of self.old) (types table.now) (types_of self.old.writer)
            → AreValues (types target.now.table) target.now.id (types_of self.old.writer)
            → PutAnswers target.now.all self.old self.new items bytes text.old.items text.new.items (types table.now)
            (types target.now.table) given.id target.now.id w result }
        ensures fault { IfErr result IsPutStop }
        ensures met { self.new.met ≡ min (self.old.met + 1) (2 ^ 64 - 1) }
        ensures number { IfErr result (IsNumbered self.new.met) }
        ensures kept { OnErr result (self.new.left_out ≡ self.old.left_out) }
        ensures limits { limits_of self.new.writer ≡ limits_of self.old.writer }
    {
        self.met = self.met.saturating_add(1);
        let last = &mut self.loss;
        let left = left_of_given(alloc, self.met, &given, table, target, last)?;
        let GivenValue { id, value } = given;
        let last = &mut self.last;
        let received = match receive_filled(alloc, table, id, value, target.wanted(), last) {
            Ok(received) => received,
            Err(fault) => return Err(unmatched(fault, self.met, table, id, target)),
        };
        let known = &mut self.known;
        let writer = &mut self.writer;
        take_held(alloc, target.id, received, table, known, writer, text)?;
        self.left_out.add(left)?;
        Ok(())
    }
}

// What the value of this number leaves out, or the first field of it, where none may be left out.
fn left_of_given(
    alloc: Global,
    number: u64,
    given: &GivenValue,
    table: &Table,
    target: &Target,
    last: &mut LastLoss,
) -> Result<LeftOut, ConvertFault>
    requires loss { KnowsLoss (types table.now) (types target.now.table) target.now.id last.old }
    requires ready { IsReady (types table.now) given.now.id }
    requires wanted_ready { IsReady (types target.now.table) target.now.id }
    ensures loss { KnowsLoss (types table.now) (types target.now.table) target.now.id last.new }
    ensures left { IfOk result (λ left. (w : spelled.Filled) → IsFilled (types table.now) given.now.id given.now.value w
        → LeavesRows target.now.all (types table.now) (types target.now.table) given.now.id target.now.id w left) }
    ensures fault { (w : spelled.Filled) → IsFilled (types table.now) given.now.id given.now.value w
        → IfErr result (StopsAt target.now.all (types table.now) (types target.now.table) given.now.id target.now.id
        w) }
    ensures stop { IfErr result IsPutStop }
    ensures number { IfErr result (IsNumbered number) }
{
    let GivenValue { id, value } = given;
    let left = match left_out_of(alloc, table, *id, value, target.wanted(), last) {
        Ok(left) => left,
        Err(fault) => return Err(unmatched(fault, number, table, *id, target)),
    };
    if !target.all {
        return Ok(left);
    }
    match left.into_first() {
        None => Ok(LeftOut::new(alloc)),
        Some(path) => Err(ConvertFault::Run(ToolFault::LeftOut {
            path,
            value: number,
        })),
    }
}
