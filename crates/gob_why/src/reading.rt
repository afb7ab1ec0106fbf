//! Reading a stream to its end or to its refusal, where the bytes of the item under way are kept.

ghost use Rattle.std.specs.Prelude.{◌≡◌, ◌≢◌, ◌<◌, ◌≤◌, ℕ, List, [], None, Some, length, IfErr, IfOk, IfSome};
ghost use Rattle.std.specs.Prelude.{IsTrue, min};
ghost use Rattle.gob_explain.specs.Putting.{PutsMore};
ghost use Rattle.gob_stream.specs.Bounds.{AreLimits, deepest, greatest_depth, within_trees};
ghost use Rattle.gob_stream.specs.Calls.Ends.{failed_reads, reader_of};
ghost use Rattle.gob_stream.specs.Calls.Waiting.{waiting};
ghost use Rattle.gob_stream.specs.Reading.{CountsReads};
ghost use Rattle.gob_go.specs.Calls.Session.{limits_of, types_of};
ghost use Rattle.gob_tool.specs.Machine.Counting.{given_count};
ghost use Rattle.gob_why.specs.Machine.Keeping.{HasReadKept, HasReadSome, TakesNext};
ghost use Rattle.gob_why.specs.Machine.Reading.{ComesMore, HasValueNext, ReadsAll};

use crate::flushing::{FlushedText, flush_before_waiting};
use crate::kept::Kept;
use gob_explain::LinesOut;
use gob_go::{GoItem, GoSession};
use gob_json::TextOut;
use gob_stream::{Fault, Input, Limits, Steps, Waiting, Whole};
use gob_value::is_whole;
use std::alloc::Global;
use std::io::Read;

/// Reads all of the input, or up to where a line couldn't be put out: true at the end of a whole stream. The items that
/// are explained have their lines put out, which are flushed before the input may have to be waited for. Behind a
/// refusal `kept` has the bytes from the start of the refused item on that were read.
pub(crate) fn read_all<R: Read, O: FlushedText>(
    alloc: Global,
    input: &mut Input<R>,
    session: &mut GoSession,
    kept: &mut Kept,
    lines: &mut LinesOut<O>,
) -> Result<bool, Fault>
    requires first { HasReadKept kept.old.explained session.old kept.old.items [] kept.old.item.items kept.old.begin
        [] }
    requires limits { AreLimits deepest (limits_of session.old) }
    ensures read { PutsMore O.puts lines.old.out lines.old.fault lines.new.out lines.new.fault
        (ReadsAll kept.old.explained (within_trees (limits_of session.old)) (types_of session.new) kept.new.items
        (R.remaining (reader_of input.old)) (R.remaining (reader_of input.new)) kept.new.item.items kept.new.begin
        result) }
    ensures whole { IfOk result (λ whole. lines.new.fault ≡ None → IsTrue whole) }
    ensures unread { IfErr result (λ fault. fault ≡ Fault.Read → lines.new.fault ≡ None) }
    ensures counted { CountsReads (failed_reads input.old) (failed_reads input.new) result }
{
    let mut waiting = Waiting::new(alloc)?;
    'items: while lines.fault.is_none() {
        if !has_more(input, &mut waiting)? {
            session.finish()?;
            return Ok(true);
        }
        match take_next(alloc, session, waiting.bytes(), kept, lines) {
            Ok(used) => waiting.pass(used),
            Err(fault) => {
                kept.keep(waiting.bytes())?;
                return Err(fault);
            }
        }
        flush_before_waiting(&waiting, lines);
    }
    Ok(false)
}

/// Whether bytes wait. Where none does, it reads once: false at the end of the input.
fn has_more<R: Read>(input: &mut Input<R>, waits: &mut Waiting) -> Result<bool, Fault>
    ensures read { ComesMore (R.remaining (reader_of input.old)) (R.remaining (reader_of input.new))
        (waiting waits.old) (waiting waits.new) result }
    ensures counted { CountsReads (failed_reads input.old) (failed_reads input.new) result }
{
    if !waits.bytes().is_empty() {
        return Ok(true);
    }
    let count = waits.read_more(input)?;
    Ok(count > 0)
}

/// Takes bytes from the front of those that wait, and counts the item that is whole with them, if one is; it has its
/// lines put out, if it is explained. Answers how many bytes it took.
fn take_next<O: TextOut>(
    alloc: Global,
    session: &mut GoSession,
    waits: &[u8],
    kept: &mut Kept,
    lines: &mut LinesOut<O>,
) -> Result<usize, Fault>
    requires some { 0 < length waits.now }
    requires read { HasReadSome kept.old.explained session.old kept.old.items kept.old.item.items kept.old.begin }
    requires limits { AreLimits deepest (limits_of session.old) }
    ensures kept { PutsMore O.puts lines.old.out lines.old.fault lines.new.out lines.new.fault
        (TakesNext kept.old.explained session.old session.new kept.old.items kept.new.items waits.now
        kept.old.item.items kept.old.begin kept.new.item.items kept.new.begin result) }
    ensures explained { kept.new.explained ≡ kept.old.explained }
    ensures used { IfOk result (λ used. used ≤ length waits.now) }
    ensures limits { limits_of session.new ≡ limits_of session.old }
    ensures unread { IfErr result (λ fault. fault ≢ Fault.Read) }
{
    if let Some(value) = value_next(session, waits) {
        let used = value.used;
        session.pass(&waits[..used]);
        kept.pass_value(alloc, session.table(), value.id, &waits[..used], lines)?;
        kept.items += 1;
        return Ok(used);
    }
    let step = session.step(alloc, waits)?;
    let used = step.used;
    let given = count_given(&step.item);
    let gone_on = kept.go_on(alloc, session.table(), &step.item, &waits[..used], lines);
    drop(step);
    gone_on?;
    kept.items += given;
    Ok(used)
}

/// How many items a step gave.
fn count_given(item: &Option<GoItem>) -> u64
    ensures { result ≡ given_count item.now }
{
    match item {
        Some(_) => 1,
        None => 0,
    }
}

/// The item of a value that stands whole at the front of what waits, and in which no interface holds another. It takes
/// no memory. None says nothing of what waits.
fn value_next<'a>(session: &GoSession, waits: &'a [u8]) -> Option<Whole<'a>>
    ensures { IfSome result (λ value. HasValueNext session.now value.used waits.now) }
{
    let value = session.whole_value(waits)?;
    let depth = whole_depth(session);
    if !is_whole(session.table(), value.id, value.body, depth) {
        return None;
    }
    Some(value)
}

/// How deep a value may be that stands whole: no deeper than one that the session reads.
fn whole_depth(session: &GoSession) -> u64
    ensures { result ≡ min (limits_of session.now).depth greatest_depth }
{
    session.limits().depth().min(Limits::GREATEST_DEPTH)
}
