//! The runs that receive the values of a stream as values of a type of another.

ghost use Rattle.std.specs.Prelude.{◌≡◌, ◌^◌, ◌<◌, ℕ, List, Some, IfErr};
ghost use Rattle.gob_types.specs.Defined.{types};
ghost use Rattle.gob_types.specs.Ready.{IsReady};
ghost use Rattle.gob_stream.specs.Bounds.{within_trees};
ghost use Rattle.gob_stream.specs.Calls.Ends.{failed_reads, failed_writes, reader_of, writer_of};
ghost use Rattle.gob_tool.specs.Converting.{ConvertAnswers};
ghost use Rattle.gob_tool.specs.Fault.{IsOfWanted};
ghost use Rattle.gob_tool.specs.Ending.{CountsOnlyWrites};
ghost use Rattle.gob_tool.specs.Machine.Received.{FormAnswers};
ghost use Rattle.gob_tool.specs.Machine.Receiver.{TextsOrClash};
ghost use Rattle.gob_tool.specs.Showing.{CountsReadFaults, CountsWriteFaults, IsFlushedSince};
ghost use Rattle.gob_tool.specs.Taking.{CountsTakeReads, TakeAnswers};

use crate::end::end_run;
use crate::fault::ToolFault;
use crate::received_form::ReceivedForm;
use crate::receiver::{LastMatch, Receiver};
use crate::texts::write_items;
use crate::wanted::read_wanted;
use gob_read::TreeBuilder;
use gob_stream::{Input, Limits, Output, Session, StreamReader};
use std::alloc::Global;
use std::io::{Read, Write};

// A tree is made of no value that waits as a whole.
const MOST_BUILT: usize = 0;

/// Receives each value of a stream as a value of the wanted type, which is that of the first value of `wanted`, a
/// stream of its own, and writes the JSON lines of what is received, under the wanted type. Definitions write nothing.
/// `wanted` is read whole first: where it is refused the answer is `ToolFault::Wanted`, and without a value
/// `ToolFault::NoWantedType`; the input isn't read then, and nothing is written. Ok exactly at the end of a whole
/// stream of values that match; where a value doesn't, `ToolFault::Clash` says where and why. Before a fault the lines
/// of the values before it are written; at `ToolFault::Write` a prefix of them may be. The run ends with a flush. Its
/// memory grows with the types and the largest item alone. No value may be deeper than `limits.depth()` or than 1000.
pub fn run_take<Q: Read, R: Read, W: Write>(
    alloc: Global,
    wanted: &mut Input<Q>,
    input: &mut Input<R>,
    output: &mut Output<W>,
    limits: Limits,
) -> Result<(), ToolFault>
    ensures taken { (wanted_bytes bytes : List ℕ) → Q.remaining (reader_of wanted.old) ≡ Some wanted_bytes
        → R.remaining (reader_of input.old) ≡ Some bytes
        → TakeAnswers (within_trees limits) wanted_bytes bytes (Q.remaining (reader_of wanted.new))
        (R.remaining (reader_of input.new))
        (W.contents (writer_of output.old)) (W.contents (writer_of output.new)) result }
    ensures unread { IfErr result (λ fault. IsOfWanted fault → input.new ≡ input.old) }
    ensures reads { CountsTakeReads (failed_reads wanted.old) (failed_reads wanted.new)
        (failed_reads input.old) (failed_reads input.new) result }
    ensures writes { CountsWriteFaults (failed_writes output.old) (failed_writes output.new) result }
    ensures flushed { IsFlushedSince (failed_writes output.old) output.new }
{
    run_received(alloc, ReceivedForm::Line, wanted, input, output, limits)
}

/// Writes the stream of what is received of each value of a stream as a value of the wanted type, which is that of the
/// first value of `wanted`, a stream of its own: the definitions in front of that value, as they are there, and then
/// the values, in order, under that type's id. So no definition comes behind a value. `wanted` is read whole first:
/// where it is refused the answer is `ToolFault::Wanted`, and without a value `ToolFault::NoWantedType`; the input
/// isn't read then, and nothing is written. Ok exactly at the end of a whole stream of values that match; where a value
/// doesn't, `ToolFault::Clash` says where and why. Before a fault the definitions and the values before it are written;
/// at `ToolFault::Write` a prefix of them may be. The run ends with a flush. What is written has no more types than
/// `limits` allow, and no deeper values; a value may become longer than it was, so a limit on items that admits what
/// was read may refuse it. Its memory grows with the types and the largest item alone. No value may be deeper than
/// `limits.depth()` or than 1000.
pub fn run_convert<Q: Read, R: Read, W: Write>(
    alloc: Global,
    wanted: &mut Input<Q>,
    input: &mut Input<R>,
    output: &mut Output<W>,
    limits: Limits,
) -> Result<(), ToolFault>
    ensures converted { (wanted_bytes bytes : List ℕ) → Q.remaining (reader_of wanted.old) ≡ Some wanted_bytes
        → R.remaining (reader_of input.old) ≡ Some bytes
        → ConvertAnswers (within_trees limits) wanted_bytes bytes (Q.remaining (reader_of wanted.new))
        (R.remaining (reader_of input.new))
        (W.contents (writer_of output.old)) (W.contents (writer_of output.new)) result }
    ensures unread { IfErr result (λ fault. IsOfWanted fault → input.new ≡ input.old) }
    ensures reads { CountsTakeReads (failed_reads wanted.old) (failed_reads wanted.new)
        (failed_reads input.old) (failed_reads input.new) result }
    ensures writes { CountsWriteFaults (failed_writes output.old) (failed_writes output.new) result }
    ensures flushed { IsFlushedSince (failed_writes output.old) output.new }
{
    run_received(alloc, ReceivedForm::Item, wanted, input, output, limits)
}

/// Receives the values, and writes them in this form.
fn run_received<Q: Read, R: Read, W: Write>(
    alloc: Global,
    form: ReceivedForm,
    wanted: &mut Input<Q>,
    input: &mut Input<R>,
    output: &mut Output<W>,
    limits: Limits,
) -> Result<(), ToolFault>
    ensures received { (wanted_bytes bytes : List ℕ) → Q.remaining (reader_of wanted.old) ≡ Some wanted_bytes
        → R.remaining (reader_of input.old) ≡ Some bytes
        → FormAnswers form (within_trees limits) wanted_bytes bytes (Q.remaining (reader_of wanted.new))
        (R.remaining (reader_of input.new))
        (W.contents (writer_of output.old)) (W.contents (writer_of output.new)) result }
    ensures unread { IfErr result (λ fault. IsOfWanted fault → input.new ≡ input.old) }
    ensures reads { CountsTakeReads (failed_reads wanted.old) (failed_reads wanted.new)
        (failed_reads input.old) (failed_reads input.new) result }
    ensures writes { CountsWriteFaults (failed_writes output.old) (failed_writes output.new) result }
    ensures flushed { IsFlushedSince (failed_writes output.old) output.new }
{
    end_run(
        receive_as_wanted(alloc, form, wanted, input, output, limits),
        output,
    )
}

/// Writes them, and flushes nothing.
fn receive_as_wanted<Q: Read, R: Read, W: Write>(
    alloc: Global,
    form: ReceivedForm,
    wanted: &mut Input<Q>,
    input: &mut Input<R>,
    output: &mut Output<W>,
    limits: Limits,
) -> Result<(), ToolFault>
    ensures received { (wanted_bytes bytes : List ℕ) → Q.remaining (reader_of wanted.old) ≡ Some wanted_bytes
        → R.remaining (reader_of input.old) ≡ Some bytes
        → FormAnswers form (within_trees limits) wanted_bytes bytes (Q.remaining (reader_of wanted.new))
        (R.remaining (reader_of input.new))
        (W.contents (writer_of output.old)) (W.contents (writer_of output.new)) result }
    ensures unread { IfErr result (λ fault. IsOfWanted fault → input.new ≡ input.old) }
    ensures reads { CountsTakeReads (failed_reads wanted.old) (failed_reads wanted.new) (failed_reads input.old)
        (failed_reads input.new) result }
    ensures writes { CountsOnlyWrites (failed_writes output.old) (failed_writes output.new) result }
{
    let mut reader = StreamReader::<TreeBuilder>::new(alloc, limits)?;
    let mut definitions = Vec::new(alloc);
    let id = read_wanted(alloc, wanted, &mut reader, &mut definitions)?;
    form.begin(&definitions, output)?;
    let receiver = Receiver::<'_, MOST_BUILT> {
        wanted: reader.table(),
        wanted_id: id,
        form,
    };
    receive_values(alloc, &receiver, input, output, limits)
}

/// Receives the values.
fn receive_values<R: Read, W: Write>(
    alloc: Global,
    receiver: &Receiver<'_, MOST_BUILT>,
    input: &mut Input<R>,
    output: &mut Output<W>,
    limits: Limits,
) -> Result<(), ToolFault>
    requires ready { IsReady (types receiver.now.wanted.now) receiver.now.wanted_id }
    requires number { receiver.now.wanted_id.0 < 2 ^ 63 }
    ensures received { (bytes : List ℕ) → R.remaining (reader_of input.old) ≡ Some bytes
        → TextsOrClash receiver.now.form (types receiver.now.wanted.now) receiver.now.wanted_id (within_trees limits)
        bytes (R.remaining (reader_of input.new)) (W.contents (writer_of output.old))
        (W.contents (writer_of output.new)) result }
    ensures reads { CountsReadFaults (failed_reads input.old) (failed_reads input.new) result }
    ensures own { IfErr result (λ fault. IsOfWanted fault → ⊥) }
    ensures writes { CountsOnlyWrites (failed_writes output.old) (failed_writes output.new) result }
{
    let kept = LastMatch::new(alloc);
    write_items::<Session<TreeBuilder>, R, W, Receiver<'_, MOST_BUILT>>(
        alloc, input, output, limits, receiver, kept,
    )
}
