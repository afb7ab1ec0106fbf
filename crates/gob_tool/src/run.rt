//! The run that the words ask for.

ghost use Rattle.std.specs.Prelude.{◌≡◌, ℕ, List, Some, true, false, IfErr};
ghost use Rattle.gob_words.specs.Depths.{wants_type};
ghost use Rattle.gob_tool.specs.Fault.{IsOfWanted};
ghost use Rattle.gob_tool.specs.Running.{OrderAnswers, order_limits};
ghost use Rattle.gob_tool.specs.Showing.{CountsWriteFaults, IsFlushedSince};
ghost use Rattle.gob_tool.specs.Taking.{CountsTakeReads};
ghost use Rattle.gob_stream.specs.Calls.Ends.{failed_reads, failed_writes, reader_of, writer_of};

use crate::check::run_check;
use crate::fault::ToolFault;
use crate::rewrite::run_rewrite;
use crate::show::run_show;
use crate::take::{run_convert, run_take};
use gob_stream::{Input, Limits, Output};
use gob_words::{Chosen, Order};
use std::alloc::Global;
use std::io::{Read, Write};

/// Does with the input what the order asks for, under its limits; the run of each command says what that is, and what
/// each fault means. The wanted stream is read only for [`Chosen::Take`] and [`Chosen::Convert`].
pub fn run_order<Q: Read, R: Read, W: Write>(
    alloc: Global,
    order: &Order,
    wanted: &mut Input<Q>,
    input: &mut Input<R>,
    output: &mut Output<W>,
) -> Result<(), ToolFault>
    ensures does { (wanted_bytes bytes : List ℕ) → Q.remaining (reader_of wanted.old) ≡ Some wanted_bytes
        → R.remaining (reader_of input.old) ≡ Some bytes
        → OrderAnswers order.now.command (order_limits order.now) wanted_bytes bytes
        (Q.remaining (reader_of wanted.new)) (R.remaining (reader_of input.new))
        (W.contents (writer_of output.old)) (W.contents (writer_of output.new)) result }
    ensures unread { wants_type order.now.command ≡ false → wanted.new ≡ wanted.old }
    ensures untouched { wants_type order.now.command ≡ true
        → IfErr result (λ fault. IsOfWanted fault → input.new ≡ input.old) }
    ensures reads { CountsTakeReads (failed_reads wanted.old) (failed_reads wanted.new)
        (failed_reads input.old) (failed_reads input.new)
        result }
    ensures writes { CountsWriteFaults (failed_writes output.old) (failed_writes output.new) result }
    ensures flushed { IsFlushedSince (failed_writes output.old) output.new }
{
    let limits = limits_of(order);
    match order.command {
        Chosen::Show => run_show(alloc, input, output, limits),
        Chosen::Check => run_check(alloc, input, output, limits),
        Chosen::Rewrite => run_rewrite(alloc, input, output, limits),
        Chosen::Take => run_take(alloc, wanted, input, output, limits),
        Chosen::Convert => run_convert(alloc, wanted, input, output, limits),
    }
}

/// The limits under which the streams of an order are read: its depth and item, and else the standard ones.
pub fn limits_of(order: &Order) -> Limits
    ensures { result ≡ order_limits order.now }
{
    let standard = Limits::standard();
    // The depth is within what each command allows, so these are limits.
    Limits::deep(order.item, order.depth, standard.types(), standard.stream()).unwrap()
}
