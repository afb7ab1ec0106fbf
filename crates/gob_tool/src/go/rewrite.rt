//! The run that writes a stream of Go's encoder again, in its tidy form.

ghost use Rattle.std.specs.Prelude.{◌≡◌, ℕ, List, Some};
ghost use Rattle.gob_stream.specs.Bounds.{within_trees};
ghost use Rattle.gob_stream.specs.Calls.Ends.{failed_reads, failed_writes, reader_of, writer_of};
ghost use Rattle.gob_tool.specs.Showing.{CountsReadFaults, CountsWriteFaults, IsFlushedSince};
ghost use Rattle.gob_tool.specs.RewritingGo.{IsRewritten, RewriteGoAnswers};
ghost use Rattle.gob_tool.specs.TextsGo.{of_given, of_value};

use crate::fault::ToolFault;
use crate::go::forms::{push_hoisted, push_tidied};
use crate::go::whole_form::push_whole_form;
use crate::texts::{ItemTexts, run_texts};
use gob_go::{GoItem, GoReader, GoSession};
use gob_num::Memory;
use gob_stream::{Input, Limits, Output};
use gob_types::Table;
use std::alloc::Global;
use std::io::{Read, Write};

/// Writes the stream of the items of a stream of Go's encoder, each in its tidy form at every level, and nothing else,
/// and ends with a flush: the same bytes, where Go's encoder made them. No limit refuses what is written. With `hoist`
/// each definition that stands in a value stands in an item of its own before it instead; all items may then have more
/// bytes than before, which wider limits allow.
///
/// Ok exactly at the end of a whole stream. Before a fault is answered the items before it are written; at
/// `ToolFault::Write` a prefix of them may be. A flush that fails is that fault where no other came before it. What it
/// takes in memory grows with the types and the largest item alone; `ToolFault::Memory` also comes at an item to be
/// hoisted of 2^60 bytes or more. No value may be deeper than `limits.depth()` or than 1000; what an interface holds is
/// one deeper than the interface.
pub fn run_rewrite_go<R: Read, W: Write>(
    alloc: Global,
    input: &mut Input<R>,
    output: &mut Output<W>,
    limits: Limits,
    hoist: bool,
) -> Result<(), ToolFault>
    ensures rewritten { (bytes : List ℕ) → R.remaining (reader_of input.old) ≡ Some bytes
        → RewriteGoAnswers hoist (within_trees limits) bytes (R.remaining (reader_of input.new))
        (W.contents (writer_of output.old)) (W.contents (writer_of output.new)) result }
    ensures reads { CountsReadFaults (failed_reads input.old) (failed_reads input.new) result }
    ensures writes { CountsWriteFaults (failed_writes output.old) (failed_writes output.new) result }
    ensures flushed { IsFlushedSince (failed_writes output.old) output.new }
{
    run_texts::<GoSession, R, W, TidyForms>(alloc, input, output, limits, &TidyForms { hoist })
}

/// The bytes of the tidy forms of items, hoisted or not.
#[derive(Clone, Copy)]
struct TidyForms {
    hoist: bool,
}

impl ItemTexts<GoSession> for TidyForms {
    ghost of_item = { λ forms. of_given (IsRewritten forms.hoist) };

    ghost of_value = { λ forms. of_value (IsRewritten forms.hoist) };

    fn push_item(
        &self,
        alloc: Global,
        item: GoItem,
        table: &Table,
        text: &mut Vec<u8>,
    ) -> Result<(), Memory> {
        if self.hoist {
            return push_hoisted(alloc, item, table, text);
        }
        push_tidied(alloc, item, table, text)
    }

    fn push_whole(
        &self,
        alloc: Global,
        reader: &GoReader,
        text: &mut Vec<u8>,
    ) -> Result<Option<usize>, Memory> {
        push_whole_form(alloc, reader, text)
    }
}
