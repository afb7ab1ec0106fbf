//! The run that the words ask for.

ghost use Rattle.std.specs.Prelude.{◌≡◌, ◌≢◌, ℕ, List, Some, false, true};
ghost use Rattle.gob_salvage.specs.Running.{SalvageAnswers};
ghost use Rattle.gob_stream.specs.Calls.Ends.{failed_reads, failed_writes, reader_of, writer_of};
ghost use Rattle.gob_tool.specs.Ending.{CountsOnlyWrites};
ghost use Rattle.gob_tool.specs.Showing.{CountsReadFaults, CountsWriteFaults, IsFlushedSince};
ghost use Rattle.gob_views.specs.Running.{AreLinesOf, CommandAnswers, KeptAnswers, LinesAnswers, ShowsBytes};
ghost use Rattle.gob_views.specs.Running.{ViewAnswers, in_memory, shows_kept, version_line, view_explained, view_form};
ghost use Rattle.gob_views.specs.Running.{view_limits};
ghost use Rattle.gob_views.specs.Sending.{SendsText};
ghost use Rattle.gob_views.specs.declared.value_line.ValueLines.{ValueLines};

use crate::each::run_each;
use crate::types::{SourceForm, run_types};
use crate::value_line::ValueLines;
use crate::values::run_values;
use gob_salvage::{Salvaged, run_salvage, salvage_all};
use gob_stream::{Input, Limits, Output};
use gob_tool::{ToolFault, end_run, run_check_go, run_rewrite_go, run_show_go};
use gob_why::{Explained, run_explain, run_why};
use gob_words::{VERSION, View, ViewCommand};
use std::alloc::Global;
use std::io::{Read, Write};

/// Shows of the input what the view asks for, under its limits; the run of each command says what that is, and what
/// each fault means. For [`ViewCommand::Version`] nothing is read, and nothing is read or written for
/// [`ViewCommand::Write`], `Make`, `Split` and `Join`, whose runs are gob_write's, gob_split's and gob_join's. For
/// [`ViewCommand::Verify`] the input is checked as by [`ViewCommand::CheckGo`]; of several files [`crate::tell_file`]
/// says this. `told` is, for [`ViewCommand::Salvage`] alone, where that is Ok, what was kept and what was left out.
///
/// Where a view is asked for of what isn't damaged, all of the input is read and kept in memory first, as
/// [`salvage_all`] does, and then the command runs over the bytes that are kept, which stay in memory. `told` is what
/// was kept then too, however that run ends. `ToolFault::Memory` is also a read of these that fails, which none does.
pub fn run_view<R: Read, W: Write>(
    alloc: Global,
    view: &View<'_>,
    input: &mut Input<R>,
    output: &mut Output<W>,
    told: &mut Option<Salvaged>,
) -> Result<(), ToolFault>
    ensures shows { (bytes : List ℕ) → R.remaining (reader_of input.old) ≡ Some bytes
        → ViewAnswers view.now bytes (R.remaining (reader_of input.new)) (W.contents (writer_of output.old))
        (W.contents (writer_of output.new)) result }
    ensures reads { CountsReadFaults (failed_reads input.old) (failed_reads input.new) result }
    ensures writes { CountsWriteFaults (failed_writes output.old) (failed_writes output.new) result }
    ensures flushed { IsFlushedSince (failed_writes output.old) output.new }
    ensures told { (bytes : List ℕ) → R.remaining (reader_of input.old) ≡ Some bytes
        → view.now.command ≡ ViewCommand.Salvage
        → SalvageAnswers (view_limits view.now) bytes (R.remaining (reader_of input.new))
        (W.contents (writer_of output.old)) (W.contents (writer_of output.new)) told.new result }
    ensures kept { (bytes : List ℕ) → R.remaining (reader_of input.old) ≡ Some bytes
        → shows_kept view.now.command view.now.salvage ≡ true
        → KeptAnswers view.now bytes (R.remaining (reader_of input.new)) (W.contents (writer_of output.old))
        (W.contents (writer_of output.new)) told.new result }
    ensures untold { view.now.command ≢ ViewCommand.Salvage → shows_kept view.now.command view.now.salvage ≡ false
        → told.new ≡ told.old }
    ensures unread { view.now.command ≡ ViewCommand.Version → input.new ≡ input.old }
{
    if shows_kept(view.command, view.salvage) {
        return run_kept(alloc, view, input, output, told);
    }
    run_command(alloc, view, input, output, told)
}

// Whether the command is shown of what isn't damaged, where that is asked for so.
fn shows_kept(command: ViewCommand, is_asked: bool) -> bool
    ensures { result ≡ shows_kept command is_asked }
{
    match command {
        ViewCommand::Values | ViewCommand::Types | ViewCommand::ShowGo => is_asked,
        ViewCommand::Why
        | ViewCommand::Explain
        | ViewCommand::Verify
        | ViewCommand::Salvage
        | ViewCommand::Split
        | ViewCommand::Join
        | ViewCommand::Write
        | ViewCommand::Make
        | ViewCommand::Version
        | ViewCommand::CheckGo
        | ViewCommand::RewriteGo => false,
    }
}

// Shows what the view asks for of what isn't damaged in the input.
fn run_kept<R: Read, W: Write>(
    alloc: Global,
    view: &View<'_>,
    input: &mut Input<R>,
    output: &mut Output<W>,
    told: &mut Option<Salvaged>,
) -> Result<(), ToolFault>
    ensures shows { (bytes : List ℕ) → R.remaining (reader_of input.old) ≡ Some bytes
        → KeptAnswers view.now bytes (R.remaining (reader_of input.new)) (W.contents (writer_of output.old))
        (W.contents (writer_of output.new)) told.new result }
    ensures reads { CountsReadFaults (failed_reads input.old) (failed_reads input.new) result }
    ensures writes { CountsWriteFaults (failed_writes output.old) (failed_writes output.new) result }
    ensures flushed { IsFlushedSince (failed_writes output.old) output.new }
{
    match salvage_all(alloc, input, limits_of(view)) {
        Ok(kept) => {
            let answer = show_bytes(alloc, view, &kept.bytes, output);
            *told = Some(kept);
            answer
        }
        Err(fault) => end_run(Err(fault), output),
    }
}

// Shows what the view asks for of bytes in memory.
fn show_bytes<W: Write>(
    alloc: Global,
    view: &View<'_>,
    bytes: &[u8],
    output: &mut Output<W>,
) -> Result<(), ToolFault>
    ensures shows { ShowsBytes view.now bytes.now (W.contents (writer_of output.old))
        (W.contents (writer_of output.new)) result }
    ensures writes { CountsWriteFaults (failed_writes output.old) (failed_writes output.new) result }
    ensures flushed { IsFlushedSince (failed_writes output.old) output.new }
{
    let mut input = Input::new(bytes);
    in_memory(run_command(alloc, view, &mut input, output, &mut None))
}

// What a run over bytes in memory has answered. No read of these fails, so none is told to.
fn in_memory(answer: Result<(), ToolFault>) -> Result<(), ToolFault>
    ensures { result ≡ in_memory answer }
{
    match answer {
        Err(ToolFault::Read) => Err(ToolFault::Memory),
        answer => answer,
    }
}

// Shows what the command of the view shows, of all of the input.
fn run_command<R: Read, W: Write>(
    alloc: Global,
    view: &View<'_>,
    input: &mut Input<R>,
    output: &mut Output<W>,
    told: &mut Option<Salvaged>,
) -> Result<(), ToolFault>
    ensures shows { (bytes : List ℕ) → R.remaining (reader_of input.old) ≡ Some bytes
        → CommandAnswers view.now.command view.now bytes (R.remaining (reader_of input.new))
        (W.contents (writer_of output.old)) (W.contents (writer_of output.new)) result }
    ensures reads { CountsReadFaults (failed_reads input.old) (failed_reads input.new) result }
    ensures writes { CountsWriteFaults (failed_writes output.old) (failed_writes output.new) result }
    ensures flushed { IsFlushedSince (failed_writes output.old) output.new }
    ensures told { (bytes : List ℕ) → R.remaining (reader_of input.old) ≡ Some bytes
        → view.now.command ≡ ViewCommand.Salvage
        → SalvageAnswers (view_limits view.now) bytes (R.remaining (reader_of input.new))
        (W.contents (writer_of output.old)) (W.contents (writer_of output.new)) told.new result }
    ensures untold { view.now.command ≢ ViewCommand.Salvage → told.new ≡ told.old }
    ensures unread { view.now.command ≡ ViewCommand.Version → input.new ≡ input.old }
{
    match view.command {
        ViewCommand::Values => print_values(alloc, view, input, output),
        ViewCommand::Types => run_types(alloc, input, output, limits_of(view), form_of(view)),
        ViewCommand::Why => run_why(alloc, input, output, limits_of(view), view.input),
        ViewCommand::Explain => {
            run_explain(alloc, input, output, limits_of(view), explained_of(view))
        }
        ViewCommand::Salvage => run_salvage(alloc, input, output, limits_of(view), told),
        ViewCommand::Split => end_run(Ok(()), output),
        ViewCommand::Join => end_run(Ok(()), output),
        ViewCommand::Write => end_run(Ok(()), output),
        ViewCommand::Make => end_run(Ok(()), output),
        ViewCommand::Version => end_run(write_version(output), output),
        ViewCommand::ShowGo => run_show_go(alloc, input, output, limits_of(view)),
        ViewCommand::CheckGo => run_check_go(alloc, input, output, limits_of(view)),
        ViewCommand::Verify => run_check_go(alloc, input, output, limits_of(view)),
        ViewCommand::RewriteGo => {
            run_rewrite_go(alloc, input, output, limits_of(view), view.hoist)
        }
    }
}

// Prints the values, and each part of a list or map while its item is read, where it is to stand on a line of its own.
fn print_values<R: Read, W: Write>(
    alloc: Global,
    view: &View<'_>,
    input: &mut Input<R>,
    output: &mut Output<W>,
) -> Result<(), ToolFault>
    ensures shows { (bytes : List ℕ) → R.remaining (reader_of input.old) ≡ Some bytes
        → (lines : ValueLines) × AreLinesOf view.now lines
        × LinesAnswers view.now.each lines (view_limits view.now) bytes (R.remaining (reader_of input.new))
        (W.contents (writer_of output.old)) (W.contents (writer_of output.new)) result }
    ensures reads { CountsReadFaults (failed_reads input.old) (failed_reads input.new) result }
    ensures writes { CountsWriteFaults (failed_writes output.old) (failed_writes output.new) result }
    ensures flushed { IsFlushedSince (failed_writes output.old) output.new }
{
    if view.each {
        return run_each(alloc, input, output, limits_of(view), lines_of(view));
    }
    run_values(alloc, input, output, limits_of(view), lines_of(view))
}

/// The limits under which a view reads: its depth and item, and else the standard ones.
pub fn limits_of(view: &View<'_>) -> Limits
    ensures { result ≡ view_limits view.now }
{
    let standard = Limits::standard();
    // The depth is within what each command allows, so these are limits.
    Limits::deep(view.item, view.depth, standard.types(), standard.stream()).unwrap()
}

// Which items are explained.
fn explained_of(view: &View<'_>) -> Explained
    ensures { result ≡ view_explained view.now }
{
    if view.fault {
        return Explained::Fault;
    }
    match view.at {
        Some(offset) => Explained::At(offset),
        None => Explained::All,
    }
}

// How values are printed, and which.
fn lines_of<'a>(view: &'a View<'_>) -> ValueLines<'a>
    ensures { AreLinesOf view.entry.now result }
{
    ValueLines {
        zeros: view.zeros,
        raw: view.raw,
        kinds: &view.kinds,
        tagged: view.tagged,
        typed: view.typed,
        only: view.only,
        each: view.each,
    }
}

// Writes the line of the version.
fn write_version<W: Write>(output: &mut Output<W>) -> Result<(), ToolFault>
    ensures sent { SendsText (W.contents (writer_of output.old)) (W.contents (writer_of output.new)) version_line
        result }
    ensures writes { CountsOnlyWrites (failed_writes output.old) (failed_writes output.new) result }
{
    output.send_all(VERSION.as_bytes())?;
    Ok(output.send_all(b"\n")?)
}

// What is written of types.
fn form_of(view: &View<'_>) -> SourceForm
    ensures { result ≡ view_form view.now }
{
    if view.main {
        SourceForm::Program
    } else {
        SourceForm::Types
    }
}
