//! What isn't damaged of a stream, under the types of another one.

ghost use Rattle.std.specs.Prelude.{◌≡◌, ℕ, List, Some, IfOk};
ghost use Rattle.std.specs.Io.Buffered.{writer_contents};
ghost use Rattle.gob_stream.specs.Bounds.{within_trees};
ghost use Rattle.gob_stream.specs.Calls.Ends.{reader_of};
ghost use Rattle.gob_salvage.specs.Running.{IsOf};
ghost use Rattle.gob.specs.Exit.{IsQuietIfClosed, seen_after, seen_of, unused};
ghost use Rattle.gob.specs.Salvaging.{EndsBehind, IsFrontOf};
ghost use Rattle.gob_views.specs.Running.{view_limits};

use crate::opening::open;
use crate::pipe::Pipe;
use crate::way_on::way_on;
use crate::{AfterRun, Exit, buffered, opened_by_name, run_view_on, settled, tell};
use gob_salvage::{Salvaged, run_salvage_behind, salvage_all};
use gob_split::push_definitions;
use gob_stream::{Input, Limits, Output, Refusal};
use gob_tool::ToolFault;
use gob_views::limits_of;
use gob_words::{View, ViewFault, making_of};
use std::alloc::{AllocError, Global};
use std::io::{BufWriter, Read, Write};

/// Writes what isn't damaged of the input, under the types of another stream too where the words name one.
pub(crate) fn salvage<'a>(rt: &HostRuntime, view: &View, names: &'a [&'a str]) -> Result<(), Exit> {
    match types_named(rt.alloc(), names)? {
        Some(types) => salvage_under(rt, view, types),
        None => run_view_on(rt, view, names),
    }
}

// The file of the stream whose types are known.
fn types_named<'a>(alloc: Global, names: &'a [&'a str]) -> Result<Option<&'a str>, Exit> {
    match making_of(alloc, names) {
        Ok(making) => Ok(making.types),
        Err(ViewFault::Order(fault)) => Err(Exit::Words(fault)),
        Err(ViewFault::Word(line)) => Err(Exit::View(line)),
    }
}

// Writes what isn't damaged of the input, behind the definitions of the types in the file of this name, and tells what
// was kept and left out of the input.
fn salvage_under(rt: &HostRuntime, view: &View, types: &str) -> Result<(), Exit> {
    let front = definitions_in(rt, view, types)?;
    let mut told = None;
    match view.input {
        None => keep_behind(rt, view, &front, rt.stdin(), &mut told)?,
        Some(path) => {
            let file = opened_by_name(rt.alloc(), path, open(rt, path))?;
            keep_behind(rt, view, &front, file, &mut told)?;
        }
    }
    match told {
        Some(kept) => tell(rt, &kept),
        None => Ok(()),
    }
}

// The definitions in the file of this name.
fn definitions_in(rt: &HostRuntime, view: &View, types: &str) -> Result<Salvaged, Exit> {
    let file = opened_by_name(rt.alloc(), types, open(rt, types))?;
    match front_of(rt.alloc(), &mut Input::new(file), limits_of(view)) {
        Ok(front) => Ok(front),
        Err(ToolFault::Refused(refusal)) => Err(refused(rt.alloc(), types, refusal)),
        Err(fault) => Err(Exit::Run(fault)),
    }
}

// The stream of the definitions of a stream.
fn front_of<R: Read>(
    alloc: Global,
    input: &mut Input<R>,
    limits: Limits,
) -> Result<Salvaged, ToolFault>
    ensures { (bytes : List ℕ) → R.remaining (reader_of input.old) ≡ Some bytes
        → IfOk result (IsFrontOf (within_trees limits) bytes) }
{
    let mut defining = Vec::new(alloc);
    push_definitions(alloc, input, &mut defining, limits)?;
    counted(alloc, &defining, limits)
}

// A stream, with the number of its items.
fn counted(alloc: Global, stream: &[u8], limits: Limits) -> Result<Salvaged, ToolFault>
    ensures { IfOk result (IsOf (within_trees limits) stream.now) }
{
    salvage_all(alloc, &mut Input::new(stream), limits)
}

// What is said of a file that should have the types and is no stream.
fn refused(alloc: Global, name: &str, refusal: Refusal) -> Exit {
    match refused_line(alloc, name, refusal) {
        Ok(line) => Exit::View(line),
        Err(_) => Exit::Run(ToolFault::Memory),
    }
}

fn refused_line(alloc: Global, name: &str, refusal: Refusal) -> Result<String, AllocError> {
    let way = way_on(alloc, name)?;
    format!(in alloc; "types: {refusal}\n{way}")
}

// Writes what isn't damaged of what the reader gives, behind the front.
fn keep_behind<R: Read + Drop>(
    rt: &HostRuntime,
    view: &View,
    front: &Salvaged,
    reader: R,
    told: &mut Option<Salvaged>,
) -> Result<(), Exit> {
    let writer = buffered(rt.alloc(), rt.stdout())?;
    let mut input = Input::new(front.bytes.as_slice().chain(reader));
    salvage_out(rt.alloc(), view, front, &mut input, writer, told).ending
}

// The run, as that of a view.
fn salvage_out<R: Read, W: Write + Drop>(
    alloc: Global,
    view: &View<'_>,
    front: &Salvaged,
    input: &mut Input<R>,
    writer: BufWriter<Pipe<W>>,
    told: &mut Option<Salvaged>,
) -> AfterRun<W>
    ensures ends { EndsBehind (within_trees (view_limits view.now)) front.now
        (seen_of R.remaining input.old) (seen_of R.remaining input.new)
        (unused (writer_contents (λ pipe. W.contents pipe.writer) writer)) (seen_after W.contents result) told.new
        result.ending }
    ensures quiet { IsQuietIfClosed result }
{
    let mut output = Output::new(writer);
    let answer = run_salvage_behind(alloc, front, input, &mut output, limits_of(view), told);
    settled(answer, output)
}
