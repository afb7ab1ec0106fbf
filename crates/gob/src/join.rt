//! The files that are joined into one stream.

use crate::opening::open;
use crate::{Exit, buffered, opened_by_name, settled};
use gob_go_writer::GoWriter;
use gob_join::{JoinFault, join_file};
use gob_stream::{Input, Output};
use gob_tool::{ToolFault, end_run};
use gob_views::limits_of;
use gob_words::{View, escaped};
use std::alloc::{AllocError, Global};
use std::io::{Read, Write};

/// Writes the values of the files, in order, as one stream, up to the first file that isn't read to its end.
pub(crate) fn join(rt: &HostRuntime, view: &View, files: &[&str]) -> Result<(), Exit> {
    let mut output = Output::new(buffered(rt.alloc(), rt.stdout())?);
    match join_all(rt, view, files, &mut output) {
        Err(Exit::Run(ToolFault::Write)) => settled(Err(ToolFault::Write), output).ending,
        joined => {
            let ended = end_run(Ok(()), &mut output);
            settled(ended, output).ending?;
            joined
        }
    }
}

// Takes in one file after another.
fn join_all<W: Write>(
    rt: &HostRuntime,
    view: &View,
    files: &[&str],
    output: &mut Output<W>,
) -> Result<(), Exit> {
    let Ok(mut joined) = GoWriter::new(rt.alloc(), limits_of(view)) else {
        return Err(Exit::Run(ToolFault::Memory));
    };
    for name in files {
        join_named(rt, view, name, &mut joined, output)?;
    }
    Ok(())
}

// Takes in the file of this name. A minus sign is standard input.
fn join_named<W: Write>(
    rt: &HostRuntime,
    view: &View,
    name: &str,
    joined: &mut GoWriter,
    output: &mut Output<W>,
) -> Result<(), Exit> {
    if name == "-" {
        return take_in(rt.alloc(), view, name, rt.stdin(), joined, output);
    }
    let file = opened_by_name(rt.alloc(), name, open(rt, name))?;
    take_in(rt.alloc(), view, name, file, joined, output)
}

// Takes in what the reader of this name gives.
fn take_in<R: Read + Drop, W: Write>(
    alloc: Global,
    view: &View,
    name: &str,
    reader: R,
    joined: &mut GoWriter,
    output: &mut Output<W>,
) -> Result<(), Exit> {
    let mut input = Input::new(reader);
    match join_file(alloc, &mut input, joined, output, limits_of(view)) {
        Ok(()) => Ok(()),
        Err(fault) => Err(stop_at(alloc, name, fault)?),
    }
}

// What stops the program at this fault of the file.
fn stop_at(alloc: Global, name: &str, fault: JoinFault) -> Result<Exit, AllocError> {
    let line = match fault {
        JoinFault::Write => return Ok(Exit::Run(ToolFault::Write)),
        // A writer is asked for no more behind a fault.
        JoinFault::Memory | JoinFault::Failed => return Ok(Exit::Run(ToolFault::Memory)),
        JoinFault::Refused(refusal) => {
            let line = format!(in alloc; "gob: {name}: {refusal}")?;
            return Ok(Exit::Lines(escaped(alloc, line.as_str())?));
        }
        JoinFault::Full(reason) => {
            format!(in alloc; "{name}: no more goes into one stream: {reason}")?
        }
        JoinFault::Read => format!(in alloc; "{name}: read fault")?,
    };
    Ok(Exit::View(escaped(alloc, line.as_str())?))
}
