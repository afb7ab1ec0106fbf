//! The files that are verified.

use crate::appended::refusal_in_input;
use crate::encoders::encoders_of;
use crate::opening::open;
use crate::progress::{size_of, watched};
use crate::verdict::Verdict;
use crate::{Exit, unopened_line};
use gob_appended::Appended;
use gob_num::Memory;
use gob_stream::Input;
use gob_tool::ToolFault;
use gob_views::{ToldFile, limits_of, tell_file};
use gob_words::{View, escaped};
use std::alloc::{AllocError, Global};
use std::io;
use std::io::{ErrorKind, IsTerminal, Read, Write};

// A file of more bytes is told of on a terminal while it is read.
const LARGE: u64 = 64_000_000;

/// Verifies the files one after another, and goes on behind each that is refused or isn't read.
pub(crate) fn verify(rt: &HostRuntime, view: &View, files: &[&str]) -> Result<(), Exit> {
    let mut worst = Verdict::Whole;
    for file in files {
        worst = worst.or(verify_file(rt, view, file)?);
    }
    worst.ending()
}

// Says on standard output what there is in a file, or why that can't be said. A minus sign is standard input.
fn verify_file(rt: &HostRuntime, view: &View, name: &str) -> Result<Verdict, Exit> {
    if name == "-" {
        return say(rt, view, name, rt.stdin(), None);
    }
    match open(rt, name) {
        Ok(file) => {
            let size = size_of(&file);
            say(rt, view, name, file, size)
        }
        Err(error) => {
            let line = unopened_line(rt.alloc(), name, &error)?;
            sent(println!(rt; "{line}"))?;
            Ok(Verdict::NotRead)
        }
    }
}

// Says what there is in a reader of so many bytes, where that is known, behind the name of its file. Definitions that
// are said again are left out.
fn say<R: Read + Drop>(
    rt: &HostRuntime,
    view: &View,
    name: &str,
    reader: R,
    size: Option<u64>,
) -> Result<Verdict, Exit> {
    let is_waited_for = is_large(size) && rt.stderr().is_terminal();
    let reader = watched(rt, reader, size, view.progress || is_waited_for);
    let mut input = Input::new(Appended::new(rt.alloc(), reader)?);
    let told = tell_file(rt.alloc(), name, &mut input, limits_of(view));
    let appended = input.into_inner();
    let line = line_in_input(rt.alloc(), name, &appended, &told);
    appended.into_inner().end();
    sent(rt.stdout().write_all(&line?))?;
    Ok(verdict_of(&told))
}

// What the check of a file said of it.
fn verdict_of(told: &Result<ToldFile, Memory>) -> Verdict {
    match told {
        Ok(told) => Verdict::of(&told.answer),
        Err(_) => Verdict::NotRead,
    }
}

// The line about a file of which this was told behind the definitions that were left out: how many encoders wrote it,
// or where in the file it is refused.
fn line_in_input<R>(
    alloc: Global,
    name: &str,
    appended: &Appended<R>,
    told: &Result<ToldFile, Memory>,
) -> Result<Vec<u8>, Exit> {
    let Ok(ToldFile { line, answer }) = told else {
        return Err(Exit::Run(ToolFault::Memory));
    };
    match answer {
        Ok(()) if appended.left_out() > 0 => Ok(line_with_encoders(alloc, line, appended)?),
        Err(ToolFault::Refused(refusal)) => {
            let name = escaped(alloc, name)?;
            let refusal = refusal_in_input(appended, *refusal);
            Ok(format!(in alloc; "{name}: {refusal}\n")?.into_bytes())
        }
        // What the reader lacked memory for is told as a failed read.
        Err(ToolFault::Read) if appended.lacks_memory() => Err(Exit::Run(ToolFault::Memory)),
        _ => Ok(line.to_vec(alloc)?),
    }
}

// The line of a whole file, and behind it how many encoders wrote.
fn line_with_encoders<R>(
    alloc: Global,
    line: &[u8],
    appended: &Appended<R>,
) -> Result<Vec<u8>, AllocError> {
    let encoders = encoders_of(appended);
    let bytes = appended.left_out();
    let mut said = line.strip_suffix(b"\n").unwrap_or(line).to_vec(alloc)?;
    let more = format!(in alloc;
        "; encoders: {encoders}; {bytes} bytes that define types again aren't counted\n"
    )?;
    said.extend_from_slice(more.as_bytes())?;
    Ok(said)
}

// Whether a file is known to take so long that people wait for it.
fn is_large(size: Option<u64>) -> bool {
    size.is_some_and(|size| size > LARGE)
}

/// A line that isn't written is a failed write, or lacks memory, and ends the program quietly where the other end of a
/// pipe is closed.
pub(crate) fn sent(written: io::Result<()>) -> Result<(), Exit> {
    match written {
        Ok(()) => Ok(()),
        Err(error) if error.kind() == ErrorKind::BrokenPipe => Err(Exit::Unread),
        Err(error) if error.kind() == ErrorKind::OutOfMemory => Err(Exit::Run(ToolFault::Memory)),
        Err(_) => Err(Exit::Run(ToolFault::Write)),
    }
}
