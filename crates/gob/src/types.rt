//! The types that a command is given: those of a stream, or of Go source.

use crate::opening::open;
use crate::{Exit, opened_by_name};
use gob_go_source::begins_as_source;
use gob_stream::{Input, Limits, Output};
use gob_tool::ToolFault;
use gob_words::{Making, escaped};
use gob_write::{
    LinesFault, SourceTypesFault, Types, TypesFault, read_types, run_make, types_of_source,
};
use std::alloc::Global;
use std::fs::File;
use std::io;
use std::io::{ErrorKind, Read};

// The first bytes of a file, by which source is told from a stream.
const FIRST: u64 = 4096;

// The most bytes of source, and what is said of more.
const MOST: u64 = 1 << 26;

const TOO_LONG: &str = "gob: types: more than 67108864 bytes of source";

// The plain JSON of the zero of a type, and the most bytes of it.
const ZERO: &[u8] = b"null";

const MOST_OF_ZERO: u64 = 5;

/// A file that has types.
#[derive(Drop)]
pub(crate) enum TypesFile {
    /// A stream, by its first bytes and the file behind them.
    Stream(Vec<u8>, File),
    /// Go source.
    Source(Vec<u8>),
}

impl TypesFile {
    /// Reads enough of a file to know what it is, and source to its end.
    pub(crate) fn begun(alloc: Global, file: File) -> Result<TypesFile, Exit> {
        let mut file = file;
        let mut read = Vec::new(alloc);
        appended(file.by_ref().take(FIRST).read_to_end(&mut read))?;
        if !begins_as_source(&read) {
            return Ok(TypesFile::Stream(read, file));
        }
        appended(file.take(MOST).read_to_end(&mut read))?;
        if read.len() as u64 > MOST {
            return Err(Exit::Lines(String::from_str(alloc, TOO_LONG)?));
        }
        Ok(TypesFile::Source(read))
    }
}

// What a read of a file to its end comes to.
fn appended(read: io::Result<usize>) -> Result<(), Exit> {
    match read {
        Ok(_) => Ok(()),
        Err(error) if error.kind() == ErrorKind::OutOfMemory => Err(Exit::Run(ToolFault::Memory)),
        Err(_) => Err(Exit::Run(ToolFault::Read)),
    }
}

/// The types under which plain JSON is read: those of the file that the words name, or of the source that stands in
/// them.
pub(crate) fn types_asked(
    rt: &HostRuntime,
    making: &Making,
    limits: Limits,
) -> Result<Types, Exit> {
    match (making.types, making.named) {
        (Some(path), _) => types_in(rt, path, making, limits),
        (None, Some(source)) => types_of(rt.alloc(), source.as_bytes(), None, making.lenient),
        (None, None) => Err(Exit::View(String::from_str(
            rt.alloc(),
            "make wants --types FILE, or --type with Go source",
        )?)),
    }
}

// Those of a file.
fn types_in(rt: &HostRuntime, path: &str, making: &Making, limits: Limits) -> Result<Types, Exit> {
    let file = opened_by_name(rt.alloc(), path, open(rt, path))?;
    match TypesFile::begun(rt.alloc(), file)? {
        TypesFile::Source(text) => types_of(rt.alloc(), &text, making.named, making.lenient),
        TypesFile::Stream(first, rest) => {
            types_of_stream(rt.alloc(), first.as_slice().chain(rest), making, limits)
        }
    }
}

// Those of a stream.
fn types_of_stream<R: Read + Drop>(
    alloc: Global,
    stream: R,
    making: &Making,
    limits: Limits,
) -> Result<Types, Exit> {
    let mut input = Input::new(stream);
    let read = read_types(alloc, &mut input, making.named, making.lenient, limits);
    ended(alloc, read)
}

// How types that are read of a stream end the program, where there are none.
fn ended(alloc: Global, read: Result<Types, TypesFault>) -> Result<Types, Exit> {
    match read {
        Ok(types) => Ok(types),
        Err(TypesFault::Read) => Err(Exit::Run(ToolFault::Read)),
        Err(TypesFault::Memory) => Err(Exit::Run(ToolFault::Memory)),
        Err(fault) => Err(Exit::Lines(fault.to_string(alloc)?)),
    }
}

// Those of source.
fn types_of(alloc: Global, text: &[u8], named: Option<&str>, lenient: bool) -> Result<Types, Exit> {
    match types_of_source(alloc, text, named, lenient) {
        Ok(types) => Ok(types),
        Err(SourceTypesFault::Memory) => Err(Exit::Run(ToolFault::Memory)),
        Err(fault) => {
            let line = fault.to_string(alloc)?;
            Err(Exit::Lines(escaped(alloc, line.as_str())?))
        }
    }
}

/// The stream that has the first type that source declares: its definitions, and a zero.
pub(crate) fn wanted_of(alloc: Global, text: &[u8]) -> Result<Vec<u8>, Exit> {
    let types = types_of(alloc, text, None, false)?;
    let mut output = Output::new(Vec::new(alloc));
    let made = run_make(
        alloc,
        &types,
        &mut Input::new(ZERO),
        &mut output,
        Limits::standard(),
        MOST_OF_ZERO,
    );
    match made {
        Ok(_) => Ok(output.into_inner()),
        // A write into memory fails for want of it.
        Err(LinesFault::Memory | LinesFault::Write) => Err(Exit::Run(ToolFault::Memory)),
        Err(_) => Err(Exit::Lines(String::from_str(
            alloc,
            "gob: types: the first type has no zero",
        )?)),
    }
}
