//! The stream that lines say, as `show` prints them or in plain JSON.

use crate::opening::open;
use crate::pipe::Pipe;
use crate::types::types_asked;
use crate::{Exit, buffered, opened_by_name, settled};
use gob_stream::{Input, Output};
use gob_tool::ToolFault;
use gob_views::limits_of;
use gob_words::{Making, View};
use gob_write::{LinesFault, ShownLines, Types, run_make, run_write};
use std::alloc::Global;
use std::io::{BufWriter, Read, Write};

/// Opens the file of the lines, then writes their stream.
pub(crate) fn write(rt: &HostRuntime, view: &View) -> Result<(), Exit> {
    let writer = buffered(rt.alloc(), rt.stdout())?;
    match view.input {
        None => write_out(rt.alloc(), view, &mut Input::new(rt.stdin()), writer),
        Some(path) => {
            let file = opened_by_name(rt.alloc(), path, open(rt, path))?;
            write_out(rt.alloc(), view, &mut Input::new(file), writer)
        }
    }
}

/// Reads the types, opens the file of the JSON, then writes the stream of what it says.
pub(crate) fn make(rt: &HostRuntime, view: &View, making: &Making) -> Result<(), Exit> {
    let types = types_asked(rt, making, limits_of(view))?;
    let writer = buffered(rt.alloc(), rt.stdout())?;
    match view.input {
        None => make_out(rt, view, &types, &mut Input::new(rt.stdin()), writer),
        Some(path) => {
            let file = opened_by_name(rt.alloc(), path, open(rt, path))?;
            make_out(rt, view, &types, &mut Input::new(file), writer)
        }
    }
}

// Writes the stream of what the JSON says, and says how that ends the program, and how much was left out.
fn make_out<R: Read, W: Write + Drop>(
    rt: &HostRuntime,
    view: &View,
    types: &Types,
    input: &mut Input<R>,
    writer: BufWriter<Pipe<W>>,
) -> Result<(), Exit> {
    let mut output = Output::new(writer);
    match run_make(
        rt.alloc(),
        types,
        input,
        &mut output,
        limits_of(view),
        view.line,
    ) {
        Ok(left_out) => {
            settled(Ok(()), output).ending?;
            if types.lenient {
                // Where standard error takes no line, the status still tells.
                let _ = eprintln!(rt; "gob: {left_out} members left out");
            }
            Ok(())
        }
        Err(fault) => ended_by(rt.alloc(), fault, output),
    }
}

// Writes the stream of the lines, and says how that ends the program.
fn write_out<R: Read, W: Write + Drop>(
    alloc: Global,
    view: &View,
    input: &mut Input<R>,
    writer: BufWriter<Pipe<W>>,
) -> Result<(), Exit> {
    let mut output = Output::new(writer);
    let lines = ShownLines {
        most: view.line,
        holds: view.go,
    };
    match run_write(alloc, input, &mut output, limits_of(view), lines) {
        Ok(()) => settled(Ok(()), output).ending,
        Err(fault) => ended_by(alloc, fault, output),
    }
}

// How the program ends behind a fault of the lines.
fn ended_by<W: Write + Drop>(
    alloc: Global,
    fault: LinesFault,
    output: Output<BufWriter<Pipe<W>>>,
) -> Result<(), Exit> {
    match fault {
        LinesFault::Read => settled(Err(ToolFault::Read), output).ending,
        LinesFault::Write => settled(Err(ToolFault::Write), output).ending,
        LinesFault::Memory => settled(Err(ToolFault::Memory), output).ending,
        fault => {
            settled(Ok(()), output).ending?;
            Err(Exit::Lines(fault.to_string(alloc)?))
        }
    }
}
